//! The frames of a thread while the topmost one runs.
ghost use Rattle.std.specs.Prelude.{◌≡◌, ◌+◌, ◌<◌, ◌≤◌, ◌^◌, [], length};
ghost use Rattle.et_heap.specs.Refs.{refs_of_value};
ghost use Rattle.et_state.specs.Running.{most_lost, steps_running};
ghost use Rattle.et_state.specs.Threads.{at_pc, local_of, operand_of, popped, pushed, with_local};

use crate::frames::frame::FrameHead;
use crate::machine::losses::Losses;
use et_base::{ObjectId, Value};
use std::marker::Model;

/// The frames of a thread, taken out of it while the topmost one runs, and the objects that its newest instruction took a
/// reference away from. There is room for eight of these. A contract sees it as the frame that runs, those below it, and the
/// lost ones.
#[derive(Drop)]
pub struct Running {
    /// The topmost one stands last. Its pc counts for nothing.
    pub(crate) heads: Vec<FrameHead>,
    /// Of each frame its locals and then its operands. What stands from `top` on counts for nothing.
    pub(crate) values: Vec<Value>,
    /// Where the locals of the topmost frame begin, and where its operands do.
    pub(crate) base: usize,
    pub(crate) floor: usize,
    /// How many values there are, and how many there may be.
    pub(crate) top: usize,
    pub(crate) limit: usize,
    pub(crate) pc: u32,
    pub(crate) lost: Losses,
}

impl Model for Running {
    ghost use Rattle.et_state.specs.Running.{RunningState};
    ghost use Rattle.et_state.specs.RunningInside.{running_in, IsRunning};

    ghost Value = { RunningState };

    ghost view = { running_in };

    ghost invariant = { IsRunning };
}

impl Running {
    /// The pc of the frame.
    #[inline(always)]
    pub fn pc(&self) -> u32
        ensures { result ≡ self.now.frame.pc }
    {
        self.pc
    }

    /// Sets the pc of the frame.
    #[inline(always)]
    pub fn set_pc(&mut self, pc: u32)
        ensures { self.new ≡ steps_running self.old (at_pc pc self.old.frame) [] }
    {
        self.pc = pc;
    }

    /// The most operands that the frame may have.
    #[inline(always)]
    pub fn room(&self) -> u16
        ensures { result ≡ self.now.frame.room }
    {
        (self.limit - self.floor) as u16
    }

    /// The number of operands of the frame. A long has two.
    #[inline(always)]
    pub fn depth(&self) -> u32
        ensures value { result ≡ length self.now.frame.operands }
        ensures few { length self.now.frame.operands ≤ self.now.frame.room }
        ensures short { length self.now.frame.operands < 2 ^ 16 }
    {
        (self.top - self.floor) as u32
    }

    /// The operand so far below the topmost one.
    #[inline(always)]
    pub fn operand(&self, from_top: u32) -> Value
        requires { from_top < length self.now.frame.operands }
        ensures { result ≡ operand_of self.now.frame from_top }
    {
        self.values[self.top - 1 - from_top as usize]
    }

    /// Puts an operand on top.
    #[inline(always)]
    pub fn push(&mut self, v: Value)
        requires { length self.old.frame.operands < self.old.frame.room }
        ensures { self.new ≡ steps_running self.old (pushed v self.old.frame) [] }
    {
        self.values[self.top] = v;
        self.top += 1;
    }

    /// Takes the topmost operand away, and loses the object that it refers to.
    #[inline(always)]
    pub fn pop(&mut self) -> Value
        requires operand { 0 < length self.old.frame.operands }
        requires lost { length self.old.lost < most_lost }
        ensures value { result ≡ operand_of self.old.frame 0 }
        ensures new { self.new ≡ steps_running self.old (popped 1 self.old.frame)
            (refs_of_value (operand_of self.old.frame 0)) }
        ensures few { length self.new.lost ≤ length self.old.lost + 1 }
    {
        self.top -= 1;
        let v = self.values[self.top];
        let lost = v;
        self.lost.add_value(lost);
        v
    }

    /// The number of locals of the frame. A long has two.
    #[inline(always)]
    pub fn locals(&self) -> usize
        ensures value { result ≡ length self.now.frame.locals }
        ensures few { result < 2 ^ 16 }
    {
        self.floor - self.base
    }

    /// What a local holds.
    #[inline(always)]
    pub fn local(&self, i: u16) -> Value
        requires { i < length self.now.frame.locals }
        ensures { result ≡ local_of self.now.frame i }
    {
        self.values[self.base + i as usize]
    }

    /// Writes a local, and loses the object that it referred to.
    #[inline(always)]
    pub fn set_local(&mut self, i: u16, v: Value)
        requires local { i < length self.old.frame.locals }
        requires lost { length self.old.lost < most_lost }
        ensures new { self.new ≡ steps_running self.old (with_local i v self.old.frame)
            (refs_of_value (local_of self.old.frame i)) }
        ensures few { length self.new.lost ≤ length self.old.lost + 1 }
    {
        let old = self.values[self.base + i as usize];
        self.values[self.base + i as usize] = v;
        self.lost.add_value(old);
    }

    /// An instruction begins: nothing is lost.
    #[inline(always)]
    pub fn begin_instruction(&mut self)
        ensures frame { self.new.frame ≡ self.old.frame }
        ensures below { self.new.below ≡ self.old.below }
        ensures lost { self.new.lost ≡ [] }
    {
        self.lost.clear();
    }

    /// The objects that the newest instruction took a reference away from, in order.
    #[inline(always)]
    pub fn lost(&self) -> &[ObjectId]
        ensures value { result.now ≡ self.now.lost }
        ensures few { length result.now ≤ most_lost }
    {
        self.lost.objects()
    }
}
