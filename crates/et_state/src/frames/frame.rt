//! One frame, as its thread shows it.
ghost use Rattle.std.specs.Prelude.{◌≡◌, ◌+◌, ◌<◌, ◌≤◌, ◌^◌, length, ◌++◌, OnOk};
ghost use Rattle.et_state.specs.ThreadRoots.{frame_roots};
ghost use Rattle.et_state.specs.Threads.{operand_of, local_of, lost_room};
ghost use Rattle.et_state.specs.FrameInside.{frame_in, IsFrame};
ghost use Rattle.et_heap.specs.Refs.{refs_of};

use crate::machine::listing::{list_option, list_values, list_values_back};
use crate::machine::lost::Lost;
use crate::stage::Stage;
use et_base::{MethodId, NoMemory, ObjectId, Value};
use et_heap::RootList;
use std::marker::Model;

/// What is kept of a frame beside its values.
#[derive(Clone, Copy)]
pub struct FrameHead {
    pub method: Option<MethodId>,
    pub stage: Stage,
    /// The object whose monitor the frame holds.
    pub lock: Option<ObjectId>,
    pub pc: u32,
    /// The most operands that there may be.
    pub room: u16,
    /// The number of locals.
    pub locals: u16,
    /// The number of values of the frames below it.
    pub base: usize,
}

/// A frame, as its thread shows it.
#[derive(Drop)]
pub struct Frame<'a> {
    head: &'a FrameHead,
    /// The locals, and behind them the operands, of which the topmost one stands last.
    values: &'a [Value],
}

impl<'a> Model for Frame<'a> {
    ghost use Rattle.et_state.specs.Threads.{FrameState};
    ghost use Rattle.et_state.specs.FrameInside.{frame_in, IsFrame};

    ghost Value = { FrameState };

    ghost view = { λ f. frame_in f.head.now f.values.now };

    ghost invariant = { λ f. IsFrame f.head.now f.values.now };
}

impl<'a> Frame<'a> {
    /// The frame with this head and these values.
    #[inline(always)]
    pub fn of(head: &'a FrameHead, values: &'a [Value]) -> Self
        requires { IsFrame head.now values.now }
        ensures { result ≡ frame_in head.now values.now }
    {
        Frame { head, values }
    }

    #[inline(always)]
    pub fn method(&self) -> Option<MethodId>
        ensures { result ≡ self.now.method }
    {
        self.head.method
    }

    #[inline(always)]
    pub fn stage(&self) -> Stage
        ensures { result ≡ self.now.stage }
    {
        self.head.stage
    }

    pub fn lock(&self) -> Option<ObjectId>
        ensures { result ≡ self.now.lock }
    {
        self.head.lock
    }

    #[inline(always)]
    pub fn pc(&self) -> u32
        ensures { result ≡ self.now.pc }
    {
        self.head.pc
    }

    /// The most operands that there may be.
    #[inline(always)]
    pub fn room(&self) -> u16
        ensures { result ≡ self.now.room }
    {
        self.head.room
    }

    /// The number of operands.
    #[inline(always)]
    pub fn depth(&self) -> u32
        ensures value { result ≡ length self.now.operands }
        ensures few { length self.now.operands ≤ self.now.room }
        ensures short { length self.now.operands < 2 ^ 16 }
    {
        (self.values.len() - self.head.locals as usize) as u32
    }

    /// The operand so far below the topmost one.
    #[inline(always)]
    pub fn operand(&self, from_top: u32) -> Value
        requires { from_top < length self.now.operands }
        ensures { result ≡ operand_of self.now from_top }
    {
        self.values[self.values.len() - 1 - from_top as usize]
    }

    /// The number of locals.
    #[inline(always)]
    pub fn locals(&self) -> usize
        ensures { result ≡ length self.now.locals }
    {
        self.head.locals as usize
    }

    #[inline(always)]
    pub fn local(&self, i: u16) -> Value
        requires { i < length self.now.locals }
        ensures { result ≡ local_of self.now i }
    {
        self.values[i as usize]
    }

    /// Adds the objects in the operands to the lost ones.
    pub fn lose_operands(&self, lost: &mut Lost)
        requires { length lost.old + length self.now.operands ≤ lost_room }
        ensures { lost.new ≡ lost.old ++ refs_of self.now.operands }
    {
        let operands = &self.values[self.head.locals as usize..];
        lost.add_values_back(operands);
    }

    /// Adds all the objects in the frame to the lost ones.
    pub fn lose_all(&self, lost: &mut Lost)
        requires { length lost.old + (length self.now.locals + length self.now.operands)
            < lost_room }
        ensures { lost.new ≡ lost.old ++ frame_roots self.now }
    {
        let (locals, operands) = self.values.split_at(self.head.locals as usize);
        lost.add_values(locals);
        lost.add_values_back(operands);
        lost.add_option(self.head.lock);
    }

    /// Puts all the objects in the frame at the end of the list. After `NoMemory` it has some of them.
    pub fn list_roots(&self, room: &mut RootList) -> Result<(), NoMemory>
        ensures { OnOk result (room.new ≡ room.old ++ frame_roots self.now) }
    {
        let (locals, operands) = self.values.split_at(self.head.locals as usize);
        list_values(locals, room)?;
        list_values_back(operands, room)?;
        list_option(self.head.lock, room)
    }
}
