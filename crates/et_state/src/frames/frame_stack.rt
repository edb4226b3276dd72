//! The frames of one thread.
ghost use Rattle.std.specs.Prelude.{◌≡◌, ◌+◌, ◌-◌, ◌<◌, ◌≤◌, ◌∷◌, [], ◌++◌, length, replicate, take, OnOk, OnErr};
ghost use Rattle.std.specs.List.{flat_map};
ghost use Rattle.et_base.specs.declared.value.Value.TheVariants.{Unset};
ghost use Rattle.et_state.specs.ThreadRoots.{frame_roots};
ghost use Rattle.et_state.specs.Threads.{first_frame, rest_of, pushed, popped, at_pc, without_operands, with_local, in_clinit, clinit_stage, locals_with};
ghost use Rattle.et_state.specs.NewFrames.{arguments_on, frame_of, frame_with};

use crate::frames::frame::{Frame, FrameHead};
use crate::frames::running::Running;
use crate::machine::losses::Losses;
use crate::new_frame::{NewFrame, NewHead};
use crate::stage::Stage;
use et_base::{MethodId, NoMemory, Value};
use et_heap::RootList;
use std::alloc::Global;
use std::marker::Model;

/// The frames of a thread. Each that is entered reserves room for all of its locals and operands. A contract sees them as
/// the list of them, the topmost first.
#[derive(Drop)]
pub struct FrameStack {
    /// The topmost one stands last.
    heads: Vec<FrameHead>,
    /// Of each frame its locals and then its operands. Those of the topmost frame stand last, and of these the topmost
    /// operand. There is a value for each local and operand that any frame had room for: those from `top` on count for
    /// nothing.
    values: Vec<Value>,
    /// How many of the values count.
    top: usize,
}

impl Model for FrameStack {
    ghost use Rattle.std.specs.Prelude.{List};
    ghost use Rattle.et_state.specs.Threads.{FrameState};

    ghost Value = { List FrameState };

    ghost use Rattle.et_state.specs.StackInside.{stack_in, IsStack};

    ghost view = { stack_in };

    ghost invariant = { IsStack };
}

/// What a frame is for once it has entered the `<clinit>` of its class.
fn in_clinit_stage(stage: Stage) -> Stage
    ensures { result ≡ clinit_stage stage }
{
    match stage {
        Stage::Plain => Stage::Plain,
        Stage::Before(class) | Stage::Clinit(class) => Stage::Clinit(class),
    }
}

/// Makes the list at least so long. What stands in it stays.
fn make_room(values: &mut Vec<Value>, count: usize) -> Result<(), NoMemory>
    ensures ok { OnOk result (count ≤ length values.new.items) }
    ensures grows { length values.old.items ≤ length values.new.items }
    ensures kept { take (length values.old.items) values.new.items ≡ values.old.items }
{
    if values.len() < count {
        values.resize(count, Value::Unset)?;
    }
    Ok(())
}

/// Writes so many locals behind the first `base` values: the arguments, and then nothing in the others.
fn write_locals(values: &mut Vec<Value>, base: usize, arguments: &[Value], locals: u16)
    requires arguments { length arguments.now ≤ locals }
    requires room { base + locals ≤ length values.old.items }
    ensures long { length values.new.items ≡ length values.old.items }
    ensures items { take (base + locals) values.new.items
        ≡ take base values.old.items ++ locals_with locals arguments.now }
{
    let written = base + arguments.len();
    values[base..written].copy_from_slice(arguments);
    values[written..base + locals as usize].fill(Value::Unset);
}

/// Empties the values from one place up to another.
fn clear_values(values: &mut Vec<Value>, from: usize, to: usize)
    requires order { from ≤ to }
    requires room { to ≤ length values.old.items }
    ensures long { length values.new.items ≡ length values.old.items }
    ensures items { take to values.new.items
        ≡ take from values.old.items ++ replicate (to - from) Unset }
{
    values[from..to].fill(Value::Unset);
}

impl FrameStack {
    /// No frames yet.
    pub fn new(alloc: Global) -> Self
        ensures { result ≡ [] }
    {
        FrameStack {
            heads: Vec::new(alloc),
            values: Vec::new(alloc),
            top: 0,
        }
    }

    /// The number of frames.
    #[inline(always)]
    pub fn len(&self) -> usize
        ensures { result ≡ length self.now }
    {
        self.heads.len()
    }

    /// The topmost frame.
    #[inline(always)]
    pub fn top(&self) -> Frame<'_>
        requires { 0 < length self.now }
        ensures { result ≡ first_frame self.now }
    {
        let head = &self.heads[self.heads.len() - 1];
        Frame::of(head, &self.values[head.base..self.top])
    }

    /// Puts a frame on top. After `NoMemory` the frames are as before.
    pub fn enter(&mut self, frame: &NewFrame) -> Result<(), NoMemory>
        requires { length frame.now.arguments.items ≤ frame.now.max_locals }
        ensures ok { OnOk result (self.new ≡ frame_of frame.now ∷ self.old) }
        ensures err { OnErr result (self.new ≡ self.old) }
    {
        let base = self.top;
        let split = base + frame.max_locals as usize;
        make_room(&mut self.values, split + frame.max_stack as usize)?;
        self.heads.push(FrameHead {
            method: frame.method,
            stage: frame.stage,
            lock: frame.lock,
            pc: 0,
            room: frame.max_stack,
            locals: frame.max_locals,
            base,
        })?;
        write_locals(
            &mut self.values,
            base,
            frame.arguments.as_slice(),
            frame.max_locals,
        );
        self.top = split;
        Ok(())
    }

    /// Puts a frame on top whose first locals are so many of the topmost operands, where they stand. After `NoMemory` the frames
    /// are as before.
    pub fn enter_over(&mut self, head: &NewHead, count: u32) -> Result<(), NoMemory>
        requires frame { 0 < length self.old }
        requires operands { count ≤ length (first_frame self.old).operands }
        requires arguments { count ≤ head.now.max_locals }
        ensures ok { OnOk result (self.new
            ≡ frame_with head.now (arguments_on count (first_frame self.old))
            ∷ popped count (first_frame self.old) ∷ rest_of self.old) }
        ensures err { OnErr result (self.new ≡ self.old) }
    {
        let base = self.top - count as usize;
        let split = base + head.max_locals as usize;
        make_room(&mut self.values, split + head.max_stack as usize)?;
        self.heads.push(FrameHead {
            method: Some(head.method),
            stage: Stage::Plain,
            lock: head.lock,
            pc: 0,
            room: head.max_stack,
            locals: head.max_locals,
            base,
        })?;
        clear_values(&mut self.values, self.top, split);
        self.top = split;
        Ok(())
    }

    /// Takes the topmost frame away.
    pub fn drop_top(&mut self)
        requires { 0 < length self.old }
        ensures { self.new ≡ rest_of self.old }
    {
        let last = self.heads.len() - 1;
        let head = self.heads[last];
        self.heads.truncate(last);
        self.top = head.base;
    }

    #[inline(always)]
    pub fn set_pc(&mut self, pc: u32)
        requires { 0 < length self.old }
        ensures { self.new ≡ at_pc pc (first_frame self.old) ∷ rest_of self.old }
    {
        let last = self.heads.len() - 1;
        let head = self.heads[last];
        self.heads[last] = FrameHead { pc, ..head };
    }

    #[inline(always)]
    pub fn push(&mut self, v: Value)
        requires frame { 0 < length self.old }
        requires room { length (first_frame self.old).operands < (first_frame self.old).room }
        ensures { self.new ≡ pushed v (first_frame self.old) ∷ rest_of self.old }
    {
        self.values[self.top] = v;
        self.top += 1;
    }

    /// Takes the topmost operand away.
    #[inline(always)]
    pub fn pop(&mut self)
        requires frame { 0 < length self.old }
        requires operand { 0 < length (first_frame self.old).operands }
        ensures { self.new ≡ popped 1 (first_frame self.old) ∷ rest_of self.old }
    {
        self.top -= 1;
    }

    /// Takes all operands away.
    pub fn clear_operands(&mut self)
        requires { 0 < length self.old }
        ensures { self.new ≡ without_operands (first_frame self.old) ∷ rest_of self.old }
    {
        let head = self.heads[self.heads.len() - 1];
        self.top = head.base + head.locals as usize;
    }

    #[inline(always)]
    pub fn set_local(&mut self, i: u16, v: Value)
        requires frame { 0 < length self.old }
        requires local { i < length (first_frame self.old).locals }
        ensures { self.new ≡ with_local i v (first_frame self.old) ∷ rest_of self.old }
    {
        let head = self.heads[self.heads.len() - 1];
        self.values[head.base + i as usize] = v;
    }

    /// Lets the topmost frame, which initializes a class, enter its `<clinit>`. After `NoMemory` the frames are as before.
    pub fn enter_clinit(
        &mut self,
        method: MethodId,
        max_stack: u16,
        max_locals: u16,
    ) -> Result<(), NoMemory>
        requires { 0 < length self.old }
        ensures ok { OnOk result (self.new
            ≡ in_clinit method max_stack max_locals (first_frame self.old) ∷ rest_of self.old) }
        ensures err { OnErr result (self.new ≡ self.old) }
    {
        let last = self.heads.len() - 1;
        let head = self.heads[last];
        let split = head.base + max_locals as usize;
        make_room(&mut self.values, split + max_stack as usize)?;
        write_locals(&mut self.values, head.base, &[], max_locals);
        self.top = split;
        self.heads[last] = FrameHead {
            method: Some(method),
            stage: in_clinit_stage(head.stage),
            lock: head.lock,
            pc: 0,
            room: max_stack,
            locals: max_locals,
            base: head.base,
        };
        Ok(())
    }

    /// Puts all the objects in the frames at the end of the list, those of the topmost frame first. After `NoMemory` it has
    /// some of them.
    pub fn list_roots(&self, room: &mut RootList) -> Result<(), NoMemory>
        ensures { OnOk result (room.new ≡ room.old ++ flat_map frame_roots self.now) }
    {
        let mut left = self.heads.len();
        let mut values = &self.values[..self.top];
        while left > 0 {
            left -= 1;
            let head = &self.heads[left];
            let (below, own) = values.split_at(head.base);
            Frame::of(head, own).list_roots(room)?;
            values = below;
        }
        Ok(())
    }

    /// The frames, of which the topmost one runs from now on.
    #[inline(always)]
    pub fn lift(self) -> Running
        requires { 0 < length self }
        ensures frame { result.frame ≡ first_frame self }
        ensures below { result.below ≡ rest_of self }
        ensures lost { result.lost ≡ [] }
    {
        let head = self.heads[self.heads.len() - 1];
        let floor = head.base + head.locals as usize;
        Running {
            heads: self.heads,
            values: self.values,
            base: head.base,
            floor,
            top: self.top,
            limit: floor + head.room as usize,
            pc: head.pc,
            lost: Losses::new(),
        }
    }

    /// The frames, of which none runs any more.
    #[inline(always)]
    pub fn land(running: Running) -> Self
        ensures { result ≡ running.frame ∷ running.below }
    {
        let Running {
            mut heads,
            values,
            top,
            pc,
            ..
        } = running;
        let last = heads.len() - 1;
        let head = heads[last];
        heads[last] = FrameHead { pc, ..head };
        FrameStack { heads, values, top }
    }
}
