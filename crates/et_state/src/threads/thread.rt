//! One thread.
ghost use Rattle.std.specs.Prelude.{◌≡◌, ◌+◌, ◌<◌, ◌≤◌, ◌∷◌, ◌++◌, [], length, OnOk, OnErr};
ghost use Rattle.et_state.specs.ThreadRoots.{thread_roots};
ghost use Rattle.et_state.specs.NewFrames.{entered_over, frame_of};
ghost use Rattle.et_state.specs.Running.{with_frames};
ghost use Rattle.et_state.specs.Threads.{top_of, rest_of, with_top_of, without_top, pushed, popped, at_pc, without_operands, with_local, in_clinit, entered_by, with_pending, as_entered, as_ended, new_thread, turn_of, most_frames};

use crate::frames::frame::Frame;
use crate::frames::frame_stack::FrameStack;
use crate::frames::running::Running;
use crate::machine::listing::list_option;
use crate::new_frame::{NewFrame, NewHead};
use crate::stage::{Stage, Turn};
use et_base::{MethodId, NoMemory, ObjectId, Value};
use et_heap::RootList;
use std::alloc::Global;
use std::marker::Model;
use std::mem;

/// A thread.
#[derive(Drop)]
pub struct Thread {
    frames: FrameStack,
    pending: Option<ObjectId>,
    entry: Option<ObjectId>,
    object: Option<ObjectId>,
    entered: bool,
    ended: bool,
}

impl Model for Thread {
    ghost use Rattle.et_state.specs.Threads.{ThreadState};

    ghost Value = { ThreadState };

    ghost use Rattle.et_state.specs.ThreadInside.{thread_in, IsThreadInside};

    ghost view = { thread_in };

    ghost invariant = { IsThreadInside };
}

impl Thread {
    /// A thread that was started and has no frame yet.
    pub fn new(alloc: Global, entry: Option<ObjectId>, object: Option<ObjectId>) -> Self
        ensures { result ≡ new_thread entry object }
    {
        Thread {
            frames: FrameStack::new(alloc),
            pending: None,
            entry,
            object,
            entered: false,
            ended: false,
        }
    }

    /// The number of frames.
    #[inline(always)]
    pub fn frames(&self) -> u32
        ensures value { result ≡ length self.now.frames }
        ensures few { result ≤ most_frames }
    {
        self.frames.len() as u32
    }

    /// What the thread does next.
    #[inline(always)]
    pub fn turn(&self) -> Turn
        ensures { result ≡ turn_of self.now }
    {
        let is_thrown = self.pending.is_some();
        if self.frames.len() == 0 {
            return if is_thrown || self.entered {
                Turn::EndThread
            } else {
                Turn::Entry
            };
        }
        if is_thrown {
            return Turn::Unwind;
        }
        match self.top().stage() {
            Stage::Before(_) => Turn::Initialize,
            Stage::Plain | Stage::Clinit(_) => Turn::Instruction,
        }
    }

    /// The topmost frame.
    #[inline(always)]
    pub fn top(&self) -> Frame<'_>
        requires { 0 < length self.now.frames }
        ensures { result ≡ top_of self.now }
    {
        self.frames.top()
    }

    pub fn pending(&self) -> Option<ObjectId>
        ensures { result ≡ self.now.pending }
    {
        self.pending
    }

    pub fn set_pending(&mut self, pending: Option<ObjectId>)
        ensures { self.new ≡ with_pending pending self.old }
    {
        self.pending = pending;
    }

    pub fn entry(&self) -> Option<ObjectId>
        ensures { result ≡ self.now.entry }
    {
        self.entry
    }

    /// The Thread object.
    pub fn object(&self) -> Option<ObjectId>
        ensures { result ≡ self.now.object }
    {
        self.object
    }

    /// Marks the thread as entered, and empties its entry slot.
    pub fn set_entered(&mut self)
        ensures { self.new ≡ as_entered self.old }
    {
        self.entry = None;
        self.entered = true;
    }

    pub fn is_ended(&self) -> bool
        ensures { result ≡ self.now.ended }
    {
        self.ended
    }

    /// Marks the thread as ended, and drops its pending exception and its entry slot.
    pub fn end(&mut self)
        ensures { self.new ≡ as_ended self.old }
    {
        self.pending = None;
        self.entry = None;
        self.ended = true;
    }

    /// Puts a frame on top. After `NoMemory` the thread is as before.
    pub fn enter_frame(&mut self, frame: &NewFrame) -> Result<(), NoMemory>
        requires few { length self.old.frames < most_frames }
        requires arguments { length frame.now.arguments.items ≤ frame.now.max_locals }
        ensures ok { OnOk result (self.new ≡ entered_by (frame_of frame.now) self.old) }
        ensures err { OnErr result (self.new ≡ self.old) }
    {
        self.frames.enter(frame)
    }

    /// Puts a frame on top that takes so many of the topmost operands as its arguments. After `NoMemory` the thread is as before.
    #[inline(always)]
    pub fn enter_over(&mut self, head: &NewHead, count: u32) -> Result<(), NoMemory>
        requires frame { 0 < length self.old.frames }
        requires few { length self.old.frames < most_frames }
        requires operands { count ≤ length (top_of self.old).operands }
        requires arguments { count ≤ head.now.max_locals }
        ensures ok { OnOk result (self.new ≡ entered_over head.now count self.old) }
        ensures err { OnErr result (self.new ≡ self.old) }
    {
        self.frames.enter_over(head, count)
    }

    /// Takes the topmost frame away.
    pub fn drop_frame(&mut self)
        requires { 0 < length self.old.frames }
        ensures { self.new ≡ without_top self.old }
    {
        self.frames.drop_top();
    }

    #[inline(always)]
    pub fn set_pc(&mut self, pc: u32)
        requires { 0 < length self.old.frames }
        ensures { self.new ≡ with_top_of self.old (at_pc pc (top_of self.old)) }
    {
        self.frames.set_pc(pc);
    }

    #[inline(always)]
    pub fn push(&mut self, v: Value)
        requires frame { 0 < length self.old.frames }
        requires room { length (top_of self.old).operands < (top_of self.old).room }
        ensures { self.new ≡ with_top_of self.old (pushed v (top_of self.old)) }
    {
        self.frames.push(v);
    }

    /// Takes the topmost operand away.
    #[inline(always)]
    pub fn pop(&mut self)
        requires frame { 0 < length self.old.frames }
        requires operand { 0 < length (top_of self.old).operands }
        ensures { self.new ≡ with_top_of self.old (popped 1 (top_of self.old)) }
    {
        self.frames.pop();
    }

    /// Takes all operands away.
    pub fn clear_operands(&mut self)
        requires { 0 < length self.old.frames }
        ensures { self.new ≡ with_top_of self.old (without_operands (top_of self.old)) }
    {
        self.frames.clear_operands();
    }

    #[inline(always)]
    pub fn set_local(&mut self, i: u16, v: Value)
        requires frame { 0 < length self.old.frames }
        requires local { i < length (top_of self.old).locals }
        ensures { self.new ≡ with_top_of self.old (with_local i v (top_of self.old)) }
    {
        self.frames.set_local(i, v);
    }

    /// Takes the frames out of the thread, while the topmost one runs. It takes no memory.
    #[inline(always)]
    pub fn lift(&mut self, alloc: Global) -> Running
        requires { 0 < length self.old.frames }
        ensures frame { result.frame ≡ top_of self.old }
        ensures below { result.below ≡ rest_of self.old.frames }
        ensures lost { result.lost ≡ [] }
        ensures new { self.new ≡ with_frames [] self.old }
    {
        mem::replace(&mut self.frames, FrameStack::new(alloc)).lift()
    }

    /// Puts the frames of the thread back.
    #[inline(always)]
    pub fn land(&mut self, running: Running)
        requires { length running.below < most_frames }
        ensures { self.new ≡ with_frames (running.frame ∷ running.below) self.old }
    {
        self.frames = FrameStack::land(running);
    }

    /// Lets the topmost frame, which initializes a class, enter its `<clinit>`. After `NoMemory` the thread is as before.
    pub fn enter_clinit(
        &mut self,
        method: MethodId,
        max_stack: u16,
        max_locals: u16,
    ) -> Result<(), NoMemory>
        requires { 0 < length self.old.frames }
        ensures ok { OnOk result (self.new
            ≡ with_top_of self.old (in_clinit method max_stack max_locals (top_of self.old))) }
        ensures err { OnErr result (self.new ≡ self.old) }
    {
        self.frames.enter_clinit(method, max_stack, max_locals)
    }

    /// Puts all the objects in the root places of the thread at the end of the list. After `NoMemory` it has some of
    /// them.
    pub fn list_roots(&self, room: &mut RootList) -> Result<(), NoMemory>
        ensures { OnOk result (room.new ≡ room.old ++ thread_roots self.now) }
    {
        self.frames.list_roots(room)?;
        list_option(self.pending, room)?;
        if self.ended {
            return Ok(());
        }
        list_option(self.entry, room)?;
        list_option(self.object, room)
    }
}
