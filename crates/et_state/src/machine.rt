//! The machine; below, what it keeps beside its threads, its first state, and what an event loses.

pub(crate) mod first;
pub(crate) mod interned;
pub(crate) mod listing;
pub(crate) mod losses;
pub(crate) mod lost;

ghost use Rattle.std.specs.Prelude.{◌≡◌, ◌+◌, ◌<◌, ◌≤◌, ◌^◌, ◌∷◌, ◌++◌, [], length, false, IsTrue, None, Some, IfSome, IfOk, OnOk, OnErr, slice_get, option_to_list};
ghost use Rattle.std.specs.Option.{option_copied};
ghost use Rattle.et_heap.specs.Objects.{IsHeld, object_at, with_object_at, with_slot, slot_of};
ghost use Rattle.et_heap.specs.Refs.{refs_of, refs_of_value};
ghost use Rattle.et_state.specs.Threads.{at_pc, pushed, popped, without_operands, with_local, operand_of, local_of, in_clinit, is_before_class, without_top, entered_by, with_pending, as_entered, as_ended, ended_roots, new_thread, turn_of, unended_of, thread_with, rest_of, most_frames, most_threads, lost_room};
ghost use Rattle.et_state.specs.NewFrames.{entered_over, frame_of};
ghost use Rattle.et_state.specs.Texts.{no_texts};
ghost use Rattle.et_state.specs.ThreadRoots.{frame_roots};
ghost use Rattle.et_state.specs.Interned.{object_of, interned_text as text_in};
ghost use Rattle.et_state.specs.Roots.{roots_of};
ghost use Rattle.et_state.specs.Running.{passed, with_frames};
ghost use Rattle.et_state.specs.Words.{thread_at, with_new_thread, top, HasFrame, IsUnended, static_at, with_static, class_state_at, with_class_state, class_monitor_at, with_class_monitor, with_string, first_state, with_guest, begun, losing, steps_guest, steps_thread, steps_top, steps_object};

use crate::class_state::ClassState;
use crate::frames::running::Running;
use crate::machine::interned::Interned;
use crate::machine::listing::list_values;
use crate::machine::lost::Lost;
use crate::new_frame::{NewFrame, NewHead};
use crate::stage::{Stage, Turn};
use crate::threads;
use crate::threads::thread::Thread;
use et_base::{ClassId, MethodId, NoMemory, ObjectId, Steps, ThreadId, Value, within};
use et_heap::{Heap, MakeFault, Monitor, RootList};
use std::alloc::Global;
use std::marker::Model;
use std::sync::ledger::Ledger;

/// The machine of the guest. A contract sees it as the objects of its heap, the rest of its state, and the objects that
/// the event has lost so far.
///
/// A call with a thread speaks of a thread that was started, and where it speaks of a frame, of the topmost frame of that
/// thread. Calls without a `Result` take no memory.
#[derive(Drop)]
pub struct Machine {
    pub heap: Heap,
    alloc: Global,
    clock: u64,
    statics: Vec<Value>,
    threads: Vec<Thread>,
    /// Those of them that have not ended, in order of start.
    unended: Vec<ThreadId>,
    classes: Vec<ClassState>,
    class_monitors: Vec<Monitor>,
    interned: Interned,
    lost: Lost,
}

impl Model for Machine {
    ghost use Rattle.et_state.specs.State.{MachineState};

    ghost Value = { MachineState };

    ghost use Rattle.et_state.specs.MachineInside.{machine_in, IsMachine};

    ghost view = { machine_in };

    ghost invariant = { IsMachine };
}

impl Machine {
    /// Does nothing. Its contract is that the texts of a machine stand beside it.
    pub fn has_no_texts(&self)
        ensures { self.now.guest.texts ≡ no_texts }
    {
        let _ = &self.heap;
    }

    /// The first state, with the class of the array of arguments, how far each class is, and what the static slots hold.
    /// Object 1 is that array, of length 0, and thread 0 has it in its entry slot.
    #[tactic(auto, using(crate::proofs::Unended::begins))]
    pub fn of(
        alloc: Global,
        array_class: ClassId,
        classes: Vec<ClassState>,
        statics: Vec<Value>,
    ) -> Result<Machine, NoMemory>
        ensures { IfOk result
            (λ machine. machine ≡ first_state array_class classes.items statics.items) }
    {
        let mut heap = Heap::begin(alloc);
        let arguments = match heap.make_array(array_class, 0) {
            Ok(o) => o,
            Err(MakeFault::NoMemory) => return Err(NoMemory),
            Err(MakeFault::Full) => unreachable!(),
        };
        let mut threads = Vec::new(alloc);
        threads.push(Thread::new(alloc, Some(arguments), None))?;
        let mut unended = Vec::new(alloc);
        unended.push(ThreadId::new(0))?;
        let free = Monitor {
            owner: None,
            count: 0,
        };
        let class_monitors = vec![in alloc; free; classes.len()]?;
        Ok(Machine {
            heap,
            alloc,
            clock: 0,
            statics,
            threads,
            unended,
            classes,
            class_monitors,
            interned: Interned::begin(alloc),
            lost: Lost::begin(alloc)?,
        })
    }

    /// The number of the last event.
    #[inline(always)]
    pub fn clock(&self) -> u64
        ensures { result ≡ self.now.guest.clock }
    {
        self.clock
    }

    /// Goes on to the next event, which has lost nothing yet.
    #[inline(always)]
    pub fn begin_event(&mut self)
        requires { self.old.guest.clock < 2 ^ 40 }
        ensures { self.new ≡ begun self.old }
    {
        self.clock += 1;
        self.lost.clear();
    }

    /// Goes on by so many events, of which the newest has lost nothing.
    #[inline(always)]
    pub fn pass_events(&mut self, events: u64)
        requires { self.old.guest.clock + events ≤ 2 ^ 40 }
        ensures { self.new ≡ record self.old { guest = passed events self.old.guest; lost = [] } }
    {
        self.clock += events;
        self.lost.clear();
    }

    /// Takes the frames of a thread out of it, while the topmost one runs. The thread has none until they are put back by
    /// [`land`](Machine::land).
    #[tactic(auto, using(crate::proofs::Unended::stays))]
    #[inline(always)]
    pub fn lift(&mut self, thread: ThreadId) -> Running
        requires { HasFrame self.old.guest thread }
        ensures frame { result.frame ≡ top self.old.guest thread }
        ensures below { result.below ≡ rest_of (thread_at self.old.guest thread).frames }
        ensures lost { result.lost ≡ [] }
        ensures new { self.new ≡ steps_thread self.old thread
            (with_frames [] (thread_at self.old.guest thread)) [] }
    {
        let alloc = self.alloc;
        let t = &mut self.threads[thread.number() as usize];
        t.lift(alloc)
    }

    /// Puts the frames of a thread back.
    #[tactic(auto, using(crate::proofs::Unended::stays))]
    #[inline(always)]
    pub fn land(&mut self, thread: ThreadId, running: Running)
        requires thread { thread < length self.old.guest.threads }
        requires few { length running.below < most_frames }
        ensures { self.new ≡ steps_thread self.old thread
            (with_frames (running.frame ∷ running.below) (thread_at self.old.guest thread)) [] }
    {
        let t = &mut self.threads[thread.number() as usize];
        t.land(running);
    }

    /// The objects that this event has taken a reference away from, in order. There is room for 16 of them, and for all
    /// that stands in any one frame besides.
    #[inline(always)]
    pub fn lost(&self) -> &[ObjectId]
        ensures { result.now ≡ self.now.lost }
    {
        self.lost.objects()
    }

    /// Adds an object to the lost ones.
    pub fn lose(&mut self, o: ObjectId)
        requires { length self.old.lost < lost_room }
        ensures { self.new ≡ losing self.old (o ∷ []) }
    {
        self.lost.add(o);
    }

    /// The number of threads that were ever started, thread 0 among them.
    pub fn started(&self) -> u32
        ensures value { result ≡ length self.now.guest.threads }
        ensures few { result ≤ most_threads }
    {
        self.threads.len() as u32
    }

    /// The k-th thread that has not ended, from 0, in order of start.
    #[inline(always)]
    pub fn unended(&self, k: u32) -> Option<ThreadId>
        ensures { result ≡ slice_get (unended_of self.now.guest.threads) k }
    {
        self.unended.get(k as usize).copied()
    }

    /// The number of threads that have not ended.
    #[inline(always)]
    pub fn unended_count(&self) -> usize
        ensures { result ≡ length (unended_of self.now.guest.threads) }
    {
        self.unended.len()
    }

    /// What a thread does next.
    #[inline(always)]
    pub fn turn(&self, thread: ThreadId) -> Turn
        requires { thread < length self.now.guest.threads }
        ensures { result ≡ turn_of (thread_at self.now.guest thread) }
    {
        self.threads[thread.number() as usize].turn()
    }

    /// The thread with this Thread object.
    pub fn thread_of(&self, o: ObjectId) -> Option<ThreadId>
        ensures { result ≡ thread_with self.now.guest.threads o }
    {
        threads::thread_of(&self.threads, o)
    }

    /// The Thread object of a thread, which may have ended. Thread 0 has none.
    pub fn object_of(&self, thread: ThreadId) -> Option<ObjectId>
        requires { thread < length self.now.guest.threads }
        ensures { result ≡ (thread_at self.now.guest thread).object }
    {
        self.threads[thread.number() as usize].object()
    }

    /// The argument for the first frame of a thread.
    pub fn entry_slot(&self, thread: ThreadId) -> Option<ObjectId>
        requires { thread < length self.now.guest.threads }
        ensures { result ≡ (thread_at self.now.guest thread).entry }
    {
        self.threads[thread.number() as usize].entry()
    }

    /// Whether a thread has ended.
    pub fn is_ended(&self, thread: ThreadId) -> bool
        requires { thread < length self.now.guest.threads }
        ensures { result ≡ (thread_at self.now.guest thread).ended }
    {
        self.threads[thread.number() as usize].is_ended()
    }

    /// Starts a thread with a Thread object that no other thread has. After `NoMemory` the machine is as before.
    #[tactic(auto, using(crate::proofs::Unended::begins))]
    pub fn start_thread(&mut self, o: ObjectId) -> Result<ThreadId, NoMemory>
        requires few { length self.old.guest.threads < most_threads }
        requires fresh { thread_with self.old.guest.threads o ≡ None }
        ensures thread { IfOk result (λ thread. thread ≡ length self.old.guest.threads) }
        ensures ok { OnOk result (self.new ≡ with_guest self.old
            (with_new_thread self.old.guest (new_thread None (Some o)))) }
        ensures err { OnErr result (self.new ≡ self.old) }
    {
        let started = ThreadId::new(self.threads.len() as u8);
        self.unended.reserve(1)?;
        self.threads.push(Thread::new(self.alloc, None, Some(o)))?;
        within::push(&mut self.unended, started);
        Ok(started)
    }

    /// Marks a thread as entered. It loses the object in its entry slot, which is empty then.
    #[tactic(auto, using(crate::proofs::Unended::stays))]
    pub fn set_entered(&mut self, thread: ThreadId)
        requires thread { IsUnended self.old.guest thread }
        requires lost { length self.old.lost < lost_room }
        ensures new { self.new ≡ steps_thread self.old thread
            (as_entered (thread_at self.old.guest thread))
            (option_to_list (thread_at self.old.guest thread).entry) }
        ensures few { length self.new.lost ≤ length self.old.lost + 1 }
    {
        let t = &mut self.threads[thread.number() as usize];
        self.lost.add_option(t.entry());
        t.set_entered();
    }

    /// Ends a thread. It loses its pending exception, the object in its entry slot and its Thread object.
    pub fn end_thread(&mut self, thread: ThreadId)
        requires thread { IsUnended self.old.guest thread }
        requires lost { length self.old.lost + 3 ≤ lost_room }
        ensures new { self.new ≡ steps_thread self.old thread
            (as_ended (thread_at self.old.guest thread))
            (ended_roots (thread_at self.old.guest thread)) }
        ensures few { length self.new.lost ≤ length self.old.lost + 3 }
    {
        let t = &mut self.threads[thread.number() as usize];
        self.lost.add_option(t.pending());
        self.lost.add_option(t.entry());
        self.lost.add_option(t.object());
        t.end();
        threads::take_away(&mut self.unended, thread);
    }

    /// The number of frames of a thread.
    pub fn frames(&self, thread: ThreadId) -> u32
        requires { thread < length self.now.guest.threads }
        ensures value { result ≡ length (thread_at self.now.guest thread).frames }
        ensures few { result ≤ most_frames }
    {
        self.threads[thread.number() as usize].frames()
    }

    /// The method of the frame, or none where it initializes a class and has not entered its `<clinit>`.
    #[inline(always)]
    pub fn frame_method(&self, thread: ThreadId) -> Option<MethodId>
        requires { HasFrame self.now.guest thread }
        ensures { result ≡ (top self.now.guest thread).method }
    {
        self.threads[thread.number() as usize].top().method()
    }

    /// What the frame is for.
    #[inline(always)]
    pub fn stage(&self, thread: ThreadId) -> Stage
        requires { HasFrame self.now.guest thread }
        ensures { result ≡ (top self.now.guest thread).stage }
    {
        self.threads[thread.number() as usize].top().stage()
    }

    /// The object whose monitor the frame holds.
    pub fn lock(&self, thread: ThreadId) -> Option<ObjectId>
        requires { HasFrame self.now.guest thread }
        ensures { result ≡ (top self.now.guest thread).lock }
    {
        self.threads[thread.number() as usize].top().lock()
    }

    /// The pc of the frame.
    #[inline(always)]
    pub fn pc(&self, thread: ThreadId) -> u32
        requires { HasFrame self.now.guest thread }
        ensures { result ≡ (top self.now.guest thread).pc }
    {
        self.threads[thread.number() as usize].top().pc()
    }

    /// Sets the pc of the frame.
    #[tactic(auto, using(crate::proofs::Unended::stays))]
    #[inline(always)]
    pub fn set_pc(&mut self, thread: ThreadId, pc: u32)
        requires { HasFrame self.old.guest thread }
        ensures { self.new ≡ steps_top self.old thread (at_pc pc (top self.old.guest thread)) [] }
    {
        let t = &mut self.threads[thread.number() as usize];
        t.set_pc(pc);
    }

    /// The most operands that the frame may have.
    #[inline(always)]
    pub fn room(&self, thread: ThreadId) -> u16
        requires { HasFrame self.now.guest thread }
        ensures { result ≡ (top self.now.guest thread).room }
    {
        self.threads[thread.number() as usize].top().room()
    }

    /// The number of operands of the frame. A long has two.
    #[inline(always)]
    pub fn depth(&self, thread: ThreadId) -> u32
        requires { HasFrame self.now.guest thread }
        ensures value { result ≡ length (top self.now.guest thread).operands }
        ensures few { length (top self.now.guest thread).operands
            ≤ (top self.now.guest thread).room }
        ensures short { length (top self.now.guest thread).operands < 2 ^ 16 }
    {
        self.threads[thread.number() as usize].top().depth()
    }

    /// The operand so far below the topmost one.
    #[inline(always)]
    pub fn operand(&self, thread: ThreadId, from_top: u32) -> Value
        requires frame { HasFrame self.now.guest thread }
        requires operand { from_top < length (top self.now.guest thread).operands }
        ensures { result ≡ operand_of (top self.now.guest thread) from_top }
    {
        self.threads[thread.number() as usize]
            .top()
            .operand(from_top)
    }

    /// Puts an operand on top.
    #[tactic(auto, using(crate::proofs::Unended::stays))]
    #[inline(always)]
    pub fn push(&mut self, thread: ThreadId, v: Value)
        requires frame { HasFrame self.old.guest thread }
        requires room { length (top self.old.guest thread).operands
            < (top self.old.guest thread).room }
        ensures { self.new ≡ steps_top self.old thread (pushed v (top self.old.guest thread)) [] }
    {
        let t = &mut self.threads[thread.number() as usize];
        t.push(v);
    }

    /// Takes the topmost operand away, and loses the object that it refers to.
    #[tactic(auto, using(crate::proofs::Unended::stays))]
    #[inline(always)]
    pub fn pop(&mut self, thread: ThreadId) -> Value
        requires frame { HasFrame self.old.guest thread }
        requires operand { 0 < length (top self.old.guest thread).operands }
        requires lost { length self.old.lost < lost_room }
        ensures value { result ≡ operand_of (top self.old.guest thread) 0 }
        ensures new { self.new ≡ steps_top self.old thread
            (popped 1 (top self.old.guest thread))
            (refs_of_value (operand_of (top self.old.guest thread) 0)) }
        ensures few { length self.new.lost ≤ length self.old.lost + 1 }
    {
        let t = &mut self.threads[thread.number() as usize];
        let v = t.top().operand(0);
        t.pop();
        let lost = v;
        self.lost.add_value(lost);
        v
    }

    /// Takes all operands away, and loses the objects that they refer to.
    #[tactic(auto, using(crate::proofs::Unended::stays))]
    pub fn clear_operands(&mut self, thread: ThreadId)
        requires frame { HasFrame self.old.guest thread }
        requires lost { length self.old.lost + length (top self.old.guest thread).operands
            ≤ lost_room }
        ensures { self.new ≡ steps_top self.old thread
            (without_operands (top self.old.guest thread))
            (refs_of (top self.old.guest thread).operands) }
    {
        let t = &mut self.threads[thread.number() as usize];
        t.top().lose_operands(&mut self.lost);
        t.clear_operands();
    }

    /// The number of locals of the frame. A long has two.
    #[inline(always)]
    pub fn locals(&self, thread: ThreadId) -> usize
        requires { HasFrame self.now.guest thread }
        ensures { result ≡ length (top self.now.guest thread).locals }
    {
        self.threads[thread.number() as usize].top().locals()
    }

    /// What a local holds.
    #[inline(always)]
    pub fn local(&self, thread: ThreadId, i: u16) -> Value
        requires frame { HasFrame self.now.guest thread }
        requires local { i < length (top self.now.guest thread).locals }
        ensures { result ≡ local_of (top self.now.guest thread) i }
    {
        self.threads[thread.number() as usize].top().local(i)
    }

    /// Writes a local, and loses the object that it referred to.
    #[tactic(auto, using(crate::proofs::Unended::stays))]
    #[inline(always)]
    pub fn set_local(&mut self, thread: ThreadId, i: u16, v: Value)
        requires frame { HasFrame self.old.guest thread }
        requires local { i < length (top self.old.guest thread).locals }
        requires lost { length self.old.lost < lost_room }
        ensures new { self.new ≡ steps_top self.old thread
            (with_local i v (top self.old.guest thread))
            (refs_of_value (local_of (top self.old.guest thread) i)) }
        ensures few { length self.new.lost ≤ length self.old.lost + 1 }
    {
        let t = &mut self.threads[thread.number() as usize];
        self.lost.add_value(t.top().local(i));
        t.set_local(i, v);
    }

    /// Puts a frame on top. After `NoMemory` the machine is as before.
    #[tactic(auto, using(crate::proofs::Unended::stays))]
    pub fn enter_frame(&mut self, thread: ThreadId, frame: NewFrame) -> Result<(), NoMemory>
        requires thread { thread < length self.old.guest.threads }
        requires few { length (thread_at self.old.guest thread).frames < most_frames }
        requires arguments { length frame.arguments.items ≤ frame.max_locals }
        ensures ok { OnOk result (self.new ≡ steps_thread self.old thread
            (entered_by (frame_of frame) (thread_at self.old.guest thread)) []) }
        ensures err { OnErr result (self.new ≡ self.old) }
    {
        let t = &mut self.threads[thread.number() as usize];
        t.enter_frame(&frame)?;
        Ok(())
    }

    /// Puts a frame on top whose arguments are so many of the topmost operands: they become its first locals where they stand, so
    /// that no reference is lost. After `NoMemory` the machine is as before.
    #[tactic(auto, using(crate::proofs::Unended::stays))]
    #[inline(always)]
    pub fn enter_over(
        &mut self,
        thread: ThreadId,
        head: &NewHead,
        count: u32,
    ) -> Result<(), NoMemory>
        requires frame { HasFrame self.old.guest thread }
        requires few { length (thread_at self.old.guest thread).frames < most_frames }
        requires operands { count ≤ length (top self.old.guest thread).operands }
        requires arguments { count ≤ head.now.max_locals }
        ensures ok { OnOk result (self.new ≡ steps_thread self.old thread
            (entered_over head.now count (thread_at self.old.guest thread)) []) }
        ensures err { OnErr result (self.new ≡ self.old) }
    {
        let t = &mut self.threads[thread.number() as usize];
        t.enter_over(head, count)?;
        Ok(())
    }

    /// Lets the frame, which is of stage `Before` and holds nothing yet, enter the `<clinit>` of its class. After
    /// `NoMemory` the machine is as before.
    #[tactic(auto, using(crate::proofs::Unended::stays))]
    pub fn enter_clinit(
        &mut self,
        thread: ThreadId,
        method: MethodId,
        max_stack: u16,
        max_locals: u16,
    ) -> Result<(), NoMemory>
        requires frame { HasFrame self.old.guest thread }
        requires before { IsTrue (is_before_class (top self.old.guest thread).stage) }
        requires locals { (top self.old.guest thread).locals ≡ [] }
        requires operands { (top self.old.guest thread).operands ≡ [] }
        ensures ok { OnOk result (self.new ≡ steps_top self.old thread
            (in_clinit method max_stack max_locals (top self.old.guest thread)) []) }
        ensures err { OnErr result (self.new ≡ self.old) }
    {
        let t = &mut self.threads[thread.number() as usize];
        t.enter_clinit(method, max_stack, max_locals)?;
        Ok(())
    }

    /// Takes the frame away, and loses the objects in its locals, its operands and its lock slot.
    #[tactic(auto, using(crate::proofs::Unended::stays))]
    pub fn drop_frame(&mut self, thread: ThreadId)
        requires frame { HasFrame self.old.guest thread }
        requires lost { length self.old.lost + (length (top self.old.guest thread).locals
            + length (top self.old.guest thread).operands) < lost_room }
        ensures { self.new ≡ steps_thread self.old thread
            (without_top (thread_at self.old.guest thread))
            (frame_roots (top self.old.guest thread)) }
    {
        let t = &mut self.threads[thread.number() as usize];
        t.top().lose_all(&mut self.lost);
        t.drop_frame();
    }

    /// The exception that is thrown in a thread and not handled yet.
    pub fn pending(&self, thread: ThreadId) -> Option<ObjectId>
        requires { thread < length self.now.guest.threads }
        ensures { result ≡ (thread_at self.now.guest thread).pending }
    {
        self.threads[thread.number() as usize].pending()
    }

    /// Makes an exception pending in a thread, and loses the one that was.
    #[tactic(auto, using(crate::proofs::Unended::stays))]
    pub fn throw(&mut self, thread: ThreadId, o: ObjectId)
        requires thread { thread < length self.old.guest.threads }
        requires lost { length self.old.lost < lost_room }
        ensures new { self.new ≡ steps_thread self.old thread
            (with_pending (Some o) (thread_at self.old.guest thread))
            (option_to_list (thread_at self.old.guest thread).pending) }
        ensures few { length self.new.lost ≤ length self.old.lost + 1 }
    {
        let t = &mut self.threads[thread.number() as usize];
        self.lost.add_option(t.pending());
        t.set_pending(Some(o));
    }

    /// Takes the pending exception of a thread, and loses it.
    #[tactic(auto, using(crate::proofs::Unended::stays))]
    pub fn take_pending(&mut self, thread: ThreadId) -> Option<ObjectId>
        requires thread { thread < length self.old.guest.threads }
        requires lost { length self.old.lost < lost_room }
        ensures value { result ≡ (thread_at self.old.guest thread).pending }
        ensures new { self.new ≡ steps_thread self.old thread
            (with_pending None (thread_at self.old.guest thread))
            (option_to_list (thread_at self.old.guest thread).pending) }
        ensures few { length self.new.lost ≤ length self.old.lost + 1 }
    {
        let t = &mut self.threads[thread.number() as usize];
        let pending = t.pending();
        let lost = pending;
        self.lost.add_option(lost);
        t.set_pending(None);
        pending
    }

    /// Writes a slot of an object, loses the object that it referred to, and answers what stood there.
    pub fn set_slot<L: Ledger>(
        &mut self,
        o: ObjectId,
        i: u32,
        v: Value,
        visits: &mut Steps<L>,
    ) -> Value
        requires held { IsHeld self.old.heap o }
        requires slot { i < length (object_at self.old.heap o).slots }
        requires lost { length self.old.lost < lost_room }
        ensures value { result ≡ slot_of (object_at self.old.heap o) i }
        ensures new { self.new ≡ steps_object self.old o
            (with_slot i v (object_at self.old.heap o))
            (refs_of_value (slot_of (object_at self.old.heap o) i)) }
        ensures few { length self.new.lost ≤ length self.old.lost + 1 }
        ensures visits { visits.new ≡ visits.old + 1 }
    {
        let old = self.heap.set_slot(o, i, v, visits);
        let lost = old;
        self.lost.add_value(lost);
        old
    }

    /// What a static slot holds.
    pub fn static_slot(&self, i: u32) -> Value
        requires { i < length self.now.guest.statics }
        ensures { result ≡ static_at self.now.guest i }
    {
        self.statics[i as usize]
    }

    /// Writes a static slot, loses the object that it referred to, and answers what stood there.
    pub fn set_static(&mut self, i: u32, v: Value) -> Value
        requires slot { i < length self.old.guest.statics }
        requires lost { length self.old.lost < lost_room }
        ensures value { result ≡ static_at self.old.guest i }
        ensures new { self.new ≡ steps_guest self.old
            (with_static self.old.guest i v)
            (refs_of_value (static_at self.old.guest i)) }
        ensures few { length self.new.lost ≤ length self.old.lost + 1 }
    {
        let old = self.statics[i as usize];
        self.statics[i as usize] = v;
        let lost = old;
        self.lost.add_value(lost);
        old
    }

    /// How far a class is with its initialization.
    pub fn class_state(&self, class: ClassId) -> ClassState
        requires { class < length self.now.guest.classes }
        ensures { result ≡ class_state_at self.now.guest class }
    {
        self.classes[class.number() as usize]
    }

    /// Sets how far a class is.
    pub fn set_class_state(&mut self, class: ClassId, state: ClassState)
        requires { class < length self.old.guest.classes }
        ensures { self.new ≡ with_guest self.old (with_class_state self.old.guest class state) }
    {
        self.classes[class.number() as usize] = state;
    }

    /// The monitor of a class.
    pub fn class_monitor(&self, class: ClassId) -> Monitor
        requires { class < length self.now.guest.class_monitors }
        ensures { result ≡ class_monitor_at self.now.guest class }
    {
        self.class_monitors[class.number() as usize]
    }

    /// Writes the monitor of a class.
    pub fn set_class_monitor(&mut self, class: ClassId, monitor: Monitor)
        requires { class < length self.old.guest.class_monitors }
        ensures { self.new ≡ with_guest self.old (with_class_monitor self.old.guest class monitor) }
    {
        self.class_monitors[class.number() as usize] = monitor;
    }

    /// The object of the string of a constant, by its bytes.
    pub fn interned(&self, bytes: &[u8]) -> Option<ObjectId>
        ensures { result ≡ object_of self.now.guest.interned bytes.now }
    {
        self.interned.object(bytes)
    }

    /// The bytes of the string of a constant, by its object.
    pub fn text_of(&self, o: ObjectId) -> Option<&[u8]>
        ensures value { option_copied result ≡ text_in self.now.guest.interned o }
        ensures short { IfSome (option_copied result) (λ bytes. length bytes < 2 ^ 16) }
    {
        self.interned.text(o)
    }

    /// Makes an object the string of a constant, which has fewer than 2^16 bytes. Neither the bytes nor the object is one yet.
    /// After `NoMemory` the machine is as before.
    pub fn intern(&mut self, bytes: &[u8], o: ObjectId) -> Result<(), NoMemory>
        requires bytes { object_of self.old.guest.interned bytes.now ≡ None }
        requires object { text_in self.old.guest.interned o ≡ None }
        requires short { length bytes.now < 2 ^ 16 }
        ensures ok { OnOk result (self.new ≡ with_guest self.old
            (with_string self.old.guest bytes.now o)) }
        ensures err { OnErr result (self.new ≡ self.old) }
    {
        self.interned.add(bytes, o)
    }

    /// Lists the objects in root places: of each thread in order of start those of its frames, the topmost first, its
    /// pending exception and, where it has not ended, its entry slot and its Thread object; then those in static slots, and
    /// the strings of constants. What was in the list before is gone. After `NoMemory` it has some of them.
    pub fn roots(&self, room: &mut RootList) -> Result<(), NoMemory>
        ensures { OnOk result (room.new ≡ roots_of self.now.guest) }
    {
        room.clear();
        threads::list_roots(&self.threads, room)?;
        list_values(&self.statics, room)?;
        self.interned.list_roots(room)
    }
}
