//! The law of drafts: how an event goes from one sound state to the next, call by call. Each law is a function with an
//! empty body: what it promises is its contract.
//!
//! An event is under way from a sound state where what has happened so far is a legal step of the object graph, but that
//! its new objects need not be reached yet, and where the state to which it has come is sound. It begins so, each call keeps
//! it so, and an event that ends with all its new objects reached was a legal step.

ghost use Rattle.std.specs.Prelude.{◌≡◌, ◌<◌, ◌↔◌, ℕ, Bool, true, List, [], ◌++◌, Option, Some, None, Contains, length, option_to_list};
ghost use Rattle.et_base.specs.declared.value.Value.{Value};
ghost use Rattle.et_graph.specs.Graph.{IsReached, AreDead};
ghost use Rattle.et_graph.specs.Steps.{IsLegalStep, IsTie, IsFlush};
ghost use Rattle.et_heap.specs.declared.monitor.Monitor.{Monitor};
ghost use Rattle.et_heap.specs.Objects.{ObjectState, Objects, IsHeld, object_at, with_object_at, new_object, slot_of, with_slot, with_referent, with_queue, with_monitor, referent_value};
ghost use Rattle.et_heap.specs.Queues.{polled, first_value};
ghost use Rattle.et_heap.specs.Refs.{refs_of_value, refs_of, leads_to};
ghost use Rattle.et_state.specs.Threads.{FrameState, at_pc, pushed, popped, without_operands, with_local, operand_of, local_of, in_clinit, without_top, entered_by, with_pending, as_entered, as_ended, ended_roots, new_thread};
ghost use Rattle.et_state.specs.ThreadRoots.{frame_roots};
ghost use Rattle.et_state.specs.NewFrames.{entered_over};
ghost use Rattle.et_state.specs.declared.new_frame.NewHead.{NewHead};
ghost use Rattle.et_state.specs.declared.class_state.ClassState.{ClassState};
ghost use Rattle.et_state.specs.State.{GuestState, Kept, State, MachineState, kept_of};
ghost use Rattle.et_state.specs.Words.{thread_at, with_new_thread, top, HasFrame, IsUnended, static_at, with_static, with_class_state, with_class_monitor, with_string, with_guest, begun, losing, steps_guest, steps_thread, steps_top, steps_object, with_new_object, with_object};
ghost use Rattle.et_state.specs.Roots.{roots_of, graph_of, graph, fresh_of, state_step};
ghost use Rattle.et_state.specs.Sound.{IsSound};
ghost use Rattle.et_state.specs.Moves.{Moves, WasThere, MayBeTied, IsUnderWay, IsOnWay, AreInHeap, WereThere, IsEventOf};
ghost use Rattle.et_state.specs.Past.{whole_step, IsPast, remaining, flushed_heap, cleared_state, flushed};

/// `Machine::begin_event`: nothing but the clock has changed.
pub fn begin()
    ensures { (m : MachineState) → IsSound (kept_of m) → IsOnWay (kept_of m) (begun m) }
{}

/// A call that changes root places. What it puts in is held. What it takes out was reached or is new, and is lost.
pub fn guest()
    ensures { (s x : Kept) (lost : List ℕ) (g : GuestState) (l : List ℕ) → IsUnderWay s x lost →
        Moves (IsHeld x.heap) (WasThere s x) (roots_of x.guest) (roots_of g) l →
        IsUnderWay s (record { heap = x.heap; guest = g }) (lost ++ l) }
{}

/// A call that changes an object, which was reached or is new. What the object leads to from then on is held, and was reached
/// or is new. What it leads to no more was reached or is new, and is lost. What the object refers to weakly is held.
pub fn object()
    ensures { (s x : Kept) (lost : List ℕ) (o : ℕ) (y : ObjectState) (l : List ℕ) →
        IsUnderWay s x lost → IsHeld x.heap o →
        WasThere s x o → Moves (MayBeTied s x) (WasThere s x) (leads_to (object_at x.heap o))
        (leads_to y) l → ((r : ℕ) → y.referent ≡ Some r → IsHeld x.heap r) →
        IsUnderWay s (record { heap = with_object_at x.heap o y; guest = x.guest }) (lost ++ l) }
{}

/// A call after which an object leads to what it led to. What the object refers to weakly is held.
pub fn beside()
    ensures { (s x : Kept) (lost : List ℕ) (o : ℕ) (y : ObjectState) → IsUnderWay s x lost →
        IsHeld x.heap o → leads_to y ≡ leads_to (object_at x.heap o) →
        ((r : ℕ) → y.referent ≡ Some r → IsHeld x.heap r) →
        IsUnderWay s (record { heap = with_object_at x.heap o y; guest = x.guest }) lost }
{}

/// `Heap::make_object` and `Heap::make_array`.
pub fn make()
    ensures { (s : Kept) (m : MachineState) (class elements slots : ℕ) → IsOnWay s m →
        IsOnWay s (with_new_object m (new_object class elements slots)) }
{}

/// `Machine::lose`, of what was reached or is new.
pub fn lose()
    ensures { (s : Kept) (m : MachineState) (l : List ℕ) →
        IsOnWay s m → WereThere s m l → IsOnWay s (losing m l) }
{}

/// `Machine::set_pc`.
pub fn set_pc()
    ensures { (s : Kept) (m : MachineState) (t pc : ℕ) → IsOnWay s m → HasFrame m.guest t →
        IsOnWay s (steps_top m t (at_pc pc (top m.guest t)) []) }
{}

/// `Machine::push`, of what is held.
pub fn push()
    ensures { (s : Kept) (m : MachineState) (t : ℕ) (v : Value) → IsOnWay s m → HasFrame m.guest t →
        AreInHeap m (refs_of_value v) →
        IsOnWay s (steps_top m t (pushed v (top m.guest t)) []) }
{}

/// `Machine::pop`, of what was reached or is new.
pub fn pop()
    ensures { (s : Kept) (m : MachineState) (t : ℕ) →
        IsOnWay s m → HasFrame m.guest t → 0 < length (top m.guest t).operands →
        WereThere s m (refs_of_value (operand_of (top m.guest t) 0)) → IsOnWay s
        (steps_top m t (popped 1 (top m.guest t)) (refs_of_value (operand_of (top m.guest t) 0))) }
{}

/// `Machine::clear_operands`, where the operands refer to what was reached or is new.
pub fn clear_operands()
    ensures { (s : Kept) (m : MachineState) (t : ℕ) → IsOnWay s m →
        HasFrame m.guest t → WereThere s m (refs_of (top m.guest t).operands) → IsOnWay s
        (steps_top m t (without_operands (top m.guest t)) (refs_of (top m.guest t).operands)) }
{}

/// `Machine::set_local`, to what is held, over what was reached or is new.
pub fn set_local()
    ensures { (s : Kept) (m : MachineState) (t i : ℕ) (v : Value) → IsOnWay s m →
        HasFrame m.guest t → i < length (top m.guest t).locals → AreInHeap m (refs_of_value v) →
        WereThere s m (refs_of_value (local_of (top m.guest t) i)) → IsOnWay s (steps_top m t
        (with_local i v (top m.guest t)) (refs_of_value (local_of (top m.guest t) i))) }
{}

/// `Machine::enter_frame`, with what is held.
pub fn enter_frame()
    ensures { (s : Kept) (m : MachineState) (t : ℕ) (f : FrameState) →
        IsOnWay s m → t < length m.guest.threads → AreInHeap m (frame_roots f) →
        IsOnWay s (steps_thread m t (entered_by f (thread_at m.guest t)) []) }
{}

/// `Machine::enter_over`, with a lock that is held.
pub fn enter_over()
    ensures { (s : Kept) (m : MachineState) (t : ℕ) (h : NewHead) (count : ℕ) →
        IsOnWay s m → HasFrame m.guest t → AreInHeap m (option_to_list h.lock) →
        IsOnWay s (steps_thread m t (entered_over h count (thread_at m.guest t)) []) }
{}

/// `Machine::enter_clinit`.
pub fn enter_clinit()
    ensures { (s : Kept) (m : MachineState) (t method room locals : ℕ) → IsOnWay s m →
        HasFrame m.guest t → (top m.guest t).locals ≡ [] → (top m.guest t).operands ≡ [] →
        IsOnWay s (steps_top m t (in_clinit method room locals (top m.guest t)) []) }
{}

/// `Machine::drop_frame`, where the frame refers to what was reached or is new.
pub fn drop_frame()
    ensures { (s : Kept) (m : MachineState) (t : ℕ) →
        IsOnWay s m → HasFrame m.guest t → WereThere s m (frame_roots (top m.guest t)) → IsOnWay s
        (steps_thread m t (without_top (thread_at m.guest t)) (frame_roots (top m.guest t))) }
{}

/// `Machine::throw`, of what is held.
pub fn throw()
    ensures { (s : Kept) (m : MachineState) (t o : ℕ) → IsOnWay s m → t < length m.guest.threads →
        IsHeld m.heap o → WereThere s m (option_to_list (thread_at m.guest t).pending) →
        IsOnWay s (steps_thread m t (with_pending (Some o) (thread_at m.guest t))
        (option_to_list (thread_at m.guest t).pending)) }
{}

/// `Machine::take_pending`, of what was reached or is new.
pub fn take_pending()
    ensures { (s : Kept) (m : MachineState) (t : ℕ) → IsOnWay s m → t < length m.guest.threads →
        WereThere s m (option_to_list (thread_at m.guest t).pending) → IsOnWay s (steps_thread m t
        (with_pending None (thread_at m.guest t)) (option_to_list (thread_at m.guest t).pending)) }
{}

/// `Machine::set_entered`, where the entry slot holds what was reached or is new.
pub fn set_entered()
    ensures { (s : Kept) (m : MachineState) (t : ℕ) → IsOnWay s m → IsUnended m.guest t →
        WereThere s m (option_to_list (thread_at m.guest t).entry) → IsOnWay s (steps_thread m t
        (as_entered (thread_at m.guest t)) (option_to_list (thread_at m.guest t).entry)) }
{}

/// `Machine::end_thread`, where the thread's own root places hold what was reached or is new.
pub fn end_thread()
    ensures { (s : Kept) (m : MachineState) (t : ℕ) → IsOnWay s m →
        IsUnended m.guest t → WereThere s m (ended_roots (thread_at m.guest t)) → IsOnWay s
        (steps_thread m t (as_ended (thread_at m.guest t)) (ended_roots (thread_at m.guest t))) }
{}

/// `Machine::start_thread`, with an object that is held.
pub fn start_thread()
    ensures { (s : Kept) (m : MachineState) (o : ℕ) → IsOnWay s m → IsHeld m.heap o →
        IsOnWay s (with_guest m (with_new_thread m.guest (new_thread None (Some o)))) }
{}

/// `Machine::set_static`, to what is held, over what was reached or is new.
pub fn set_static()
    ensures { (s : Kept) (m : MachineState) (i : ℕ) (v : Value) →
        IsOnWay s m → i < length m.guest.statics →
        AreInHeap m (refs_of_value v) → WereThere s m (refs_of_value (static_at m.guest i)) →
        IsOnWay s (steps_guest m (with_static m.guest i v) (refs_of_value (static_at m.guest i))) }
{}

/// `Machine::set_class_state`.
pub fn set_class_state()
    ensures { (s : Kept) (m : MachineState) (class : ℕ) (x : ClassState) → IsOnWay s m →
        IsOnWay s (with_guest m (with_class_state m.guest class x)) }
{}

/// `Machine::set_class_monitor`.
pub fn set_class_monitor()
    ensures { (s : Kept) (m : MachineState) (class : ℕ) (x : Monitor) → IsOnWay s m →
        IsOnWay s (with_guest m (with_class_monitor m.guest class x)) }
{}

/// `Machine::intern`, of an object that is held.
pub fn intern()
    ensures { (s : Kept) (m : MachineState) (text : List ℕ) (o : ℕ) →
        IsOnWay s m → IsHeld m.heap o → IsOnWay s (with_guest m (with_string m.guest text o)) }
{}

/// `Machine::set_slot`, of an object that was reached or is new, to what is held and was reached or is new, over what was
/// reached or is new. `Heap::set_slot` and then `Machine::lose` of the old target come to the same.
pub fn set_slot()
    ensures { (s : Kept) (m : MachineState) (o i : ℕ) (v : Value) → IsOnWay s m →
        IsHeld m.heap o → WasThere s (kept_of m) o → i < length (object_at m.heap o).slots →
        AreInHeap m (refs_of_value v) → WereThere s m (refs_of_value v) →
        WereThere s m (refs_of_value (slot_of (object_at m.heap o) i)) → IsOnWay s (steps_object m o
        (with_slot i v (object_at m.heap o)) (refs_of_value (slot_of (object_at m.heap o) i))) }
{}

/// `Heap::set_slot`, of such an object and to such a value, where the old target is on the list of the lost ones already.
pub fn heap_set_slot()
    ensures { (s : Kept) (m : MachineState) (o i : ℕ) (v : Value) → IsOnWay s m →
        IsHeld m.heap o → WasThere s (kept_of m) o → i < length (object_at m.heap o).slots →
        AreInHeap m (refs_of_value v) → WereThere s m (refs_of_value v) →
        ((r : ℕ) → Contains (refs_of_value (slot_of (object_at m.heap o) i)) r →
        Contains m.lost r) → IsOnWay s (with_object m o (with_slot i v (object_at m.heap o))) }
{}

/// `Heap::set_referent`, to what is held. A weak reference is no pair of the graph.
pub fn set_referent()
    ensures { (s : Kept) (m : MachineState) (o : ℕ) (r : Option ℕ) → IsOnWay s m → IsHeld m.heap o →
        AreInHeap m (option_to_list r) →
        IsOnWay s (with_object m o (with_referent r (object_at m.heap o))) }
{}

/// `Heap::set_queue`, of an object that was reached or is new, to what is held and was reached or is new, and then
/// `Machine::lose` of the queue before, which was reached or is new.
pub fn set_queue()
    ensures { (s : Kept) (m : MachineState) (o : ℕ) (q : Option ℕ) → IsOnWay s m →
        IsHeld m.heap o → WasThere s (kept_of m) o →
        AreInHeap m (option_to_list q) → WereThere s m (option_to_list q) →
        WereThere s m (refs_of_value (referent_value (object_at m.heap o).queue)) → IsOnWay s
        (steps_object m o (with_queue q (object_at m.heap o))
        (refs_of_value (referent_value (object_at m.heap o).queue))) }
{}

/// `Heap::poll`, of a queue that was reached or is new, and then `Machine::lose` of the reference that it takes out, which
/// was reached or is new.
pub fn poll()
    ensures { (s : Kept) (m : MachineState) (q : ℕ) → IsOnWay s m → IsHeld m.heap q →
        WasThere s (kept_of m) q →
        WereThere s m (refs_of_value (first_value (object_at m.heap q).waiting)) →
        IsOnWay s (record m {
          heap = polled q m.heap;
          lost = m.lost ++ refs_of_value (first_value (object_at m.heap q).waiting);
        }) }
{}

/// `Heap::set_monitor`.
pub fn set_monitor()
    ensures { (s : Kept) (m : MachineState) (o : ℕ) (x : Monitor) → IsOnWay s m → IsHeld m.heap o →
        IsOnWay s (with_object m o (with_monitor x (object_at m.heap o))) }
{}

/// An event under way whose new objects are all reached is a legal step, and leaves a sound state.
pub fn end()
    ensures { (s x : Kept) (lost : List ℕ) → IsUnderWay s x lost →
        ((o : ℕ) → Contains (fresh_of s x) o → IsReached (graph_of x) o) → IsEventOf s x lost }
{}

/// A step that is legal over what is kept is legal over it and the reported objects.
pub fn whole()
    ensures { (s x : Kept) (lost : List ℕ) (reported : Objects) → IsLegalStep (graph_of s)
        (state_step s x lost) → IsLegalStep (graph (record { kept = s; reported = reported }))
        (whole_step reported x (fresh_of s x) lost) }
{}

/// An event keeps what is reported apart from what is held.
pub fn past()
    ensures { (s x : Kept) (lost : List ℕ) (reported : Objects) → IsUnderWay s x lost →
        IsPast s.heap reported → IsPast x.heap reported }
{}

/// A flush of a state is a flush of its graph and then a tie. The test says of each object that is held whether it is
/// reached. First what isn't reached is reported, and weak references to it become null.
pub fn flush()
    ensures { (s : State) (here : ℕ → Bool) (reports : List ℕ) →
        IsSound s.kept → IsPast s.kept.heap s.reported →
        ((o : ℕ) → IsHeld s.kept.heap o → (here o ≡ true) ↔ IsReached (graph s) o) →
        AreDead (graph s) reports → IsFlush (graph s) reports (graph (cleared_state here s)) }
{}

/// Then the references that lost their referents go to their queues, and what that ties is reached.
pub fn flush_ties()
    ensures { (s : State) (here : ℕ → Bool) → IsSound s.kept → IsPast s.kept.heap s.reported →
        ((o : ℕ) → IsHeld s.kept.heap o → (here o ≡ true) ↔ IsReached (graph s) o) →
        IsTie (graph (cleared_state here s)) (graph (flushed here s)) }
{}

/// The same of what is kept alone.
pub fn flush_ties_kept()
    ensures { (s : Kept) (here : ℕ → Bool) → IsSound s →
        ((o : ℕ) → IsHeld s.heap o → (here o ≡ true) ↔ IsReached (graph_of s) o) →
        IsTie (graph_of (record { heap = remaining here 0 s.heap; guest = s.guest }))
        (graph_of (record { heap = flushed_heap here s.heap; guest = s.guest })) }
{}

/// A flush leaves a sound state ..
pub fn flush_sound()
    ensures { (s : Kept) (here : ℕ → Bool) → IsSound s →
        ((o : ℕ) → IsHeld s.heap o → (here o ≡ true) ↔ IsReached (graph_of s) o) →
        IsSound (record { heap = flushed_heap here s.heap; guest = s.guest }) }
{}

/// .. and keeps what is reported apart from what is held.
pub fn flush_past()
    ensures { (s : State) (here : ℕ → Bool) → IsPast s.kept.heap s.reported →
        IsPast (flushed here s).kept.heap (flushed here s).reported }
{}

/// What is reached over all objects is reached over those that are held.
pub fn reached_kept()
    ensures { (s : State) → IsSound s.kept → IsPast s.kept.heap s.reported →
        (o : ℕ) → IsReached (graph s) o → IsReached (graph_of s.kept) o }
{}
