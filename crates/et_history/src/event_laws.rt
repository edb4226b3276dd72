//! What each event does. Each law is a function with an empty body: what it promises is its contract.

ghost use Rattle.std.specs.Prelude.{◌<◌, ◌^◌};
ghost use Rattle.et_event.specs.Event.{event};
ghost use Rattle.et_history.specs.steps.EachEvent.{OfEachEvent};
ghost use Rattle.et_history.specs.steps.Changing.{KeepsMonitors, LeadsToSound};
ghost use Rattle.et_history.specs.steps.Records.{HasPlainStrings, TellsObjects};
ghost use Rattle.et_history.specs.steps.Steps.{Leads};
ghost use Rattle.et_history.specs.steps.Telling.{IsToldOf};
ghost use Rattle.et_history.specs.steps.Writes.{HasCause, TellsBesideOut, TellsWrites, WritesToReached};

/// Each event of a thread that has not ended, in a sound state of a program that may be run, is made of steps, in order, with
/// their records. Where the thread waits, the clock alone goes on. At the limits of the heap the event would be made of
/// steps, but what they lead to has no room.
pub fn events_are_made_of_steps()
    ensures { OfEachEvent (λ p s t.
        Leads (record { program = p; before = s; thread = t }) (event p s t)) }
{}

/// An event that is done, or in which a thread waits, takes the clock on by one; and each class and method that its records
/// name is one of the program.
pub fn events_are_told()
    ensures { OfEachEvent (λ p s t. IsToldOf p s (event p s t)) }
{}

/// The records of an event are of it and of its thread. Its allocations are of the objects that it makes, in order, each with
/// the number, the class, the length and the bytes that the object has in the next state. What other records name is held,
/// and was made before the record; what an update writes is a static, a slot of its object, or one of the two that the machine
/// itself uses. A thread that waits makes nothing and tells nothing. The class, the length and the number of slots of an object
/// never change.
pub fn events_tell_objects()
    ensures { OfEachEvent (λ p s t. HasPlainStrings p → TellsObjects p s t (event p s t)) }
{}

/// The U records of an event are its writes of references to slots of objects and to statics, in order: each tells which one
/// stood there and which one stands there then, and from what stood before the event to what stands after it nothing else
/// leads. So each write of a reference has its record, and no U record is without a write. A thread that waits writes nothing.
pub fn events_tell_writes()
    ensures { OfEachEvent (λ p s t. HasPlainStrings p → HasCause p → TellsWrites s (event p s t)) }
{}

/// What an event writes to is a static, or a slot of an object that is reached before the event or that the event makes. So
/// what stands in the slots of other objects stays.
pub fn events_write_to_what_is_reached()
    ensures { OfEachEvent (λ p s t. WritesToReached s (event p s t)) }
{}

/// No record of an event tells of the static of System.out.
pub fn events_tell_nothing_of_out()
    ensures { OfEachEvent (λ p s t. TellsBesideOut p (event p s t)) }
{}

/// Each event of a thread that has not ended enters and leaves the monitors that its instruction and its frames say, and
/// keeps every other; what it enters was open to its thread. After it, what is referred to is held.
pub fn events_keep_monitors()
    ensures { OfEachEvent (λ p s t.
        KeepsMonitors (record { program = p; before = s; thread = t }) (event p s t)) }
{}

/// Each event of a thread that has not ended leads from a sound state to a sound one, where it is done or the thread waits: what
/// the next state refers to is held too.
pub fn events_lead_to_sound_states()
    ensures { OfEachEvent (λ p s t. s.guest.clock < 2 ^ 40 → LeadsToSound p (event p s t)) }
{}
