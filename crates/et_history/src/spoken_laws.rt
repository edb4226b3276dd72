//! What each event of a state with texts does, in the words of the laws of the table. Each law is a function with an empty
//! body: what it promises is its contract.

ghost use Rattle.std.specs.Prelude.{◌<◌, ◌^◌};
ghost use Rattle.et_event.specs.SoundTexts.{HasSoundTexts};
ghost use Rattle.et_event.specs.Told.{event_with_texts};
ghost use Rattle.et_history.specs.steps.EachEvent.{OfEachEvent};
ghost use Rattle.et_history.specs.steps.Changing.{KeepsMonitors, LeadsToSound};
ghost use Rattle.et_history.specs.steps.Records.{HasPlainStrings, TellsObjects};
ghost use Rattle.et_history.specs.steps.Telling.{IsToldOf};
ghost use Rattle.et_history.specs.steps.Writes.{HasCause, WritesToReached};
ghost use Rattle.et_history.specs.texts.Texts.{LeadsToSoundTexts};
ghost use Rattle.et_history.specs.texts.Writing.{TellsOtherWrites};

/// An event that is done, or in which a thread waits, takes the clock on by one; and each class and method that its records
/// name is one of the program.
pub fn events_are_told()
    ensures { OfEachEvent (λ p s t. IsToldOf p s (event_with_texts p s t)) }
{}

/// The records of an event are of it and of its thread, and its allocations are of the objects that it makes: a string that a
/// builder makes, and the print stream that is made where System.out is read first, too. What other records name was made
/// before, and is held. The class, the length and the number of slots of an object never change.
pub fn events_tell_objects()
    ensures { OfEachEvent (λ p s t.
        HasPlainStrings p → TellsObjects p s t (event_with_texts p s t)) }
{}

/// The U records of an event are its writes of references to slots of objects and to statics, in order, but for the static of
/// System.out: no record tells of that, neither where it is made nor later, and it is no write of any other place.
pub fn events_tell_writes()
    ensures { OfEachEvent (λ p s t.
        HasPlainStrings p → HasCause p → TellsOtherWrites p s (event_with_texts p s t)) }
{}

/// What an event tells that it writes to is a static, or a slot of an object that is reached before the event or that the
/// event makes.
pub fn events_write_to_what_is_reached()
    ensures { OfEachEvent (λ p s t. WritesToReached s (event_with_texts p s t)) }
{}

/// Each event of a thread that has not ended enters and leaves the monitors that its instruction and its frames say, and
/// keeps every other: no method of texts enters or leaves one. After it, what is referred to is held.
pub fn events_keep_monitors()
    ensures { OfEachEvent (λ p s t.
        KeepsMonitors (record { program = p; before = s; thread = t }) (event_with_texts p s t)) }
{}

/// Each event of a thread that has not ended leads from a sound state to a sound one, where it is done or the thread waits.
pub fn events_lead_to_sound_states()
    ensures { OfEachEvent (λ p s t.
        s.guest.clock < 2 ^ 40 → LeadsToSound p (event_with_texts p s t)) }
{}

/// Texts stay sound: after each event, what was given a text is held and is a string or a string builder, no text is longer
/// than a text may be, and all together have no more units than they may have.
pub fn texts_stay_sound()
    ensures { OfEachEvent (λ p s t.
        HasSoundTexts p s → LeadsToSoundTexts p (event_with_texts p s t)) }
{}
