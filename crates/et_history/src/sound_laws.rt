//! What each event keeps. Each law is a function with an empty body: what it promises is its contract.

ghost use Rattle.std.specs.Prelude.{◌≡◌, ℕ, ◌<◌, ◌^◌, Bool, false, List, length, Ok};
ghost use Rattle.et_event.specs.declared.rows.Row.{Row};
ghost use Rattle.et_event.specs.Event.{does, event};
ghost use Rattle.et_event.specs.Moments.{Moment};
ghost use Rattle.et_event.specs.Sites.{Site};
ghost use Rattle.et_program.specs.Entries.{Linked, method_at, is_static};
ghost use Rattle.et_program.specs.Resolution.{resolve_method, select, select_special};
ghost use Rattle.et_history.specs.soundness.Outcomes.{KeepsSound};
ghost use Rattle.et_history.specs.soundness.Methods.{IsMethod, IsInstanceMethod};
ghost use Rattle.et_history.specs.soundness.Places.{IsAtRow};
ghost use Rattle.et_event.specs.Runnable.{IsRunnable};
ghost use Rattle.et_history.specs.steps.EachEvent.{OfEachEvent};

// METHODS

/// What is resolved is a method of that name and descriptor; and what is selected at an object from a method that isn't static
/// is one of its name and descriptor that isn't static (JVMS 5.4.3.3, 5.4.3.4, 6.5 invokevirtual, invokeinterface,
/// invokespecial).
pub fn methods_keep_descriptors()
    ensures resolved { (p : Linked) (owner : ℕ) (b : Bool) (name descriptor : List ℕ) (m : ℕ) →
        resolve_method p owner b name descriptor ≡ Ok m → IsMethod p name descriptor m }
    ensures selected { (p : Linked) (c m : ℕ) (interface : Bool) (k : ℕ) →
        m < length p.methods → is_static p m ≡ false → select p c m interface ≡ Ok k →
        IsInstanceMethod p (method_at p m).name (method_at p m).descriptor k }
    ensures special { (p : Linked) (current named m k : ℕ) →
        m < length p.methods → is_static p m ≡ false → select_special p current named m ≡ Ok k →
        IsInstanceMethod p (method_at p m).name (method_at p m).descriptor k }
{}

// ROWS

/// Each instruction of the table leaves a sound state.
pub fn rows_keep_sound()
    ensures { (e : Moment) (at : Site) (r : Row) →
        IsAtRow e at r → IsRunnable e.program → KeepsSound e.program (does e at r) }
{}

// EVENTS

/// Each event of a thread that has not ended leads from a sound state to a sound one: an instruction, a step of an unwinding or
/// of an initializer, an entry, and the end of a thread.
pub fn events_keep_sound()
    ensures { OfEachEvent (λ p s t. s.guest.clock < 2 ^ 40 → KeepsSound p (event p s t)) }
{}
