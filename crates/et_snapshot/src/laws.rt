//! Laws of snapshots. These functions do nothing: their contracts are the laws.
ghost use Rattle.std.specs.Prelude.{◌≡◌, ◌≢◌, ◌↔◌, ℕ, List, Contains};
ghost use Rattle.std.specs.List.{sum_by};
ghost use Rattle.std.specs.List.Sorted.{IsStrictlySortedBy};
ghost use Rattle.std.specs.Map.{keys_of};
ghost use Rattle.std.specs.Ordering.{nat_cmp};
ghost use Rattle.et_base.specs.declared.line.TraceLine.{TraceLine};
ghost use Rattle.et_replay.specs.Curve.{live};
ghost use Rattle.et_text.specs.Rules.{IsGoodTrace};
ghost use Rattle.et_snapshot.specs.Snapshot.{content, slots_at, bytes_made, class_bytes, live_lines};

/// The slots that a snapshot shows of an object, or of statics, stand in rising order, and are exactly those that hold a
/// reference, each with what was written there last.
pub fn slots_are_contents()
    ensures rise { (lines : List TraceLine) (event object : ℕ) →
        IsStrictlySortedBy nat_cmp (keys_of (slots_at lines event object)) }
    ensures contents { (lines : List TraceLine) (event object slot target : ℕ) →
        Contains (slots_at lines event object) (slot, target)
        ↔ ((content lines event object slot ≡ target) × (target ≢ 0)) }
{}

/// The bytes of the lines of objects, added up, and those of the lines of classes are the bytes of the first line, which
/// are those of the live curve at the event.
pub fn bytes_are_live()
    ensures objects { (lines : List TraceLine) (event : ℕ) →
        bytes_made (live_lines lines event) ≡ live lines event }
    ensures classes { (lines : List TraceLine) (event : ℕ) → IsGoodTrace lines →
        sum_by (class_bytes (live_lines lines event)) lines ≡ live lines event }
{}
