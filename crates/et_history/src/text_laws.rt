//! What a flush leaves of texts. The law is a function with an empty body: what it promises is its contract.

ghost use Rattle.std.specs.Prelude.{ℕ, Bool};
ghost use Rattle.et_program.specs.Entries.{Linked};
ghost use Rattle.et_state.specs.State.{Kept};
ghost use Rattle.et_event.specs.SoundTexts.{HasSoundTexts};
ghost use Rattle.et_history.specs.Settings.{flushed_of};

/// A flush forgets the texts of what it takes out. Those that it leaves are sound: what has one is held, and may have it.
pub fn flushes_keep_texts()
    ensures { (p : Linked) (s : Kept) (here : ℕ → Bool) →
        HasSoundTexts p s → HasSoundTexts p (flushed_of here s) }
{}
