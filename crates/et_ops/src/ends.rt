//! How a plain instruction ends over the frame that runs.
ghost use Rattle.std.specs.Prelude.{◌≡◌, if◌then◌else◌};
ghost use Rattle.et_ops.specs.declared.ends.PlainEnd.TheVariants as ends;
ghost use Rattle.et_ops.specs.Plain.{is_done as done_there};

/// What becomes of a plain instruction that is done over the frame that runs.
#[derive(Clone, Copy, Debug, PartialEq, Eq)]
pub enum PlainEnd {
    /// It is done, and changed nothing but the frame.
    Done,
    /// It has no meaning, and nothing was done.
    IllTyped,
    /// It changes more than the frame, and nothing was done: it loads a string of the pool, or divides by 0.
    More,
}

impl PlainEnd {
    /// Whether it is done.
    #[inline(always)]
    pub fn is_done(self) -> bool
        ensures { result ≡ done_there self }
    {
        matches!(self, PlainEnd::Done)
    }
}

/// The end of an instruction that is done, or has no meaning.
#[inline(always)]
pub(crate) fn end_of(done: bool) -> PlainEnd
    ensures { result ≡ (if done then ends.Done else ends.IllTyped) }
{
    if done {
        PlainEnd::Done
    } else {
        PlainEnd::IllTyped
    }
}
