//! A good trace.
ghost use Rattle.std.specs.Prelude.{◌≡◌};
ghost use Rattle.et_text.specs.Rules.{IsGoodTrace};

use et_base::TraceLine;
use std::marker::Model;

/// The lines of a trace of version 1 or 2 that keeps every rule. A contract sees it as their list.
#[derive(Drop)]
pub struct Trace {
    lines: Vec<TraceLine>,
}

impl Model for Trace {
    ghost use Rattle.std.specs.Prelude.{List};
    ghost use Rattle.et_base.specs.declared.line.TraceLine.{TraceLine};
    ghost use Rattle.et_text.specs.Rules.{IsGoodTrace};

    ghost Value = { List TraceLine };

    ghost view = { λ t. t.lines.items };

    ghost invariant = { λ t. IsGoodTrace t.lines.items };
}

impl Trace {
    /// The trace of these lines.
    pub fn of(lines: Vec<TraceLine>) -> Trace
        requires good { IsGoodTrace lines.items }
        ensures { result ≡ lines.items }
    {
        Trace { lines }
    }

    /// The lines, in order.
    pub fn lines(&self) -> &[TraceLine]
        ensures value { result.now ≡ self.now }
        ensures good { IsGoodTrace self.now }
    {
        self.lines.as_slice()
    }
}
