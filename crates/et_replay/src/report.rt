//! The line of a report.
use crate::model::{Kind, Policy, Report, Totals};
use std::fmt;

/// The end of the line of a report.
#[derive(Clone, Copy)]
struct End(Option<u64>);

impl fmt::Display for End {
    ghost use Rattle.std.specs.Prelude.{Some};
    ghost use Rattle.et_replay.specs.Lines.{exhausted_text};

    ghost output = { λ e. Some (exhausted_text e.0) };

    fn fmt<W: fmt::Write>(&self, f: &mut fmt::Formatter<W>) -> fmt::Result {
        match self.0 {
            Some(event) => write!(f, " exhausted={event}"),
            None => Ok(()),
        }
    }
}

impl fmt::Display for Report {
    ghost use Rattle.std.specs.Prelude.{Some};
    ghost use Rattle.et_replay.specs.Lines.{report_text};

    ghost output = { λ r. Some (report_text r) };

    fn fmt<W: fmt::Write>(&self, f: &mut fmt::Formatter<W>) -> fmt::Result {
        let Policy {
            kind,
            first,
            second: old,
        } = self.policy;
        let Totals {
            minor,
            major,
            kept,
            freed,
            peak,
            exhausted,
        } = self.totals;
        let end = End(exhausted);
        match kind {
            Kind::MarkSweep => write!(
                f,
                "mark-sweep capacity={first} collections={major} marked={kept} swept={freed} peak={peak}{end}"
            ),
            Kind::SemiSpace => write!(
                f,
                "semispace capacity={first} collections={major} copied={kept} freed={freed} peak={peak}{end}"
            ),
            Kind::Generational => write!(
                f,
                "generational nursery={first} old={old} minor={minor} major={major} promoted={kept} swept={freed} peak={peak}{end}"
            ),
            Kind::RefCount => write!(
                f,
                "refcount capacity={first} leaked={kept} freed={freed} peak={peak}{end}"
            ),
        }
    }
}
