//! Plain instructions: those that change nothing but the topmost frame, and go on behind. Most are.
ghost use Rattle.std.specs.Prelude.{◌≡◌, true, IfSome, Some};
ghost use Rattle.et_event.specs.Table.{row_of as row_in_table};
ghost use Rattle.et_event.specs.declared.rows.Row.TheVariants as rows;
ghost use Rattle.et_verify.specs.Leads.{goes_past};

use et_event::{FrameRow, Row, row_of};

/// What a plain instruction with an opcode does; `None` where there is none.
#[inline(always)]
pub(crate) fn plain_row(opcode: u8) -> Option<FrameRow>
    ensures row { IfSome result (λ r. row_in_table opcode ≡ Some (rows.Frame r)) }
    ensures past { IfSome result (λ r. goes_past (rows.Frame r) ≡ true) }
{
    match row_of(opcode)? {
        Row::Frame(FrameRow::Branch(_) | FrameRow::Switch) => None,
        Row::Frame(row) => Some(row),
        _ => None,
    }
}
