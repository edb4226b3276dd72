//! One line of a text.
ghost use Rattle.std.specs.Prelude.{◌≡◌, ◌++◌, reverse, None, IfSome, IfNone, IfOk, IfErr};
ghost use Rattle.et_text.specs.Rules.{has_ended, AreFine};
ghost use Rattle.et_text.specs.Stream.{FirstLine, TakesBytes, RefusesLine};
ghost use Rattle.et_text.specs.Text.{IsOneLine};

use crate::fault::{AFTER, FORM, LineError, TraceFault};
use crate::reading::read_line;
use crate::rules::Rules;
use et_base::TraceLine;
use memchr::memchr;
use std::alloc::Global;

/// The first line, without its LF, and the bytes behind it.
pub fn first_line(bytes: &[u8]) -> Option<(&[u8], &[u8])>
    ensures found { IfSome result (λ cut. FirstLine bytes.now cut.0.now cut.1.now) }
    ensures none { IfNone result (IsOneLine bytes.now) }
{
    match memchr(b'\n', bytes) {
        Some(at) => Some((&bytes[..at], &bytes[at + 1..])),
        None => None,
    }
}

/// Takes the bytes of a whole line, and says whether it was the last one.
fn take_bytes(
    alloc: Global,
    rules: &mut Rules,
    ended: bool,
    bytes: &[u8],
) -> Result<bool, TraceFault>
    requires ended { ended ≡ has_ended (reverse rules.old.lines) }
    requires unharmed { rules.old.fault ≡ None }
    requires fine { AreFine 1 (reverse rules.old.lines) }
    ensures ok { IfOk result (TakesBytes rules.old rules.new bytes.now) }
    ensures err { IfErr result (RefusesLine rules.old bytes.now) }
{
    if ended {
        return Err(TraceFault::At {
            kind: AFTER,
            line: rules.next_number(),
        });
    }
    match read_line(alloc, bytes) {
        Ok(line) => {
            let last = matches!(&line, TraceLine::Finish { .. });
            rules.take(line)?;
            Ok(last)
        }
        Err(LineError::Form) => Err(TraceFault::At {
            kind: FORM,
            line: rules.next_number(),
        }),
        Err(LineError::Memory) => Err(TraceFault::NoMemory),
    }
}

/// Takes the line whose front was held back. What is held back after that means nothing.
pub fn take_rest(
    alloc: Global,
    rules: &mut Rules,
    ended: bool,
    held: &mut Vec<u8>,
    bytes: &[u8],
) -> Result<bool, TraceFault>
    requires ended { ended ≡ has_ended (reverse rules.old.lines) }
    requires unharmed { rules.old.fault ≡ None }
    requires fine { AreFine 1 (reverse rules.old.lines) }
    ensures ok { IfOk result (TakesBytes rules.old rules.new (held.old.items ++ bytes.now)) }
    ensures err { IfErr result (RefusesLine rules.old (held.old.items ++ bytes.now)) }
{
    if held.is_empty() {
        return take_bytes(alloc, rules, ended, bytes);
    }
    held.extend_from_slice(bytes)?;
    take_bytes(alloc, rules, ended, held.as_slice())
}
