//! The exception table of a method.
ghost use Rattle.std.specs.Prelude.{◌≡◌, ◌<◌, ◌^◌};
ghost use Rattle.et_event.specs.Sites.{present_body};

use et_code::{Code, TableRow};
use et_program::MethodInfo;

/// The exception table of code. What the code has in a frame is counted in 16 bits (JVMS 4.7.3).
fn table_in(code: &Code) -> &[TableRow]
    ensures rows { result.now ≡ code.now.table }
    ensures locals { code.now.max_locals < 2 ^ 16 }
    ensures stack { code.now.max_stack < 2 ^ 16 }
{
    let raw = code.raw();
    // A number that is read is known to fit its type.
    let _stack = raw.max_stack;
    raw.table.as_slice()
}

/// The exception table of a method; it is empty where the method has no code.
pub(crate) fn table_of(method: &MethodInfo) -> &[TableRow]
    ensures rows { result.now ≡ (present_body method.now.code).table }
    ensures locals { (present_body method.now.code).max_locals < 2 ^ 16 }
    ensures stack { (present_body method.now.code).max_stack < 2 ^ 16 }
{
    match &method.code {
        Some(code) => table_in(code),
        None => &[],
    }
}
