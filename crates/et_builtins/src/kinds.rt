//! Which built-in method a method without code is.
ghost use Rattle.std.specs.Prelude.{◌≡◌, ◌<◌, ◌≤◌, length, IfSome};
ghost use Rattle.et_program.specs.BuiltIns.{built_in_of as kind_of};
ghost use Rattle.et_program.specs.Entries.{method_at};
ghost use Rattle.et_event.specs.Operands.{returned_width};
ghost use Rattle.et_event.specs.Sound.{returned_of};
ghost use Rattle.et_event.specs.BuiltIns.{entries_answered};

use et_base::MethodId;
use et_program::{BuiltIn, Program};

/// The built-in method that a method without code is; none where it is abstract, or no built-in. It answers no more entries
/// than the descriptor of the method says.
pub(crate) fn built_in_of(program: &Program, method: MethodId) -> Option<BuiltIn>
    requires { method < length program.now.methods }
    ensures value { result ≡ kind_of (method_at program.now method) }
    ensures width { IfSome result
        (λ b. entries_answered b ≤ returned_width (returned_of (method_at program.now method))) }
{
    program.built_in(method)
}
