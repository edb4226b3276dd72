//! What calls take of the operands, and give (JVMS 2.11.8, 4.3.3).
ghost use Rattle.std.specs.Prelude.{◌≡◌, ◌<◌, ◌^◌, [], ◌∷◌, IfOk};
ghost use Rattle.et_event.specs.Calls.{is_static_call as calls_static};
ghost use Rattle.et_event.specs.Sites.{natural_of, pool_of_class};
ghost use Rattle.et_verify.specs.Calling.{arguments_taken, call_taken, called};
ghost use Rattle.et_verify.specs.Effects.{call_effect};
ghost use Rattle.et_verify.specs.Steps.{IsMove, moved_where};

use crate::effects::kind_given;
use crate::operands::{give_some, take};
use et_base::NoMemory;
use et_event::{CallKind, Operand, Site, index_of};
use et_flow::Types;
use et_pool::CallShape;
use et_program::Program;

/// Whether an instruction calls a static method.
fn is_static_call(kind: CallKind) -> bool
    ensures { result ≡ calls_static kind }
{
    match kind {
        CallKind::Static => true,
        CallKind::Virtual | CallKind::Special | CallKind::Interface => false,
    }
}

/// Takes an argument of a kind; `false` where there is no such operand.
fn take_argument(types: &mut Types, kind: Option<Operand>) -> bool
    ensures { IsMove (arguments_taken (kind ∷ [])) types.old types.new result }
{
    match kind {
        Some(kind) => take(types, kind),
        None => false,
    }
}

/// Takes the arguments of these kinds, of which the last is the topmost operand. `false` where one is no such operand; some
/// entries may be gone then.
fn take_arguments(types: &mut Types, kinds: &[Option<Operand>]) -> bool
    ensures { IsMove (arguments_taken kinds.now) types.old types.new result }
{
    for taken in 0..kinds.len() {
        if !take_argument(types, kinds[kinds.len() - 1 - taken]) {
            return false;
        }
    }
    true
}

/// Takes what a call takes. `false` where it isn't there; some entries may be gone then.
fn take_call(types: &mut Types, shape: &CallShape, is_static: bool) -> bool
    ensures { IsMove (call_taken is_static shape.now) types.old types.new result }
{
    if !take_arguments(types, shape.kinds()) {
        return false;
    }
    is_static || take(types, Operand::Reference)
}

/// Takes what a call of this shape takes, and gives what it leaves. `false` where that isn't there; some entries may be gone
/// then.
fn step_shape(types: &mut Types, shape: &CallShape, is_static: bool) -> Result<bool, NoMemory>
    ensures { IfOk result (IsMove (called is_static shape.now) types.old types.new) }
{
    if !take_call(types, shape, is_static) {
        return Ok(false);
    }
    give_some(types, kind_given(shape.returned()))?;
    Ok(true)
}

/// Takes what an invoke takes, and gives what it leaves. `false` where it names no method, or its operands aren't there; some
/// entries may be gone then.
#[tactic(auto, using(crate::proofs::Invoked::call_shaped, crate::proofs::Invoked::call_unshaped))]
pub(crate) fn step_call(
    types: &mut Types,
    program: &Program,
    site: &Site<'_>,
    kind: CallKind,
) -> Result<bool, NoMemory>
    requires index { natural_of site.now.instr.first < 2 ^ 16 }
    requires pool { site.now.pool ≡ pool_of_class program.now site.now.class }
    ensures { IfOk result
        (IsMove (moved_where (call_effect site.now (calls_static kind))) types.old types.new) }
{
    let Some(shape) = program.call_shape(site.class(), index_of(site)) else {
        return Ok(false);
    };
    let done = step_shape(types, shape, is_static_call(kind))?;
    Ok(done)
}
