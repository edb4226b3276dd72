//! The methods that are called: those with code are entered, a built-in one is done, and others throw (JVMS 2.11.8, 5.5).
ghost use Rattle.std.specs.Prelude.{◌≡◌, ◌+◌, ◌<◌, ◌≤◌, if◌then◌else◌, IfOk};
ghost use Rattle.et_class.specs.Names.{has as has_flag};
ghost use Rattle.et_class.specs.declared.flags.TheConstants.{NATIVE as NATIVE_FLAG};
ghost use Rattle.et_event.specs.Answered.{EventAnswers};
ghost use Rattle.et_event.specs.Calls.{arguments_of, enters_method};
ghost use Rattle.et_event.specs.declared.errors.GuestError.TheVariants as errors;
ghost use Rattle.et_event.specs.Moments.{moment, begins};
ghost use Rattle.et_event.specs.Sites.{Site};
ghost use Rattle.et_event.specs.InitializationOrder.{IsInOrder};
ghost use Rattle.et_calls.specs.Asked.{MayInvoke};
ghost use Rattle.et_builtins.specs.Calling.{MayCall};
ghost use Rattle.et_builtins.specs.Plans.{IsCallPlan, call_planned};
ghost use Rattle.et_builtins.specs.declared.plans.CallPlan.TheVariants as plans;

use crate::entering::enter_code;
use crate::new_frames::{Entered, Passed};
use et_base::{NoMemory, Steps, ThreadId};
use et_builtins::{Call, built_in_method_event};
use et_class::flags::{NATIVE, has};
use et_event::{GuestError, throw_error};
use et_initialize::{Need, begin_class_event, need_of, throw_after};
use et_program::{MethodInfo, Program};
use et_state::{EventEnd, Lines, Machine};
use std::alloc::Global;
use std::sync::ledger::Ledger;

/// What is thrown where a method without code that is not built in is called: a native one is not found (JVMS 2.11.8), and
/// another one is abstract (JVMS 5.4.6).
pub(crate) fn codeless_error(info: &MethodInfo) -> GuestError
    ensures { result ≡ (if has_flag info.now.flags
        NATIVE_FLAG then errors.UnsatisfiedLinkError else errors.AbstractMethodError) }
{
    if has(info.flags, NATIVE) {
        GuestError::UnsatisfiedLinkError
    } else {
        GuestError::AbstractMethodError
    }
}

/// The event in which a selected method is called that needs no class (JVMS 2.6, 2.11.8, 2.11.10): one without code is done,
/// where it is built in, and else throws. After `NoMemory` the event may be half done.
pub(crate) fn enter_event<L: Ledger>(
    alloc: Global,
    program: &Program,
    machine: &mut Machine,
    thread: ThreadId,
    call: Call,
    out: &mut Lines,
    visits: &mut Steps<L>,
) -> Result<EventEnd, NoMemory>
    requires call { MayCall program.now machine.old thread call }
    requires order { IsInOrder program.now }
    ensures ok { IfOk result (λ end. (at : Site) → at.next ≡ call.next → EventAnswers (enters_method
        (moment program.now machine.old thread) at (begins (moment program.now machine.old thread))
        (arguments_of (moment program.now machine.old thread) call.count) call.method)
        end machine.old machine.new out.old out.new) }
    ensures visits { visits.new ≤ visits.old + 3 }
{
    let info = program.method(call.method);
    match &info.code {
        Some(code) => {
            let entered = Entered {
                method: call.method,
                info,
                code,
                passed: Passed::Operands(call.count),
                classes: &[],
            };
            enter_code(alloc, program, machine, thread, &entered, out, visits)
        }
        None if has(info.flags, NATIVE) => {
            let error = GuestError::UnsatisfiedLinkError;
            throw_error(program, machine, thread, error, out)
        }
        None => built_in_method_event(program, machine, thread, call, out, visits),
    }
}

/// The event of a call of a static method whose class is untouched (JVMS 5.5, 2.6, 2.11.8, 2.11.10): a quiet class becomes
/// done and the method is called, and another one begins. After `NoMemory` the event may be half done.
pub(crate) fn initialize_event<L: Ledger>(
    alloc: Global,
    program: &Program,
    machine: &mut Machine,
    thread: ThreadId,
    call: Call,
    out: &mut Lines,
    visits: &mut Steps<L>,
) -> Result<EventEnd, NoMemory>
    requires invoke { MayInvoke program.now machine.old thread }
    requires plan { IsCallPlan (moment program.now machine.old thread)
        (plans.Initializes call.method call.count) }
    ensures ok { IfOk result (λ end. (at : Site) →
        EventAnswers (call_planned (moment program.now machine.old thread) at
        (plans.Initializes call.method call.count)) end machine.old machine.new out.old out.new) }
    ensures visits { visits.new ≤ visits.old + 3 }
{
    let info = program.method(call.method);
    let class = info.class;
    let Need::Quiet = need_of(program, machine, thread, class) else {
        return begin_class_event(alloc, program, machine, thread, class, out);
    };
    match &info.code {
        Some(code) => {
            let entered = Entered {
                method: call.method,
                info,
                code,
                passed: Passed::Operands(call.count),
                classes: &[class],
            };
            enter_code(alloc, program, machine, thread, &entered, out, visits)
        }
        None => {
            let error = codeless_error(info);
            throw_after(alloc, program, machine, thread, &[class], error, out)
        }
    }
}
