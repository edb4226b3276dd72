//! Where methods are looked for, and what calls read off their descriptors and their names.

ghost use Rattle.std.specs.Prelude.{◌≡◌, ◌<◌, ◌^◌, length, map, All, IfOk};
ghost use Rattle.std.specs.List.{slice_index_or};
ghost use Rattle.et_program.specs.Entries.{no_class};
ghost use Rattle.et_program.specs.BuiltIns.{is_deferred_in, text_method_in};
ghost use Rattle.et_program.specs.Order.{method_key, IsOrder};
ghost use Rattle.et_program.specs.Signatures.{signature_of as signature_in, AreSigned};
ghost use Rattle.et_program.specs.declared.info.MethodInfo.{MethodInfo as Method};

use crate::info::MethodInfo;
use crate::tables::class::Class;
use crate::tables::order::{Key, Order, Table};
use et_base::{MethodId, NoMemory};
use et_boot::{BuiltIn, TextMethod, built_in_called, is_deferring, text_method_called};
use et_class::flags::{ABSTRACT, NATIVE, STATIC, has};
use et_class::{CallShape, call_shape};
use std::alloc::Global;

/// Where the methods of the name and of the descriptor of a method stand in their order, and what a call reads off the two.
#[derive(Drop)]
pub(crate) struct Signature {
    /// The place of the first of them.
    pub start: usize,
    /// The place behind the last of them.
    pub end: usize,
    pub shape: Option<CallShape>,
    /// The built-in method that it is where it has no code.
    pub built_in: Option<BuiltIn>,
    /// Whether it is a built-in method without code of threads, of weak references or of their queues, or of texts.
    pub is_deferred: bool,
    /// What it does where it is a method of texts.
    pub text_method: Option<TextMethod>,
    /// Whether it is named `<init>`.
    pub is_constructor: bool,
}

/// What a method is looked for by.
#[derive(Clone, Copy)]
pub(crate) enum Sought<'a> {
    /// By its name and its descriptor.
    Named {
        name: &'a [u8],
        descriptor: &'a [u8],
    },
    /// By those of a method of the program, whose places are kept.
    Like(MethodId),
}

/// The name of the class that declares a method.
fn class_name<'a>(classes: &'a [Class], method: &MethodInfo) -> &'a [u8]
    requires { method.now.class < length classes.now }
    ensures { result.now ≡ (slice_index_or classes.now method.now.class no_class).info.name }
{
    classes[method.class.number() as usize]
        .info()
        .name
        .as_slice()
}

/// Whether a method is a built-in one without code of threads, of weak references or of their queues, or of texts.
fn is_deferred(classes: &[Class], method: &MethodInfo) -> bool
    requires { method.now.class < length classes.now }
    ensures { result ≡ is_deferred_in classes.now method.now }
{
    let flags = method.flags;
    let is_other = has(flags, STATIC) || has(flags, NATIVE) || has(flags, ABSTRACT);
    method.code.is_none() && !is_other && is_deferring(class_name(classes, method))
}

/// What a method does with texts, where it is a method of texts.
fn text_method(classes: &[Class], method: &MethodInfo) -> Option<TextMethod>
    requires { method.now.class < length classes.now }
    ensures { result ≡ text_method_in classes.now method.now }
{
    let name = method.name.as_slice();
    text_method_called(
        class_name(classes, method),
        name,
        method.descriptor.as_slice(),
    )
}

/// Where the methods of the name and of the descriptor of a method stand, and what calls read off the two. The only error is want
/// of memory.
fn signature_of(
    alloc: Global,
    order: &Order,
    methods: &[MethodInfo],
    classes: &[Class],
    method: &MethodInfo,
) -> Result<Signature, NoMemory>
    requires few { length classes.now < 2 ^ 32 }
    requires class { method.now.class < length classes.now }
    requires order { IsOrder (map method_key methods.now) order.now.entries.items }
    ensures { IfOk result (λ s. s ≡ signature_in (map method_key methods.now)
        order.now.entries.items classes.now method.now) }
{
    let name = method.name.as_slice();
    let descriptor = method.descriptor.as_slice();
    let table = Table::Methods(methods);
    let first = Key {
        name,
        descriptor,
        class: 0,
    };
    let behind = Key {
        name,
        descriptor,
        class: classes.len() as u32,
    };
    Ok(Signature {
        start: order.place(table, first),
        end: order.place(table, behind),
        shape: call_shape(alloc, descriptor)?,
        built_in: if has(method.flags, ABSTRACT) {
            None
        } else {
            built_in_called(name, descriptor)
        },
        is_deferred: is_deferred(classes, method),
        text_method: text_method(classes, method),
        is_constructor: name == b"<init>".as_slice(),
    })
}

/// Where the methods of the name and of the descriptor of each method stand, and what calls read off the two. The only error is
/// want of memory.
pub(crate) fn signatures_of(
    alloc: Global,
    order: &Order,
    classes: &[Class],
    methods: &[MethodInfo],
) -> Result<Vec<Signature>, NoMemory>
    requires few { length classes.now < 2 ^ 32 }
    requires classes { All (λ (m : Method). m.class < length classes.now) methods.now }
    requires order { IsOrder (map method_key methods.now) order.now.entries.items }
    ensures { IfOk result
        (λ s. AreSigned order.now.entries.items classes.now methods.now s.items) }
{
    let mut signatures = Vec::with_capacity(alloc, methods.len())?;
    for method in methods {
        signatures.push(signature_of(alloc, order, methods, classes, method)?)?;
    }
    Ok(signatures)
}
