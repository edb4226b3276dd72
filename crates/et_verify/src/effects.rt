//! The kinds of operands that instructions take and give (JVMS 6.5).
ghost use Rattle.std.specs.Prelude.{◌≡◌, [], ◌∷◌};
ghost use Rattle.et_event.specs.PoolOperands.Operand.TheVariants as kinds;
ghost use Rattle.et_verify.specs.Effects.{kind_of_number as number_kind, result_kind, given_by};
ghost use Rattle.et_event.specs.Kinds.{kind_of_elements as elements_kind};

use et_event::{Elements, Number, Operand};
use et_pool::{Returned, kind_of};

// Operands of these kinds, the topmost first.
pub(crate) static NONE: [Operand; 0] = [];

pub(crate) static INT: [Operand; 1] = [Operand::Int];

pub(crate) static LONG: [Operand; 1] = [Operand::Long];

pub(crate) static REFERENCE: [Operand; 1] = [Operand::Reference];

pub(crate) static TWO_INTS: [Operand; 2] = [Operand::Int, Operand::Int];

pub(crate) static TWO_LONGS: [Operand; 2] = [Operand::Long, Operand::Long];

pub(crate) static TWO_REFERENCES: [Operand; 2] = [Operand::Reference, Operand::Reference];

static INT_ON_LONG: [Operand; 2] = [Operand::Int, Operand::Long];

pub(crate) static INT_ON_REFERENCE: [Operand; 2] = [Operand::Int, Operand::Reference];

static LONG_ON_REFERENCE: [Operand; 2] = [Operand::Long, Operand::Reference];

static INT_INTO_ARRAY: [Operand; 3] = [Operand::Int, Operand::Int, Operand::Reference];

static LONG_INTO_ARRAY: [Operand; 3] = [Operand::Long, Operand::Int, Operand::Reference];

static REFERENCE_INTO_ARRAY: [Operand; 3] = [Operand::Reference, Operand::Int, Operand::Reference];

/// The kind of a number.
pub(crate) fn kind_of_number(number: Number) -> Operand
    ensures { result ≡ number_kind number }
{
    match number {
        Number::Int => Operand::Int,
        Number::Long => Operand::Long,
    }
}

/// One operand of a kind.
pub(crate) fn one_of(kind: Operand) -> &'static [Operand]
    ensures { result.now ≡ kind ∷ [] }
{
    match kind {
        Operand::Int => &INT,
        Operand::Long => &LONG,
        Operand::Reference => &REFERENCE,
    }
}

/// A number of a kind below an int.
pub(crate) fn shifted(number: Number) -> &'static [Operand]
    ensures { result.now ≡ kinds.Int ∷ number_kind number ∷ [] }
{
    match number {
        Number::Int => &TWO_INTS,
        Number::Long => &INT_ON_LONG,
    }
}

/// The kind of the elements of an array.
pub(crate) fn kind_of_elements(elements: Elements) -> Operand
    ensures { result ≡ elements_kind elements }
{
    match elements {
        Elements::Int | Elements::Byte | Elements::Char | Elements::Short => Operand::Int,
        Elements::Long => Operand::Long,
        Elements::Reference => Operand::Reference,
    }
}

/// What is written to a field of an object, and the object below it.
pub(crate) fn on_reference(kind: Operand) -> &'static [Operand]
    ensures { result.now ≡ kind ∷ kinds.Reference ∷ [] }
{
    match kind {
        Operand::Int => &INT_ON_REFERENCE,
        Operand::Long => &LONG_ON_REFERENCE,
        Operand::Reference => &TWO_REFERENCES,
    }
}

/// What is written to an element, its index below it, and the array below that.
pub(crate) fn into_array(kind: Operand) -> &'static [Operand]
    ensures { result.now ≡ kind ∷ kinds.Int ∷ kinds.Reference ∷ [] }
{
    match kind {
        Operand::Int => &INT_INTO_ARRAY,
        Operand::Long => &LONG_INTO_ARRAY,
        Operand::Reference => &REFERENCE_INTO_ARRAY,
    }
}

/// The kind of what is read of a type, or returned.
pub(crate) fn kind_of_result(descriptor: &[u8]) -> Operand
    ensures { result ≡ result_kind descriptor.now }
{
    match kind_of(descriptor) {
        Some(kind) => kind,
        None => match descriptor {
            [b'D' | b'J', ..] => Operand::Long,
            _ => Operand::Int,
        },
    }
}

/// The kind of what a call leaves; `None` where it leaves nothing.
pub(crate) fn kind_given(returned: Returned) -> Option<Operand>
    ensures { result ≡ given_by returned }
{
    match returned {
        Returned::Void => None,
        Returned::Value {
            kind: Some(kind),
            ..
        } => Some(kind),
        Returned::Value {
            kind: None,
            entries,
        } => {
            if entries == 2 {
                Some(Operand::Long)
            } else {
                Some(Operand::Int)
            }
        }
    }
}
