//! The operands that types have (JVMS 2.11.1), and what a call reads off a method descriptor.

ghost use Rattle.std.specs.Prelude.{◌≡◌, length, option_map, IfOk};
ghost use Rattle.et_pool.specs.Descriptors.{types_of};
ghost use Rattle.et_pool.specs.Operands.{operand_kind, is_kind as kind_is, return_of, parameter_shapes, shape_in, entries_returned, is_returnable};

use crate::descriptor::{entries_of_type, is_return_text, is_void_text, type_and_rest};
use et_base::NoMemory;
use std::alloc::Global;
use std::marker::Model;

/// A kind of operands (JVMS 2.11.1). Of the types boolean, byte, char, short and int all operands are ints.
#[derive(Clone, Copy, Debug, PartialEq, Eq)]
pub enum Operand {
    /// An int, in one entry.
    Int,
    /// A long, in two entries.
    Long,
    /// A reference to an object, or null, in one entry.
    Reference,
}

/// What a method returns (JVMS 4.3.3).
#[derive(Clone, Copy, Debug, PartialEq, Eq)]
pub enum Returned {
    /// Nothing.
    Void,
    /// A value: its operands, which are `None` for a double and a float, and how many entries it takes, one or two.
    Value { kind: Option<Operand>, entries: u8 },
}

/// What a call reads off a method descriptor (JVMS 4.3.3): the arguments that it takes (JVMS 2.6.1, 6.5, the invokes), and what
/// is returned.
#[derive(Debug, Drop)]
pub struct CallShape {
    kinds: Vec<Option<Operand>>,
    entries: usize,
    returned: Returned,
}

impl Model for CallShape {
    ghost use Rattle.et_pool.specs.Operands.{Shape};

    ghost Value = { Shape };

    ghost view = { λ s. record { kinds = s.kinds.items; entries = s.entries; returned = s.returned } };
}

impl CallShape {
    /// The operands of each parameter, in order; `None` for a double and a float.
    pub fn kinds(&self) -> &[Option<Operand>]
        ensures { result.now ≡ self.now.kinds }
    {
        &self.kinds
    }

    /// How many entries the parameters take, two for each long and double (JVMS 2.6.1).
    pub fn entries(&self) -> usize
        ensures { result ≡ self.now.entries }
    {
        self.entries
    }

    /// What is returned: nothing, or a value.
    pub fn returned(&self) -> Returned
        ensures { result ≡ self.now.returned }
    {
        self.returned
    }
}

impl Returned {
    /// How many entries it takes (JVMS 2.6.2): none, one, or two for a long and a double.
    pub fn entries(self) -> u8
        ensures { result ≡ entries_returned self }
    {
        match self {
            Returned::Void => 0,
            Returned::Value { entries, .. } => entries,
        }
    }

    /// Whether an instruction that returns an operand of this kind, or nothing, may return it (JVMS 6.5).
    pub fn may_be(self, kind: Option<Operand>) -> bool
        ensures { result ≡ is_returnable kind self }
    {
        match (kind, self) {
            (None, Returned::Void) => true,
            (Some(kind), Returned::Value { kind: other, .. }) => is_kind(kind, other),
            _ => false,
        }
    }
}

/// Whether a type has operands of this kind.
fn is_kind(kind: Operand, other: Option<Operand>) -> bool
    ensures { result ≡ kind_is kind other }
{
    matches!(
        (kind, other),
        (Operand::Int, Some(Operand::Int))
            | (Operand::Long, Some(Operand::Long))
            | (Operand::Reference, Some(Operand::Reference))
    )
}

/// The operands of a type (JVMS 2.11.1), by the first letter of its descriptor (JVMS 4.3.2); `None` for a double and a float, of
/// which there are no operands, and where no descriptor begins with that letter.
pub fn kind_of(s: &[u8]) -> Option<Operand>
    ensures { result ≡ operand_kind s.now }
{
    match s {
        [] => None,
        [b'B' | b'C' | b'I' | b'S' | b'Z', ..] => Some(Operand::Int),
        [b'J', ..] => Some(Operand::Long),
        [b'L' | b'[', ..] => Some(Operand::Reference),
        _ => None,
    }
}

/// What is returned by `V` or a type.
fn returned_by(s: &[u8]) -> Returned
    ensures { result ≡ return_of s.now }
{
    if is_void_text(s) {
        return Returned::Void;
    }
    Returned::Value {
        kind: kind_of(s),
        entries: entries_of_type(s) as u8,
    }
}

/// The parameters that stand at the front of `s`, up to their `)`: the operands of each, how many entries they take, and what
/// stands behind the `)`. The only error is want of memory.
fn parameter_kinds(
    alloc: Global,
    s: &[u8],
) -> Result<Option<(Vec<Option<Operand>>, usize, &[u8])>, NoMemory>
    ensures { IfOk result (λ r. option_map (λ x. (x.0.items, x.1, x.2.now)) r
        ≡ option_map parameter_shapes (types_of (length s.now) s.now)) }
{
    let mut kinds = Vec::new(alloc);
    let mut entries = 0;
    let mut rest = s;
    'types: while !rest.is_empty() {
        if rest[0] == b')' {
            return Ok(Some((kinds, entries, &rest[1..])));
        }
        let Some((first, after)) = type_and_rest(rest) else {
            return Ok(None);
        };
        kinds.push(kind_of(first))?;
        entries += entries_of_type(first);
        rest = after;
    }
    Ok(None)
}

/// What a call reads off a method descriptor, or `None` where the bytes are none (JVMS 4.3.3). The only error is want of
/// memory.
pub fn call_shape(alloc: Global, descriptor: &[u8]) -> Result<Option<CallShape>, NoMemory>
    ensures { IfOk result (λ r. r ≡ shape_in descriptor.now) }
{
    let [b'(', types @ ..] = descriptor else {
        return Ok(None);
    };
    let Some((kinds, entries, behind)) = parameter_kinds(alloc, types)? else {
        return Ok(None);
    };
    if !is_return_text(behind) {
        return Ok(None);
    }
    Ok(Some(CallShape {
        kinds,
        entries,
        returned: returned_by(behind),
    }))
}
