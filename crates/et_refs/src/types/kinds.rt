//! Types, and what fields and elements hold of them (JVMS 2.2 to 2.4, 4.3.2).
ghost use Rattle.std.specs.Prelude.{◌≡◌, ◌≤◌, pos, int_le};
ghost use Rattle.et_event.specs.Kinds.{zero_of as zero, or_zero as zero_or, narrowed_letter as letter_narrowed, narrowed_int as int_narrowed, narrowed as narrowed_by, kind_of_elements as elements_kind, are_elements as are_such, is_array_element as is_such, kept_element as kept_by, in_bounds as is_within};
ghost use Rattle.et_pool.specs.Descriptors.{width_of as descriptor_width};
ghost use Rattle.et_event.specs.Sites.{natural_of};

use et_base::{Value, to_byte, to_char, to_short};
use et_event::{Elements, Operand};
use et_program::Element;

/// The 0 or null of a kind.
fn zero_of(kind: Option<Operand>) -> Value
    ensures { result ≡ zero kind }
{
    match kind {
        Some(Operand::Int) => Value::Int(0),
        Some(Operand::Long) => Value::Long(0),
        Some(Operand::Reference) | None => Value::Null,
    }
}

/// What a slot of a kind gives that holds this: 0 or null where nothing was written to it.
pub fn or_zero(kind: Option<Operand>, value: Value) -> Value
    ensures { result ≡ zero_or kind value }
{
    match value {
        Value::Unset => zero_of(kind),
        Value::Int(_) | Value::Long(_) | Value::LongHigh | Value::Null | Value::Ref(_) => value,
    }
}

/// What a field keeps of an int, by the first letter of its descriptor.
fn narrowed_letter(letter: u8, n: i32) -> i32
    ensures { result ≡ letter_narrowed letter n }
{
    match letter {
        b'B' | b'Z' => to_byte(n),
        b'S' => to_short(n),
        b'C' => to_char(n),
        _ => n,
    }
}

/// What a field keeps of an int, by its descriptor.
fn narrowed_int(descriptor: &[u8], n: i32) -> i32
    ensures { result ≡ int_narrowed descriptor.now n }
{
    match descriptor {
        [letter, ..] => narrowed_letter(*letter, n),
        [] => n,
    }
}

/// What a field keeps of a value (JVMS 6.5, putfield).
pub fn narrowed(descriptor: &[u8], value: Value) -> Value
    ensures { result ≡ narrowed_by descriptor.now value }
{
    match value {
        Value::Int(n) => Value::Int(narrowed_int(descriptor, n)),
        Value::Unset | Value::Long(_) | Value::LongHigh | Value::Null | Value::Ref(_) => value,
    }
}

/// The operands that are elements of such an array.
pub(crate) fn kind_of_elements(elements: Elements) -> Operand
    ensures { result ≡ elements_kind elements }
{
    match elements {
        Elements::Int | Elements::Byte | Elements::Char | Elements::Short => Operand::Int,
        Elements::Long => Operand::Long,
        Elements::Reference => Operand::Reference,
    }
}

/// Whether an array has such elements.
pub(crate) fn are_elements(elements: Elements, element: Element) -> bool
    ensures { result ≡ are_such elements element }
{
    match (elements, element) {
        (Elements::Int, Element::Base(kind)) => kind == 10,
        (Elements::Long, Element::Base(kind)) => kind == 11,
        (Elements::Reference, Element::Class(_)) => true,
        (Elements::Byte, Element::Base(kind)) => kind == 4 || kind == 8,
        (Elements::Char, Element::Base(kind)) => kind == 5,
        (Elements::Short, Element::Base(kind)) => kind == 9,
        _ => false,
    }
}

/// Whether what has these elements is an array.
pub(crate) fn is_array(element: Element) -> bool
    ensures { result ≡ is_such element }
{
    match element {
        Element::NoArray => false,
        Element::Base(_) | Element::Class(_) => true,
    }
}

/// What an element keeps of a value (JVMS 6.5, bastore, castore, sastore).
pub(crate) fn kept_element(elements: Elements, value: Value) -> Value
    ensures { result ≡ kept_by elements value }
{
    match (elements, value) {
        (Elements::Byte, Value::Int(n)) => Value::Int(to_byte(n)),
        (Elements::Char, Value::Int(n)) => Value::Int(to_char(n)),
        (Elements::Short, Value::Int(n)) => Value::Int(to_short(n)),
        (_, other) => other,
    }
}

/// Whether an array of this length has an element of this index.
pub(crate) fn in_bounds(index: i32, length: u32) -> bool
    ensures { result ≡ is_within index length }
{
    0 <= index && (index as i64) < length as i64
}

/// How many entries a field of a type takes (JVMS 2.6.2), by its descriptor.
pub fn width_of(descriptor: &[u8]) -> u32
    ensures value { result ≡ descriptor_width descriptor.now }
    ensures small { result ≤ 2 }
{
    match descriptor {
        [b'D' | b'J', ..] => 2,
        _ => 1,
    }
}

/// The number, where it isn't negative, and else 0.
pub fn natural(n: i32) -> u32
    ensures { result ≡ natural_of n }
{
    if n < 0 { 0 } else { n as u32 }
}

/// Whether an array may have so many elements.
pub fn is_length(n: i32) -> bool
    ensures { result ≡ int_le (pos 0) n }
{
    0 <= n
}
