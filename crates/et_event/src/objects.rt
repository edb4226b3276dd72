//! How large the objects are that an event makes.
ghost use Rattle.std.specs.Prelude.{◌≡◌, ◌<◌, ◌≤◌, length};
ghost use Rattle.et_program.specs.BootNames.{built_in_class_name};
ghost use Rattle.et_program.specs.Entries.{class_at};
ghost use Rattle.et_event.specs.Moments.{array_size as bytes_of, base_width as width_of_base, element_width as width_of_element};
ghost use Rattle.et_event.specs.Errors.{class_called as called};

use et_base::ClassId;
use et_program::{BuiltInClass, Element, Program};

/// The number of a built-in class. The built-in classes are the first of each program, in the order of their table.
pub fn class_called(program: &Program, class: BuiltInClass) -> ClassId
    ensures value { result ≡ called program.now (built_in_class_name class) }
    ensures within { result < length program.now.classes }
{
    // A law: it tells the prover, and does nothing.
    program.is_linked();
    ClassId::new(class.place())
}

/// How many slots an instance of a class has; 0 for a number that no class has.
pub fn slots_of(program: &Program, class: ClassId) -> u32
    ensures { result ≡ (class_at program.now class).info.slots }
{
    if class.number() < program.class_count() {
        program.class(class).slots
    } else {
        0
    }
}

/// How many bytes an element of a base type takes.
fn base_width(kind: u8) -> u64
    ensures { result ≡ width_of_base kind }
{
    match kind {
        4 | 8 => 1,
        5 | 9 => 2,
        6 | 10 => 4,
        _ => 8,
    }
}

/// How many bytes an element takes.
fn element_width(element: Element) -> u64
    ensures value { result ≡ width_of_element element }
    ensures small { result ≤ 8 }
{
    match element {
        Element::NoArray => 0,
        Element::Base(kind) => base_width(kind),
        Element::Class(_) => 8,
    }
}

/// How many bytes an element of an array of a class takes; 0 for a number that no class has.
pub(crate) fn width_in(program: &Program, class: ClassId) -> u64
    ensures value { result ≡ width_of_element (class_at program.now class).info.element }
    ensures small { result ≤ 8 }
{
    if class.number() < program.class_count() {
        element_width(program.class(class).element)
    } else {
        0
    }
}

/// How many bytes an array takes.
pub(crate) fn array_size(elements: u32, width: u64) -> u64
    requires { width ≤ 8 }
    ensures { result ≡ bytes_of elements width }
{
    (24 + elements as u64 * width + 7) / 8 * 8
}
