//! What the indices of a class file name.

ghost use Rattle.std.specs.Prelude.{◌≡◌, find, map, option_map, is_some};
ghost use Rattle.std.specs.List.{list_any};
ghost use Rattle.et_pool.specs.Looks.{utf8_at, class_name_at};
ghost use Rattle.et_class.specs.Layout.{attribute_of};
ghost use Rattle.et_class.specs.Names.{is_text, is_plain_class, is_nonempty, is_attribute_named};

use crate::member::Attribute;
use et_pool::Pool;
use et_pool::descriptor::is_array_name;

pub const CODE_NAME: &[u8] = b"Code";

pub const CONSTANT_VALUE: &[u8] = b"ConstantValue";

pub const INIT: &[u8] = b"<init>";

pub const CLINIT: &[u8] = b"<clinit>";

pub const OBJECT: &[u8] = b"java/lang/Object";

pub const STRING_TYPE: &[u8] = b"Ljava/lang/String;";

/// Whether the Utf8 entry at an index is this text.
pub fn names_text(pool: &Pool, index: u16, text: &[u8]) -> bool
    ensures { result ≡ is_text (utf8_at pool.now.slots index) text.now }
{
    match pool.utf8(index) {
        None => false,
        Some(bytes) => bytes == text,
    }
}

/// Whether an index is that of a Utf8 entry.
pub fn is_utf8(pool: &Pool, index: u16) -> bool
    ensures { result ≡ is_some (utf8_at pool.now.slots index) }
{
    match pool.utf8(index) {
        None => false,
        Some(_) => true,
    }
}

/// Whether the Class entry at an index is of the class of this name.
pub fn names_this_class(pool: &Pool, index: u16, name: &[u8]) -> bool
    ensures { result ≡ is_text (class_name_at pool.now.slots index) name.now }
{
    match pool.class_name(index) {
        None => false,
        Some(bytes) => bytes == name,
    }
}

/// Whether an index is that of a Class entry, and the class is no array.
pub fn names_plain_class(pool: &Pool, index: u16) -> bool
    ensures { result ≡ is_plain_class pool.now.slots index }
{
    match pool.class_name(index) {
        None => false,
        Some(name) => !is_array_name(name),
    }
}

/// Whether an index is that of a Utf8 entry that isn't empty.
pub fn names_some(pool: &Pool, index: u16) -> bool
    ensures { result ≡ is_nonempty (utf8_at pool.now.slots index) }
{
    match pool.utf8(index) {
        None => false,
        Some(bytes) => !bytes.is_empty(),
    }
}

/// The first attribute of this name.
pub fn first_named<'a>(
    pool: &Pool,
    attributes: &'a [Attribute],
    name: &[u8],
) -> Option<&'a Attribute>
    ensures { option_map (λ a. attribute_of a.now) result
        ≡ find (is_attribute_named pool.now.slots name.now) (map attribute_of attributes.now) }
{
    'attributes: for a in attributes {
        if names_text(pool, a.name_index, name) {
            return Some(a);
        }
    }
    None
}
