//! Descriptors (JVMS 4.3), and the names of classes in a pool.

ghost use Rattle.std.specs.Prelude.{◌≡◌, ◌<◌, ◌≤◌, false, length, option_map, IfSome};
ghost use Rattle.et_pool.specs.Descriptors.{is_base, after_name, after_class, after_element, after_type, first_type, types_of, parameters_of, method_type, is_text_end, is_void, is_return, element_descriptor, is_floating, is_array, is_floating_array, width_of, shape_of_method, is_field_descriptor as field, dimensions as count_of, is_class_name};

/// What the rules on methods ask of a method descriptor.
#[derive(Clone, Copy, Debug, PartialEq, Eq)]
pub struct MethodShape {
    /// How many entries the parameters take, two for each `J` and `D`.
    pub entries: usize,
    /// Whether a parameter or the result is `F` or `D`, or an array over one of them.
    pub floating: bool,
    /// Whether the method answers nothing, `V`.
    pub void: bool,
}

/// Whether a letter stands for a base type.
fn is_base_type(a: u8) -> bool
    ensures { result ≡ is_base a }
{
    matches!(a, b'B' | b'C' | b'D' | b'F' | b'I' | b'J' | b'S' | b'Z')
}

#[tactic(auto, unfolding(crate::specs::Descriptors::after_name), using(std::proofs::lemmas::List::take_rest, crate::proofs::Types::name_at, std::proofs::lemmas::List::drop_all))]
fn behind_name(s: &[u8]) -> Option<&[u8]>
    ensures value { option_map (λ r. r.now) result ≡ after_name s.now }
    ensures shorter { IfSome result (λ r. length r.now < length s.now) }
{
    let mut i = 0;
    'bytes: while i < s.len() {
        if s[i] == b';' {
            return Some(&s[i + 1..]);
        }
        i += 1;
    }
    None
}

fn behind_class(s: &[u8]) -> Option<&[u8]>
    ensures value { option_map (λ r. r.now) result ≡ after_class s.now }
    ensures shorter { IfSome result (λ r. length r.now < length s.now) }
{
    match s {
        [] => None,
        [a, rest @ ..] => { if *a == b';' { None } else { behind_name(rest) } }
    }
}

fn behind_element(a: u8, rest: &[u8]) -> Option<&[u8]>
    ensures value { option_map (λ r. r.now) result ≡ after_element a rest.now }
    ensures shorter { IfSome result (λ r. length r.now ≤ length rest.now) }
{
    if a == b'L' {
        behind_class(rest)
    } else if is_base_type(a) {
        Some(rest)
    } else {
        None
    }
}

/// What stands behind the type at the front (JVMS 4.3.2); `None` where no type stands there.
#[tactic(auto, unfolding(crate::specs::Descriptors::after_dimensions), using(std::proofs::lemmas::List::take_rest, crate::proofs::Types::dimensions_at, std::proofs::lemmas::List::drop_all))]
pub fn behind_type(s: &[u8]) -> Option<&[u8]>
    ensures value { option_map (λ r. r.now) result ≡ after_type s.now }
    ensures shorter { IfSome result (λ r. length r.now < length s.now) }
{
    let mut i = 0;
    'dimensions: while i < s.len() {
        if s[i] != b'[' {
            return behind_element(s[i], &s[i + 1..]);
        }
        if i == 255 {
            return None;
        }
        i += 1;
    }
    None
}

/// Whether the bytes are a field descriptor (JVMS 4.3.2).
pub fn is_field_descriptor(s: &[u8]) -> bool
    ensures { result ≡ field s.now }
{
    match behind_type(s) {
        None => false,
        Some(rest) => rest.is_empty(),
    }
}

/// Whether the bytes are `V`, by which a method returns nothing (JVMS 4.3.3).
pub fn is_void_text(s: &[u8]) -> bool
    ensures { result ≡ is_void s.now }
{
    match s {
        [] => false,
        [a, rest @ ..] => *a == b'V' && rest.is_empty(),
    }
}

pub(crate) fn is_return_text(s: &[u8]) -> bool
    ensures { result ≡ is_return s.now }
{
    is_void_text(s) || is_field_descriptor(s)
}

pub(crate) fn type_and_rest(s: &[u8]) -> Option<(&[u8], &[u8])>
    ensures value { option_map (λ x. (x.0.now, x.1.now)) result ≡ first_type s.now }
    ensures shorter { IfSome result (λ x. length x.1.now < length s.now) }
{
    let rest = behind_type(s)?;
    Some((&s[..s.len() - rest.len()], rest))
}

/// How many entries a value of a type takes.
pub(crate) fn entries_of_type(s: &[u8]) -> usize
    ensures value { result ≡ width_of s.now }
    ensures few { result ≤ 2 }
{
    match s {
        [] => 1,
        [a, ..] => { if *a == b'D' || *a == b'J' { 2 } else { 1 } }
    }
}

/// The byte behind the dimensions of a type.
fn element(s: &[u8]) -> Option<u8>
    ensures { result ≡ element_descriptor s.now }
{
    s.iter().copied().find(|a| *a != b'[')
}

/// Whether a type is `F` or `D`, or an array over one of them.
pub fn is_floating_type(s: &[u8]) -> bool
    ensures { result ≡ is_floating s.now }
{
    match element(s) {
        None => false,
        Some(a) => a == b'D' || a == b'F',
    }
}

/// Whether the name of a class is that of an array.
pub fn is_array_name(s: &[u8]) -> bool
    ensures { result ≡ is_array s.now }
{
    match s {
        [] => false,
        [a, ..] => *a == b'[',
    }
}

/// Whether the name of a class is that of an array over `F` or `D`.
pub fn is_floating_array_name(s: &[u8]) -> bool
    ensures { result ≡ is_floating_array s.now }
{
    is_array_name(s) && is_floating_type(s)
}

/// How many dimensions a type, or the name of a class, has.
pub fn dimensions(s: &[u8]) -> usize
    ensures { result ≡ count_of s.now }
{
    s.iter().take_while(|a| **a == b'[').count()
}

/// The parameters that stand at the front of `s`, up to their `)`: their entries, whether one is
/// floating, and what stands behind the `)`.
fn parameters(s: &[u8]) -> Option<(usize, bool, &[u8])>
    ensures { option_map (λ x. (x.0, x.1, x.2.now)) result
        ≡ option_map (parameters_of 0 false) (types_of (length s.now) s.now) }
{
    let mut entries = 0;
    let mut floating = false;
    let mut rest = s;
    'types: while !rest.is_empty() {
        if rest[0] == b')' {
            return Some((entries, floating, &rest[1..]));
        }
        let (first, after) = type_and_rest(rest)?;
        entries += entries_of_type(first);
        floating |= is_floating_type(first);
        rest = after;
    }
    None
}

/// What the rules on methods ask of a method descriptor, or `None` where the bytes are none
/// (JVMS 4.3.3). The bound of 255 entries isn't looked at.
pub fn method_shape(s: &[u8]) -> Option<MethodShape>
    ensures { result ≡ option_map shape_of_method (method_type s.now) }
{
    match s {
        [] => None,
        [a, rest @ ..] => {
            if *a != b'(' {
                return None;
            }
            let (entries, floating, returned) = parameters(rest)?;
            if !is_return_text(returned) {
                return None;
            }
            Some(MethodShape {
                entries,
                floating: floating || is_floating_type(returned),
                void: is_void_text(returned),
            })
        }
    }
}

/// Whether a Class entry may name these bytes: they aren't empty, and behind a `[` they are a
/// field descriptor (JVMS 4.4.1).
pub fn is_class_name_text(s: &[u8]) -> bool
    ensures { result ≡ is_class_name s.now }
{
    match s {
        [] => false,
        [a, ..] => *a != b'[' || is_field_descriptor(s),
    }
}
