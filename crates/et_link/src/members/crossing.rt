//! Methods that redeclare a package-private method of a superclass in another package (JVMS 5.4.5).

ghost use Rattle.std.specs.Prelude.{◌≡◌, ℕ, ◌<◌, ◌^◌, ◌==◌, List, length, All, IfOk, true};
ghost use Rattle.et_hierarchy.specs.Outline.{outline_at};
ghost use Rattle.et_hierarchy.specs.Ancestry.{ancestry_at, IsBelow};
ghost use Rattle.et_program.specs.declared.info.MethodInfo.{MethodInfo as MethodOf};
ghost use Rattle.et_program.specs.Members.{is_method};
ghost use Rattle.et_program.specs.LinkFaults.{package_of, may_redeclare, is_package_private, same_in, is_same_package, last_or};
ghost use Rattle.et_link.specs.Crossing.{hides, crosses, AnswersLeast};
ghost use Rattle.et_program.specs.Finding.{FindsMethods};
ghost use Rattle.et_program.specs.Slots.{places_from};

use et_base::ClassId;
use et_class::flags::{PRIVATE, PROTECTED, PUBLIC, STATIC, has};
use et_hierarchy::{ClassOutline, Row};
use et_program::{MethodIndex, MethodInfo};

/// Where the package of a class's name ends: behind the last `/`.
fn package_end(name: &[u8]) -> usize
    ensures end { result ≡ last_or 0 (places_from (λ b. b == 47) 1 name.now) }
{
    let mut end = 0;
    for (i, byte) in name.iter().enumerate() {
        if *byte == b'/' {
            end = i + 1;
        }
    }
    end
}

/// The package of a class, by its name.
fn package_of(name: &[u8]) -> &[u8]
    ensures { result.now ≡ package_of name.now }
{
    let end = package_end(name).min(name.len());
    &name[..end]
}

/// Whether two classes are in one package.
fn is_same_package(set: &[ClassOutline], class: ClassId, other: ClassId) -> bool
    requires class { class < length set.now }
    requires other { other < length set.now }
    ensures { result ≡ is_same_package set.now class other }
{
    let one = set[class.number() as usize].name();
    let two = set[other.number() as usize].name();
    package_of(one) == package_of(two)
}

/// Whether a method redeclares one above it.
fn may_redeclare(method: &MethodInfo) -> bool
    ensures { result ≡ may_redeclare method.now }
{
    !has(method.flags, STATIC)
        && !has(method.flags, PRIVATE)
        && !(method.name.as_slice() == b"<init>".as_slice())
        && !(method.name.as_slice() == b"<clinit>".as_slice())
}

/// Whether a method is seen in its package alone.
fn is_package_private(method: &MethodInfo) -> bool
    ensures { result ≡ is_package_private method.now }
{
    !has(method.flags, PUBLIC) && !has(method.flags, PRIVATE) && !has(method.flags, PROTECTED)
}

/// Whether a class in another package has a package-private method with the name and descriptor of this one.
fn hides(
    set: &[ClassOutline],
    methods: &[MethodInfo],
    index: &MethodIndex,
    method: &MethodInfo,
    class: ClassId,
) -> bool
    requires class { class < length set.now }
    requires own { method.now.class < length set.now }
    requires index { FindsMethods index.now methods.now }
    ensures { result ≡ hides set.now methods.now method.now class }
{
    if is_same_package(set, method.class, class) {
        return false;
    }
    let name = method.name.as_slice();
    let descriptor = method.descriptor.as_slice();
    let found = index.find(methods, name, descriptor, class);
    match found {
        Some(other) => is_package_private(&methods[other.number() as usize]),
        None => false,
    }
}

/// Whether a method redeclares a package-private method of a superclass in another package.
fn crosses(
    set: &[ClassOutline],
    rows: &[Row],
    methods: &[MethodInfo],
    index: &MethodIndex,
    method: &MethodInfo,
) -> bool
    requires own { method.now.class < length set.now }
    requires rows { length rows.now ≡ length set.now }
    requires below { (k : ℕ) →
        k < length set.now → IsBelow (length set.now) (ancestry_at rows.now k) }
    requires index { FindsMethods index.now methods.now }
    ensures { result ≡ crosses set.now rows.now methods.now method.now }
{
    if !may_redeclare(method) {
        return false;
    }
    let row = &rows[method.class.number() as usize];
    for class in row.supers() {
        if hides(set, methods, index, method, *class) {
            return true;
        }
    }
    false
}

/// The lesser of a class and one found before, if there was one.
fn lesser(found: Option<u32>, class: u32) -> u32
    ensures { result ≡ lesser found class }
{
    match found {
        Some(before) => if class < before { class } else { before },
        None => class,
    }
}

/// What was found before, with this class if it is to be counted.
fn with_class(found: Option<u32>, counts: bool, class: u32) -> Option<u32>
    ensures { result ≡ (if counts then Some (lesser found class) else found) }
{
    if counts {
        Some(lesser(found, class))
    } else {
        found
    }
}

ghost use Rattle.std.specs.Prelude.{if◌then◌else◌, Some};
ghost use Rattle.et_link.specs.Crossing.{lesser};

/// The first class of which a method redeclares a package-private method of a superclass in another package.
pub(crate) fn first_crossing(
    set: &[ClassOutline],
    rows: &[Row],
    methods: &[MethodInfo],
    index: &MethodIndex,
) -> Option<u32>
    requires own { All (λ (m : MethodOf). m.class < length set.now) methods.now }
    requires rows { length rows.now ≡ length set.now }
    requires below { (k : ℕ) →
        k < length set.now → IsBelow (length set.now) (ancestry_at rows.now k) }
    requires index { FindsMethods index.now methods.now }
    ensures { AnswersLeast
        (crosses set.now rows.now methods.now) methods.now (length methods.now) result }
{
    let mut found: Option<u32> = None;
    for method in methods {
        let counts = crosses(set, rows, methods, index, method);
        found = with_class(found, counts, method.class.number());
    }
    found
}
