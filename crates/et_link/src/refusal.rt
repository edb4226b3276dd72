//! The faults, in the order in which they are looked for.

ghost use Rattle.std.specs.Prelude.{◌≡◌, ℕ, ◌<◌, ◌^◌, length, All, MatchResult};
ghost use Rattle.et_hierarchy.specs.Links.{links};
ghost use Rattle.et_hierarchy.specs.Faults.{IsFaultless};
ghost use Rattle.et_hierarchy.specs.Ancestry.{ancestry_at, IsBelow};
ghost use Rattle.et_program.specs.declared.info.MethodInfo.{MethodInfo as MethodOf};
ghost use Rattle.et_program.specs.Finding.{FindsMethods};
ghost use Rattle.et_program.specs.Files.{boots};
ghost use Rattle.et_program.specs.ProgramOf.{is_main, main_of};
ghost use Rattle.et_link.specs.Refusals.{NamesFault, RefusesSet, AnswersLate, link_kind};

use crate::fault::LinkFault;
use crate::members::crossing::first_crossing;
use crate::names::boots::boots;
use et_base::{MethodId, Name};
use et_class::flags::{STATIC, has};
use et_hierarchy::{ClassOutline, FaultKind, Links, Row, SetFault, check_set};
use et_program::{LinkFaultKind, MethodIndex, MethodInfo};
use std::alloc::Global;

/// The fault that names a class of the set.
pub(crate) fn refusal(
    alloc: Global,
    set: &[ClassOutline],
    kind: LinkFaultKind,
    class: u32,
) -> LinkFault
    requires { class < length set.now }
    ensures { NamesFault set.now kind class result }
{
    match Name::of(alloc, set[class as usize].name()) {
        Ok(class) => LinkFault::At { kind, class },
        Err(_) => LinkFault::NoMemory,
    }
}

/// The kind of a fault of a set.
fn link_kind(kind: FaultKind) -> LinkFaultKind
    ensures { result ≡ link_kind kind }
{
    match kind {
        FaultKind::Duplicate => LinkFaultKind::Duplicate,
        FaultKind::NoSuper => LinkFaultKind::NoSuper,
        FaultKind::Cycle => LinkFaultKind::Cycle,
        FaultKind::FinalSuper => LinkFaultKind::FinalSuper,
    }
}

/// The links of the classes of the set, or the fault of their names.
pub(crate) fn check_names(alloc: Global, set: &[ClassOutline]) -> Result<Vec<Links>, LinkFault>
    requires { length set.now < 2 ^ 32 }
    ensures { MatchResult result
        (λ table. IsFaultless set.now × (table.items ≡ links set.now)) (RefusesSet set.now) }
{
    match check_set(alloc, set) {
        Ok(table) => Ok(table),
        Err(SetFault::At { kind, class }) => Err(refusal(alloc, set, link_kind(kind), class)),
        Err(SetFault::NoMemory) => Err(LinkFault::NoMemory),
    }
}

/// Whether a method is `main` of the first file.
fn is_main(method: &MethodInfo) -> bool
    ensures { result ≡ is_main method.now }
{
    method.class.number() as usize == boots()
        && method.name.as_slice() == b"main".as_slice()
        && method.descriptor.as_slice() == b"([Ljava/lang/String;)V".as_slice()
        && has(method.flags, STATIC)
        && method.code.is_some()
}

/// The method `main` of the first file.
fn find_main(methods: &[MethodInfo]) -> Option<MethodId>
    requires { length methods.now < 2 ^ 32 }
    ensures { result ≡ main_of methods.now }
{
    for (i, method) in methods.iter().enumerate() {
        if is_main(method) {
            return Some(MethodId::new(i as u32));
        }
    }
    None
}

/// The method `main`, or the fault that the methods or the number of files show.
pub(crate) fn check_methods(
    set: &[ClassOutline],
    rows: &[Row],
    methods: &[MethodInfo],
    index: &MethodIndex,
    files: usize,
) -> Result<MethodId, (LinkFaultKind, u32)>
    requires own { All (λ (m : MethodOf). m.class < length set.now) methods.now }
    requires rows { length rows.now ≡ length set.now }
    requires below { (k : ℕ) →
        k < length set.now → IsBelow (length set.now) (ancestry_at rows.now k) }
    requires index { FindsMethods index.now methods.now }
    requires few { length methods.now < 2 ^ 32 }
    ensures { AnswersLate set.now rows.now methods.now files result }
{
    match first_crossing(set, rows, methods, index) {
        Some(class) => return Err((LinkFaultKind::CrossPackage, class)),
        None => {}
    }
    match find_main(methods) {
        None => Err((LinkFaultKind::NoMain, boots() as u32)),
        Some(main) => {
            if files > MOST_FILES {
                return Err((LinkFaultKind::TooMany, (boots() + MOST_FILES) as u32));
            }
            Ok(main)
        }
    }
}

/// How many files are linked at most.
const MOST_FILES: usize = 4_096;
