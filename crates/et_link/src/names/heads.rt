//! What is kept of each class beside its members.

ghost use Rattle.std.specs.Prelude.{◌≡◌, ℕ, ◌<◌, ◌^◌, ◌++◌, ◌∷◌, [], List, length, All, IfOk, OnOk, None, false};
ghost use Rattle.std.specs.List.{slice_index_or};
ghost use Rattle.et_program.specs.declared.info.MethodInfo.{MethodInfo as MethodOf};
ghost use Rattle.et_program.specs.declared.info.FieldInfo.{FieldInfo as FieldOf};
ghost use Rattle.et_program.specs.Heads.{is_run_first, has_to_run, is_initializer, initializer_of, constants_of};

use et_base::{FieldId, MethodId, NoMemory};
use et_class::flags::{ABSTRACT, STATIC, has};
use et_program::{FieldInfo, MethodInfo};
use std::alloc::Global;
use std::marker::Model;

/// Whether a method makes its interface be initialized.
fn runs(method: &MethodInfo) -> bool
    ensures { result ≡ is_run_first method.now }
{
    !has(method.flags, ABSTRACT)
        && !has(method.flags, STATIC)
        && !(method.name.as_slice() == b"<clinit>".as_slice())
}

/// Whether each class declares such a method.
pub(crate) fn classes_to_run(
    alloc: Global,
    methods: &[MethodInfo],
    count: usize,
) -> Result<Vec<bool>, NoMemory>
    requires { All (λ (m : MethodOf). m.class < count) methods.now }
    ensures length { IfOk result (λ marks. length marks.items ≡ count) }
    ensures marks { IfOk result
        (λ marks. (k : ℕ) → slice_index_or marks.items k false ≡ has_to_run methods.now k) }
{
    let mut marks = vec![in alloc; false; count]?;
    for method in methods {
        if runs(method) {
            marks[method.class.number() as usize] = true;
        }
    }
    Ok(marks)
}

/// Whether a method is the initializer of its class.
fn is_initializer(method: &MethodInfo) -> bool
    ensures { result ≡ is_initializer method.now }
{
    method.name.as_slice() == b"<clinit>".as_slice()
        && method.descriptor.as_slice() == b"()V".as_slice()
        && method.code.is_some()
}

/// The initializer of each class.
pub(crate) fn initializers(
    alloc: Global,
    methods: &[MethodInfo],
    count: usize,
) -> Result<Vec<Option<MethodId>>, NoMemory>
    requires within { All (λ (m : MethodOf). m.class < count) methods.now }
    requires few { length methods.now < 2 ^ 32 }
    ensures length { IfOk result (λ found. length found.items ≡ count) }
    ensures found { IfOk result (λ found. (k : ℕ) →
        k < count → slice_index_or found.items k None ≡ initializer_of methods.now k) }
{
    let mut found = vec![in alloc; None; count]?;
    for (i, method) in methods.iter().enumerate() {
        put_initializer(&mut found, method, MethodId::new(i as u32));
    }
    Ok(found)
}

/// Puts a method in the place of its class, if it is an initializer and none is there.
fn put_initializer(found: &mut Vec<Option<MethodId>>, method: &MethodInfo, number: MethodId)
    requires { method.now.class < length found.old.items }
    ensures length { length found.new.items ≡ length found.old.items }
    ensures found { (k : ℕ) → k < length found.old.items →
        slice_index_or found.new.items k None ≡ option_or (slice_index_or found.old.items k None)
        (if (method.now.class == k) && is_initializer method.now then Some number else None) }
{
    let class = method.class.number() as usize;
    if is_initializer(method) && found[class].is_none() {
        found[class] = Some(number);
    }
}

ghost use Rattle.std.specs.Prelude.{◌==◌, ◌&&◌, if◌then◌else◌, Some};
ghost use Rattle.std.specs.Option.{option_or};

/// Numbers of fields.
#[derive(Drop)]
pub(crate) struct FieldList {
    fields: Vec<FieldId>,
}

impl Model for FieldList {
    ghost use Rattle.std.specs.Prelude.{ℕ, List};

    ghost Value = { List ℕ };

    ghost view = { λ l. l.fields.items };
}

impl FieldList {
    /// No fields.
    pub fn begin(alloc: Global) -> Self
        ensures { result ≡ [] }
    {
        FieldList {
            fields: Vec::new(alloc),
        }
    }

    /// Puts a field behind the list.
    pub fn push(&mut self, field: FieldId) -> Result<(), NoMemory>
        ensures { OnOk result (self.new ≡ self.old ++ field ∷ []) }
    {
        self.fields.push(field)?;
        Ok(())
    }

    /// The fields.
    pub fn as_slice(&self) -> &[FieldId]
        ensures { result.now ≡ self.now }
    {
        self.fields.as_slice()
    }
}

/// As many empty lists.
fn empty_lists(alloc: Global, count: usize) -> Result<Vec<FieldList>, NoMemory>
    ensures length { IfOk result (λ lists. length lists.items ≡ count) }
    ensures empty { IfOk result (λ lists. (k : ℕ) → slice_index_or lists.items k [] ≡ []) }
{
    let mut lists = Vec::new(alloc);
    for _ in 0..count {
        lists.push(FieldList::begin(alloc))?;
    }
    Ok(lists)
}

/// The fields of each class that have a constant.
pub(crate) fn constants(
    alloc: Global,
    fields: &[FieldInfo],
    count: usize,
) -> Result<Vec<FieldList>, NoMemory>
    requires within { All (λ (f : FieldOf). f.class < count) fields.now }
    requires few { length fields.now < 2 ^ 32 }
    ensures length { IfOk result (λ lists. length lists.items ≡ count) }
    ensures constants { IfOk result (λ lists. (k : ℕ) →
        k < count → slice_index_or lists.items k [] ≡ constants_of fields.now k) }
{
    let mut lists = empty_lists(alloc, count)?;
    for (i, field) in fields.iter().enumerate() {
        if field.constant != 0 {
            let class = field.class.number() as usize;
            lists[class].push(FieldId::new(i as u32))?;
        }
    }
    Ok(lists)
}
