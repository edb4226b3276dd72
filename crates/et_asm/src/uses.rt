//! The entries that lines use, in the order of their first use.

ghost use Rattle.std.specs.Prelude.{◌≡◌, ◌++◌, [], ◌∷◌, OnOk, IfOk, codes};
ghost use Rattle.std.specs.List.{flat_map};
ghost use Rattle.indexmap.specs.IndexSet.{insert_key, insert_all};
ghost use Rattle.et_asm.specs.Order.{is_inside};
ghost use Rattle.et_asm.specs.Symbols.{entry_added, stage_uses};
ghost use Rattle.et_asm.specs.Pool.{same_entry, member_parts, constant_entries, attribute_entries, header_entries, code_entries, catch_entries, body_uses, outside_uses, pool};

use crate::order::{Stage, body_of, is_inside, opens, step};
use et_listing::entry::Entry;
use et_listing::instruction::Instruction;
use et_listing::line::{Line, Parsed};
use et_listing::word::Word;
use indexmap::IndexSet;
use std::alloc::{AllocError, Global};

fn insert<'a>(pool: &mut IndexSet<Entry<'a>>, e: Entry<'a>) -> Result<(), AllocError>
    ensures { OnOk result (pool.new.keys ≡ insert_key same_entry pool.old.keys e.entry) }
{
    pool.insert(e)?;
    Ok(())
}

/// Inserts the parts of a field or a method.
fn insert_member_parts<'a>(
    pool: &mut IndexSet<Entry<'a>>,
    class: &Word<'a>,
    name: &Word<'a>,
    descriptor: &Word<'a>,
) -> Result<(), AllocError>
    ensures { OnOk result (pool.new.keys
        ≡ insert_all same_entry pool.old.keys (member_parts class.now name.now descriptor.now)) }
{
    insert(pool, Entry::Utf8(class.copy()))?;
    insert(pool, Entry::Class(class.copy()))?;
    insert(pool, Entry::Utf8(name.copy()))?;
    insert(pool, Entry::Utf8(descriptor.copy()))?;
    insert(pool, Entry::NameAndType(name.copy(), descriptor.copy()))
}

/// Adds an entry behind its parts.
#[tactic(auto, unfolding(crate::specs::Symbols::entry_added))]
fn add<'a>(pool: &mut IndexSet<Entry<'a>>, e: &Entry<'a>) -> Result<(), AllocError>
    ensures { OnOk result (pool.new.keys ≡ entry_added pool.old.keys (e.now ∷ [])) }
{
    match e {
        Entry::Utf8(text) => insert(pool, Entry::Utf8(text.copy())),
        Entry::Integer(value) => insert(pool, Entry::Integer(*value)),
        Entry::Long(value) => insert(pool, Entry::Long(*value)),
        Entry::Class(name) => {
            insert(pool, Entry::Utf8(name.copy()))?;
            insert(pool, Entry::Class(name.copy()))
        }
        Entry::Text(text) => {
            insert(pool, Entry::Utf8(text.copy()))?;
            insert(pool, Entry::Text(text.copy()))
        }
        Entry::NameAndType(name, descriptor) => {
            insert(pool, Entry::Utf8(name.copy()))?;
            insert(pool, Entry::Utf8(descriptor.copy()))?;
            insert(pool, Entry::NameAndType(name.copy(), descriptor.copy()))
        }
        Entry::Field(class, name, descriptor) => {
            insert_member_parts(pool, class, name, descriptor)?;
            insert(
                pool,
                Entry::Field(class.copy(), name.copy(), descriptor.copy()),
            )
        }
        Entry::Method(class, name, descriptor) => {
            insert_member_parts(pool, class, name, descriptor)?;
            insert(
                pool,
                Entry::Method(class.copy(), name.copy(), descriptor.copy()),
            )
        }
        Entry::InterfaceMethod(class, name, descriptor) => {
            insert_member_parts(pool, class, name, descriptor)?;
            let e = Entry::InterfaceMethod(class.copy(), name.copy(), descriptor.copy());
            insert(pool, e)
        }
    }
}

/// Adds a text.
fn add_text<'a>(pool: &mut IndexSet<Entry<'a>>, text: &Word<'a>) -> Result<(), AllocError>
    ensures { OnOk result (pool.new.keys ≡ entry_added pool.old.keys (Entry.Utf8 text.now ∷ [])) }
{
    add(pool, &Entry::Utf8(text.copy()))
}

/// Adds a class.
fn add_class<'a>(pool: &mut IndexSet<Entry<'a>>, name: &Word<'a>) -> Result<(), AllocError>
    ensures { OnOk result (pool.new.keys ≡ entry_added pool.old.keys (Entry.Class name.now ∷ [])) }
{
    add(pool, &Entry::Class(name.copy()))
}

/// Adds the value of a field, behind the name of its attribute.
fn add_value<'a>(pool: &mut IndexSet<Entry<'a>>, e: &Entry<'a>) -> Result<(), AllocError>
    ensures { OnOk result
        (pool.new.keys ≡ entry_added pool.old.keys (Entry.Utf8 (codes "ConstantValue") ∷ e.now ∷
        [])) }
{
    add_text(pool, &Word::new(b"ConstantValue"))?;
    add(pool, e)?;
    Ok(())
}

/// Adds the constant of a field.
#[tactic(auto, using(crate::proofs::Added::added_none))]
fn add_constant<'a>(
    pool: &mut IndexSet<Entry<'a>>,
    constant: &Option<Entry<'a>>,
) -> Result<(), AllocError>
    ensures { OnOk result (pool.new.keys ≡ entry_added pool.old.keys
        (constant_entries constant.now)) }
{
    match constant {
        None => Ok(()),
        Some(e) => add_value(pool, e),
    }
}

/// Adds the name of the attribute of a method.
#[tactic(auto, using(crate::proofs::Added::added_none))]
fn add_attribute<'a>(
    pool: &mut IndexSet<Entry<'a>>,
    limits: Option<(u16, u16)>,
) -> Result<(), AllocError>
    ensures { OnOk result (pool.new.keys ≡ entry_added pool.old.keys (attribute_entries limits)) }
{
    match limits {
        None => Ok(()),
        Some(_) => add_text(pool, &Word::new(b"Code")),
    }
}

/// Adds the name and the descriptor of a member.
#[tactic(auto, using(crate::proofs::Added::added_two))]
fn add_texts<'a>(
    pool: &mut IndexSet<Entry<'a>>,
    name: &Word<'a>,
    descriptor: &Word<'a>,
) -> Result<(), AllocError>
    ensures { OnOk result (pool.new.keys
        ≡ entry_added pool.old.keys (Entry.Utf8 name.now ∷ Entry.Utf8 descriptor.now ∷ [])) }
{
    add_text(pool, name)?;
    add_text(pool, descriptor)
}

/// Adds what a line outside of bodies uses.
#[tactic(auto, using(crate::proofs::Added::added_two, crate::proofs::Added::added_three, crate::proofs::Added::added_none))]
fn add_header<'a>(pool: &mut IndexSet<Entry<'a>>, line: &Line<'a>) -> Result<(), AllocError>
    ensures { OnOk result (pool.new.keys ≡ entry_added pool.old.keys (header_entries line.now)) }
{
    match line {
        Line::Class(name, super_name, _) => {
            add_class(pool, name)?;
            add_class(pool, super_name)
        }
        Line::Interface(name) => add_class(pool, name),
        Line::Field(name, descriptor, _, constant) => {
            add_texts(pool, name, descriptor)?;
            add_constant(pool, constant)
        }
        Line::Method(name, descriptor, _, limits) => {
            add_texts(pool, name, descriptor)?;
            add_attribute(pool, *limits)
        }
        _ => Ok(()),
    }
}

/// Adds what an instruction uses.
#[tactic(auto, using(crate::proofs::Added::added_none))]
fn add_operands<'a>(pool: &mut IndexSet<Entry<'a>>, line: &Line<'a>) -> Result<(), AllocError>
    ensures { OnOk result (pool.new.keys ≡ entry_added pool.old.keys (code_entries line.now)) }
{
    match line {
        Line::Instruction(Instruction::Load(e)) => add(pool, e),
        Line::Instruction(Instruction::Pool(_, e)) => add(pool, e),
        Line::Instruction(Instruction::Interface(class, name, descriptor)) => {
            let e = Entry::InterfaceMethod(class.copy(), name.copy(), descriptor.copy());
            add(pool, &e)
        }
        Line::Instruction(Instruction::Array(class, _)) => add_class(pool, class),
        _ => Ok(()),
    }
}

/// Adds the class that a handler catches.
#[tactic(auto, using(crate::proofs::Added::added_none))]
fn add_caught<'a>(pool: &mut IndexSet<Entry<'a>>, line: &Line<'a>) -> Result<(), AllocError>
    ensures { OnOk result (pool.new.keys ≡ entry_added pool.old.keys (catch_entries line.now)) }
{
    match line {
        Line::Catch(_, _, _, Some(class)) => add_class(pool, class),
        _ => Ok(()),
    }
}

/// Adds what the instructions of a body use.
fn add_all_operands<'a>(
    pool: &mut IndexSet<Entry<'a>>,
    body: &[Parsed<'a>],
) -> Result<(), AllocError>
    ensures { OnOk result
        (pool.new.keys ≡ entry_added pool.old.keys (flat_map (λ p. code_entries p.line) body.now)) }
{
    for p in body {
        add_operands(pool, &p.line)?;
    }
    Ok(())
}

/// Adds the classes that the handlers of a body catch.
fn add_all_caught<'a>(pool: &mut IndexSet<Entry<'a>>, body: &[Parsed<'a>]) -> Result<(), AllocError>
    ensures { OnOk result
        (pool.new.keys ≡ entry_added pool.old.keys
        (flat_map (λ p. catch_entries p.line) body.now)) }
{
    for p in body {
        add_caught(pool, &p.line)?;
    }
    Ok(())
}

/// Adds what a body uses: the operands in their order, and then the classes that handlers catch.
#[tactic(auto, using(crate::proofs::Added::added_more))]
fn add_body<'a>(pool: &mut IndexSet<Entry<'a>>, body: &[Parsed<'a>]) -> Result<(), AllocError>
    ensures { OnOk result (pool.new.keys ≡ entry_added pool.old.keys (body_uses body.now)) }
{
    add_all_operands(pool, body)?;
    add_all_caught(pool, body)
}

/// Adds what a line outside of bodies uses, with the body that it opens.
#[tactic(auto, using(crate::proofs::Added::added_more, crate::proofs::Added::added_no_more))]
fn add_outside<'a>(
    pool: &mut IndexSet<Entry<'a>>,
    line: &Line<'a>,
    more: &[Parsed<'a>],
) -> Result<(), AllocError>
    ensures { OnOk result (pool.new.keys ≡ entry_added pool.old.keys
        (outside_uses line.now more.now)) }
{
    add_header(pool, line)?;
    if opens(line) {
        return add_body(pool, body_of(more));
    }
    Ok(())
}

/// Adds what a line uses at a stage.
#[tactic(auto, using(crate::proofs::Added::added_none))]
fn add_line<'a>(
    pool: &mut IndexSet<Entry<'a>>,
    stage: Stage,
    line: &Line<'a>,
    more: &[Parsed<'a>],
) -> Result<(), AllocError>
    ensures { OnOk result
        (pool.new.keys ≡ entry_added pool.old.keys (stage_uses stage line.now more.now)) }
{
    if is_inside(stage) {
        return Ok(());
    }
    add_outside(pool, line, more)
}

/// The constant pool of lines.
pub(crate) fn pool<'a>(
    alloc: Global,
    lines: &[Parsed<'a>],
) -> Result<IndexSet<Entry<'a>>, AllocError>
    ensures { IfOk result (λ entries. entries.keys ≡ pool lines.now) }
{
    let mut pool = IndexSet::new(alloc);
    let mut stage = Stage::Start;
    for i in 0..lines.len() {
        let p = &lines[i];
        add_line(&mut pool, stage, &p.line, &lines[i + 1..])?;
        stage = step(stage, &p.line);
    }
    Ok(pool)
}
