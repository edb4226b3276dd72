//! Bytes, appended.

ghost use Rattle.std.specs.Prelude.{◌≡◌, ◌++◌, [], ◌∷◌, OnOk};
ghost use Rattle.et_asm.specs.Pool.{reference_bytes, entry_bytes, entry_index};
ghost use Rattle.et_class.specs.Layout.{u4, u2};

use crate::symbols::{Symbols, index_of};
use et_listing::entry::Entry;
use et_listing::spelling::{put_text, text_len};
use et_listing::word::Word;
use std::alloc::AllocError;

/// Appends a byte.
pub(crate) fn put_u1(out: &mut Vec<u8>, n: u8) -> Result<(), AllocError>
    ensures { OnOk result (out.new.items ≡ out.old.items ++ n ∷ []) }
{
    out.push(n)?;
    Ok(())
}

/// Appends the low 16 bits of a number, the high byte first.
pub(crate) fn put_u2(out: &mut Vec<u8>, n: usize) -> Result<(), AllocError>
    ensures { OnOk result (out.new.items ≡ out.old.items ++ u2 n) }
{
    out.extend_from_slice(&((n % 0x1_0000) as u16).to_be_bytes())
}

/// Appends the low 32 bits of a number, the high byte first.
pub(crate) fn put_u4(out: &mut Vec<u8>, n: usize) -> Result<(), AllocError>
    ensures { OnOk result (out.new.items ≡ out.old.items ++ u4 n) }
{
    out.extend_from_slice(&((n % 0x1_0000_0000) as u32).to_be_bytes())
}

/// Appends the index of an entry.
pub(crate) fn put_index<'a>(
    out: &mut Vec<u8>,
    symbols: &Symbols<'a>,
    e: Entry<'a>,
) -> Result<(), AllocError>
    ensures { OnOk result (out.new.items ≡ out.old.items ++ u2 (entry_index symbols.now e.entry)) }
{
    put_u2(out, index_of(symbols, &e))
}

/// Appends a field or a method of the constant pool.
fn put_member<'a>(
    out: &mut Vec<u8>,
    symbols: &Symbols<'a>,
    tag: u8,
    class: &Word<'a>,
    name: &Word<'a>,
    descriptor: &Word<'a>,
) -> Result<(), AllocError>
    ensures { OnOk result (out.new.items ≡ out.old.items
        ++ reference_bytes symbols.now tag class.now name.now descriptor.now) }
{
    put_u1(out, tag)?;
    put_index(out, symbols, Entry::Class(class.copy()))?;
    put_index(
        out,
        symbols,
        Entry::NameAndType(name.copy(), descriptor.copy()),
    )
}

/// Appends an entry of the constant pool.
#[tactic(auto, unfolding(crate::specs::Pool::entry_bytes))]
pub(crate) fn put_entry<'a>(
    out: &mut Vec<u8>,
    symbols: &Symbols<'a>,
    e: &Entry<'a>,
) -> Result<(), AllocError>
    ensures { OnOk result (out.new.items ≡ out.old.items ++ entry_bytes symbols.now e.now) }
{
    match e {
        Entry::Utf8(text) => {
            put_u1(out, 1)?;
            put_u2(out, text_len(text.bytes()))?;
            put_text(out, text.bytes())
        }
        Entry::Integer(value) => {
            put_u1(out, 3)?;
            out.extend_from_slice(&value.cast_unsigned().to_be_bytes())
        }
        Entry::Long(value) => {
            put_u1(out, 5)?;
            out.extend_from_slice(&value.cast_unsigned().to_be_bytes())
        }
        Entry::Class(name) => {
            put_u1(out, 7)?;
            put_index(out, symbols, Entry::Utf8(name.copy()))
        }
        Entry::Text(text) => {
            put_u1(out, 8)?;
            put_index(out, symbols, Entry::Utf8(text.copy()))
        }
        Entry::NameAndType(name, descriptor) => {
            put_u1(out, 12)?;
            put_index(out, symbols, Entry::Utf8(name.copy()))?;
            put_index(out, symbols, Entry::Utf8(descriptor.copy()))
        }
        Entry::Field(class, name, descriptor) => {
            put_member(out, symbols, 9, class, name, descriptor)
        }
        Entry::Method(class, name, descriptor) => {
            put_member(out, symbols, 10, class, name, descriptor)
        }
        Entry::InterfaceMethod(class, name, descriptor) => {
            put_member(out, symbols, 11, class, name, descriptor)
        }
    }
}
