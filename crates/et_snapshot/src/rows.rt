//! The lines of a snapshot.
ghost use Rattle.std.specs.Prelude.{◌≡◌, ◌∷◌, ◌++◌, [], codes, OnOk};
ghost use Rattle.std.specs.List.{flat_map};
ghost use Rattle.et_text.specs.Spelling.{number_field};
ghost use Rattle.et_snapshot.specs.Heap.{row_of, total_row};

use crate::totals::Total;
use et_base::NoMemory;
use itoa::Buffer;

/// A number behind a space.
fn put_number(text: &mut Vec<u8>, n: u64) -> Result<(), NoMemory>
    ensures { OnOk result (text.new.items ≡ text.old.items ++ number_field n) }
{
    let mut buffer = Buffer::new();
    text.push(b' ')?;
    text.extend_from_slice(buffer.format(n).as_bytes())?;
    Ok(())
}

/// Numbers, and the end of the line.
fn put_numbers(text: &mut Vec<u8>, numbers: &[u64]) -> Result<(), NoMemory>
    ensures { OnOk result
        (text.new.items ≡ text.old.items ++ (flat_map number_field numbers.now ++ 10 ∷ [])) }
{
    for number in numbers {
        put_number(text, *number)?;
    }
    text.push(b'\n')?;
    Ok(())
}

/// The first line.
pub fn put_head(text: &mut Vec<u8>, event: u64, all: Total) -> Result<(), NoMemory>
    ensures { OnOk result (text.new.items ≡ text.old.items ++ (codes "snapshot"
        ++ number_field event ++ number_field all.count ++ number_field all.bytes ++ 10 ∷ [])) }
{
    text.extend_from_slice(b"snapshot")?;
    put_numbers(text, &[event, all.count, all.bytes])
}

/// The line of a slot of an object, or of a static slot, unless it is null.
pub fn put_slot(
    text: &mut Vec<u8>,
    owner: Option<u32>,
    slot: u32,
    target: u32,
) -> Result<(), NoMemory>
    ensures { OnOk result (text.new.items ≡ text.old.items ++ row_of owner (slot, target)) }
{
    if target == 0 {
        return Ok(());
    }
    let (slot, target) = (u64::from(slot), u64::from(target));
    match owner {
        None => {
            text.push(b's')?;
            put_numbers(text, &[slot, target])
        }
        Some(object) => {
            text.push(b'e')?;
            put_numbers(text, &[u64::from(object), slot, target])
        }
    }
}

/// The line of an object, with the name of its class as a field.
pub fn put_object(text: &mut Vec<u8>, object: u32, name: &[u8], size: u64) -> Result<(), NoMemory>
    ensures { OnOk result (text.new.items ≡ text.old.items ++ (codes "o"
        ++ number_field object ++ name.now ++ number_field size ++ 10 ∷ [])) }
{
    text.push(b'o')?;
    put_number(text, u64::from(object))?;
    text.extend_from_slice(name)?;
    put_numbers(text, &[size])
}

/// The line of a class, with its name as a field, unless no object of it is live.
pub fn put_class(text: &mut Vec<u8>, name: &[u8], total: Total) -> Result<(), NoMemory>
    ensures { OnOk result (text.new.items ≡ text.old.items ++ total_row name.now total) }
{
    if total.count == 0 {
        return Ok(());
    }
    text.push(b'c')?;
    text.extend_from_slice(name)?;
    put_numbers(text, &[total.count, total.bytes])
}
