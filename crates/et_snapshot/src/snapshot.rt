//! The snapshot of a trace at an event.
ghost use Rattle.std.specs.Prelude.{◌≡◌, ◌≤◌, ◌∷◌, ◌++◌, [], All, length, IfOk, OnOk, OnErr};
ghost use Rattle.std.specs.List.{flat_map};
ghost use Rattle.et_io.specs.Faults.{count_after, is_write_fault};
ghost use Rattle.et_io.specs.Sink.{with_more, TakesUpTo, TakesPrefix};
ghost use Rattle.et_snapshot.specs.Heap.{objects_of, lists_of, body_of, row_of, rows_of, rows_in, total_rows, HasClass, IsCounted};
ghost use Rattle.et_snapshot.specs.Snapshot.{snapshot_text};

use crate::heap::{Heap, heap_at};
use crate::objects::{Entry, Seen};
use crate::rows::{put_class, put_head, put_object, put_slot};
use crate::totals::{Total, count_objects};
use et_base::NoMemory;
use et_io::{RunFault, Sink, put_all, put_piece};
use et_text::Trace;
use std::alloc::Global;
use std::collections::BTreeMap;

/// Puts the rows of the slots of an object, or of the static slots.
fn put_slots<O: Sink>(
    owner: Option<u32>,
    slots: &BTreeMap<u32, u32>,
    sink: &mut O,
    text: &mut Vec<u8>,
) -> Result<(), RunFault>
    ensures ok { OnOk result (TakesUpTo (O.taken sink.old) (O.taken sink.new)
        (text.old.items ++ flat_map (row_of owner) slots.now.entries) text.new.items) }
    ensures write { O.faults sink.new ≡ count_after (is_write_fault result) (O.faults sink.old) }
    ensures err { OnErr result (TakesPrefix (O.taken sink.old) (O.taken sink.new)
        (text.old.items ++ flat_map (row_of owner) slots.now.entries)) }
    ensures never_falls { O.faults sink.old ≤ O.faults sink.new }
{
    for (slot, target) in slots {
        let Ok(()) = put_slot(text, owner, *slot, *target) else {
            return Err(RunFault::NoMemory);
        };
        put_piece(sink, text)?;
    }
    Ok(())
}

/// Puts the row of an object, and those of its slots.
fn put_one<O: Sink>(
    names: &[Vec<u8>],
    object: u32,
    seen: &Seen,
    sink: &mut O,
    text: &mut Vec<u8>,
) -> Result<(), RunFault>
    requires class { HasClass (length names.now) (object, body_of seen.now) }
    ensures ok { OnOk result (TakesUpTo (O.taken sink.old) (O.taken sink.new)
        (text.old.items ++ rows_of (lists_of names.now) (object, body_of seen.now))
        text.new.items) }
    ensures write { O.faults sink.new ≡ count_after (is_write_fault result) (O.faults sink.old) }
    ensures err { OnErr result (TakesPrefix (O.taken sink.old) (O.taken sink.new)
        (text.old.items ++ rows_of (lists_of names.now) (object, body_of seen.now))) }
    ensures never_falls { O.faults sink.old ≤ O.faults sink.new }
{
    let name = names[seen.class as usize - 1].as_slice();
    let Ok(()) = put_object(text, object, name, seen.size) else {
        return Err(RunFault::NoMemory);
    };
    put_slots(Some(object), &seen.slots, sink, text)
}

/// Puts the rows of an object, where it is live.
fn put_entry<O: Sink>(
    names: &[Vec<u8>],
    entry: &Entry,
    sink: &mut O,
    text: &mut Vec<u8>,
) -> Result<(), RunFault>
    requires class { All (HasClass (length names.now)) (objects_of (entry.now ∷ [])) }
    ensures ok { OnOk result (TakesUpTo (O.taken sink.old) (O.taken sink.new)
        (text.old.items ++ rows_in (lists_of names.now) entry.now) text.new.items) }
    ensures write { O.faults sink.new ≡ count_after (is_write_fault result) (O.faults sink.old) }
    ensures err { OnErr result (TakesPrefix (O.taken sink.old) (O.taken sink.new)
        (text.old.items ++ rows_in (lists_of names.now) entry.now)) }
    ensures never_falls { O.faults sink.old ≤ O.faults sink.new }
{
    match &entry.seen {
        Some(seen) => put_one(names, entry.object, seen, sink, text),
        None => Ok(()),
    }
}

/// Puts the rows of the objects.
fn put_objects<O: Sink>(
    names: &[Vec<u8>],
    entries: &[Entry],
    sink: &mut O,
    text: &mut Vec<u8>,
) -> Result<(), RunFault>
    requires classes { All (HasClass (length names.now)) (objects_of entries.now) }
    ensures ok { OnOk result (TakesUpTo (O.taken sink.old) (O.taken sink.new) (text.old.items
        ++ flat_map (rows_of (lists_of names.now)) (objects_of entries.now))
        text.new.items) }
    ensures write { O.faults sink.new ≡ count_after (is_write_fault result) (O.faults sink.old) }
    ensures err { OnErr result (TakesPrefix (O.taken sink.old) (O.taken sink.new) (text.old.items
        ++ flat_map (rows_of (lists_of names.now)) (objects_of entries.now))) }
    ensures never_falls { O.faults sink.old ≤ O.faults sink.new }
{
    for entry in entries {
        put_entry(names, entry, sink, text)?;
        put_piece(sink, text)?;
    }
    Ok(())
}

/// Puts the rows of the classes.
fn put_classes<O: Sink>(
    names: &[Vec<u8>],
    totals: &[Total],
    sink: &mut O,
    text: &mut Vec<u8>,
) -> Result<(), RunFault>
    requires each { length totals.now ≡ length names.now }
    ensures ok { OnOk result (TakesUpTo (O.taken sink.old) (O.taken sink.new)
        (text.old.items ++ total_rows (lists_of names.now) totals.now) text.new.items) }
    ensures write { O.faults sink.new ≡ count_after (is_write_fault result) (O.faults sink.old) }
    ensures err { OnErr result (TakesPrefix (O.taken sink.old) (O.taken sink.new)
        (text.old.items ++ total_rows (lists_of names.now) totals.now)) }
    ensures never_falls { O.faults sink.old ≤ O.faults sink.new }
{
    for (index, total) in totals.iter().enumerate() {
        let Ok(()) = put_class(text, names[index].as_slice(), *total) else {
            return Err(RunFault::NoMemory);
        };
        put_piece(sink, text)?;
    }
    Ok(())
}

/// The heap at an event, and how many objects and bytes are live, of each class and in all.
#[derive(Drop)]
struct Counted {
    heap: Heap,
    totals: Vec<Total>,
    all: Total,
}

fn count_at(alloc: Global, trace: &Trace, event: u64) -> Result<Counted, NoMemory>
    ensures { IfOk result (λ r. IsCounted trace.now event r.heap r.totals.items r.all) }
{
    let heap = heap_at(alloc, trace.lines(), event)?;
    let mut totals = Vec::new(alloc);
    totals.resize(heap.names.len(), Total::NONE)?;
    let all = count_objects(&heap.objects, &mut totals);
    Ok(Counted { heap, totals, all })
}

/// Writes what stood in the heap at an event: a line with the event, the number of live objects and their bytes; a line for
/// each static slot that isn't null; for each live object, in order of number, a line with its class and its size, and one
/// for each of its slots that isn't null; and a line for each class that has one of them. An object is live as the live
/// curve has it. The text is put in pieces of 64 KiB, and what is kept grows with what lives at once. `Write` comes exactly
/// where a put failed, and the sink counted one fault; after `Write` and after `NoMemory` the sink took a prefix of the text.
pub fn snapshot_lines<O: Sink>(
    alloc: Global,
    trace: &Trace,
    event: u64,
    sink: &mut O,
) -> Result<(), RunFault>
    ensures ok { OnOk result
        (O.taken sink.new ≡ with_more (O.taken sink.old) (snapshot_text trace.now event)) }
    ensures write { O.faults sink.new ≡ count_after (is_write_fault result) (O.faults sink.old) }
    ensures err { OnErr result
        (TakesPrefix (O.taken sink.old) (O.taken sink.new) (snapshot_text trace.now event)) }
    ensures never_falls { O.faults sink.old ≤ O.faults sink.new }
{
    let Ok(Counted { heap, totals, all }) = count_at(alloc, trace, event) else {
        return Err(RunFault::NoMemory);
    };
    let mut text = Vec::new(alloc);
    let Ok(()) = put_head(&mut text, event, all) else {
        return Err(RunFault::NoMemory);
    };
    put_slots(None, &heap.statics, sink, &mut text)?;
    put_objects(&heap.names, &heap.objects, sink, &mut text)?;
    put_classes(&heap.names, &totals, sink, &mut text)?;
    put_all(sink, text.as_slice())
}
