//! Objects are made, taken out, counted and refused.
ghost use Rattle.std.specs.Prelude.{◌≡◌, ◌<◌, ◌∷◌, [], Some, None};
ghost use Rattle.et_heap.specs.Objects.{new_object};
ghost use Rattle.et_heap.specs.Queues.{IsWhole};

use super::*;
use crate::page::Page;
use crate::place::Place;
use et_base::{ClassId, ObjectId, Steps, Value};
use std::marker::Brand;
use std::mem::size_of;
use std::process::Abort;
use std::sync::ledger::{Blank, Ledger};
use std::test::Fail;

#[test]
fn numbers_and_counts(rt: HostRuntime) -> Result<(), Fail> {
    let mut heap = Heap::begin(rt.alloc());
    assert_eq!(rt; heap.make_object(ClassId::new(3), 1)?.number(), 1);
    assert_eq!(rt; heap.make_array(ClassId::new(4), 2)?.number(), 2);
    assert_eq!(rt;
        heap.make_array(ClassId::new(4), 67_108_862),
        Err(MakeFault::Full)
    );
    assert_eq!(rt; heap.count(), 2);
    assert_eq!(rt; heap.held(), 2);
    assert_eq!(rt; heap.slots(), 3);
    assert!(rt; heap.is_held(ObjectId::new(1)));
    heap.take_out(ObjectId::new(1));
    assert_eq!(rt; heap.count(), 2);
    assert_eq!(rt; heap.held(), 1);
    assert_eq!(rt; heap.slots(), 2);
    assert!(rt; !heap.is_held(ObjectId::new(0)));
    assert!(rt; !heap.is_held(ObjectId::new(1)));
    assert!(rt; heap.is_held(ObjectId::new(2)));
    assert!(rt; !heap.is_held(ObjectId::new(3)));
    assert_eq!(rt; heap.make_object(ClassId::new(3), 0)?.number(), 3);
    Ok(())
}

#[test]
fn pages_are_given_back(rt: HostRuntime) -> Result<(), Fail> {
    let mut heap = Heap::begin(rt.alloc());
    for _ in 0..3_000 {
        heap.make_object(ClassId::new(3), 0)?;
    }
    assert_eq!(rt; heap.pages_there(), 3);
    for number in 1..2_049 {
        let o = ObjectId::new(number);
        assert!(rt; heap.is_held(o));
        heap.take_out(o);
    }
    assert_eq!(rt; heap.pages_there(), 1);
    assert_eq!(rt; heap.held(), 952);
    assert_eq!(rt;
        heap.next_held(ObjectId::new(0)),
        Some(ObjectId::new(2_049))
    );
    assert_eq!(rt; heap.next_held(ObjectId::new(3_001)), None);
    assert_eq!(rt; heap.make_object(ClassId::new(3), 0)?.number(), 3_001);
    Ok(())
}

fn parts<L: Ledger>(rt: &impl Abort, heap: &mut Heap, blank: Blank)
    requires name { blank.name ≡ L.name }
    requires parts { blank.parts ≡ L.parts }
    requires counts { 0 < L.parts }
    requires heap { heap.old ≡ None ∷ Some (new_object 4 2 2) ∷ [] }
{
    let mut visits = Steps::<L>::begin(blank);
    let o = ObjectId::new(1);
    assert!(rt; heap.is_held(o));
    assert_eq!(rt; heap.refs_of(o, &mut visits).next(), None);
    assert_eq!(rt; heap.queue(o, &mut visits), Value::Null);
    assert_eq!(rt; heap.class_of(o, &mut visits), ClassId::new(4));
    assert_eq!(rt; heap.length_of(o, &mut visits), 2);
    assert_eq!(rt; heap.referent(o, &mut visits), Value::Null);
    assert_eq!(rt;
        heap.set_referent(o, Value::Ref(o), &mut visits),
        Value::Null
    );
    assert_eq!(rt; heap.referents(), 1);
    assert_eq!(rt;
        heap.set_slot(o, 1, Value::Ref(o), &mut visits),
        Value::Unset
    );
    let free = heap.monitor(o, &mut visits);
    assert_eq!(rt; (free.owner, free.count), (None, 0));
    heap.take_out(o);
    assert_eq!(rt; heap.referents(), 0);
}

#[test]
fn an_array(rt: HostRuntime) -> Result<(), Fail> {
    let mut heap = Heap::begin(rt.alloc());
    heap.make_array(ClassId::new(4), 2)?;
    parts::<Brand>(&rt, &mut heap, Blank::new(1));
    Ok(())
}

fn waits_and_is_polled<L: Ledger>(rt: &impl Abort, heap: &mut Heap, blank: Blank)
    requires name { blank.name ≡ L.name }
    requires parts { blank.parts ≡ L.parts }
    requires counts { 0 < L.parts }
    requires heap { heap.old ≡ None ∷ Some (new_object 3 0 0) ∷ Some (new_object 4 0 0) ∷ [] }
{
    let mut visits = Steps::<L>::begin(blank);
    let queue = ObjectId::new(1);
    let reference = ObjectId::new(2);
    assert_eq!(rt;
        heap.set_queue(reference, Value::Ref(queue), &mut visits),
        Value::Null
    );
    heap.enqueue(reference, &mut visits);
    assert_eq!(rt; heap.poll(queue, &mut visits), Value::Ref(reference));
    assert_eq!(rt; heap.poll(queue, &mut visits), Value::Null);
}

#[test]
fn a_reference_is_polled_once(rt: HostRuntime) -> Result<(), Fail> {
    let mut heap = Heap::begin(rt.alloc());
    heap.make_object(ClassId::new(3), 0)?;
    heap.make_object(ClassId::new(4), 0)?;
    waits_and_is_polled::<Brand>(&rt, &mut heap, Blank::new(1));
    Ok(())
}

#[test]
fn roots_in_order(rt: HostRuntime) -> Result<(), Fail> {
    let mut roots = RootList::begin(rt.alloc());
    roots.push(ObjectId::new(7))?;
    roots.push(ObjectId::new(5))?;
    assert_eq!(rt;
        roots.as_slice(),
        [ObjectId::new(7), ObjectId::new(5)].as_slice()
    );
    roots.clear();
    assert!(rt; roots.as_slice().is_empty());
    Ok(())
}

#[test]
fn an_object_takes_64_bytes_and_16_a_slot(rt: HostRuntime) {
    assert!(rt; size_of::<Place>() <= 64);
    assert!(rt; size_of::<Value>() <= 16);
    assert!(rt; size_of::<Page>() <= 32);
}
