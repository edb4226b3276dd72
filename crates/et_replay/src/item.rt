//! What a trace says of the heap, in order of time.
ghost use Rattle.std.specs.Prelude.{◌≡◌, ◌<◌, ◌≤◌, ◌^◌, ◌∷◌, [], length};
ghost use Rattle.et_replay.specs.Items.{made_objects, MakesInOrder};

use std::marker::Model;

/// A thing that happens to the heap.
#[derive(Clone, Copy, Debug, PartialEq, Eq)]
pub enum Item {
    /// An object is made at the event. The size is in bytes.
    Alloc {
        event: u64,
        object: u32,
        size: u64,
    },
    /// A reference is written to a slot of the object at the event; 0 stands for null.
    Write {
        event: u64,
        object: u32,
        slot: u32,
        new: u32,
    },
    /// The object is reached at the event `time` for the last time.
    Death {
        object: u32,
        time: u64,
    },
}

fn makes(item: &Item) -> u32
    ensures { result ≡ length (made_objects (item.now ∷ [])) }
{
    match item {
        Item::Alloc { .. } => 1,
        _ => 0,
    }
}

fn count_objects(items: &[Item]) -> u32
    requires { length (made_objects items.now) < 2 ^ 24 }
    ensures { result ≡ length (made_objects items.now) }
{
    let mut objects = 0;
    for item in items {
        objects += makes(item);
    }
    objects
}

/// The items of a trace. It keeps that there are at most 16,777,215 Alloc items, that these have the objects 1, 2, 3
/// in order, and that each size is at most 2^30. A contract sees it as the list of its items.
#[derive(Drop)]
pub struct Timeline {
    items: Vec<Item>,
}

impl Model for Timeline {
    ghost use Rattle.std.specs.Prelude.{List};
    ghost use Rattle.et_replay.specs.declared.item.Item.{Item};
    ghost use Rattle.et_replay.specs.Items.{MakesInOrder};

    ghost Value = { List Item };

    ghost view = { λ t. t.items.items };

    ghost invariant = { λ t. MakesInOrder t.items.items };
}

impl Timeline {
    /// The timeline of these items.
    pub fn of(items: Vec<Item>) -> Timeline
        requires { MakesInOrder items.items }
        ensures { result ≡ items.items }
    {
        Timeline { items }
    }

    /// How many objects it makes, at most 16,777,215.
    pub fn objects(&self) -> u32
        ensures count { result ≡ length (made_objects self.now) }
        ensures few { result ≤ 16777215 }
    {
        count_objects(self.items())
    }

    /// The items, in order.
    pub fn items(&self) -> &[Item]
        ensures value { result.now ≡ self.now }
        ensures made { MakesInOrder self.now }
    {
        self.items.as_slice()
    }
}
