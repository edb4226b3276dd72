//! The room in which the flush of a machine works.
ghost use Rattle.std.specs.Prelude.{◌≡◌, ◌≤◌, OnOk, OnErr};
ghost use Rattle.et_graph.specs.Listing.{death_pairs};

use et_base::NoMemory;
use et_flush::FlushRoom;
use et_graph::Death;
use et_heap::RootList;
use std::alloc::Global;
use std::marker::Model;

/// The list of roots and the room of a flush. A contract sees it as the latter.
#[derive(Drop)]
pub struct GuestRoom {
    pub(crate) roots: RootList,
    pub(crate) room: FlushRoom,
}

impl Model for GuestRoom {
    ghost use Rattle.et_flush.specs.Rooms.{Room};

    ghost Value = { Room };

    ghost view = { λ r. r.room };
}

impl GuestRoom {
    ghost use Rattle.std.specs.Prelude.{[]};

    /// No places yet, and no deaths.
    pub fn begin(alloc: Global) -> GuestRoom
        ensures numbers { result.numbers ≡ 0 }
        ensures places { result.places ≡ 0 }
        ensures deaths { result.deaths ≡ [] }
    {
        GuestRoom {
            roots: RootList::begin(alloc),
            room: FlushRoom::begin(alloc),
        }
    }

    /// Makes places for the blocks of numbers up to this one. A flush makes those of the objects that are held then. What
    /// is there stays. After `NoMemory` it is as before.
    pub fn grow(&mut self, objects: u32) -> Result<(), NoMemory>
        ensures numbers { OnOk result (objects ≤ self.new.numbers) }
        ensures err { OnErr result (self.new ≡ self.old) }
    {
        self.room.make_places(objects, 0)
    }

    /// The deaths that the newest flush listed, in rising order of the objects.
    pub fn deaths(&self) -> &[Death]
        ensures { death_pairs result.now ≡ self.now.deaths }
    {
        self.room.deaths()
    }
}
