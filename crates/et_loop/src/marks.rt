//! What an event does to the stamps.
ghost use Rattle.std.specs.Prelude.{◌≡◌, ℕ, ◌+◌, ◌<◌, ◌≤◌, ◌^◌, ◌⊎◌, length, OnOk, Contains, slice_index};
ghost use Rattle.et_loop.specs.Stamping.{Restamps, HasStamps};

use crate::guest::Guest;
use et_base::{NoMemory, ObjectId};
use et_graph::{Stamps, stamp_each};

/// Writes this stamp for each object that was made since there were so many.
fn stamp_new(stamps: &mut Stamps, before: u32, made: u32, event: u64)
    requires places { made < length stamps.old }
    requires more { before ≤ made }
    requires event { event ≤ 2 ^ 40 }
    ensures long { length stamps.new ≡ length stamps.old }
    ensures each { (o : ℕ) → before < o → o ≤ made → slice_index stamps.new o ≡ event }
    ensures others { (o : ℕ) →
        (o ≤ before) ⊎ (made < o) → slice_index stamps.new o ≡ slice_index stamps.old o }
{
    'new: for number in before..made {
        stamps.set(ObjectId::new(number + 1), event);
    }
}

/// Makes places for what was made since there were so many objects. Where that is nothing, all places are there.
fn make_places<G: Guest>(
    before: u32,
    made: u32,
    stamps: &mut Stamps,
    room: &mut G::Room,
) -> Result<(), NoMemory>
    requires more { before ≤ made }
    requires stamps { before < length stamps.old }
    requires room { G.has_places room.old before }
    ensures places { OnOk result (made < length stamps.new) }
    ensures kept { (o : ℕ) → slice_index stamps.new o ≡ slice_index stamps.old o }
    ensures room { OnOk result (G.has_places room.new made) }
{
    if before != made {
        stamps.grow(made)?;
        G::grow_room(room, made)?;
    }
    Ok(())
}

/// Stamps what the event after e lost with e, the last event after which it was reached for certain, and what it made
/// with its own number. There were so many objects before it, and they had places. All have places afterwards: they are
/// made only where the event made an object.
pub fn restamp<G: Guest>(
    guest: &G,
    e: u64,
    before: u32,
    stamps: &mut Stamps,
    room: &mut G::Room,
) -> Result<(), NoMemory>
    requires clock { e < 2 ^ 40 }
    requires more { before ≤ (G.graph_of (G.state guest.now)).made }
    requires lost { (o : ℕ) →
        Contains (G.lost_of guest.now) o → o ≤ (G.graph_of (G.state guest.now)).made }
    requires stamps { before < length stamps.old }
    requires room { G.has_places room.old before }
    ensures stamps { OnOk result (Restamps e before (G.graph_of (G.state guest.now)).made
        (G.lost_of guest.now) (slice_index stamps.old) (slice_index stamps.new)) }
    ensures places { OnOk result (HasStamps (G.graph_of (G.state guest.now)) stamps.new) }
    ensures room { OnOk result (G.has_places room.new (G.graph_of (G.state guest.now)).made) }
{
    let made = guest.made();
    make_places::<G>(before, made, stamps, room)?;
    stamp_each(stamps, guest.lost(), e);
    stamp_new(stamps, before, made, e + 1);
    Ok(())
}
