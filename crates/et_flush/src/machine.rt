//! The flush of a machine.
ghost use Rattle.std.specs.Prelude.{◌≡◌, ℕ, ◌+◌, ◌*◌, ◌<◌, ◌≤◌, ◌↔◌, true, Bool, length, map, slice_index, OnOk, OnErr};
ghost use Rattle.et_graph.specs.Graph.{AreDead, IsReached};
ghost use Rattle.et_heap.specs.Objects.{IsHeld, held_count};
ghost use Rattle.et_state.specs.State.{kept_of};
ghost use Rattle.et_state.specs.Enqueuing.{flushed_heap};
ghost use Rattle.et_heap.specs.Cleared.{cleared_references};
ghost use Rattle.et_state.specs.Roots.{graph_of};
ghost use Rattle.et_state.specs.Sound.{IsSound};
ghost use Rattle.et_graph.specs.Listed.{AreListed};
ghost use Rattle.et_graph.specs.Cleared.{IsClearedAndTied};

use crate::room::FlushRoom;
use et_base::{NoMemory, Steps};
use et_graph::Stamps;
use et_heap::RootList;
use et_state::Machine;
use std::sync::ledger::Ledger;

/// The flush of a machine: its roots are listed, places are made for the objects that it holds, and its heap is flushed from
/// the roots. Nothing else of it changes. After `NoMemory`, which comes before the flush, machine and room are as before.
pub fn flush_machine<L: Ledger>(
    machine: &mut Machine,
    stamps: &Stamps,
    roots: &mut RootList,
    room: &mut FlushRoom,
    visits: &mut Steps<L>,
) -> Result<(), NoMemory>
    requires sound { IsSound (kept_of machine.old) }
    requires stamps { length machine.old.heap ≤ length stamps.now }
    ensures deaths { OnOk result
        (AreListed (graph_of (kept_of machine.old)) (slice_index stamps.now) room.new.deaths) }
    ensures dead { OnOk result
        (AreDead (graph_of (kept_of machine.old)) (map (λ d. d.0) room.new.deaths)) }
    ensures machine { (here : ℕ → Bool) → ((o : ℕ) → IsHeld machine.old.heap o →
        (here o ≡ true) ↔ IsReached (graph_of (kept_of machine.old)) o) → OnOk result
        (machine.new ≡ record machine.old { heap = flushed_heap here machine.old.heap }) }
    ensures graph { OnOk result
        (IsClearedAndTied (graph_of (kept_of machine.old)) (graph_of (kept_of machine.new))) }
    ensures sound { OnOk result (IsSound (kept_of machine.new)) }
    ensures visits { (here : ℕ → Bool) → ((o : ℕ) → IsHeld machine.old.heap o →
        (here o ≡ true) ↔ IsReached (graph_of (kept_of machine.old)) o) → visits.new
        ≤ visits.old + 2 * held_count machine.old.heap
        + 2 * length (cleared_references here 0 machine.old.heap) }
    ensures numbers { room.old.numbers ≤ room.new.numbers }
    ensures places { room.old.places ≤ room.new.places }
    ensures err { OnErr result (machine.new ≡ machine.old) }
    ensures err_room { OnErr result (room.new ≡ room.old) }
{
    machine.roots(roots)?;
    room.make_places(machine.heap.count(), machine.heap.held())?;
    room.flush(&mut machine.heap, roots, stamps, visits);
    Ok(())
}
