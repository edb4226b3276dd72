//! The ranks of the objects that a flush goes over.
ghost use Rattle.std.specs.Prelude.{◌≡◌, ℕ, ◌+◌, ◌*◌, ◌<◌, ◌≤◌, ◌^◌, ◌↔◌, IsTrue, length, slice_index, vec_capacity, Contains, OnOk};
ghost use Rattle.std.specs.List.Sorted.{IsStrictlyIncreasing};
ghost use Rattle.et_flush.specs.Ranks.{block_at};
ghost use Rattle.et_flush.specs.declared.ranks.TheConstants.{BLOCK_SIZE};
ghost use Rattle.et_flush.specs.Ranks.{rank_entry, AreRuns, IsBlockAdded, HasRankRoom, HasRankEntry, HasRank, AreRanked, rank_of, time_of};

use et_base::{ObjectId, within};
use et_graph::place_of;
use std::alloc::{AllocError, Global};

/// So many numbers in a row are a block.
pub const BLOCK_SIZE: usize = 64;

/// The ranks of listed objects: the rank of each is its place in the list, counted from 1. The numbers are cut in blocks, and
/// only a block of which an object is listed has a run of entries, one for each of its numbers. So what is written is as large
/// as the blocks of what is listed, but for eight bytes for each block ever made. There is room for a run for each of the
/// objects.
#[derive(Drop)]
pub(crate) struct Ranks {
    /// By block, which of the runs it has. What stands here of a block without a run is left over.
    pub runs: Vec<u32>,
    /// By run, which block it is of.
    pub blocks: Vec<u32>,
    /// The entries of the runs, one run after the other.
    pub ranks: Vec<u32>,
}

/// No room yet.
pub(crate) fn no_ranks(alloc: Global) -> Ranks
    ensures { HasRankRoom 0 result }
{
    Ranks {
        runs: Vec::new(alloc),
        blocks: Vec::new(alloc),
        ranks: Vec::new(alloc),
    }
}

/// Makes room for the ranks of so many objects, of which none has a greater number than this one. They stand in no more
/// blocks than there are, and in no more than they are.
pub(crate) fn reserve_ranks(
    ranks: &mut Ranks,
    number: usize,
    objects: usize,
) -> Result<(), AllocError>
    requires room { HasRankRoom 0 ranks.old }
    requires small { number < 2 ^ 32 }
    requires few { objects < 2 ^ 32 }
    ensures ok { OnOk result (number ≤ length ranks.new.runs.items * BLOCK_SIZE) }
    ensures room { OnOk result (HasRankRoom objects ranks.new) }
    ensures kept { (n : ℕ) → n ≤ objects → HasRankRoom n ranks.old → HasRankRoom n ranks.new }
    ensures runs { length ranks.old.runs.items ≤ length ranks.new.runs.items }
{
    let blocks = number.div_ceil(BLOCK_SIZE).max(ranks.runs.len());
    within::reserve(&mut ranks.runs, blocks)?;
    within::reserve(&mut ranks.blocks, blocks)?;
    within::reserve(&mut ranks.ranks, blocks.min(objects) * BLOCK_SIZE)?;
    within::resize(&mut ranks.runs, blocks, 0);
    Ok(())
}

/// The block of an object.
fn block_of(object: ObjectId) -> usize
    requires { 0 < object }
    ensures block { result ≡ block_at object }
    ensures fits { result < 2 ^ 32 }
{
    place_of(object) / BLOCK_SIZE
}

/// The place of the object's entry.
fn entry_of(runs: &[u32], object: ObjectId) -> usize
    requires above { 0 < object }
    requires within { block_at object < length runs.now }
    ensures { result ≡ rank_entry runs.now object }
{
    runs[block_of(object)] as usize * BLOCK_SIZE + place_of(object) % BLOCK_SIZE
}

/// The rank of an object.
pub(crate) fn rank_at(ranks: &Ranks, object: ObjectId) -> ObjectId
    requires { HasRankEntry ranks.now object }
    ensures { result ≡ rank_of ranks.now object }
{
    ObjectId::new(ranks.ranks[entry_of(&ranks.runs, object)])
}

/// The time of an object, where the times are listed by the ranks.
pub(crate) fn time_at(ranks: &Ranks, times: &[u64], object: ObjectId) -> u64
    requires { HasRank ranks.now (length times.now) object }
    ensures { result ≡ time_of ranks.now times.now object }
{
    times[place_of(rank_at(ranks, object))]
}

/// Whether the block has a run.
fn has_run(runs: &[u32], blocks: &[u32], block: usize) -> bool
    requires within { block < length runs.now }
    requires runs { AreRuns runs.now blocks.now }
    ensures { IsTrue result ↔ Contains blocks.now block }
{
    let run = runs[block] as usize;
    run < blocks.len() && blocks[run] as usize == block
}

/// Gives the block a run, where it has none.
fn add_block(runs: &mut [u32], blocks: &mut Vec<u32>, block: usize)
    requires within { block < length runs.old }
    requires fits { block < 2 ^ 32 }
    requires runs { AreRuns runs.old blocks.old.items }
    requires few { ¬ Contains blocks.old.items block → length blocks.old.items ≤ block }
    requires room { length runs.old ≤ vec_capacity blocks.old }
    ensures runs { AreRuns runs.new blocks.new.items }
    ensures added { IsBlockAdded blocks.old.items block blocks.new.items }
    ensures room { vec_capacity blocks.old ≤ vec_capacity blocks.new }
{
    if !has_run(runs, blocks, block) {
        runs[block] = blocks.len() as u32;
        within::push(blocks, block as u32);
    }
}

/// Gives a run to each block of which an object is listed, and to no other one.
fn list_blocks(held: &[ObjectId], runs: &mut [u32], blocks: &mut Vec<u32>)
    requires rising { IsStrictlyIncreasing held.now }
    requires within { (o : ℕ) → Contains held.now o → (0 < o) × (block_at o < length runs.old) }
    requires room { length runs.old ≤ vec_capacity blocks.old }
    ensures runs { AreRuns runs.new blocks.new.items }
    ensures blocks { (o : ℕ) → Contains held.now o → Contains blocks.new.items (block_at o) }
    ensures few { length blocks.new.items ≤ length runs.new }
    ensures fewer { length blocks.new.items ≤ length held.now }
    ensures room { vec_capacity blocks.old ≤ vec_capacity blocks.new }
{
    blocks.clear();
    for object in held {
        add_block(runs, blocks, block_of(*object));
    }
}

/// Writes the rank of each object in its entry.
fn write_ranks(held: &[ObjectId], runs: &[u32], ranks: &mut [u32])
    requires rising { IsStrictlyIncreasing held.now }
    requires few { length held.now < 2 ^ 32 }
    requires within { (o : ℕ) → Contains held.now o → (0 < o) × (block_at o < length runs.now) }
    requires entries { (o : ℕ) → Contains held.now o → rank_entry runs.now o < length ranks.old }
    requires apart { (o u : ℕ) → Contains held.now o → Contains held.now u →
        rank_entry runs.now o ≡ rank_entry runs.now u → o ≡ u }
    ensures { (k : ℕ) → k < length held.now →
        slice_index ranks.new (rank_entry runs.now (slice_index held.now k)) ≡ k + 1 }
{
    let mut rank: u32 = 0;
    for object in held {
        rank += 1;
        ranks[entry_of(runs, *object)] = rank;
    }
}

/// Finds the ranks of the objects. It takes no memory.
pub(crate) fn list_ranks(held: &[ObjectId], ranks: &mut Ranks)
    requires rising { IsStrictlyIncreasing held.now }
    requires few { length held.now < 2 ^ 32 }
    requires within { (o : ℕ) → Contains held.now o →
        (0 < o) × (block_at o < length ranks.old.runs.items) }
    requires room { HasRankRoom (length held.now) ranks.old }
    ensures ranked { AreRanked held.now ranks.new }
    ensures room { (n : ℕ) → HasRankRoom n ranks.old → HasRankRoom n ranks.new }
    ensures runs { length ranks.new.runs.items ≡ length ranks.old.runs.items }
{
    list_blocks(held, &mut ranks.runs, &mut ranks.blocks);
    within::resize(&mut ranks.ranks, ranks.blocks.len() * BLOCK_SIZE, 0);
    write_ranks(held, &ranks.runs, &mut ranks.ranks);
}
