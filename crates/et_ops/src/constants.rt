//! Constants of the pool.
ghost use Rattle.std.specs.Option.{option_copied, option_map};
ghost use Rattle.std.specs.Prelude.{◌≡◌, ◌<◌, ◌^◌, IfSome, length};
ghost use Rattle.et_event.specs.declared.rows.Row.TheVariants as rows;
ghost use Rattle.et_event.specs.Pools.{pool_slots};
ghost use Rattle.et_event.specs.Sites.{Site, constant_at, pool_index};
ghost use Rattle.et_ops.specs.Plain.{KeepsLocals, RunsPlain};
ghost use Rattle.et_pool.specs.Looks.{string_at};

use crate::ends::{PlainEnd, end_of};
use crate::literals::{push_int, push_long};
use et_pool::Pool;
use et_state::Running;

/// Pushes the number at an index of a pool.
#[inline(always)]
fn push_entry(running: &mut Running, pool: &Pool, index: u16, next: u32) -> PlainEnd
    ensures ends { (at : Site) → at.next ≡ next →
        constant_at at.pool (pool_index at) ≡ constant_at pool.now.slots index →
        RunsPlain at rows.PoolConstant result running.old running.new }
    ensures stays { KeepsLocals running.old.frame running.new.frame }
{
    if let Some(n) = pool.integer(index) {
        return end_of(push_int(running, n, next));
    }
    if let Some(n) = pool.long(index) {
        return end_of(push_long(running, n, next));
    }
    match pool.string(index) {
        Some(_) => PlainEnd::More,
        None => PlainEnd::IllTyped,
    }
}

/// Does an `ldc`, `ldc_w` or `ldc2_w` of a number (JVMS 6.5), over the frame that runs: it has this index into the pool of its
/// class, if that has one, and stands in front of the pc `next`.
#[inline(always)]
pub fn push_constant(running: &mut Running, pool: Option<&Pool>, index: u16, next: u32) -> PlainEnd
    ensures ends { (at : Site) → at.next ≡ next →
        at.pool ≡ pool_slots (option_copied pool.entry) → pool_index at ≡ index →
        RunsPlain at rows.PoolConstant result running.old running.new }
    ensures stays { KeepsLocals running.old.frame running.new.frame }
{
    match pool {
        Some(pool) => push_entry(running, pool, index, next),
        None => PlainEnd::IllTyped,
    }
}

/// The bytes of the string at an index of the pool of a class, if that has one.
pub(crate) fn string_bytes(pool: Option<&Pool>, index: u16) -> Option<&[u8]>
    ensures value { option_map (λ s. s.now) result
        ≡ string_at (pool_slots (option_copied pool.entry)) index }
    ensures short { IfSome result (λ s. length s.now < 2 ^ 16) }
{
    pool?.string(index)
}
