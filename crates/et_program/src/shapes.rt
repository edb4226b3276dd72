//! What calls read off the descriptors of the entries of the pools, read once and kept beside them.

ghost use Rattle.std.specs.Prelude.{◌≡◌, ℕ, ◌<◌, ◌^◌, None, IfOk, option_map};
ghost use Rattle.std.specs.List.{slice_index_or};
ghost use Rattle.et_program.specs.Shapes.{member_shape, AreShaped};

use crate::lookup::referring::member_at;
use et_base::NoMemory;
use et_class::{CallShape, Pool, call_shape};
use std::alloc::Global;
use std::marker::Model;

/// What a call reads off the descriptor of each entry of one pool, each at its index.
#[derive(Drop)]
pub(crate) struct PoolShapes {
    shapes: Vec<Option<Box<CallShape>>>,
}

impl Model for PoolShapes {
    ghost use Rattle.std.specs.Prelude.{List, Option, map, option_map};
    ghost use Rattle.et_class.specs.Operands.{Shape};

    ghost Value = { List (Option Shape) };

    ghost view = { λ r. map (option_map (λ s. s.value)) r.shapes.items };
}

impl PoolShapes {
    /// What a call reads off the descriptor of the entry at an index.
    pub(crate) fn at(&self, index: u16) -> Option<&CallShape>
        ensures { option_map (λ s. s.now) result ≡ slice_index_or self.now index None }
    {
        match self.shapes.get(index as usize) {
            Some(Some(shape)) => Some(shape),
            _ => None,
        }
    }
}

/// What calls read off the descriptors of the entries of a pool. The only error is want of memory.
fn pool_shapes(alloc: Global, pool: &Pool) -> Result<PoolShapes, NoMemory>
    ensures { IfOk result (λ r. (index : ℕ) → index < 2 ^ 16 →
        slice_index_or r index None ≡ member_shape pool.now.slots index) }
{
    // An index has 16 bits.
    let count = pool.len().min(65_536);
    let mut shapes = Vec::with_capacity(alloc, count)?;
    for index in 0..count {
        match member_at(pool, index as u16) {
            Some(member) => match call_shape(alloc, member.descriptor)? {
                Some(shape) => shapes.push(Some(Box::new(alloc, shape)?))?,
                None => shapes.push(None)?,
            },
            None => shapes.push(None)?,
        }
    }
    Ok(PoolShapes { shapes })
}

/// What calls read off the descriptors of the entries of these pools. The only error is want of memory.
pub(crate) fn shapes_of(alloc: Global, pools: &[Pool]) -> Result<Vec<PoolShapes>, NoMemory>
    ensures { IfOk result (λ r. AreShaped pools.now r.items) }
{
    let mut shapes = Vec::with_capacity(alloc, pools.len())?;
    for pool in pools {
        shapes.push(pool_shapes(alloc, pool)?)?;
    }
    Ok(shapes)
}
