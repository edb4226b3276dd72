//! Numbers in the bytes of a pool: one that the bytes are too short for is a broken item.

ghost use Rattle.std.specs.Int.{w8, w16, w32, w64};
ghost use Rattle.et_pool.specs.Reading.{GivesOrIsBroken, pool_number};

use crate::fault::PoolFault;
use et_base::numbers;

pub fn u8_item(bytes: &[u8], at: usize) -> Result<(u8, usize), PoolFault>
    ensures { GivesOrIsBroken (λ x. x) result (pool_number w8 bytes.now at) }
{
    numbers::u8_at(bytes, at).ok_or(PoolFault::Short { offset: at })
}

pub fn u16_item(bytes: &[u8], at: usize) -> Result<(u16, usize), PoolFault>
    ensures { GivesOrIsBroken (λ x. x) result (pool_number w16 bytes.now at) }
{
    numbers::u16_at(bytes, at).ok_or(PoolFault::Short { offset: at })
}

pub fn u32_item(bytes: &[u8], at: usize) -> Result<(u32, usize), PoolFault>
    ensures { GivesOrIsBroken (λ x. x) result (pool_number w32 bytes.now at) }
{
    numbers::u32_at(bytes, at).ok_or(PoolFault::Short { offset: at })
}

pub fn u64_item(bytes: &[u8], at: usize) -> Result<(u64, usize), PoolFault>
    ensures { GivesOrIsBroken (λ x. x) result (pool_number w64 bytes.now at) }
{
    numbers::u64_at(bytes, at).ok_or(PoolFault::Short { offset: at })
}
