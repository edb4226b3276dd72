//! The room of a flush gets places.
use et_flush::FlushRoom;
use std::test::Fail;

#[test]
fn places_are_made(rt: HostRuntime) -> Result<(), Fail> {
    let mut room = FlushRoom::begin(rt.alloc());
    room.grow(3_000)?;
    room.grow(7)?;
    room.make_places(1_000_000, 5)?;
    assert!(rt; room.deaths().is_empty());
    Ok(())
}
