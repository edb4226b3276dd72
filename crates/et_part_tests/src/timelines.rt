//! The timeline of a whole trace.
use crate::traces::read;
use et_replay::{Item, timeline};
use std::process::Abort;
use std::test::Fail;

/// Object 1 refers to object 3, and both die at event 5; three others die at event 7. The D lines stand at the end.
pub const TRACE: &str = "H 1 0
C 1 P
A 1 0 1 1 24 0
A 2 0 2 1 24 0
A 3 0 3 1 24 0
U 4 0 1 0 0 3
U 4 0 0 7 0 2
A 6 0 4 1 24 0
A 7 0 5 1 24 0
F 8 5
D 1 5
D 2 7
D 3 5
D 4 7
D 5 7
Z 8 0
";

fn alloc(event: u64, object: u32) -> Item {
    Item::Alloc {
        event,
        object,
        size: 24,
    }
}

fn death(object: u32, time: u64) -> Item {
    Item::Death { object, time }
}

#[test]
fn deaths_stand_in_time(rt: HostRuntime) -> Result<(), Fail> {
    let trace = read(rt.alloc(), TRACE.as_bytes(), TRACE.len())?;
    let found = timeline(rt.alloc(), &trace)?;
    let write = Item::Write {
        event: 4,
        object: 1,
        slot: 0,
        new: 3,
    };
    let wanted = [
        alloc(1, 1),
        alloc(2, 2),
        alloc(3, 3),
        write,
        death(1, 5),
        death(3, 5),
        alloc(6, 4),
        alloc(7, 5),
        death(2, 7),
        death(4, 7),
        death(5, 7),
    ];
    assert_eq!(rt; found.items(), wanted.as_slice());
    Ok(())
}
