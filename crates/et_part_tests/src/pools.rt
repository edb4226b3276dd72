use et_pool::{Pool, PoolFault, read_pool};
use std::test::Fail;

/// A count of 12; Utf8 `A`, Class #1, String #1, Integer -2, Long -3 (two indices), Utf8 `()V`,
/// NameAndType #1 #7, Methodref #2 #8, Fieldref #2 #8, InvokeDynamic 0 #8; and a byte behind.
const BYTES: [u8; 53] = [
    0, 12, 1, 0, 1, 65, 7, 0, 1, 8, 0, 1, 3, 255, 255, 255, 254, 5, 255, 255, 255, 255, 255, 255,
    255, 253, 1, 0, 3, 40, 41, 86, 12, 0, 1, 0, 7, 10, 0, 2, 0, 8, 9, 0, 2, 0, 8, 18, 0, 0, 0, 8,
    99,
];

#[test]
fn reads_and_looks_up(rt: HostRuntime) -> Result<(), Fail> {
    let (pool, after): (Pool, usize) = read_pool(rt.alloc(), &BYTES, 0)?;
    assert_eq!(rt; after, 52);
    assert_eq!(rt; pool.check(), Ok(()));
    assert_eq!(rt; pool.tag(6), 0);
    assert_eq!(rt; pool.tag(9), 10);
    assert_eq!(rt; pool.utf8(1) == Some(b"A".as_slice()), true);
    assert_eq!(rt; pool.integer(4), Some(-2));
    assert_eq!(rt; pool.long(5), Some(-3));
    assert_eq!(rt; pool.name_and_type(8), Some((1, 7)));
    assert_eq!(rt; pool.member(10), Some((2, 8)));
    Ok(())
}

#[test]
fn names_the_broken_entry(rt: HostRuntime) -> Result<(), Fail> {
    let cut = read_pool(rt.alloc(), &BYTES[..50], 0);
    assert_eq!(rt; cut.err(), Some(PoolFault::Short { offset: 50 }));
    Ok(())
}
