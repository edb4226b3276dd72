use super::*;
use et_pool::read_pool;
use std::test::Fail;

/// The pool of Thread is one, whole, and its entry 6 is a member of the class that entry 2 names.
#[test]
fn thread_names_its_target(rt: HostRuntime) -> Result<(), Fail> {
    let thread = boot_class(6);
    match read_pool(rt.alloc(), thread.pool, 0) {
        Err(_) => assert!(rt; false),
        Ok((pool, after)) => {
            assert_eq!(rt; after, thread.pool.len());
            assert_eq!(rt; pool.member(6), Some((2, 5)));
            assert_eq!(rt; pool.utf8(3), Some(b"target".as_slice()));
        }
    }
    Ok(())
}
