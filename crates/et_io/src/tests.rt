//! Each call with ample memory, and the adapters over a real file and a real writer.
use super::*;
use std::fs;
use std::test::Fail;

#[test]
fn sink_fails_as_told(rt: HostRuntime) -> Result<(), Fail> {
    let mut sink = MemSink::begin(rt.alloc(), 2);
    sink.fail_at(3)?;
    assert_eq!(rt; put_all(&mut sink, b"abcde"), Err(RunFault::Write));
    assert_eq!(rt; sink.bytes(), b"abcd".as_slice());
    assert_eq!(rt; put_all(&mut sink, b"xyz"), Ok(()));
    assert_eq!(rt; sink.bytes(), b"abcdxyz".as_slice());
    Ok(())
}

#[test]
fn files_fail_as_told(rt: HostRuntime) -> Result<(), Fail> {
    let mut files = MemFiles::begin(rt.alloc());
    files.hold("a", b"old")?;
    files.hold("a", b"new")?;
    files.fail_at(2)?;
    assert!(rt;
        matches!(&files.read(rt.alloc(), "a", 3)?, Found::Bytes(bytes) if bytes.as_slice() == b"new".as_slice())
    );
    assert!(rt; matches!(&files.read(rt.alloc(), "a", 3)?, Found::Failed));
    assert!(rt; matches!(&files.read(rt.alloc(), "a", 2)?, Found::TooLong));
    assert!(rt; matches!(&files.read(rt.alloc(), "b", 3)?, Found::Absent));
    Ok(())
}

#[test]
fn reads_a_real_file(rt: HostRuntime) -> Result<(), Fail> {
    let path = "et_io_reads_a_real_file.txt";
    fs::write(&rt, path, b"five!")?;
    let mut files = HostFiles::begin(&rt);
    assert!(rt;
        matches!(&files.read(rt.alloc(), path, 5)?, Found::Bytes(bytes) if bytes.as_slice() == b"five!".as_slice())
    );
    assert!(rt; matches!(&files.read(rt.alloc(), path, 4)?, Found::TooLong));
    assert!(rt; matches!(&files.read(rt.alloc(), ".", 4)?, Found::Failed));
    fs::remove_file(&rt, path)?;
    assert!(rt; matches!(&files.read(rt.alloc(), path, 5)?, Found::Absent));
    Ok(())
}

#[test]
fn writes_to_a_real_stream(rt: HostRuntime) -> Result<(), Fail> {
    let path = "et_io_writes_to_a_real_stream.txt";
    let mut sink = HostSink::begin(fs::create(&rt, path)?);
    assert_eq!(rt; put_all(&mut sink, b"five!"), Ok(()));
    assert_eq!(rt; fs::read(&rt, path)?.as_slice(), b"five!".as_slice());
    let mut unwritable = HostSink::begin(fs::open(&rt, path)?);
    assert_eq!(rt; unwritable.put(b"more"), Put::Failed);
    fs::remove_file(&rt, path)?;
    Ok(())
}

#[test]
fn gathers_what_is_put(rt: HostRuntime) -> Result<(), Fail> {
    let path = "et_io_gathers_what_is_put.txt";
    let mut sink = HostSink::gathering(rt.alloc(), fs::create(&rt, path)?)?;
    assert_eq!(rt; put_all(&mut sink, b"five"), Ok(()));
    assert_eq!(rt; put_all(&mut sink, b"!"), Ok(()));
    assert_eq!(rt; fs::read(&rt, path)?.len(), 0);
    assert!(rt; sink.hand_on());
    assert_eq!(rt; fs::read(&rt, path)?.as_slice(), b"five!".as_slice());
    let mut unwritable = HostSink::gathering(rt.alloc(), fs::open(&rt, path)?)?;
    assert_eq!(rt; unwritable.put(b"more"), Put::Took(4));
    assert!(rt; !unwritable.hand_on());
    fs::remove_file(&rt, path)?;
    Ok(())
}

#[test]
fn gathering_fails_as_told(rt: HostRuntime) -> Result<(), Fail> {
    let mut sink = GatheringMemSink::begin(rt.alloc());
    sink.fail_at(3)?;
    assert_eq!(rt; put_all(&mut sink, b"ab"), Ok(()));
    assert!(rt; sink.hand_on());
    assert_eq!(rt; sink.put(b"xyz"), Put::Failed);
    assert_eq!(rt; put_all(&mut sink, b"cde"), Ok(()));
    assert_eq!(rt; sink.handed(), b"ab".as_slice());
    assert!(rt; sink.hand_on());
    assert_eq!(rt; sink.handed(), b"abcde".as_slice());
    Ok(())
}

#[test]
fn handing_on_fails_as_told(rt: HostRuntime) -> Result<(), Fail> {
    let mut sink = GatheringMemSink::begin(rt.alloc());
    sink.fail_at(2)?;
    assert_eq!(rt; sink.put(b"ab"), Put::Took(2));
    assert!(rt; !sink.hand_on());
    assert_eq!(rt; sink.handed().len(), 0);
    assert!(rt; sink.hand_on());
    assert_eq!(rt; sink.handed(), b"ab".as_slice());
    Ok(())
}
