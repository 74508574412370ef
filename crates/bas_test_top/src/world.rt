//! Stores, sources and sinks in memory: those that never fail, and those of which some calls do.

ghost use Rattle.std.specs.Prelude.{◌≤◌, ◌<◌, length};

use bas_base::FileName;
use bas_world::{
    Failed, MemSink, MemSource, MemStore, Sink, SinkFail, Source, Store, StoreFail, SureSink,
    SureSource, SureStore,
};
use std::alloc::{AllocError, Global};
use std::test::Fail;

// Eight calls that leave five bytes.
fn make_file<S: Store>(store: &mut S, name: FileName) -> Result<Option<u64>, StoreFail>
    requires { length name ≤ S.longest store.old }
{
    store.create(name)?;
    if store.size(name)?.is_none() {
        return Ok(None);
    }
    store.write_at(name, 3, b"def")?;
    match store.size(name)? {
        Some(6..) => store.cut(name, 5)?,
        _ => return Ok(None),
    }
    if store.size(name)?.is_none() {
        return Ok(None);
    }
    store.write_at(name, 1, b"b")?;
    store.size(name)
}

// Three calls that read from the second byte on, and then drop the file.
fn take_file<S: Store>(store: &mut S, name: FileName, buf: &mut [u8]) -> Result<usize, StoreFail>
    requires { length name ≤ S.longest store.old }
{
    if store.size(name)?.is_none() {
        return Ok(0);
    }
    let count = store.read_at(name, 1, buf)?;
    store.remove(name)?;
    Ok(count)
}

// Reads three bytes at a time until nothing is left.
fn read_all<S: Source>(source: &mut S, alloc: Global) -> Result<Vec<u8>, Failed> {
    let mut all = Vec::new(alloc);
    let mut buf = [0; 3];
    for _ in 0..100u8 {
        let count = source.read(&mut buf)?;
        if count == 0 || count > buf.len() || all.extend_from_slice(&buf[..count]).is_err() {
            break;
        }
    }
    Ok(all)
}

fn write_twice<S: Sink>(sink: &mut S) -> Result<usize, SinkFail> {
    let first = sink.write(b"ab")?;
    Ok(first.wrapping_add(sink.write(b"cde")?))
}

fn one(alloc: Global, number: u64) -> Result<Vec<u64>, AllocError> {
    Ok(vec![in alloc; number]?)
}

#[test]
fn stores_hold_files(rt: HostRuntime) -> Result<(), Fail> {
    let name = FileName::of(b"a.dat")?;
    let mut sure = SureStore::new(rt.alloc());
    assert!(rt; matches!(make_file(&mut sure, name), Ok(Some(5))));
    assert_eq!(rt; sure.get(name), Some(b"\0b\0de".as_slice()));
    let mut mem = MemStore::new(rt.alloc(), Vec::new(rt.alloc()));
    mem.put(name, b"old")?;
    assert!(rt; matches!(make_file(&mut mem, name), Ok(Some(5))));
    assert_eq!(rt; mem.get(name), Some(b"\0b\0de".as_slice()));
    assert_eq!(rt; mem.calls(), 8);
    let mut buf = *b"........";
    assert!(rt; matches!(take_file(&mut mem, name, &mut buf), Ok(4)));
    assert_eq!(rt; buf, *b"b\0de....");
    assert_eq!(rt; mem.get(name), None);
    sure.put(name, b"new")?;
    assert!(rt; matches!(take_file(&mut sure, name, &mut buf), Ok(2)));
    assert_eq!(rt; buf, *b"ewde....");
    assert_eq!(rt; sure.get(name), None);
    Ok(())
}

#[test]
fn store_calls_fail_by_number(rt: HostRuntime) -> Result<(), Fail> {
    let name = FileName::of(b"a.dat")?;
    for number in 1..9u64 {
        let mut store = MemStore::new(rt.alloc(), one(rt.alloc(), number)?);
        assert!(rt;
            matches!(make_file(&mut store, name), Err(StoreFail::Failed)),
            "{number}"
        );
        assert_eq!(rt; store.calls(), number);
    }
    let mut store = MemStore::new(rt.alloc(), one(rt.alloc(), 9)?);
    assert!(rt; matches!(make_file(&mut store, name), Ok(Some(5))));
    let mut buf = [0; 2];
    assert!(rt;
        matches!(
            take_file(&mut store, name, &mut buf),
            Err(StoreFail::Failed)
        )
    );
    assert!(rt; matches!(take_file(&mut store, name, &mut buf), Ok(2)));
    Ok(())
}

#[test]
fn sources_are_read_to_their_end(rt: HostRuntime) -> Result<(), Fail> {
    let mut sure = SureSource::new(b"abcdefgh".to_vec(rt.alloc())?);
    assert_eq!(rt;
        read_all(&mut sure, rt.alloc())?.as_slice(),
        b"abcdefgh".as_slice()
    );
    let mut mem = MemSource::new(b"abcdefgh".to_vec(rt.alloc())?, one(rt.alloc(), 2)?);
    assert!(rt; read_all(&mut mem, rt.alloc()).is_err());
    assert_eq!(rt;
        read_all(&mut mem, rt.alloc())?.as_slice(),
        b"defgh".as_slice()
    );
    Ok(())
}

#[test]
fn sinks_take_bytes(rt: HostRuntime) -> Result<(), Fail> {
    let mut sure = SureSink::new(rt.alloc());
    assert!(rt; matches!(write_twice(&mut sure), Ok(5)));
    assert_eq!(rt; sure.bytes(), b"abcde".as_slice());
    let mut mem = MemSink::new(rt.alloc(), one(rt.alloc(), 2)?);
    assert!(rt; matches!(write_twice(&mut mem), Err(SinkFail::Failed)));
    assert_eq!(rt; mem.bytes(), b"ab".as_slice());
    assert!(rt; matches!(write_twice(&mut mem), Ok(5)));
    assert_eq!(rt; mem.bytes(), b"ababcde".as_slice());
    Ok(())
}
