//! What callers see of sources and sinks, at values worked out by hand.

use crate::{
    CleanSource, Failed, MemorySink, MemorySource, ReadEnd, Sink, Source, StdSink, StdSource,
    read_all, write_all_counted,
};
use std::test::Fail;

#[test]
fn a_limit_lets_so_many_bytes_through(rt: HostRuntime) -> Result<(), Fail> {
    let alloc = rt.alloc();
    let mut short = CleanSource::new(Vec::from_slice(alloc, b"abc")?);
    assert_eq!(rt;
        read_all(alloc, &mut short, 2).err(),
        Some(ReadEnd::Limit(3))
    );
    let mut whole = CleanSource::new(Vec::from_slice(alloc, b"abc")?);
    let bytes = read_all(alloc, &mut whole, 3)?;
    assert_eq!(rt; bytes.as_slice(), b"abc".as_slice());
    let mut empty = CleanSource::new(Vec::new(alloc));
    assert!(rt; read_all(alloc, &mut empty, 0)?.is_empty());
    Ok(())
}

#[test]
fn pieces_make_the_whole(rt: HostRuntime) -> Result<(), Fail> {
    let alloc = rt.alloc();
    let text: Vec<u8> = (0..10_000u32).map(|at| (at % 251) as u8).collect(alloc)?;
    for piece in [0, 1, 5, 4_096, 20_000] {
        let mut source = MemorySource::new(text.clone()?, piece, Vec::new(alloc));
        let bytes = read_all(alloc, &mut source, 10_000)?;
        assert!(rt; bytes.as_slice() == text.as_slice(), "at {piece}");
        let mut sink = MemorySink::new(alloc, piece, Vec::new(alloc))?;
        write_all_counted(&mut sink, &bytes)?;
        assert!(rt; sink.bytes() == text.as_slice(), "at {piece}");
    }
    Ok(())
}

#[test]
fn a_source_goes_on_after_a_fault(rt: HostRuntime) -> Result<(), Fail> {
    let alloc = rt.alloc();
    let failing = Vec::from_slice(alloc, &[1, 2])?;
    let mut source = MemorySource::new(Vec::from_slice(alloc, b"abcde")?, 2, failing);
    let mut buffer = [0; 4];
    assert_eq!(rt; source.read(&mut buffer), Ok(2));
    assert_eq!(rt; buffer.as_slice(), b"ab\0\0".as_slice());
    assert_eq!(rt; source.read(&mut buffer), Err(Failed));
    assert_eq!(rt; read_all(alloc, &mut source, 9).err(), Some(ReadEnd::Fault));
    assert_eq!(rt;
        read_all(alloc, &mut source, 9)?.as_slice(),
        b"cde".as_slice()
    );
    assert_eq!(rt; source.read(&mut buffer), Ok(0));
    Ok(())
}

#[test]
fn a_sink_keeps_the_front_before_a_fault(rt: HostRuntime) -> Result<(), Fail> {
    let alloc = rt.alloc();
    let failing = Vec::from_slice(alloc, &[2, 3])?;
    let mut sink = MemorySink::new(alloc, 2, failing)?;
    assert_eq!(rt; write_all_counted(&mut sink, b"abcdef"), Err(Failed));
    assert_eq!(rt; sink.bytes(), b"abcd".as_slice());
    assert_eq!(rt; sink.write(b""), Err(Failed));
    assert_eq!(rt; sink.write(b"xyz"), Ok(2));
    assert_eq!(rt; sink.bytes(), b"abcdxy".as_slice());
    Ok(())
}

#[test]
fn readers_and_writers_of_std_are_passed_on(rt: HostRuntime) -> Result<(), Fail> {
    let alloc = rt.alloc();
    let mut source = StdSource::new(b"abcdef".as_slice());
    let bytes = read_all(alloc, &mut source, 6)?;
    assert_eq!(rt; bytes.as_slice(), b"abcdef".as_slice());
    let mut written = Vec::new(alloc);
    let mut sink = StdSink::new(&mut written);
    write_all_counted(&mut sink, &bytes)?;
    assert_eq!(rt; written.as_slice(), b"abcdef".as_slice());

    // A writer that takes nothing more has failed.
    let mut room = [0; 4];
    let mut full = StdSink::new(room.as_mut_slice());
    assert_eq!(rt; write_all_counted(&mut full, &bytes), Err(Failed));
    assert_eq!(rt; room.as_slice(), b"abcd".as_slice());
    Ok(())
}
