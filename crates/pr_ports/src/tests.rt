use crate::{
    Failed, MemorySink, MemorySource, PlainSource, ReaderSource, Sink, Source, WriterSink,
};
use std::test::Fail;

#[test]
fn pieces_and_faults(rt: HostRuntime) -> Result<(), Fail> {
    let alloc = rt.alloc();
    let mut source = MemorySource::new(b"abcde".to_vec(alloc)?, 3, [2u64].to_vec(alloc)?);
    let mut buf = [0u8; 8];
    assert_eq!(rt; source.read(&mut buf), Ok(3));
    assert_eq!(rt; &buf[..3], b"abc".as_slice());
    assert_eq!(rt; source.read(&mut buf), Err(Failed));
    assert_eq!(rt;
        (source.read(&mut buf), source.read(&mut buf)),
        (Ok(2), Ok(0))
    );
    let mut sink = MemorySink::new(alloc, 4, 3, [2u64].to_vec(alloc)?)
        .ok()
        .ok_or("no memory")?;
    assert_eq!(rt;
        (sink.write(b"abcde"), sink.write(b"de")),
        (Ok(3), Err(Failed))
    );
    assert_eq!(rt; (sink.write(b"de"), sink.write(b"e")), (Ok(1), Err(Failed)));
    assert_eq!(rt; sink.bytes(), b"abcd".as_slice());
    let mut plain = PlainSource::new(b"xy".to_vec(alloc)?);
    assert_eq!(rt;
        (plain.read(&mut buf), plain.read(&mut buf)),
        (Ok(2), Ok(0))
    );
    Ok(())
}

#[test]
fn adapters_pass_bytes(rt: HostRuntime) -> Result<(), Fail> {
    let text = b"hello".to_vec(rt.alloc())?;
    let mut source = ReaderSource::new(text.as_slice());
    let mut buf = [0u8; 3];
    assert_eq!(rt; source.read(&mut buf), Ok(3));
    assert_eq!(rt; buf.as_slice(), b"hel".as_slice());
    let mut sink = WriterSink::new(Vec::new(rt.alloc()));
    assert_eq!(rt; sink.write(&buf), Ok(3));
    Ok(())
}
