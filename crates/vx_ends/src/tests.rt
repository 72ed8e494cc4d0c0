use crate::{
    Failed, ReadError, Sink, SinkError, Source, StdinSource, StdoutSink, SureSink, SureSource,
    read_all, write_all,
};
use std::alloc::AllocError;
use std::io;
use std::io::{Read, Write};
use vx_rows::Seq;

/// A reader and writer that moves two bytes at a call, and fails at its second call.
#[derive(Drop)]
struct Faulty {
    calls: usize,
}

impl Faulty {
    fn new() -> Self {
        Faulty { calls: 0 }
    }

    fn call(&mut self) -> io::Result<()> {
        self.calls = self.calls.saturating_add(1);
        if self.calls == 2 {
            return Err(io::Error::other("pulled out"));
        }
        Ok(())
    }
}

impl Read for Faulty {
    fn read(&mut self, buf: &mut [u8]) -> io::Result<usize> {
        self.call()?;
        let count = buf.len().min(2);
        buf[..count].fill(7);
        Ok(count)
    }
}

impl Write for Faulty {
    fn write(&mut self, buf: &[u8]) -> io::Result<usize> {
        self.call()?;
        Ok(buf.len().min(2))
    }

    fn flush(&mut self) -> io::Result<()> {
        Ok(())
    }
}

#[test]
fn sure_ends_give_what_they_were_given(rt: HostRuntime) -> Result<(), AllocError> {
    let alloc = rt.alloc();
    let mut source = SureSource::new(Seq::from_vec(vec![in alloc; 1u8, 2, 3]?));
    let mut buf = [0u8; 2];
    assert_eq!(rt; source.read(&mut buf), Ok(2));
    assert_eq!(rt; buf, [1, 2]);
    let Ok(rest) = read_all(alloc, 1, &mut source) else {
        return Err(AllocError);
    };
    assert_eq!(rt; rest.as_slice(), [3].as_slice());
    assert_eq!(rt; source.read(&mut buf), Ok(0));

    let mut sink = SureSink::new(alloc);
    assert_eq!(rt; write_all(&mut sink, &[4, 5]), Ok(()));
    assert_eq!(rt; sink.write(&[6]), Ok(1));
    assert_eq!(rt; sink.held(), [4, 5, 6].as_slice());
    Ok(())
}

#[test]
fn too_long_and_too_short_for_the_limit(rt: HostRuntime) -> Result<(), AllocError> {
    let alloc = rt.alloc();
    for (limit, want) in [(2, Some(ReadError::TooLong)), (3, None)] {
        let mut source = SureSource::new(Seq::from_vec(vec![in alloc; 1u8, 2, 3]?));
        assert_eq!(rt;
            read_all(alloc, limit, &mut source).err(),
            want,
            "at {limit}"
        );
    }
    Ok(())
}

#[test]
fn a_reader_of_the_system(rt: HostRuntime) -> Result<(), AllocError> {
    let alloc = rt.alloc();
    let mut source = StdinSource::new([1u8, 2, 3].as_slice());
    let Ok(bytes) = read_all(alloc, 3, &mut source) else {
        return Err(AllocError);
    };
    assert_eq!(rt; bytes.as_slice(), [1, 2, 3].as_slice());
    assert_eq!(rt; source.faults(), 0);

    let mut source = StdinSource::new(Faulty::new());
    assert_eq!(rt;
        read_all(alloc, 100, &mut source).err(),
        Some(ReadError::Failed)
    );
    assert_eq!(rt; source.faults(), 1);
    let mut buf = [0u8; 4];
    assert_eq!(rt; source.read(&mut buf), Ok(2));
    assert_eq!(rt; buf, [7, 7, 0, 0]);
    assert_eq!(rt; source.faults(), 1);
    Ok(())
}

#[test]
fn a_writer_of_the_system(rt: HostRuntime) {
    let mut room = [0u8; 3];
    let mut sink = StdoutSink::new(room.as_mut_slice());
    assert_eq!(rt; write_all(&mut sink, &[1, 2, 3]), Ok(()));
    assert_eq!(rt; sink.write(&[]), Ok(0));
    assert_eq!(rt; sink.faults(), 0);
    assert_eq!(rt; write_all(&mut sink, &[4]), Err(SinkError::Failed));
    assert_eq!(rt; sink.faults(), 1);

    let mut sink = StdoutSink::new(Faulty::new());
    assert_eq!(rt; write_all(&mut sink, &[1, 2, 3]), Err(SinkError::Failed));
    assert_eq!(rt; sink.faults(), 1);
    assert_eq!(rt; sink.write(&[1, 2, 3]), Ok(2));
    assert_eq!(rt; sink.faults(), 1);
}
