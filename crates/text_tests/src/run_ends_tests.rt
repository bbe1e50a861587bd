use run_ends::{
    Failed, MemSink, MemSource, Sink, SinkFault, Source, StdSink, StdSource, SureSink, SureSource,
};
use std::alloc::Global;
use std::io;
use std::io::{Read, Write};
use std::test::Fail;

// A reader and a writer that never get anywhere.
#[derive(Drop)]
struct Stuck;

impl Read for Stuck {
    fn read(&mut self, _: &mut [u8]) -> io::Result<usize> {
        Err(io::Error::from(io::ErrorKind::BrokenPipe))
    }
}

impl Write for Stuck {
    fn write(&mut self, _: &[u8]) -> io::Result<usize> {
        Ok(0)
    }

    fn flush(&mut self) -> io::Result<()> {
        Err(io::Error::from(io::ErrorKind::BrokenPipe))
    }
}

// One read into a buffer of four places. What it gave is kept.
fn read_four<S: Source>(source: &mut S, kept: &mut Vec<u8>) -> Option<usize> {
    let mut buf = [0u8; 4];
    let count = source.read(&mut buf).ok()?;
    kept.extend_from_slice(&buf[..count]).ok()?;
    Some(count)
}

// Whether reads into four places answer so in turn, and give these bytes in all.
fn gives<S: Source>(alloc: Global, source: &mut S, counts: &[Option<usize>], bytes: &[u8]) -> bool {
    let mut kept = Vec::new(alloc);
    for want in counts {
        if read_four(source, &mut kept) != *want {
            return false;
        }
    }
    kept.as_slice() == bytes
}

// What a write and a finish behind it answer.
type Answers = (Result<usize, SinkFault>, Result<(), Failed>);

fn write_once<K: Sink>(sink: &mut K, bytes: &[u8]) -> Answers {
    let count = sink.write(bytes);
    (count, sink.finish())
}

// Whether writes of these bytes in turn, each with a finish behind it, answer so.
fn takes<K: Sink>(sink: &mut K, writes: &[(&[u8], Answers)]) -> bool {
    for (bytes, want) in writes {
        if write_once(sink, bytes) != *want {
            return false;
        }
    }
    true
}

#[test]
fn a_read_in_memory_fails_where_it_is_told(rt: HostRuntime) -> Result<(), Fail> {
    let mut source = MemSource::new(rt.alloc(), b"abcdefg", 3, &[5, 1])?;
    let counts = [Some(3), None, Some(3), Some(1), Some(0), None, Some(0)];
    assert!(rt; gives(rt.alloc(), &mut source, &counts, b"abcdefg"));
    Ok(())
}

#[test]
fn a_sure_source_gives_a_piece(rt: HostRuntime) -> Result<(), Fail> {
    let mut single = SureSource::new(rt.alloc(), b"abc", 1)?;
    let counts = [Some(1), Some(1), Some(1), Some(0)];
    assert!(rt; gives(rt.alloc(), &mut single, &counts, b"abc"));
    Ok(())
}

#[test]
fn a_sure_source_with_a_wide_piece_gives_what_fits(rt: HostRuntime) -> Result<(), Fail> {
    let mut wide = SureSource::new(rt.alloc(), b"defghi", 100)?;
    assert!(rt;
        gives(
            rt.alloc(),
            &mut wide,
            &[Some(4), Some(2), Some(0)],
            b"defghi"
        )
    );
    Ok(())
}

#[test]
fn a_call_of_a_sink_in_memory_fails_where_it_is_told(rt: HostRuntime) -> Result<(), Fail> {
    let mut sink = MemSink::new(rt.alloc(), 2, &[3, 4])?;
    let first: [(&[u8], Answers); 2] = [(b"abc", (Ok(2), Ok(()))), (b"c", (Ok(1), Err(Failed)))];
    assert!(rt; takes(&mut sink, &first));
    let refused = sink.write(b"de");
    assert_eq!(rt;
        (refused, sink.written()),
        (Err(SinkFault::Failed), b"abc".as_slice())
    );
    let second: [(&[u8], Answers); 2] = [(b"de", (Ok(2), Ok(()))), (b"", (Ok(0), Ok(())))];
    assert!(rt; takes(&mut sink, &second));
    assert_eq!(rt; sink.written(), b"abcde".as_slice());
    Ok(())
}

#[test]
fn a_sure_sink_takes_a_piece(rt: HostRuntime) {
    let mut single = SureSink::new(rt.alloc(), 1);
    let writes: [(&[u8], Answers); 2] = [(b"abc", (Ok(1), Ok(()))), (b"bc", (Ok(1), Ok(())))];
    assert!(rt; takes(&mut single, &writes));
    assert_eq!(rt; single.written(), b"ab".as_slice());
}

#[test]
fn a_sure_sink_with_a_wide_piece_takes_the_whole(rt: HostRuntime) {
    let mut wide = SureSink::new(rt.alloc(), 100);
    assert_eq!(rt; write_once(&mut wide, b"abc"), (Ok(3), Ok(())));
    assert_eq!(rt; wide.written(), b"abc".as_slice());
}

#[test]
fn a_std_source_hands_on_what_its_reader_does(rt: HostRuntime) {
    let mut source = StdSource::over(b"abcde".as_slice());
    assert!(rt;
        gives(
            rt.alloc(),
            &mut source,
            &[Some(4), Some(1), Some(0)],
            b"abcde"
        )
    );
}

#[test]
fn a_std_sink_hands_on_what_its_writer_does(rt: HostRuntime) {
    let mut taken = Vec::new(rt.alloc());
    let mut sink = StdSink::over(&mut taken);
    let writes: [(&[u8], Answers); 2] = [(b"fgh", (Ok(3), Ok(()))), (b"", (Ok(0), Ok(())))];
    assert!(rt; takes(&mut sink, &writes));
    assert_eq!(rt; taken.as_slice(), b"fgh".as_slice());
}

#[test]
fn std_ends_over_stuck_streams_fail(rt: HostRuntime) {
    assert!(rt; gives(rt.alloc(), &mut StdSource::over(Stuck), &[None], b""));
    let failed: [(&[u8], Answers); 2] = [
        (b"a", (Err(SinkFault::Failed), Err(Failed))),
        (b"", (Ok(0), Err(Failed))),
    ];
    assert!(rt; takes(&mut StdSink::over(Stuck), &failed));
}

#[test]
fn std_ends_stand_over_the_standard_streams(rt: HostRuntime) {
    assert_eq!(rt; StdSource::over(rt.stdin()).read(&mut []), Ok(0));
    assert_eq!(rt;
        write_once(&mut StdSink::over(rt.stdout()), b""),
        (Ok(0), Ok(()))
    );
}
