//! Sources and sinks in memory, call by call, and the lines of an input. The expected values are
//! counted by hand.
use line_io::{
    Chunk, CleanSource, Lines, MemSink, MemSource, Next, Sink, Source, StdSink, StdSource,
    is_answered_line, write_whole,
};
use std::test::*;

const MEMORY: &str = "memory ran out";

#[test]
fn a_source_in_memory_call_by_call(rt: HostRuntime) -> Result<(), Fail> {
    let mut source = MemSource::new(rt.alloc(), b"abcdefg", 3, &[2, 5]).map_err(|_| MEMORY)?;
    let mut buf = [0u8; 4];
    let wanted = [Some(3), None, Some(3), Some(1), None, Some(0)];
    for count in wanted {
        assert_eq!(rt; source.read(&mut buf).ok(), count);
    }
    let mut short = [0u8; 2];
    let mut clean = CleanSource::new(rt.alloc(), b"abc").map_err(|_| MEMORY)?;
    for count in [2, 1, 0] {
        assert_eq!(rt; clean.read(&mut short).ok(), Some(count));
    }
    Ok(())
}

#[test]
fn a_sink_in_memory_call_by_call(rt: HostRuntime) -> Result<(), Fail> {
    let mut sink = MemSink::new(rt.alloc(), 5, 2, &[3]).map_err(|_| MEMORY)?;
    let wanted = [Some(2), Some(2), None, Some(1), Some(0)];
    for count in wanted {
        assert_eq!(rt; sink.write(b"xyz").ok(), count);
    }
    assert_eq!(rt; sink.bytes(), b"xyxyx".as_slice());
    Ok(())
}

#[test]
fn whole_texts(rt: HostRuntime) -> Result<(), Fail> {
    let mut source = StdSource::new(b"a line\n".as_slice());
    let mut buf = [0u8; 9];
    assert_eq!(rt; source.read(&mut buf).ok(), Some(7));
    let mut sink = StdSink::new(Vec::new(rt.alloc()));
    write_whole(&mut sink, b"a line\n")?;
    let mut room = MemSink::new(rt.alloc(), 4, 1, &[]).map_err(|_| MEMORY)?;
    assert!(rt; write_whole(&mut room, b"a line\n").is_err());
    assert_eq!(rt; room.bytes(), b"a li".as_slice());
    Ok(())
}

#[test]
fn answered_lines(rt: HostRuntime) {
    let cases = [
        (b"x^2".as_slice(), true),
        (b"x^4\r", true),
        (b"", false),
        (b" \t", false),
        (b"\t # x", false),
        (b"\0\xff", true),
    ];
    for (line, answered) in cases {
        assert_eq!(rt; is_answered_line(line), answered);
    }
}

#[test]
fn lines_as_they_come(rt: HostRuntime) -> Result<(), Fail> {
    for step in [1, 3, 100] {
        let mut source = MemSource::new(rt.alloc(), b"x^2\n\r\n\r\r\nlast", step, &[]).map_err(
            |_| MEMORY,
        )?;
        let mut lines = Lines::new(rt.alloc()).map_err(|_| MEMORY)?;
        for wanted in [b"x^2".as_slice(), b"", b"\r", b"last"] {
            assert_eq!(rt; lines.next_line(&mut source), Next::Line);
            assert_eq!(rt; lines.line(), wanted);
        }
        assert_eq!(rt; lines.next_line(&mut source), Next::End);
        assert_eq!(rt; lines.next_line(&mut source), Next::End);
    }
    Ok(())
}

#[test]
fn long_lines_and_faults(rt: HostRuntime) -> Result<(), Fail> {
    for (count, wanted) in [(65_536, Next::Line), (65_537, Next::Long(65_537))] {
        let mut input = vec![in rt.alloc(); b'x'; count]?;
        input.push(b'\r')?;
        let mut source = MemSource::new(rt.alloc(), &input, 50_000, &[]).map_err(|_| MEMORY)?;
        let mut lines = Lines::new(rt.alloc()).map_err(|_| MEMORY)?;
        assert_eq!(rt; lines.next_line(&mut source), wanted);
        assert_eq!(rt; lines.next_line(&mut source), Next::End);
    }
    let mut source = MemSource::new(rt.alloc(), b"ab\ncd\n", 4, &[2]).map_err(|_| MEMORY)?;
    let mut lines = Lines::new(rt.alloc()).map_err(|_| MEMORY)?;
    for wanted in [Next::Line, Next::ReadFault, Next::ReadFault] {
        assert_eq!(rt; lines.next_line(&mut source), wanted);
    }
    Ok(())
}

// The answer as the bytes of a chunk and the name of the answer.
fn shown(chunk: &Chunk) -> (&[u8], &'static str) {
    match chunk {
        Chunk::Bytes(bytes) => (bytes.as_slice(), "bytes"),
        Chunk::End => (b"", "end"),
        Chunk::ReadFault => (b"", "read fault"),
        Chunk::InputLimit => (b"", "input limit"),
    }
}

#[test]
fn chunks_as_they_come(rt: HostRuntime) -> Result<(), Fail> {
    let wanted = [
        (b"germ a\nend\n".as_slice(), "bytes"),
        (b"end x\nended\n end\nend\r\n", "bytes"),
        (b"end\n", "bytes"),
        (b"\nend", "bytes"),
        (b"", "end"),
        (b"", "end"),
    ];
    for step in [1, 7, 100] {
        let input = b"germ a\nend\nend x\nended\n end\nend\r\nend\n\nend";
        let mut source = MemSource::new(rt.alloc(), input, step, &[]).map_err(|_| MEMORY)?;
        let mut lines = Lines::new(rt.alloc()).map_err(|_| MEMORY)?;
        for row in wanted {
            let chunk = lines
                .next_chunk(rt.alloc(), &mut source)
                .map_err(|_| MEMORY)?;
            assert_eq!(rt; shown(&chunk), row);
        }
    }
    Ok(())
}

#[test]
fn a_read_that_fails_within_a_chunk(rt: HostRuntime) -> Result<(), Fail> {
    let wanted = [
        (b"a\nend\n".as_slice(), "bytes"),
        (b"", "read fault"),
        (b"", "read fault"),
    ];
    for (step, call) in [(1, 9), (7, 2), (8, 2)] {
        let mut source = MemSource::new(rt.alloc(), b"a\nend\nb\nend\n", step, &[call]).map_err(
            |_| MEMORY,
        )?;
        let mut lines = Lines::new(rt.alloc()).map_err(|_| MEMORY)?;
        for row in wanted {
            let chunk = lines
                .next_chunk(rt.alloc(), &mut source)
                .map_err(|_| MEMORY)?;
            assert_eq!(rt;
                shown(&chunk),
                row,
                "failing at call {call} with steps of {step}"
            );
        }
    }
    Ok(())
}
