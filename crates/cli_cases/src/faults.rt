//! Faults of the source between any two bytes, and sinks that are full or fail.
use crate::words_of;
use germ_cli::{Status, run};
use line_io::{MemSink, MemSource};
use std::test::*;

const MEMORY: &str = "memory ran out";

const ROOM: usize = 10_000;

// The first line is ended by byte 8, the last one by byte 22; between them stand a blank line and a comment.
const INPUT: &[u8] = b"[y] 3*y\n\n# note\r\nx*y\r\n[z] z";

const FIRST: &[u8] = b"germ [y] 3*y\nanswer not-critical y\nend\n";

const BOTH: &[u8] =
    b"germ [y] 3*y\nanswer not-critical y\nend\ngerm x*y\nanswer named A1\norder 2\nalgebra Q\ncorank 0\nchange\nx = u1-1/2*u2\ny = u1+1/2*u2\ninverse\n1/2 1/2\n-1 1\nform u1^2-1/4*u2^2\nunits 2\n1 1\n-1/4 -4\nmodulus none\nmilnor 1\nmather 0\nbasis 1\ntable 1\n1 = 1 :\nend\n";

const ALL: &[u8] =
    b"germ [y] 3*y\nanswer not-critical y\nend\ngerm x*y\nanswer named A1\norder 2\nalgebra Q\ncorank 0\nchange\nx = u1-1/2*u2\ny = u1+1/2*u2\ninverse\n1/2 1/2\n-1 1\nform u1^2-1/4*u2^2\nunits 2\n1 1\n-1/4 -4\nmodulus none\nmilnor 1\nmather 0\nbasis 1\ntable 1\n1 = 1 :\nend\ngerm [z] z\nanswer not-critical z\nend\n";

// What is written where the source failed after so many bytes.
fn written_after(bytes: u64) -> &'static [u8] {
    match bytes {
        0..8 => b"",
        8..22 => FIRST,
        _ => BOTH,
    }
}

#[test]
fn a_read_fault_between_any_two_bytes(rt: HostRuntime) -> Result<(), Fail> {
    let words = words_of(rt.alloc(), &["classify"])?;
    for bytes in 0..28 {
        let failing = [bytes + 1];
        let mut source = MemSource::new(rt.alloc(), INPUT, 1, &failing).map_err(|_| MEMORY)?;
        let mut sink = MemSink::new(rt.alloc(), ROOM, ROOM, &[]).map_err(|_| MEMORY)?;
        let status = run(rt.alloc(), &words, &mut source, &mut sink);
        assert_eq!(rt; status, Status::ReadFault);
        assert_eq!(rt; sink.bytes(), written_after(bytes), "after {bytes} bytes");
    }
    Ok(())
}

#[test]
fn a_sink_that_is_full_after_any_byte(rt: HostRuntime) -> Result<(), Fail> {
    let words = words_of(rt.alloc(), &["classify"])?;
    for room in 0..ALL.len() {
        let mut source = MemSource::new(rt.alloc(), INPUT, ROOM, &[]).map_err(|_| MEMORY)?;
        let mut sink = MemSink::new(rt.alloc(), room, ROOM, &[]).map_err(|_| MEMORY)?;
        let status = run(rt.alloc(), &words, &mut source, &mut sink);
        assert_eq!(rt; status, Status::WriteFault);
        assert_eq!(rt; sink.bytes().len(), room);
        assert!(rt; ALL.starts_with(sink.bytes()));
    }
    Ok(())
}

#[test]
fn a_sink_that_fails_at_any_call(rt: HostRuntime) -> Result<(), Fail> {
    let words = words_of(rt.alloc(), &["classify"])?;
    for call in 1..=15 {
        let mut source = MemSource::new(rt.alloc(), INPUT, 3, &[]).map_err(|_| MEMORY)?;
        let mut sink = MemSink::new(rt.alloc(), ROOM, 7, &[call]).map_err(|_| MEMORY)?;
        let status = run(rt.alloc(), &words, &mut source, &mut sink);
        assert_eq!(rt; status, Status::WriteFault);
        assert!(rt; ALL.starts_with(sink.bytes()));
    }
    Ok(())
}
