//! Checks: which line is written for which chunk. The first report and its changes are those of the description of the format; the
//! verdicts are found by hand.
use crate::words_of;
use germ_cli::{Status, run};
use line_io::{MemSink, MemSource};
use std::test::*;

const MEMORY: &str = "memory ran out";

const ROOM: usize = 10_000;

const NODE: &[u8] =
    b"germ x^2+y^2\nanswer named A1\norder 2\nalgebra Q\ncorank 0\nchange\nx = u1\ny = u2\ninverse\n1 0\n0 1\nform u1^2+u2^2\nunits 2\n1 1\n1 1\nmodulus none\nmilnor 1\nmather 0\nbasis 1\ntable 1\n1 = 1 :\nend\n";

const OTHER_FORM: &[u8] =
    b"germ x^2+y^2\nanswer named A1\norder 2\nalgebra Q\ncorank 0\nchange\nx = u1\ny = u2\ninverse\n1 0\n0 1\nform u1^2+2*u2^2\nunits 2\n1 1\n1 1\nmodulus none\nmilnor 1\nmather 0\nbasis 1\ntable 1\n1 = 1 :\nend\n";

const OTHER_NUMBER: &[u8] =
    b"germ x^2+y^2\nanswer named A1\norder 2\nalgebra Q\ncorank 0\nchange\nx = u1\ny = u2\ninverse\n1 0\n0 1\nform u1^2+u2^2\nunits 2\n1 1\n1 1\nmodulus none\nmilnor 2\nmather 0\nbasis 1\ntable 1\n1 = 1 :\nend\n";

const OTHER_SPELLING: &[u8] =
    b"germ x^2+y^2\nanswer named A1\norder 2\nalgebra Q\ncorank 0\nchange\nx = u1\ny = u2\ninverse\n1 0\n0 1\nform 1*u1^2+u2^2\nunits 2\n1 1\n1 1\nmodulus none\nmilnor 1\nmather 0\nbasis 1\ntable 1\n1 = 1 :\nend\n";

const OTHER_NAME: &[u8] =
    b"germ [x] x^3\nanswer named A3\norder 3\nalgebra Q\ncorank 1\nchange\nx = u1\ninverse\n1\nform u1^3\nunits 1\n1 1\nmodulus none\nmilnor 2\nmather 1\nu1^4 = 1/3*u1^2\nbasis 1 u1\ntable 4\n1 = 1 0 : 0\nu1 = 0 1 : 0\nu1^2 = 0 0 : 1/3\nu1^3 = 0 0 : 1/3*u1\nend\n";

const REFUSALS: &[u8] =
    b"germ x^^2\nanswer syntax 3 byte\nend\ngerm x^^2\nanswer syntax 4 byte\nend\ngerm x^2\nanswer unbuilt\nend\nend\ngerm x^^2\nanswer syntax 3 byte\n";

const REFUSALS_TEXT: &[u8] =
    b"valid\ninvalid refusal\nunchecked\ninvalid text 0\ninvalid text 31\n";

#[test]
fn one_line_for_each_chunk(rt: HostRuntime) -> Result<(), Fail> {
    let words = words_of(rt.alloc(), &["check"])?;
    let rows = [
        (b"".as_slice(), b"".as_slice(), Status::Done),
        (NODE, b"valid\n", Status::Done),
        (OTHER_FORM, b"invalid carry\n", Status::Invalid),
        (OTHER_NUMBER, b"invalid milnor\n", Status::Invalid),
        (OTHER_SPELLING, b"invalid text 93\n", Status::Invalid),
        (OTHER_NAME, b"invalid form\n", Status::Invalid),
        (REFUSALS, REFUSALS_TEXT, Status::Invalid),
        (
            b"germ x^2\nanswer unbuilt\nend\n",
            b"unchecked\n",
            Status::Done,
        ),
    ];
    for (input, text, wanted) in rows {
        for step in [1, 7, ROOM] {
            let mut source = MemSource::new(rt.alloc(), input, step, &[]).map_err(|_| MEMORY)?;
            let mut sink = MemSink::new(rt.alloc(), ROOM, step, &[]).map_err(|_| MEMORY)?;
            let status = run(rt.alloc(), &words, &mut source, &mut sink);
            assert_eq!(rt; sink.bytes(), text);
            assert_eq!(rt; status, wanted);
        }
    }
    Ok(())
}

// The first chunk is ended by byte 35, the second by byte 63; the last one has no newline.
const INPUT: &[u8] = b"germ x^^2\nanswer syntax 3 byte\nend\ngerm x^2\nanswer unbuilt\nend\nend";

const LINES: &[u8] = b"valid\nunchecked\ninvalid text 0\n";

// What is written where the source failed after so many bytes.
fn written_after(bytes: u64) -> &'static [u8] {
    match bytes {
        0..35 => b"",
        35..63 => b"valid\n",
        _ => b"valid\nunchecked\n",
    }
}

#[test]
fn a_read_fault_between_any_two_bytes_of_chunks(rt: HostRuntime) -> Result<(), Fail> {
    let words = words_of(rt.alloc(), &["check"])?;
    for bytes in 0..67 {
        let failing = [bytes + 1];
        let mut source = MemSource::new(rt.alloc(), INPUT, 1, &failing).map_err(|_| MEMORY)?;
        let mut sink = MemSink::new(rt.alloc(), ROOM, ROOM, &[]).map_err(|_| MEMORY)?;
        let status = run(rt.alloc(), &words, &mut source, &mut sink);
        assert_eq!(rt; status, Status::ReadFault);
        assert_eq!(rt; sink.bytes(), written_after(bytes), "after {bytes} bytes");
    }
    Ok(())
}

#[test]
fn a_sink_that_is_full_after_any_byte_of_verdicts(rt: HostRuntime) -> Result<(), Fail> {
    let words = words_of(rt.alloc(), &["check"])?;
    for room in 0..LINES.len() {
        let mut source = MemSource::new(rt.alloc(), INPUT, ROOM, &[]).map_err(|_| MEMORY)?;
        let mut sink = MemSink::new(rt.alloc(), room, ROOM, &[]).map_err(|_| MEMORY)?;
        let status = run(rt.alloc(), &words, &mut source, &mut sink);
        assert_eq!(rt; status, Status::WriteFault);
        assert_eq!(rt; sink.bytes().len(), room);
        assert!(rt; LINES.starts_with(sink.bytes()));
    }
    Ok(())
}
