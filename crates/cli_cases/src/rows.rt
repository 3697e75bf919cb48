//! Rows: what is written for an input, byte for byte, which words are answered by the table and which by the usage line. The reports are those of the
//! description of the format, or written by hand from the rule that `c*x^m` is A(m-1).
use crate::words_of;
use germ_cli::{Command, Status, read_words, run};
use line_io::{MemSink, MemSource};
use std::test::*;

const MEMORY: &str = "memory ran out";

const ROOM: usize = 10_000;

const LIMIT: &[u8] =
    b"germ [x] 0\nanswer limit\norder 12\nalgebra Q\ncorank 1\nchange\nx = u1\ninverse\n1\njet 0\nfunctional u1^13 1\nu1^13 1\nend\n";

const MORSE: &[u8] =
    b"germ [x] 2*x^2-5*x^40\nanswer named A1\norder 2\nalgebra Q\ncorank 0\nchange\nx = u1\ninverse\n1\nform 2*u1^2\nunits 1\n2 1/2\nmodulus none\nmilnor 1\nmather 0\nbasis 1\ntable 1\n1 = 1 :\nend\n";

const MIXED: &[u8] = b"[y] 3*y\n\n# note\r\nx*y\r\n[z] z";

const MIXED_TEXT: &[u8] =
    b"germ [y] 3*y\nanswer not-critical y\nend\ngerm x*y\nanswer named A1\norder 2\nalgebra Q\ncorank 0\nchange\nx = u1-1/2*u2\ny = u1+1/2*u2\ninverse\n1/2 1/2\n-1 1\nform u1^2-1/4*u2^2\nunits 2\n1 1\n-1/4 -4\nmodulus none\nmilnor 1\nmather 0\nbasis 1\ntable 1\n1 = 1 :\nend\ngerm [z] z\nanswer not-critical z\nend\n";

// The texts of the next lines are those of another program, which was written from the definitions alone.
const WHOLE: &[u8] =
    b"x^2+1000000000000000000*x^3\n2^200*x^2\nx^^2\nx^2+y^2\n99*999999999999999999^2*x^5\nx^999999999999999999\n";

const WHOLE_TEXT: &[u8] =
    b"germ x^2+1000000000000000000*x^3\nanswer literal 5\nend\ngerm 2^200*x^2\nanswer range line\nend\ngerm x^^2\nanswer syntax 3 byte\nend\ngerm x^2+y^2\nanswer named A1\norder 2\nalgebra Q\ncorank 0\nchange\nx = u1\ny = u2\ninverse\n1 0\n0 1\nform u1^2+u2^2\nunits 2\n1 1\n1 1\nmodulus none\nmilnor 1\nmather 0\nbasis 1\ntable 1\n1 = 1 :\nend\ngerm 99*999999999999999999^2*x^5\nanswer range mather\nend\ngerm x^999999999999999999\nanswer limit\norder 12\nalgebra Q\ncorank 1\nchange\nx = u1\ninverse\n1\njet 0\nfunctional u1^13 1\nu1^13 1\nend\n";

const USAGE: &[u8] = b"usage: germ classify [K] | check | make START COUNT | table\n";

const TABLE: &[u8] =
    b"A(m) u1^(m+1)\nD(m) u1^2*u2+u2^(m-1)\nE6 u1^3+u2^4\nE7 u1^3+u1*u2^3\nE8 u1^3+u2^5\nP8 cubic(u1,u2,u3)\nX9 quartic(u1,u2)\nJ10 u1^3+u1*u2^4+u2^6\nT(2,3,r) u1^3+u1^2*u2^2+u2^r\nT(2,4,r) u1^4+u1^2*u2^2+u2^r\nT(2,q,r) u1^2*u2^2+u1^q+u2^r\nT(p,q,r) u1*u2*u3+u1^p+u2^q+u3^r\nE12 u1^3+u2^7+u1*u2^5\nE13 u1^3+u1*u2^5+u2^8\nE14 u1^3+u2^8+u1*u2^6\nZ11 u1^3*u2+u2^5+u1*u2^4\nZ12 u1^3*u2+u1*u2^4+u1^2*u2^3\nZ13 u1^3*u2+u2^6+u1*u2^5\nW12 u1^4+u2^5+u1^2*u2^3\nW13 u1^4+u1*u2^4+u2^6\nQ10 u1^3+u2*u3^2+u2^4+u1*u2^3\nQ11 u1^3+u2*u3^2+u1*u2^3+u2^5\nQ12 u1^3+u2*u3^2+u2^5+u1*u2^4\nS11 u2^2*u3+u1*u3^2+u1^4+u1^3*u3\nS12 u2^2*u3+u1*u3^2+u1^3*u2+u1^5\nU12 u1^3+u2^3+u3^4+u1*u2*u3^2\n";

// From five variables on the order limit is at most 12.
const EIGHT: &[u8] = b"[a,b,c,d,e,f,g,h] a^2+b^2+c^2+d^2+e^2+f^2+g^2+h^13";

const EIGHT_TEXT: &[u8] =
    b"germ [a,b,c,d,e,f,g,h] a^2+b^2+c^2+d^2+e^2+f^2+g^2+h^13\nanswer limit\norder 12\nalgebra Q\ncorank 1\nchange\na = u2\nb = u3\nc = u4\nd = u5\ne = u6\nf = u7\ng = u8\nh = u1\ninverse\n0 0 0 0 0 0 0 1\n1 0 0 0 0 0 0 0\n0 1 0 0 0 0 0 0\n0 0 1 0 0 0 0 0\n0 0 0 1 0 0 0 0\n0 0 0 0 1 0 0 0\n0 0 0 0 0 1 0 0\n0 0 0 0 0 0 1 0\njet u2^2+u3^2+u4^2+u5^2+u6^2+u7^2+u8^2\nfunctional u1^13 1\nu1^13 1\nend\n";

#[test]
fn one_report_for_each_answered_line(rt: HostRuntime) -> Result<(), Fail> {
    let words = words_of(rt.alloc(), &["classify"])?;
    let rows = [
        (b"[x] 0\n".as_slice(), LIMIT),
        (b"[x] 2*x^2-5*x^40", MORSE),
        (MIXED, MIXED_TEXT),
        (WHOLE, WHOLE_TEXT),
        (b"", b""),
        (b"\n\r\n \t\n#", b""),
    ];
    for (input, text) in rows {
        for step in [1, 7, ROOM] {
            let mut source = MemSource::new(rt.alloc(), input, step, &[]).map_err(|_| MEMORY)?;
            let mut sink = MemSink::new(rt.alloc(), ROOM, step, &[]).map_err(|_| MEMORY)?;
            let status = run(rt.alloc(), &words, &mut source, &mut sink);
            assert_eq!(rt; status, Status::Done);
            assert_eq!(rt; sink.bytes(), text);
        }
    }
    Ok(())
}

#[test]
fn the_order_limit_that_is_asked_for(rt: HostRuntime) -> Result<(), Fail> {
    let rows = [
        (
            "3",
            b"x^4".as_slice(),
            b"germ x^4\nanswer limit\norder 3\nalgebra Q\ncorank 1\nchange\nx = u1\ninverse\n1\njet 0\nfunctional u1^4 1\nu1^4 1\nend\n".as_slice(),
        ),
        (
            "4",
            b"x^4",
            b"germ x^4\nanswer named A3\norder 4\nalgebra Q\ncorank 1\nchange\nx = u1\ninverse\n1\nform u1^4\nunits 1\n1 1\nmodulus none\nmilnor 3\nmather 1\nu1^5 = 1/4*u1^2\nbasis 1 u1 u1^2\ntable 5\n1 = 1 0 0 : 0\nu1 = 0 1 0 : 0\nu1^2 = 0 0 1 : 0\nu1^3 = 0 0 0 : 1/4\nu1^4 = 0 0 0 : 1/4*u1\nend\n",
        ),
        ("16", EIGHT, EIGHT_TEXT),
    ];
    for (limit, line, text) in rows {
        let words = words_of(rt.alloc(), &["classify", limit])?;
        let mut source = MemSource::new(rt.alloc(), line, ROOM, &[]).map_err(|_| MEMORY)?;
        let mut sink = MemSink::new(rt.alloc(), ROOM, ROOM, &[]).map_err(|_| MEMORY)?;
        let status = run(rt.alloc(), &words, &mut source, &mut sink);
        assert_eq!(rt; status, Status::Done);
        assert_eq!(rt; sink.bytes(), text);
    }
    Ok(())
}

#[test]
fn a_line_of_65537_bytes_is_too_long(rt: HostRuntime) -> Result<(), Fail> {
    let words = words_of(rt.alloc(), &["classify"])?;
    let input = vec![in rt.alloc(); b' '; 65_537]?;
    let mut source = MemSource::new(rt.alloc(), &input, ROOM, &[]).map_err(|_| MEMORY)?;
    let mut sink = MemSink::new(rt.alloc(), ROOM, ROOM, &[]).map_err(|_| MEMORY)?;
    let status = run(rt.alloc(), &words, &mut source, &mut sink);
    assert_eq!(rt; status, Status::Done);
    assert_eq!(rt;
        sink.bytes(),
        b"long 65537\nanswer too-long\nend\n".as_slice()
    );
    Ok(())
}

#[test]
fn words_are_read(rt: HostRuntime) -> Result<(), Fail> {
    let rows = [
        (["classify", "3"], Some(Command::Classify { limit: 3 })),
        (["classify", "9"], Some(Command::Classify { limit: 9 })),
        (["classify", "10"], Some(Command::Classify { limit: 10 })),
        (["classify", "16"], Some(Command::Classify { limit: 16 })),
        (["classify", "2"], None),
        (["classify", "17"], None),
        (["classify", "07"], None),
        (["classify", "+7"], None),
        (["classify", ""], None),
        (["Classify", "7"], None),
        (["make", "1"], None),
    ];
    for (words, command) in rows {
        let words = words_of(rt.alloc(), &words)?;
        assert_eq!(rt; read_words(&words), command);
    }
    let alone = words_of(rt.alloc(), &["classify"])?;
    assert_eq!(rt; read_words(&alone), Some(Command::Classify { limit: 12 }));
    let check = words_of(rt.alloc(), &["check"])?;
    assert_eq!(rt; read_words(&check), Some(Command::Check));
    let table = words_of(rt.alloc(), &["table"])?;
    assert_eq!(rt; read_words(&table), Some(Command::Table));
    let three = words_of(rt.alloc(), &["classify", "7", "7"])?;
    assert_eq!(rt; read_words(&three), None);
    Ok(())
}

// The source would fail at its first call.
#[test]
fn the_table_and_other_words_are_answered_before_any_read(rt: HostRuntime) -> Result<(), Fail> {
    for (words, wanted, text) in [
        (["table"].as_slice(), Status::Done, TABLE),
        (&["table", "12"], Status::Usage, USAGE),
        (&["check", "12"], Status::Usage, USAGE),
        (&["classify", "17"], Status::Usage, USAGE),
        (&[], Status::Usage, USAGE),
    ] {
        let words = words_of(rt.alloc(), words)?;
        let mut source = MemSource::new(rt.alloc(), MIXED, 5, &[1]).map_err(|_| MEMORY)?;
        let mut sink = MemSink::new(rt.alloc(), ROOM, 7, &[]).map_err(|_| MEMORY)?;
        let status = run(rt.alloc(), &words, &mut source, &mut sink);
        assert_eq!(rt; status, wanted);
        assert_eq!(rt; sink.bytes(), text);
    }
    Ok(())
}
