//! A text that is written whole.
ghost use Rattle.line_io.specs.Bytes.{AppendsFront, AppendsPart};
ghost use Rattle.line_io.specs.Causes.{Rose};
ghost use Rattle.std.specs.Io.KnownBytes.{Appends};
ghost use Rattle.std.specs.Prelude.{◌≤◌, OnErr, OnOk};

use crate::{Sink, WriteFault};

/// Writes the whole text, or at an error a front of it.
pub fn write_whole<W: Sink>(sink: &mut W, text: &[u8]) -> Result<(), WriteFault>
    ensures whole { OnOk result (Appends (W.taken sink.old) (W.taken sink.new) text.now) }
    ensures front { AppendsFront (W.taken sink.old) (W.taken sink.new) text.now }
    ensures part { OnErr result (AppendsPart (W.taken sink.old) (W.taken sink.new) text.now) }
    ensures later { W.faults sink.old ≤ W.faults sink.new }
    ensures fault { OnErr result (Rose (W.faults sink.old) (W.faults sink.new)) }
{
    let mut rest = text;
    while !rest.is_empty() {
        match sink.write(rest) {
            Err(_) => return Err(WriteFault),
            Ok(0) => return Err(WriteFault),
            Ok(count) => {
                let (_, after) = rest.split_at(count);
                rest = after;
            }
        }
    }
    Ok(())
}
