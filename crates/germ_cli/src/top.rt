//! The top call.
ghost use Rattle.germ_cli.specs.Checking.{Checks, ChecksAll, ChecksEnded, ChecksWithin, EndsChecked, WroteFindingsFront};
ghost use Rattle.germ_cli.specs.Run.{AnswersAll, AnswersEnded, AnswersWithin, Classifies, EndsWell, IsQuiet, IsUntouched, TakesWithin, WroteFront, WroteTable, WroteUsage};
ghost use Rattle.germ_cli.specs.declared.command.Command.{Command};
ghost use Rattle.germ_cli.specs.Words.{AskForNothing, AsksFor, IsWithinLimits, input_limit_of};
ghost use Rattle.line_io.specs.Causes.{Rose};
ghost use Rattle.line_io.specs.Chunks.{chunks_of};
ghost use Rattle.line_io.specs.Lines.{answered_lines};
ghost use Rattle.determinator.specs.Exact.{IsExact};
ghost use Rattle.std.specs.Prelude.{◌≡◌, ◌≤◌, ℕ, false, map, true, IfSome, string_bytes};

use crate::checking::check_chunks;
use crate::classification::classify_lines;
use crate::command::{Command, read_words};
use crate::status::Status;
use crate::told::{TABLE, USAGE, tell};
use line_io::{Sink, Source};
use std::alloc::Global;

// Does what the command says.
fn execute<S: Source, W: Sink>(
    alloc: Global,
    command: Command,
    source: &mut S,
    sink: &mut W,
) -> Status
    requires { IsWithinLimits command }
    ensures classifies { (limit : ℕ) → command ≡ Command.Classify limit → Classifies limit (S.left source.old) (S.left source.new) (W.taken sink.old) (W.taken sink.new) result }
    ensures checks { command ≡ Command.Check → Checks (S.left source.old) (S.left source.new) (W.taken sink.old) (W.taken sink.new) result }
    ensures tells { command ≡ Command.Table → WroteTable (W.taken sink.old) (W.taken sink.new) result × IsUntouched (S.left source.old) (S.left source.new) (S.faults source.old) (S.faults source.new) }
    ensures read { result ≡ Status.ReadFault → Rose (S.faults source.old) (S.faults source.new) }
    ensures write { result ≡ Status.WriteFault → Rose (W.faults sink.old) (W.faults sink.new) }
    ensures usage { result ≡ Status.Usage → ⊥ }
    ensures invalid { result ≡ Status.Invalid → command ≡ Command.Check }
{
    match command {
        Command::Classify { limit } => classify_lines(alloc, limit, source, sink),
        Command::Check => check_chunks(alloc, source, sink),
        Command::Table => tell(sink, TABLE, Status::Done),
    }
}

/// Does what the words after the program's name ask for.
///
/// With `classify`, or `classify K` for K from 3 to 16, it reads the input line by line and writes the
/// report of each answered line before the next is read, up to order 12 or K. With `check` it reads
/// the input in chunks, each up to and with a line `end`, and writes the line of each before the next
/// is read: `valid`, `unchecked`, `invalid ITEM`, `range ITEM` or `invalid text OFFSET`. With `table` it
/// reads nothing and writes the families of the list. All other words are answered `Usage`, and the usage line is written.
///
/// Errors: `Invalid` where `check` came to the end and some line begins with `invalid`; `ReadFault`
/// and `WriteFault` only where a read or a write failed in this call; `InputLimit` exactly where more
/// than 16,777,216 bytes, with `check` 268,435,456, were taken; `NoMemory` where memory ran out. What
/// is written is always a front of the text.
pub fn run<S: Source, W: Sink>(
    alloc: Global,
    words: &[String],
    source: &mut S,
    sink: &mut W,
) -> Status
    // At the end the input was read to its end, and what was written is the texts of reports, one for
    // each answered line, in order, each right for its line.
    ensures done { (limit : ℕ) → AsksFor (map string_bytes words.now) (Command.Classify limit) → result ≡ Status.Done →
        AnswersAll limit (S.left source.old) (S.left source.new) (W.taken sink.old) (W.taken sink.new) }

    // At any status what was written is a front of such texts for the first answered lines.
    ensures front { (limit : ℕ) → AsksFor (map string_bytes words.now) (Command.Classify limit) → IfSome (S.left source.old) (λ input.
        WroteFront limit (answered_lines input) (W.taken sink.old) (W.taken sink.new)) }

    // After a failed read it is the whole answers to the lines that were ended among the bytes taken;
    // past the limit, to those that were ended among the first of them, up to some count.
    ensures fault { (limit : ℕ) → AsksFor (map string_bytes words.now) (Command.Classify limit) → result ≡ Status.ReadFault →
        AnswersEnded limit (S.left source.old) (S.left source.new) (W.taken sink.old) (W.taken sink.new) }
    ensures at_limit { (limit : ℕ) → AsksFor (map string_bytes words.now) (Command.Classify limit) → result ≡ Status.InputLimit →
        AnswersWithin limit (S.left source.old) (S.left source.new) (W.taken sink.old) (W.taken sink.new) }

    // With `check`, at the end the input was read to its end, and what was written is a line for each of
    // its chunks, in order, each with what is true of its chunk: `valid` only of the text of a valid
    // report. The answer is `Invalid` where some line begins with `invalid`, and else `Done`.
    ensures all_hold { AsksFor (map string_bytes words.now) Command.Check → result ≡ Status.Done →
        ChecksAll (S.left source.old) (S.left source.new) (W.taken sink.old) (W.taken sink.new) false }
    ensures some_fail { AsksFor (map string_bytes words.now) Command.Check → result ≡ Status.Invalid →
        ChecksAll (S.left source.old) (S.left source.new) (W.taken sink.old) (W.taken sink.new) true }

    // At any status what was written is a front of such lines for the first chunks.
    ensures check_front { AsksFor (map string_bytes words.now) Command.Check → IfSome (S.left source.old) (λ input.
        WroteFindingsFront (chunks_of input) (W.taken sink.old) (W.taken sink.new)) }

    // After a failed read it is the whole answers to the chunks that were ended among the bytes taken;
    // past the limit, to those that were ended among the first of them, up to some count.
    ensures check_fault { AsksFor (map string_bytes words.now) Command.Check → result ≡ Status.ReadFault →
        ChecksEnded (S.left source.old) (S.left source.new) (W.taken sink.old) (W.taken sink.new) }
    ensures check_at_limit { AsksFor (map string_bytes words.now) Command.Check → result ≡ Status.InputLimit →
        ChecksWithin (S.left source.old) (S.left source.new) (W.taken sink.old) (W.taken sink.new) }

    // With `table` the table was written, or a part of it and a write failed; nothing was read.
    ensures table { AsksFor (map string_bytes words.now) Command.Table → WroteTable (W.taken sink.old) (W.taken sink.new) result }
    ensures table_unread { AsksFor (map string_bytes words.now) Command.Table → IsUntouched (S.left source.old) (S.left source.new) (S.faults source.old) (S.faults source.new) }

    // Other words are answered before any read.
    ensures usage { result ≡ Status.Usage → AskForNothing (map string_bytes words.now) }
    ensures wrong { AskForNothing (map string_bytes words.now) → WroteUsage (W.taken sink.old) (W.taken sink.new) result }
    ensures unread { AskForNothing (map string_bytes words.now) → IsUntouched (S.left source.old) (S.left source.new) (S.faults source.old) (S.faults source.new) }

    // The causes of the other statuses.
    ensures read { result ≡ Status.ReadFault → Rose (S.faults source.old) (S.faults source.new) }
    ensures write { result ≡ Status.WriteFault → Rose (W.faults sink.old) (W.faults sink.new) }
    ensures limit { (command : Command) → AsksFor (map string_bytes words.now) command → TakesWithin (input_limit_of command) (S.left source.old) (S.left source.new) result }
    ensures invalid { result ≡ Status.Invalid → AsksFor (map string_bytes words.now) Command.Check }

    // With no fault and an input within the limit it ends well, or memory ran out.
    ensures complete { (limit : ℕ) → AsksFor (map string_bytes words.now) (Command.Classify limit) → IsQuiet (S.faults source.old) (S.faults source.new)
        → IsQuiet (W.faults sink.old) (W.faults sink.new) → EndsWell (S.left source.old) result }
    ensures check_complete { AsksFor (map string_bytes words.now) Command.Check → IsQuiet (S.faults source.old) (S.faults source.new)
        → IsQuiet (W.faults sink.old) (W.faults sink.new) → EndsChecked (S.left source.old) result }

    // Which lines get which answer.
    ensures exact { IsExact }
{
    match read_words(words) {
        Some(command) => execute(alloc, command, source, sink),
        None => tell(sink, USAGE, Status::Usage),
    }
}
