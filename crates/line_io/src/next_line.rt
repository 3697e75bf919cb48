//! The next line of a source.
ghost use Rattle.line_io.specs.Causes.{Rose};
ghost use Rattle.line_io.specs.LineSoFar.{IsUnbroken, Pushes};
ghost use Rattle.line_io.specs.Reading.{EndsAll, HandsOut, HasNoLine, IsDecided, PassesLimit, Takes, has_ended, has_failed, held_bytes, is_handed_out, taken_count};
ghost use Rattle.std.specs.Io.KnownBytes.{Consumes, IsAtEnd, Keeps};
ghost use Rattle.std.specs.Prelude.{◌≡◌, ◌≤◌, ◌<◌, ◌+◌, ◌^◌, ◌↔◌, ◌⊎◌, ◌++◌, ◌∷◌, ℕ, List, [], length, true, false, OnErr, OnOk};

use crate::line::newline_at;
use crate::lines::Lines;
use crate::next::Next;
use crate::next_chunk::CHUNKS_LIMIT;
use crate::{Failed, Source};

/// The most bytes of an input.
pub const INPUT_LIMIT: u64 = 16_777_216;

impl Lines {
    // Moves the bytes held into the line, up to a newline; true where there was one.
    fn gather(&mut self) -> bool
        requires small { self.old.line.total + length self.old.buffer < 2 ^ 64 }
        ensures same { (self.new.taken ≡ self.old.taken) × (self.new.ended ≡ self.old.ended) × (self.new.faulted ≡ self.old.faulted) }
        ensures found { result ≡ true → (front : List ℕ) × IsUnbroken front × (self.old.buffer ≡ (front ++ 10 ∷ []) ++ self.new.buffer) × Pushes self.old.line self.new.line front }
        ensures all { result ≡ false → IsUnbroken self.old.buffer × (self.new.buffer ≡ []) × Pushes self.old.line self.new.line self.old.buffer }
    {
        let held = self.buffer.held();
        match newline_at(held) {
            Some(at) => {
                let (front, _) = held.split_at(at);
                self.line.push(front);
                self.buffer.skip(at + 1);
                true
            }
            None => {
                let count = held.len();
                self.line.push(held);
                self.buffer.skip(count);
                false
            }
        }
    }

    // Reads the next bytes into the empty buffer.
    pub(crate) fn fill<S: Source>(&mut self, source: &mut S) -> Result<(), Failed>
        requires empty { self.old.buffer ≡ [] }
        requires open { self.old.taken ≤ CHUNKS_LIMIT }
        ensures ok { OnOk result (Consumes (S.left source.old) (S.left source.new) self.new.buffer) }
        ensures counted { OnOk result (self.new.taken ≡ self.old.taken + length self.new.buffer) }
        ensures ended { OnOk result (self.new.ended ≡ true → IsAtEnd (S.left source.new)) }
        ensures more { OnOk result (self.new.ended ≡ false → 0 < length self.new.buffer) }
        ensures sound { OnOk result (self.new.faulted ≡ self.old.faulted) }
        ensures line { self.new.line ≡ self.old.line }
        ensures memory { self.new.out_of_memory ≡ self.old.out_of_memory }
        ensures later { S.faults source.old ≤ S.faults source.new }
        ensures failed { OnErr result (Rose (S.faults source.old) (S.faults source.new) × Keeps (S.left source.old) (S.left source.new)) }
        ensures stopped { OnErr result ((self.new.buffer ≡ []) × (self.new.taken ≡ self.old.taken) × (self.new.ended ≡ self.old.ended) × (self.new.faulted ≡ true)) }
    {
        match self.buffer.refill(source) {
            Ok(count) => {
                self.taken += count as u64;
                self.ended = count == 0;
                Ok(())
            }
            Err(failed) => {
                self.faulted = true;
                Err(failed)
            }
        }
    }

    /// The next line of the source. It reads only where the bytes held decide no line and the input
    /// was not read to its end.
    ///
    /// After `Next::Line` the line is `line`. `Next::Long` has the length of a line of more than
    /// 65,536 bytes. `Next::End` comes exactly where the input was read to its end and every byte of it
    /// went with a line that an earlier call answered.
    ///
    /// Errors: `Next::ReadFault` only where a read failed, in this call or an earlier one, and
    /// `Next::InputLimit` exactly where more than 16,777,216 bytes were taken; then each later call answers
    /// the same without a read.
    pub fn next_line<S: Source>(&mut self, source: &mut S) -> Next
        ensures line { is_handed_out result ≡ true → HandsOut self.old self.new (S.left source.old) (S.left source.new) result }
        ensures end { result ≡ Next.End → EndsAll self.old self.new (S.left source.old) (S.left source.new) }
        ensures all_given { has_ended self.new ≡ true → held_bytes self.old ≡ [] → taken_count self.new ≡ taken_count self.old → (result ≡ Next.End) ⊎ (has_failed self.old ≡ true) ⊎ (INPUT_LIMIT < taken_count self.old) }
        ensures fault { result ≡ Next.ReadFault → (has_failed self.new ≡ true) × ((has_failed self.old ≡ true) ⊎ (Rose (S.faults source.old) (S.faults source.new) × HasNoLine self.old (S.left source.old) (S.left source.new))) }
        ensures limit { (result ≡ Next.InputLimit) ↔ (INPUT_LIMIT < taken_count self.new) }
        ensures passed { result ≡ Next.InputLimit → (INPUT_LIMIT < taken_count self.old) ⊎ PassesLimit self.old (S.left source.old) (S.left source.new) }
        ensures taken { Takes self.old self.new (S.left source.old) (S.left source.new) }
        ensures ended { has_ended self.new ≡ true → ((has_ended self.old ≡ true) × (S.left source.new ≡ S.left source.old)) ⊎ IsAtEnd (S.left source.new) }
        ensures unread { IsDecided self.old → (S.left source.new ≡ S.left source.old) × (S.faults source.new ≡ S.faults source.old) }
        ensures sound { has_failed self.new ≡ true → (has_failed self.old ≡ true) ⊎ (result ≡ Next.ReadFault) }
        ensures still { IsDecided self.old → taken_count self.new ≡ taken_count self.old }
        ensures stays { has_failed self.old ≡ true → (has_failed self.new ≡ true) × (taken_count self.old ≤ INPUT_LIMIT → result ≡ Next.ReadFault) }
        ensures over { INPUT_LIMIT < taken_count self.old → result ≡ Next.InputLimit }
        ensures later { S.faults source.old ≤ S.faults source.new }
    {
        if self.taken > INPUT_LIMIT {
            return Next::InputLimit;
        }
        if self.faulted {
            return Next::ReadFault;
        }
        self.line.clear();
        loop {
            if self.gather() {
                return self.line.finish();
            }
            if self.ended {
                if self.line.is_empty() {
                    return Next::End;
                }
                return self.line.finish();
            }
            match self.fill(source) {
                Ok(()) => {}
                Err(_) => return Next::ReadFault,
            }
            if self.taken > INPUT_LIMIT {
                return Next::InputLimit;
            }
        }
    }
}
