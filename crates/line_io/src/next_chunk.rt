//! The next chunk of a source.
ghost use Rattle.line_io.specs.Causes.{Rose};
ghost use Rattle.line_io.specs.ChunkSoFar.{ChunkSoFar};
ghost use Rattle.line_io.specs.LineSoFar.{IsUnbroken};
ghost use Rattle.line_io.specs.Reading.{EndsAll, has_ended, has_failed, held_bytes, taken_count};
ghost use Rattle.line_io.specs.ReadingChunks.{GivesChunk, HasNoChunk, IfBytes, IsChunkDecided, PassesChunkLimit, TakesAsNeeded, is_out_of_memory};
ghost use Rattle.std.specs.Io.KnownBytes.{IsAtEnd};
ghost use Rattle.std.specs.Prelude.{◌≡◌, ◌≤◌, ◌<◌, ◌+◌, ◌↔◌, ◌⊎◌, ◌++◌, ◌∷◌, ℕ, List, [], true, false, Ok, IfOk, IsErr, OnErr, OnOk};

use crate::Source;
use crate::chunk::Chunk;
use crate::chunk_buffer::ChunkBuffer;
use crate::line::newline_at;
use crate::lines::Lines;
use ring_law::NoMemory;
use std::alloc::Global;

/// The most bytes of an input that is read in chunks.
pub const CHUNKS_LIMIT: u64 = 268_435_456;

impl Lines {
    // Moves the bytes held into the chunk, up to and with a newline; true where there was one.
    fn collect(&mut self, chunk: &mut ChunkBuffer) -> Result<bool, NoMemory>
        ensures same { (self.new.taken ≡ self.old.taken) × (self.new.ended ≡ self.old.ended) × (self.new.faulted ≡ self.old.faulted) × (self.new.out_of_memory ≡ self.old.out_of_memory) }
        ensures found { result ≡ Ok true → (front : List ℕ) × IsUnbroken front × (self.old.buffer ≡ (front ++ 10 ∷ []) ++ self.new.buffer) × (chunk.new ≡ record { whole = chunk.old.whole; last = chunk.old.last ++ (front ++ 10 ∷ []) }) }
        ensures all { result ≡ Ok false → IsUnbroken self.old.buffer × (self.new.buffer ≡ []) × (chunk.new ≡ record { whole = chunk.old.whole; last = chunk.old.last ++ self.old.buffer }) }
    {
        let held = self.buffer.held();
        match newline_at(held) {
            Some(at) => {
                let (piece, _) = held.split_at(at + 1);
                match chunk.push(piece) {
                    Ok(()) => {}
                    Err(error) => return Err(error),
                }
                self.buffer.skip(at + 1);
                Ok(true)
            }
            None => {
                let count = held.len();
                match chunk.push(held) {
                    Ok(()) => {}
                    Err(error) => return Err(error),
                }
                self.buffer.skip(count);
                Ok(false)
            }
        }
    }

    /// The next chunk of the source: the bytes up to and with the next line `end`, or at the end of the
    /// input the bytes that are left, where there are any. It reads only where the bytes held decide no
    /// chunk and the input was not read to its end.
    ///
    /// `Chunk::End` comes exactly where the input was read to its end and every byte of it went with a
    /// chunk that an earlier call answered.
    ///
    /// Errors: `Chunk::ReadFault` only where a read failed, in this call or an earlier one, and
    /// `Chunk::InputLimit` exactly where more than 268,435,456 bytes were taken; then each later call
    /// answers the same without a read. `NoMemory` where memory ran out, in this call or an earlier one: the bytes of the chunk
    /// are gone, and each later call answers the same without a read.
    pub fn next_chunk<S: Source>(
        &mut self,
        alloc: Global,
        source: &mut S,
    ) -> Result<Chunk, NoMemory>
        ensures chunk { IfOk result (λ answer. IfBytes answer (GivesChunk self.old self.new (S.left source.old) (S.left source.new))) }
        ensures end { result ≡ Ok Chunk.End → EndsAll self.old self.new (S.left source.old) (S.left source.new) }
        ensures all_given { has_ended self.new ≡ true → held_bytes self.old ≡ [] → taken_count self.new ≡ taken_count self.old → IfOk result (λ answer. (answer ≡ Chunk.End) ⊎ (has_failed self.old ≡ true) ⊎ (CHUNKS_LIMIT < taken_count self.old)) }
        ensures fault { result ≡ Ok Chunk.ReadFault → (has_failed self.new ≡ true) × ((has_failed self.old ≡ true) ⊎ (Rose (S.faults source.old) (S.faults source.new) × HasNoChunk self.old (S.left source.old) (S.left source.new))) }
        ensures limit { IfOk result (λ answer. (answer ≡ Chunk.InputLimit) ↔ (CHUNKS_LIMIT < taken_count self.new)) }
        ensures passed { result ≡ Ok Chunk.InputLimit → (CHUNKS_LIMIT < taken_count self.old) ⊎ PassesChunkLimit self.old (S.left source.old) (S.left source.new) }
        ensures memory { OnErr result ((is_out_of_memory self.new ≡ true) × ((is_out_of_memory self.old ≡ true) ⊎ (taken_count self.new ≤ CHUNKS_LIMIT))) }
        ensures spent { is_out_of_memory self.old ≡ true → IsErr result }
        ensures in_memory { OnOk result (is_out_of_memory self.new ≡ false) }
        ensures taken { TakesAsNeeded self.old self.new (S.left source.old) (S.left source.new) }
        ensures ended { has_ended self.new ≡ true → ((has_ended self.old ≡ true) × (S.left source.new ≡ S.left source.old)) ⊎ IsAtEnd (S.left source.new) }
        ensures unread { IsChunkDecided self.old → (S.left source.new ≡ S.left source.old) × (S.faults source.new ≡ S.faults source.old) }
        ensures sound { has_failed self.new ≡ true → (has_failed self.old ≡ true) ⊎ (result ≡ Ok Chunk.ReadFault) }
        ensures still { IsChunkDecided self.old → taken_count self.new ≡ taken_count self.old }
        ensures stays { has_failed self.old ≡ true → (has_failed self.new ≡ true) × (taken_count self.old ≤ CHUNKS_LIMIT → IfOk result (λ answer. answer ≡ Chunk.ReadFault)) }
        ensures over { CHUNKS_LIMIT < taken_count self.old → IfOk result (λ answer. answer ≡ Chunk.InputLimit) }
        ensures later { S.faults source.old ≤ S.faults source.new }
    {
        if self.out_of_memory {
            return Err(NoMemory);
        }
        if self.taken > CHUNKS_LIMIT {
            return Ok(Chunk::InputLimit);
        }
        if self.faulted {
            return Ok(Chunk::ReadFault);
        }
        let mut chunk = ChunkBuffer::new(alloc);
        loop {
            let Ok(found) = self.collect(&mut chunk) else {
                self.out_of_memory = true;
                return Err(NoMemory);
            };
            if found {
                if chunk.is_ended() {
                    return Ok(Chunk::Bytes(chunk.into_bytes()));
                }
                chunk.begin_line();
                continue;
            }
            if self.ended {
                if chunk.is_empty() {
                    return Ok(Chunk::End);
                }
                return Ok(Chunk::Bytes(chunk.into_bytes()));
            }
            match self.fill(source) {
                Ok(()) => {}
                Err(_) => return Ok(Chunk::ReadFault),
            }
            if self.taken > CHUNKS_LIMIT {
                return Ok(Chunk::InputLimit);
            }
        }
    }
}
