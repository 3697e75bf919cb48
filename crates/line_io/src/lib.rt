//! Where the bytes of a run come from, where they go, and the lines and chunks of an input.
#![tactic(auto)]

mod chunk;
mod chunk_buffer;
mod clean_source;
mod error;
mod line;
mod line_buffer;
mod lines;
mod mem_sink;
mod mem_source;
mod next;
mod next_chunk;
mod next_line;
mod read_buffer;
mod sink;
mod source;
mod standard;
mod whole;

pub use chunk::Chunk;
pub use clean_source::CleanSource;
pub use error::{Failed, WriteFault};
pub use line::{MAX_LINE, is_answered_line};
pub use lines::Lines;
pub use mem_sink::MemSink;
pub use mem_source::MemSource;
pub use next::Next;
pub use next_chunk::CHUNKS_LIMIT;
pub use next_line::INPUT_LIMIT;
pub use sink::Sink;
pub use source::Source;
pub use standard::{StdSink, StdSource};
pub use whole::write_whole;
