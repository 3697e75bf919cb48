//! Lines: where they end, and which are answered.
ghost use Rattle.line_io.specs.Chunks.{is_end};
ghost use Rattle.line_io.specs.Lines.{ends_with, is_answered, is_passed_over, line_of, without_last};
ghost use Rattle.std.specs.Prelude.{◌≡◌, ◌<◌, ◌==◌, length, position, IfSome};

/// The most bytes of a line that is read.
pub const MAX_LINE: usize = 65_536;

/// The place of the first newline.
pub fn newline_at(bytes: &[u8]) -> Option<usize>
    ensures at { result ≡ position (λ b. b == 10) bytes.now }
    ensures within { IfSome result (λ at. at < length bytes.now) }
{
    bytes.iter().position(|b| *b == b'\n')
}

// The bytes without this one at their end, if it is there.
fn trimmed(last: u8, bytes: &[u8]) -> &[u8]
    ensures { result.now ≡ without_last last bytes.now }
{
    match bytes {
        [front @ .., byte] if *byte == last => front,
        _ => bytes,
    }
}

// This is the last of the bytes.
fn is_last(last: u8, bytes: &[u8]) -> bool
    ensures { result ≡ ends_with last bytes.now }
{
    match bytes {
        [.., byte] => *byte == last,
        [] => false,
    }
}

/// The piece is the line `end` with its newline.
#[tactic(auto, unfolding(crate::specs::Chunks::is_end, crate::specs::Lines::line_of))]
pub fn is_end_line(piece: &[u8]) -> bool
    ensures { result ≡ is_end piece.now }
{
    is_last(b'\n', piece) && trimmed(b'\r', trimmed(b'\n', piece)) == b"end".as_slice()
}

// The line is blank, or a comment.
#[tactic(auto, unfolding(crate::specs::Lines::is_passed_over))]
fn is_passed(line: &[u8]) -> bool
    ensures { result ≡ is_passed_over line.now }
{
    for b in line {
        if *b != b' ' && *b != b'\t' {
            return *b == b'#';
        }
    }
    true
}

/// The line gets a report: it is too long, or neither blank nor a comment.
pub fn is_answered_line(line: &[u8]) -> bool
    ensures { result ≡ is_answered line.now }
{
    line.len() > MAX_LINE || !is_passed(line)
}
