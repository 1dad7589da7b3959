//! The lines of a text.

ghost use Rattle.std.specs.Prelude.{◌≡◌, ◌==◌, ℕ, ◌<◌, ◌≤◌, ◌∷◌, false, true, length, slice_index};
ghost use Rattle.console_operand.specs.Line.{lines_of, without_cr};

use memchr::memchr;

/// How many bytes stand in front of the first line feed.
fn line_len(text: &[u8]) -> usize
    ensures bound { result ≤ length text.now }
    ensures inside { (k : ℕ) → k < result → (slice_index text.now k == 10) ≡ false }
    ensures stops { result < length text.now → (slice_index text.now result == 10) ≡ true }
{
    match memchr(b'\n', text) {
        Some(n) => n,
        None => text.len(),
    }
}

/// A line that ended with a line feed, without the carriage return just before that.
fn without_cr(line: &[u8]) -> &[u8]
    ensures { result.now ≡ without_cr line.now }
{
    match line.split_last() {
        Some((last, front)) => { if *last == b'\r' { front } else { line } }
        None => line,
    }
}

/// The first line of a text and what stands after its line feed, by a search for that.
#[inline(never)]
fn found_line(text: &[u8]) -> (&[u8], &[u8])
    requires { 0 < length text.now }
    ensures lines { lines_of text.now ≡ result.0.now ∷ lines_of result.1.now }
    ensures shorter { length result.1.now < length text.now }
{
    let end = line_len(text);
    let (line, after) = text.split_at(end);
    match after.split_first() {
        Some((_, rest)) => (without_cr(line), rest),
        None => (line, after),
    }
}

/// The first line of a text, and what stands after its line feed. A carriage return just before the line feed is no
/// part of the line; the last line may lack the line feed, and is then taken as it stands.
#[inline(always)]
pub fn first_line(text: &[u8]) -> (&[u8], &[u8])
    requires { 0 < length text.now }
    ensures lines { lines_of text.now ≡ result.0.now ∷ lines_of result.1.now }
    ensures shorter { length result.1.now < length text.now }
{
    match text {
        [b'\n', after @ ..] => (&[], after),
        _ => found_line(text),
    }
}
