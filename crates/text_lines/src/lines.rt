//! The lines of an input.
ghost use Rattle.std.specs.Prelude.{◌≡◌, ℕ, ◌<◌, ◌≤◌, ◌≢◌, ◌∷◌, [], length, slice_index, MatchOption};
ghost use Rattle.std.specs.Str.Lines.{lines, strip_carriage_return};

// The index of the first line feed, or the length where there is none.
fn line_end(bytes: &[u8]) -> usize
    ensures within { result ≤ length bytes.now }
    ensures before { (k : ℕ) → k < result → slice_index bytes.now k ≢ 10 }
    ensures found { result < length bytes.now → slice_index bytes.now result ≡ 10 }
{
    for (i, byte) in bytes.iter().enumerate() {
        if *byte == b'\n' {
            return i;
        }
    }
    bytes.len()
}

// A line without the carriage return at its end.
fn without_return(line: &[u8]) -> &[u8]
    ensures { result.now ≡ strip_carriage_return line.now }
{
    match line {
        [front @ .., b'\r'] => front,
        _ => line,
    }
}

/// The first line of a text, and the text after it; None exactly where the text has no line.
///
/// A line ends at a line feed, and a carriage return directly before that is no byte of it. What follows the last line
/// feed is a line where it is not empty; a carriage return at its end is a byte of it.
pub fn next_line(rest: &[u8]) -> Option<(&[u8], &[u8])>
    ensures { MatchOption result (lines rest.now ≡ []) (λ x. (lines rest.now ≡ x.0.now ∷ lines x.1.now)
        × (length x.1.now < length rest.now)) }
{
    if rest.is_empty() {
        return None;
    }
    let at = line_end(rest);
    let (line, end) = rest.split_at(at);
    if at == rest.len() {
        return Some((line, end));
    }
    let (_, after) = end.split_at(1);
    Some((without_return(line), after))
}
