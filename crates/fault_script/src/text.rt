//! Lines of a text, and words of a line.

ghost use Rattle.std.specs.Prelude.{◌≡◌, ◌-◌, ◌<◌, ◌≤◌, ◌==◌, ◌∷◌, [], length, drop, not, slice_index, IfSome};
ghost use Rattle.std.specs.List.{list_any, position, take_while};
ghost use Rattle.std.specs.Option.{option_map, option_map_or};
ghost use Rattle.std.specs.Str.Lines.{lines, strip_carriage_return};
ghost use Rattle.fault_script.specs.Text.{before, behind, is_fault_line, words};

/// What stands before the first such byte of a text, and what stands behind it, where there is one.
pub(crate) fn cut(byte: u8, text: &[u8]) -> (&[u8], Option<&[u8]>)
    ensures before { result.0.now ≡ before byte text.now }
    ensures behind { option_map (λ rest. rest.now) result.1 ≡ behind byte text.now }
    ensures shorter { IfSome result.1 (λ rest. length rest.now < length text.now) }
{
    match place_of(byte, text) {
        Some(at) => (&text[..at], Some(&text[at + 1..])),
        None => (text, None),
    }
}

// The place of the first such byte.
fn place_of(byte: u8, text: &[u8]) -> Option<usize>
    ensures exact { result ≡ position (λ b. b == byte) text.now }
    ensures within { IfSome result (λ at. at < length text.now) }
{
    text.iter().position(|b| *b == byte)
}

/// The first line of a text, and what stands behind its end. None where the text is empty.
pub(crate) fn first_line(text: &[u8]) -> Option<(&[u8], &[u8])>
    ensures exact { lines text.now ≡ option_map_or (λ x. x.0.now ∷ lines x.1.now) result [] }
    ensures shorter { IfSome result (λ x. length x.1.now < length text.now) }
{
    if text.is_empty() {
        return None;
    }
    let (line, rest) = cut(b'\n', text);
    match rest {
        Some(rest) => Some((without_return(line), rest)),
        None => Some((line, b"".as_slice())),
    }
}

// A line without a CR at its end.
fn without_return(line: &[u8]) -> &[u8]
    ensures { result.now ≡ strip_carriage_return line.now }
{
    if ends_in_return(line) {
        &line[..line.len() - 1]
    } else {
        line
    }
}

fn ends_in_return(line: &[u8]) -> bool
    ensures { result ≡ (slice_index line.now (length line.now - 1) == 13) }
{
    !line.is_empty() && line[line.len() - 1] == b'\r'
}

/// Whether a line is a fault line: neither of spaces alone, nor begun by `#`.
pub(crate) fn is_fault_line(line: &[u8]) -> bool
    ensures { result ≡ is_fault_line line.now }
{
    match line.first() {
        Some(byte) => *byte != b'#' && has_word(line),
        None => false,
    }
}

// Whether a byte of a line is no space.
fn has_word(line: &[u8]) -> bool
    ensures { result ≡ list_any (λ b. not (b == 32)) line.now }
{
    line.iter().any(|b| *b != b' ')
}

/// The first word of a line, and what stands behind it. None where there is no word.
pub(crate) fn first_word(line: &[u8]) -> Option<(&[u8], &[u8])>
    ensures { words line.now ≡ option_map_or (λ x. x.0.now ∷ words x.1.now) result [] }
{
    let text = line.split_at(spaces(line)).1;
    if text.is_empty() {
        return None;
    }
    let (word, rest) = cut(b' ', text);
    match rest {
        Some(rest) => Some((word, rest)),
        None => Some((word, b"".as_slice())),
    }
}

// How many spaces stand before anything else.
fn spaces(line: &[u8]) -> usize
    ensures exact { result ≡ length (take_while (λ b. b == 32) line.now) }
    ensures within { result ≤ length line.now }
{
    line.iter().take_while(|b| **b == b' ').count()
}
