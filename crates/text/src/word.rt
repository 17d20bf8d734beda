// The words of a line. Blanks stand between words; a word that would begin with # begins a comment; one that begins with a quotation mark
// ends with the next that no backslash stands before.

ghost use Rattle.std.specs.Prelude.{◌≡◌, ◌+◌, ◌<◌, ◌≤◌, ◌↔◌, All, IfSome, IsNone, length};
ghost use Rattle.text.specs.Word.{AreAlike, TakesWord};
ghost use Rattle.std.specs.Iterator.{at_most};

// What is left of a line. A copy can look ahead.
#[derive(Clone, Copy)]
pub struct Words<'a> {
    rest: &'a [u8],
}

impl<'a> Words<'a> {
    // All words of a line.
    pub fn new(line: &'a [u8]) -> Words<'a>
        ensures { result.rest.now ≡ line.now }
    {
        Words { rest: line }
    }
}

impl<'a> Iterator for Words<'a> {
    type Item = &'a [u8];

    ghost remaining = { λ s. at_most (length s.rest.now) };

    ghost next_gives = { λ s r t. IfSome r (λ word. TakesWord s.rest.now word.now t.rest.now) };

    fn next(&mut self) -> Option<&'a [u8]> {
        let start = self.rest.iter().position(|b| !is_blank(*b))?;
        let line = &self.rest[start..];
        if line[0] == b'#' {
            self.rest = &[];
            return None;
        }
        let (word, rest) = line.split_at(word_len(line));
        self.rest = rest;
        Some(word)
    }
}

// Whether a byte separates words.
fn is_blank(b: u8) -> bool {
    matches!(b, b' ' | b'\t' | b'\r')
}

// How many bytes the word has that stands at a line's start.
fn word_len(line: &[u8]) -> usize
    requires { 1 ≤ length line.now }
    ensures { (1 ≤ result) × (result ≤ length line.now) }
{
    if line[0] == b'"' {
        return quotation_len(line);
    }
    let behind = &line[1..];
    let more = behind
        .iter()
        .position(|b| is_blank(*b))
        .unwrap_or(behind.len());
    1 + more
}

// How many bytes the quotation has that stands at a line's start: up to the next mark that no backslash stands before, or to the end.
fn quotation_len(line: &[u8]) -> usize
    requires { 1 ≤ length line.now }
    ensures { (1 ≤ result) × (result ≤ length line.now) }
{
    let mut is_escaped = true;
    for (i, b) in line.iter().enumerate() {
        if is_escaped {
            is_escaped = false;
        } else if *b == b'"' {
            return i + 1;
        } else {
            is_escaped = *b == b'\\';
        }
    }
    line.len()
}

// What a word names, its letters in either case.
pub fn named<T: Copy>(names: &[(&str, T)], word: &[u8]) -> Option<T>
    ensures some { IfSome result (λ value. ¬ All (λ name. AreAlike name.0.now word.now → ¬ (value ≡ name.1)) names.now) }
    ensures none { IsNone result ↔ All (λ name. ¬ AreAlike name.0.now word.now) names.now }
{
    let (_, value) = names
        .iter()
        .find(|(name, _)| name.as_bytes().eq_ignore_ascii_case(word))?;
    Some(*value)
}
