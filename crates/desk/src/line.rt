// The words of a line, and what can be wrong with those of any line.

ghost use Rattle.std.specs.Prelude.{◌≤◌, IfOk};

use super::complaint::{Fault, quoted};
use std::io;
use std::io::Write;
use text::number::{self, NumberError};
use text::word::Words;

// What is wrong with a number, which goes by a name, or with what stands behind a line's last word.
#[derive(Clone, Copy)]
pub enum WordFault<'a> {
    NumberMissing(&'static str),
    NoNumber(&'static str, &'a [u8]),
    Over(&'static str, &'a [u8], u64),
    TooMany(&'a [u8]),
}

impl Fault for WordFault<'_> {
    fn write<W: Write>(&self, out: &mut W) -> io::Result<()> {
        match self {
            WordFault::NumberMissing(name) => write!(out, "{name}: a number is missing"),
            WordFault::NoNumber(name, word) => {
                write!(out, "{name}: ")?;
                quoted(out, word, "is no number")
            }
            WordFault::Over(name, word, most) => {
                write!(out, "{name}: ")?;
                quoted(out, word, "is over")?;
                write!(out, " {most}")
            }
            WordFault::TooMany(word) => quoted(out, word, "is a word too many"),
        }
    }
}

// The next word; an empty one where none is left. No word of a line is empty, and a message quotes a missing one as "": an Option would be
// unwrapped to that in every place.
pub fn next_word<'a>(words: &mut Words<'a>) -> &'a [u8] {
    words.next().unwrap_or(&[])
}

// Whether nothing but a comment is left.
pub fn ends(mut words: Words<'_>) -> Result<(), WordFault<'_>> {
    match words.next() {
        Some(word) => Err(WordFault::TooMany(word)),
        None => Ok(()),
    }
}

// The only word that is left; an empty one where none is, as `next_word` has it.
pub fn last_word(mut words: Words<'_>) -> Result<&[u8], WordFault<'_>> {
    let word = next_word(&mut words);
    ends(words)?;
    Ok(word)
}

// Whether a word is one of some, its letters in either case.
pub fn is_one_of(words: &[&str], word: &[u8]) -> bool {
    words
        .iter()
        .any(|other| other.as_bytes().eq_ignore_ascii_case(word))
}

// A word as a number up to a most one. A message names the number.
pub fn number<'a>(name: &'static str, word: &'a [u8], most: u64) -> Result<u64, WordFault<'a>>
    ensures { IfOk result (λ n. n ≤ most) }
{
    if word.is_empty() {
        return Err(WordFault::NumberMissing(name));
    }
    match number::parse_within(word, most) {
        Ok(n) => Ok(n),
        Err(NumberError::TooLarge) => Err(WordFault::Over(name, word, most)),
        Err(NumberError::NotANumber) => Err(WordFault::NoNumber(name, word)),
    }
}
