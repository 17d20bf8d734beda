// Text in quotation marks: printed so that it can be read and read back, and read.
//
// Printed as they are: characters from the blank on but quotation mark, backslash and delete; of more bytes, those that Unicode has but the
// control characters. All other bytes are escaped: \" \\ \n \r \t, or \x and two hexadecimal digits.

ghost use Rattle.std.specs.Prelude.{◌≡◌, ◌≤◌, ◌<◌, IfOk, length};

use std::io;
use std::io::Write;

// How many bytes a character has that begins with a byte; 1 where none begins so.
fn width(first: u8) -> usize
    ensures { (1 ≤ result) × (result ≤ 4) }
{
    match first {
        0xC2..=0xDF => 2,
        0xE0..=0xEF => 3,
        0xF0..=0xF4 => 4,
        _ => 1,
    }
}

// Whether a character is printed as it is: by its first byte, and where that leaves it open by its second, which past the text's end counts
// as 0.
fn is_plain(character: &[u8]) -> bool {
    let first = character.first().copied().unwrap_or(0);
    let second = character.get(1).copied().unwrap_or(0);
    match first {
        0x20..=0x21 | 0x23..=0x5B | 0x5D..=0x7E => true,
        0xC2 | 0xE0 => 0xA0 <= second,
        0xED => second < 0xA0,
        0xF0 => 0x90 <= second,
        0xF4 => second < 0x90,
        0xC3..=0xDF | 0xE1..=0xEF | 0xF1..=0xF3 => true,
        _ => false,
    }
}

// A byte, escaped.
fn write_escaped<W: Write>(out: &mut W, byte: u8) -> io::Result<()> {
    match byte {
        b'"' => out.write_all(b"\\\""),
        b'\\' => out.write_all(b"\\\\"),
        b'\n' => out.write_all(b"\\n"),
        b'\r' => out.write_all(b"\\r"),
        b'\t' => out.write_all(b"\\t"),
        _ => write!(out, "\\x{byte:02X}"),
    }
}

// A character, as it is or each of its bytes escaped.
fn write_character<W: Write>(out: &mut W, character: &[u8]) -> io::Result<()> {
    if is_plain(character) {
        return out.write_all(character);
    }
    for byte in character {
        write_escaped(out, *byte)?;
    }
    Ok(())
}

// Writes a text in quotation marks.
pub fn write<W: Write>(out: &mut W, text: &[u8]) -> io::Result<()> {
    out.write_all(b"\"")?;
    let mut rest = text;
    while let Some(first) = rest.first() {
        let (character, behind) = rest.split_at(width(*first).min(rest.len()));
        write_character(out, character)?;
        rest = behind;
    }
    out.write_all(b"\"")
}

// Why a quotation has no text: a mark is missing at its end; a backslash stands before what is no escape; or it is more than there is room
// for.
#[derive(Clone, Copy, Debug, PartialEq, Eq)]
pub enum QuoteError {
    Open,
    Escape,
    TooLong,
}

// The byte of two hexadecimal digits.
fn byte_of(high: u8, low: u8) -> Option<u8> {
    let high = char::from(high).to_digit(16)?;
    let low = char::from(low).to_digit(16)?;
    Some((high * 16 + low) as u8)
}

// The byte of an escape, behind its backslash, and what stands behind it.
fn escape(text: &[u8]) -> Option<(u8, &[u8])>
    ensures { (p : _) → result ≡ Some p → length p.1.now < length text.now }
{
    match text {
        [b'n', rest @ ..] => Some((b'\n', rest)),
        [b'r', rest @ ..] => Some((b'\r', rest)),
        [b't', rest @ ..] => Some((b'\t', rest)),
        [b'x', high, low, rest @ ..] => Some((byte_of(*high, *low)?, rest)),
        [mark @ (b'"' | b'\\'), rest @ ..] => Some((*mark, rest)),
        _ => None,
    }
}

// Puts the text of a quotation, which begins with its mark, at the start of a buffer, and answers it. Where there is none, the buffer has a
// part of it.
pub fn read<'b>(quotation: &[u8], buf: &'b mut [u8]) -> Result<&'b [u8], QuoteError>
    ensures bound { IfOk result (λ text. length text.now ≤ length buf.old) }
{
    let mut len = 0;
    let mut rest = quotation.get(1..).unwrap_or(&[]);
    while let Some((first, behind)) = rest.split_first() {
        if *first == b'"' {
            return Ok(&buf[..len]);
        }
        if buf.len() <= len {
            return Err(QuoteError::TooLong);
        }
        let (byte, behind) = match first {
            b'\\' => escape(behind).ok_or(QuoteError::Escape)?,
            _ => (*first, behind),
        };
        buf[len] = byte;
        len += 1;
        rest = behind;
    }
    Err(QuoteError::Open)
}
