// The answers, in the form of docs/CASES.md. Each follows its case's label.

ghost use Rattle.std.specs.Prelude.{◌<◌};

use super::lent;
use message::read::MessageReading;
use payload::read::Reading;
use payload::row::{Row, Value};
use payload::table::Table;
use payload::write::Written;
use std::io::{self, Write};
use std::{fmt, num};
use wire::part::Part;
use wire::verdict::Verdict;

// How many bytes are turned into digits at once.
const PIECE: usize = 64;

// A verdict's number and its return code.
#[derive(Clone, Copy)]
struct Judged(Verdict);

impl fmt::Display for Judged {
    fn fmt<W: fmt::Write>(&self, f: &mut fmt::Formatter<W>) -> fmt::Result {
        let number = self.0.number();
        write!(f, "verdict {number} code ")?;
        match self.0.return_code() {
            Some(code) => write!(f, "{code}"),
            None => f.write_str("none"),
        }
    }
}

// A part's place and length.
#[derive(Clone, Copy)]
struct Place(Part);

impl fmt::Display for Place {
    fn fmt<W: fmt::Write>(&self, f: &mut fmt::Formatter<W>) -> fmt::Result {
        let Part { at, len } = self.0;
        write!(f, "{at} {len}")
    }
}

// What a value row holds: a float by its bits, with a word where the float beside them is another, and bits beside another value if not 0.
// The float of the bits is std's, not the library's, which made the row.
#[derive(Clone, Copy)]
struct Shown(Row);

impl fmt::Display for Shown {
    fn fmt<W: fmt::Write>(&self, f: &mut fmt::Formatter<W>) -> fmt::Result {
        let bits = self.0.bits;
        match self.0.value {
            Value::Float32(x) => {
                let same = num::f32_from_bits_with_nan((bits & 0xffff_ffff) as u32);
                let word = other(f64::from(x), f64::from(same));
                return write!(f, "float32 {bits:08x}{word}");
            }
            Value::Float64(x) => {
                let word = other(x, num::f64_from_bits_with_nan(bits));
                return write!(f, "float64 {bits:016x}{word}");
            }
            Value::Absent => f.write_str("absent"),
            Value::Unsigned(n) => write!(f, "unsigned {n}"),
            Value::Signed(n) => write!(f, "signed {n}"),
            Value::Bytes { place, len } => write!(f, "bytes {place} {len}"),
            Value::Members => f.write_str("members"),
        }?;
        if bits != 0 {
            write!(f, " bits {bits}")?;
        }
        Ok(())
    }
}

// A word where two floats differ, a NaN and a zero's sign included.
fn other(x: f64, y: f64) -> &'static str {
    if num::f64_to_bits_with_nan(x) == num::f64_to_bits_with_nan(y) {
        ""
    } else {
        " other"
    }
}

// The answer to a payload.
pub fn payload<W: Write>(r: &Reading, table: &Table, out: &mut W) -> io::Result<()> {
    answer(r, out)?;
    for ((number, kind), row) in (1..=64u8).zip(&table.rows).zip(&r.rows).take(r.filled) {
        writeln!(out, "{number} {} {}", kind.ident, Shown(*row))?;
    }
    writeln!(out, "filled {}", r.filled)
}

// The answer to a datagram, for which so many rows are lent. An empty part has no place after a refusal.
pub fn message<W: Write>(m: &MessageReading, room: u8, out: &mut W) -> io::Result<()> {
    let r = &m.reading;
    let h = &m.head;
    answer(r, out)?;
    let client = h.client.0;
    let session = h.session.0;
    writeln!(
        out,
        "client {client} session {session} return {}",
        h.found_code
    )?;
    let accepted = r.verdict == Verdict::Accepted;
    let place = |p: Part| {
        if accepted || p.len != 0 {
            Place(p)
        } else {
            Place(Part { at: 0, len: 0 })
        }
    };
    writeln!(out, "payload {} rest {}", place(h.payload), place(h.rest))?;
    let mut set = r.rows.iter().take(r.filled).copied();
    for i in 1..=room {
        let row = set.next().unwrap_or_else(|| lent::lent_row(i));
        writeln!(out, "{i} {}", Shown(row))?;
    }
    Ok(())
}

// A verdict, a place and the count of skipped members.
fn answer<W: Write>(r: &Reading, out: &mut W) -> io::Result<()> {
    writeln!(
        out,
        "{} place {} skipped {}",
        Judged(r.verdict),
        r.place,
        r.skipped
    )
}

// The answer to a writing, with the output.
pub fn written<W: Write>(w: Written, output: &[u8], out: &mut W) -> io::Result<()> {
    writeln!(out, "{} length {}", Judged(w.verdict), w.len)?;
    out.write_all(b"output")?;
    if !output.is_empty() {
        out.write_all(b" ")?;
    }
    hexadecimal(output, out)?;
    out.write_all(b"\n")
}

// A hexadecimal digit, a capital one.
fn digit(x: u8) -> u8
    requires { x < 16 }
{
    if x < 10 { b'0' + x } else { b'A' - 10 + x }
}

// The digits of at most so many bytes as a piece has. Behind them stand zeros.
fn piece_of(bytes: &[u8]) -> [[u8; 2]; PIECE] {
    let mut text = [[0; 2]; PIECE];
    for (pair, byte) in text.iter_mut().zip(bytes) {
        *pair = [digit(byte / 16), digit(byte % 16)];
    }
    text
}

// Writes bytes in hexadecimal, piece by piece.
fn hexadecimal<W: Write>(bytes: &[u8], out: &mut W) -> io::Result<()> {
    for piece in bytes.chunks(PIECE) {
        let text = piece_of(piece);
        out.write_all(text[..piece.len().min(PIECE)].as_flattened())?;
    }
    Ok(())
}

// The answer to a table.
pub fn table<W: Write>(fits: bool, out: &mut W) -> io::Result<()> {
    let verdict = if fits {
        Verdict::Accepted
    } else {
        Verdict::Table
    };
    writeln!(out, "{}", Judged(verdict))
}
