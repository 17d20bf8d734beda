// What a row holds, as show prints it: like showw's, and behind a run of bytes the text or the elements.
// showw and vectors print rows by themselves: the lines of the three differ in floats, in runs and in what stands behind a verdict, and one
// function for them would be in a crate of its own above payload and text.

use super::float::{Bits, Float, Precision};
use super::kind::{Kind, Scalar};
use super::number::Number;
use payload::row::{Row, Value};
use std::io;
use std::io::Write;
use text::quote;
use wire::part::{self, Part};

// A row's float: the kind's name, the value and the bits.
fn write_float<W: Write>(
    out: &mut W,
    name: &str,
    precision: Precision,
    bits: u64,
) -> io::Result<()> {
    let float = Float { precision, bits };
    write!(out, "{name} {float} {}", Bits(float))
}

// The elements of an array, each behind a blank.
fn write_elements<W: Write>(out: &mut W, run: &[u8], element: Scalar) -> io::Result<()> {
    for bytes in run.chunks(element.size()) {
        write!(out, " {}", Number::of_bytes(bytes, element))?;
    }
    Ok(())
}

// What a run of bytes says: an array's elements, or a text.
fn write_content<W: Write>(out: &mut W, run: &[u8], kind: Kind) -> io::Result<()> {
    match kind {
        Kind::Array(element) => write_elements(out, run, element),
        _ => {
            out.write_all(b" ")?;
            quote::write(out, run)
        }
    }
}

// Writes what a row of a kind holds, where the payload has its bytes.
pub fn write<W: Write>(out: &mut W, row: Row, kind: Kind, payload: &[u8]) -> io::Result<()> {
    match row.value {
        Value::Absent => write!(out, "absent"),
        Value::Unsigned(n) => write!(out, "unsigned {n}"),
        Value::Signed(z) => write!(out, "signed {z}"),
        Value::Float32(_) => write_float(out, "float32", Precision::Single, row.bits),
        Value::Float64(_) => write_float(out, "float64", Precision::Double, row.bits),
        Value::Bytes { place, len } => {
            write!(out, "bytes {place} {len}")?;
            let run = part::part_of(payload, Part { at: place, len });
            write_content(out, run, kind)
        }
        Value::Members => write!(out, "members"),
    }
}
