// Numbers of the kinds that have one: read from a word, from bytes, and shown as an array's element.

use super::float::{self, Bits, Float, Precision};
use super::kind::{Form, Scalar};
use super::line;
use super::value_fault::NumberFault;
use payload::row::{Row, Value};
use std::fmt;
use text::number::{self as text_number, NumberError};
use text::word;
use wire::number as wire_number;

// A number.
#[derive(Clone, Copy)]
pub enum Number {
    Unsigned(u64),
    Signed(i64),
    Float(Float),
}

impl Number {
    // The number of big-endian bytes, which are as many as the kind has. wire's `read_number` asks that they be so many, which
    // no clause says of the last of `chunks`.
    pub fn of_bytes(bytes: &[u8], kind: Scalar) -> Number {
        let bits = bytes.iter().fold(0u64, |high, b| high << 8 | u64::from(*b));
        match kind.form() {
            Form::Boolean | Form::Unsigned { .. } => Number::Unsigned(bits),
            Form::Signed { least } => Number::Signed(signed_of(bits, least)),
            Form::Float(precision) => Number::Float(Float { precision, bits }),
        }
    }

    // The number as a row of its own.
    pub fn row(self) -> Row {
        match self {
            Number::Unsigned(n) => Row::plain(Value::Unsigned(n)),
            Number::Signed(z) => Row::plain(Value::Signed(z)),
            Number::Float(float) => float_row(float),
        }
    }

    // The bits, of which a narrow number's bytes are the last.
    pub fn bits(self) -> u64 {
        match self {
            Number::Unsigned(n) => n,
            Number::Signed(z) => z.cast_unsigned(),
            Number::Float(float) => float.bits,
        }
    }
}

// As an element of an array is shown.
impl fmt::Display for Number {
    fn fmt<W: fmt::Write>(&self, f: &mut fmt::Formatter<W>) -> fmt::Result {
        match self {
            Number::Unsigned(n) => write!(f, "{n}"),
            Number::Signed(z) => write!(f, "{z}"),
            Number::Float(float) => write!(f, "{float}:{}", Bits(*float)),
        }
    }
}

// A float's row.
fn float_row(float: Float) -> Row {
    let bits = float.bits;
    let value = match float.precision {
        Precision::Single => Value::Float32(wire_number::float32_of(float::low_half(bits))),
        Precision::Double => Value::Float64(wire_number::float64_of(bits)),
    };
    Row { value, bits }
}

// The number of a signed kind with this two's complement, where `least` is the kind's least. wire's `signed_of` asks that the bits be of
// the kind's width, which no clause says of a fold over bytes.
fn signed_of(bits: u64, least: i64) -> i64 {
    let half = least.unsigned_abs();
    if bits < half {
        return bits.cast_signed();
    }
    bits.wrapping_sub(half).wrapping_sub(half).cast_signed()
}

// A boolean, in words or as a number.
fn read_boolean(word: &[u8]) -> Result<u64, NumberFault<'_>> {
    match word::named(&[("false", 0), ("true", 1)], word) {
        Some(n) => Ok(n),
        None => Ok(line::number("value", word, 1)?),
    }
}

// A signed number.
fn read_signed(word: &[u8], least: i64) -> Result<i64, NumberFault<'_>> {
    let Some(digits) = word.strip_prefix(b"-") else {
        let most = !least;
        return Ok(line::number("value", word, most.cast_unsigned())?.cast_signed());
    };
    let below = Err(NumberFault::Below(word));
    match text_number::parse(digits) {
        Ok(far) => match 0i64.checked_sub_unsigned(far) {
            Some(z) if least <= z => Ok(z),
            _ => below,
        },
        Err(NumberError::TooLarge) => below,
        Err(NumberError::NotANumber) => Err(NumberFault::NoNumber(word)),
    }
}

// The number of a kind that a word is.
pub fn read(word: &[u8], kind: Scalar) -> Result<Number, NumberFault<'_>> {
    if word.is_empty() {
        return Err(NumberFault::Missing);
    }
    Ok(match kind.form() {
        Form::Boolean => Number::Unsigned(read_boolean(word)?),
        Form::Unsigned { most } => Number::Unsigned(line::number("value", word, most)?),
        Form::Signed { least } => Number::Signed(read_signed(word, least)?),
        Form::Float(precision) => {
            let bits = float::read(word, precision)?;
            Number::Float(Float { precision, bits })
        }
    })
}
