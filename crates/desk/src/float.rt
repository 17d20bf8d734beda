// Floats of two widths by their bits: read from a word, and shown.

use super::line;
use super::value_fault::NumberFault;
use std::fmt;
use text::decimal::{self, DecimalError, Shortest};
use text::{number as text_number, word};
use wire::number;

// How wide a float is: four bytes or eight.
#[derive(Clone, Copy, PartialEq, Eq)]
pub enum Precision {
    Single,
    Double,
}

impl Precision {
    // The bits of infinity; those of a NaN are higher.
    fn infinity(self) -> u64 {
        match self {
            Precision::Single => 0x7F80_0000,
            Precision::Double => 0x7FF0_0000_0000_0000,
        }
    }

    // The bits of the NaN that the word nan is.
    fn nan(self) -> u64 {
        match self {
            Precision::Single => 0x7FC0_0000,
            Precision::Double => 0x7FF8_0000_0000_0000,
        }
    }

    // The bit of the sign.
    fn sign(self) -> u64 {
        match self {
            Precision::Single => 0x8000_0000,
            Precision::Double => 0x8000_0000_0000_0000,
        }
    }

    // All bits.
    fn most(self) -> u64 {
        match self {
            Precision::Single => 0xFFFF_FFFF,
            Precision::Double => 0xFFFF_FFFF_FFFF_FFFF,
        }
    }
}

// A float.
#[derive(Clone, Copy)]
pub struct Float {
    pub precision: Precision,
    pub bits: u64,
}

// The value: of a NaN the bits alone tell more.
impl fmt::Display for Float {
    fn fmt<W: fmt::Write>(&self, f: &mut fmt::Formatter<W>) -> fmt::Result {
        let magnitude = self.bits & !self.precision.sign();
        if self.precision.infinity() < magnitude {
            return write!(f, "nan");
        }
        if magnitude != self.bits {
            write!(f, "-")?;
        }
        if magnitude == self.precision.infinity() {
            return write!(f, "inf");
        }
        match self.precision {
            Precision::Single => write!(f, "{}", Shortest(number::float32_of(low_half(magnitude)))),
            Precision::Double => write!(f, "{}", Shortest(number::float64_of(magnitude))),
        }
    }
}

// A float's bits as digits.
#[derive(Clone, Copy)]
pub struct Bits(pub Float);

impl fmt::Display for Bits {
    fn fmt<W: fmt::Write>(&self, f: &mut fmt::Formatter<W>) -> fmt::Result {
        let bits = self.0.bits;
        match self.0.precision {
            Precision::Single => write!(f, "0x{bits:08X}"),
            Precision::Double => write!(f, "0x{bits:016X}"),
        }
    }
}

// The four low bytes.
pub fn low_half(bits: u64) -> u32 {
    (bits & 0xFFFF_FFFF) as u32
}

// The bits that hexadecimal digits say.
fn read_bits(word: &[u8], precision: Precision) -> Result<u64, NumberFault<'_>> {
    Ok(line::number("float bits", word, precision.most())?)
}

// The bits of a decimal.
fn read_decimal(word: &[u8], precision: Precision) -> Result<u64, NumberFault<'_>> {
    let bits = match precision {
        Precision::Single => decimal::bits::<f32>(word),
        Precision::Double => decimal::bits::<f64>(word),
    };
    bits.map_err(|fault| match fault {
        DecimalError::NotADecimal => NumberFault::NoDecimal(word),
        DecimalError::TooFar => NumberFault::Far(word),
        DecimalError::TooLarge => NumberFault::Large(word),
    })
}

// The bits of a float without its sign, in words or as a decimal.
fn read_magnitude(word: &[u8], precision: Precision) -> Result<u64, NumberFault<'_>> {
    let words = [("inf", precision.infinity()), ("nan", precision.nan())];
    match word::named(&words, word) {
        Some(bits) => Ok(bits),
        None => read_decimal(word, precision),
    }
}

// The bits of a float: behind 0x, also behind a value and a colon; else those of a decimal, inf or nan, with a sign or without.
pub fn read(word: &[u8], precision: Precision) -> Result<u64, NumberFault<'_>> {
    if let Some(bits) = word.splitn(2, |b| *b == b':').nth(1) {
        return read_bits(bits, precision);
    }
    if text_number::is_hexadecimal(word) {
        return read_bits(word, precision);
    }
    match word.strip_prefix(b"-") {
        Some(magnitude) => Ok(read_magnitude(magnitude, precision)? | precision.sign()),
        None => read_magnitude(word, precision),
    }
}
