// Floats from 0 on as decimals: digits with a point, and an exponent behind e.

ghost use Rattle.std.specs.Prelude.{◌≡◌, ℕ, IfOk, IfSome, to_bits};
ghost use Rattle.std.specs.Float.{binary32, binary64};
ghost use Rattle.text.specs.Decimal.{IsBitsOfRead, decimal_error_of};

use super::number;
use super::number::NumberError;
use arrayvec::ArrayString;
use std::fmt::Write;
use std::num::ParseFloatError;
use std::str::FromStr;
use std::{fmt, str};

// The most digits that a decimal may have, but for zeros in front.
const MOST_DIGITS: usize = 18;

// The most that an exponent may be, and how far the last digit may stand behind the point: no float is as small as a digit there.
const MOST_EXPONENT: u64 = 1000;

const LEAST_POWER: i64 = -1000;

// How many digits may stand before the point, zeros among them: no float has more.
const MOST_BEFORE: i64 = 309;

// The float32 and the float64, which holds each of the other.
pub trait Float: Copy + PartialEq + FromStr<Err = ParseFloatError> + Into<f64> {
    // Whether a number has the bits of a float.
    ghost has_bits: { Self → ℕ → Type 0 };

    // The bits as a number, but of infinity and a NaN.
    fn finite_bits(self) -> Option<u64>
        ensures { IfSome result (has_bits self) };
}

impl Float for f32 {
    ghost has_bits = { λ x n. n ≡ to_bits binary32 x };

    fn finite_bits(self) -> Option<u64> {
        self.is_finite().then(|| u64::from(self.to_bits()))
    }
}

impl Float for f64 {
    ghost has_bits = { λ x n. n ≡ to_bits binary64 x };

    fn finite_bits(self) -> Option<u64> {
        self.is_finite().then(|| self.to_bits())
    }
}

// Why a word is no float's decimal: it is none; it has more than 18 digits or an exponent that no float has; or it is too large for the
// float.
#[derive(Clone, Copy, Debug, PartialEq, Eq)]
pub enum DecimalError {
    NotADecimal,
    TooFar,
    TooLarge,
}

impl From<NumberError> for DecimalError {
    ghost from_gives = { λ why error. error ≡ decimal_error_of why };

    fn from(why: NumberError) -> DecimalError {
        match why {
            NumberError::NotANumber => DecimalError::NotADecimal,
            NumberError::TooLarge => DecimalError::TooFar,
        }
    }
}

// How many digits stand before an exponent, without zeros in front, and how many of them behind the point.
fn digits_of(text: &[u8]) -> Result<(usize, usize), DecimalError> {
    let points = text.iter().filter(|b| **b == b'.').count();
    let digits = text
        .iter()
        .filter(|b| **b != b'.')
        .skip_while(|b| **b == b'0')
        .count();
    if MOST_DIGITS < digits {
        return Err(DecimalError::TooFar);
    }
    if 1 < points || text.len() == points {
        return Err(DecimalError::NotADecimal);
    }
    let behind = text
        .split(|b| *b == b'.')
        .nth(1)
        .map_or(0, |behind| behind.len());
    Ok((digits, behind))
}

// The exponent that stands behind the digits.
fn exponent_of(text: &[u8]) -> Result<i64, DecimalError> {
    let (is_negative, digits) = match text {
        [] => return Ok(0),
        [b'e' | b'E', b'-', digits @ ..] => (true, digits),
        [b'e' | b'E', b'+', digits @ ..] | [b'e' | b'E', digits @ ..] => (false, digits),
        _ => return Err(DecimalError::NotADecimal),
    };
    let exponent = number::of_digits(digits, 10)?;
    if MOST_EXPONENT < exponent {
        return Err(DecimalError::TooFar);
    }
    let exponent = exponent as i64;
    Ok(if is_negative { -exponent } else { exponent })
}

// Whether a float can be as large and as small as digits, the last of which stands at a power of 10.
fn is_near(digits: usize, power: i64) -> bool {
    digits == 0
        || (LEAST_POWER <= power && power.saturating_add_unsigned(digits as u64) <= MOST_BEFORE)
}

// The bits of the float nearest to a decimal without a sign, half to even.
pub fn bits<F: Float>(word: &[u8]) -> Result<u64, DecimalError>
    ensures { IfOk result (IsBitsOfRead F.FromStr.from_str_gives F.has_bits word.now) }
{
    let end = word
        .iter()
        .position(|b| !b.is_ascii_digit() && *b != b'.')
        .unwrap_or(word.len());
    let (text, behind) = word.split_at(end);
    let (digits, places) = digits_of(text)?;
    let power = exponent_of(behind)?.saturating_sub_unsigned(places as u64);
    if !is_near(digits, power) {
        return Err(DecimalError::TooFar);
    }
    let text = str::from_utf8(word).map_err(|_| DecimalError::NotADecimal)?;
    let float = text.parse::<F>().map_err(|_| DecimalError::NotADecimal)?;
    // Written so that `half_the_bits` has a number to halve.
    Ok(float.finite_bits().ok_or(DecimalError::TooLarge)?)
}

// A finite float from 0 on, printed by the fewest digits that are read back as the same float: plain from 0.00001 up to 17 digits before
// the point, with an exponent else.
#[derive(Clone, Copy)]
pub struct Shortest<F>(pub F);

// The longest float in digits, a point and an exponent: 17 digits and an exponent of 3.
const ROOM: usize = 32;

// A float's digits, the first before a point, and its exponent; so many digits stand behind the point.
fn exponential(float: f64, places: usize) -> Result<ArrayString<ROOM>, fmt::Error> {
    let mut text = ArrayString::new();
    write!(text, "{float:.places$e}")?;
    Ok(text)
}

// The fewest digits that are read back as the same float. 9 digits, or 17 of a float64, always are.
fn fewest_digits<F: Float>(float: F) -> Result<ArrayString<ROOM>, fmt::Error> {
    for places in 0..16 {
        let text = exponential(float.into(), places)?;
        if text.as_str().parse::<F>().is_ok_and(|back| back == float) {
            return Ok(text);
        }
    }
    exponential(float.into(), 16)
}

impl<F: Float> fmt::Display for Shortest<F> {
    fn fmt<W: fmt::Write>(&self, f: &mut fmt::Formatter<W>) -> fmt::Result {
        let text = fewest_digits(self.0)?;
        let (digits, exponent) = text.as_str().split_once('e').ok_or(fmt::Error)?;
        let (first, others) = digits.split_once('.').unwrap_or((digits, ""));
        match exponent.parse::<i32>().map_err(|_| fmt::Error)? {
            power @ -5..=-1 => {
                let places = power.unsigned_abs() as usize;
                write!(f, "0.{first:0>places$}{others}")
            }
            power @ 0..=16 => write_plain(f, first, others, power as usize),
            power => write!(f, "{digits}e{power:+}"),
        }
    }
}

// The first digit and others, so many of them before the point.
fn write_plain<W: fmt::Write>(
    f: &mut fmt::Formatter<W>,
    first: &str,
    others: &str,
    places: usize,
) -> fmt::Result {
    match others.split_at_checked(places) {
        Some((before, behind)) if !behind.is_empty() => write!(f, "{first}{before}.{behind}"),
        _ => write!(f, "{first}{others:0<places$}"),
    }
}
