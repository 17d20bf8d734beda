// Numbers as people write them: decimal, or hexadecimal behind 0x.

ghost use Rattle.std.specs.Prelude.{◌≡◌, ◌<◌, ◌≤◌, ◌^◌, ◌-◌, Err, IfSome, drop, is_some};
ghost use Rattle.std.specs.Str.Parse.{IsNumeral, ParsesUpTo, digits_value};
ghost use Rattle.text.specs.Number.{digits_of, is_prefixed, radix_of};

// Why a word is no number: it has something else than digits, or it is over 64 bits.
#[derive(Clone, Copy, Debug, PartialEq, Eq)]
pub enum NumberError {
    NotANumber,
    TooLarge,
}

// The number of digits, the first of them the highest. The first digit that is none, or too many, decides which error it is.
#[tactic(auto, using(crate::proofs::Digits::at_least))]
pub(crate) fn of_digits(digits: &[u8], radix: u32) -> Result<u64, NumberError>
    requires { (2 ≤ radix) × (radix ≤ 36) }
    ensures value { ParsesUpTo (2 ^ 64 - 1) radix digits.now result }
    ensures not_a_number { result ≡ Err NumberError.NotANumber → ¬ IsNumeral radix digits.now }
    ensures too_large { result ≡ Err NumberError.TooLarge → 2 ^ 64 ≤ digits_value radix digits.now }
{
    if digits.is_empty() {
        return Err(NumberError::NotANumber);
    }
    let mut number: u64 = 0;
    for digit in digits {
        let worth = char::from(*digit)
            .to_digit(radix)
            .ok_or(NumberError::NotANumber)?;
        let tens = number
            .checked_mul(u64::from(radix))
            .ok_or(NumberError::TooLarge)?;
        number = tens
            .checked_add(u64::from(worth))
            .ok_or(NumberError::TooLarge)?;
    }
    Ok(number)
}

// The digits of a hexadecimal number, behind its 0x.
fn behind_prefix(word: &[u8]) -> Option<&[u8]>
    ensures prefix { is_some result ≡ is_prefixed word.now }
    ensures digits { IfSome result (λ digits. digits.now ≡ drop 2 word.now) }
{
    match word {
        [b'0', mark, digits @ ..] if mark.eq_ignore_ascii_case(&b'x') => Some(digits),
        _ => None,
    }
}

// Whether a word begins as a hexadecimal number does.
pub fn is_hexadecimal(word: &[u8]) -> bool
    ensures { result ≡ is_prefixed word.now }
{
    behind_prefix(word).is_some()
}

// A number in either form.
pub fn parse(word: &[u8]) -> Result<u64, NumberError>
    ensures value { ParsesUpTo (2 ^ 64 - 1) (radix_of word.now) (digits_of word.now) result }
    ensures not_a_number { result ≡ Err NumberError.NotANumber → ¬ IsNumeral (radix_of word.now) (digits_of word.now) }
    ensures too_large { result ≡ Err NumberError.TooLarge → 2 ^ 64 ≤ digits_value (radix_of word.now) (digits_of word.now) }
{
    match behind_prefix(word) {
        Some(digits) => of_digits(digits, 16),
        None => of_digits(word, 10),
    }
}

// A number in either form, which may be at most so large.
pub fn parse_within(word: &[u8], most: u64) -> Result<u64, NumberError>
    ensures value { ParsesUpTo most (radix_of word.now) (digits_of word.now) result }
    ensures not_a_number { result ≡ Err NumberError.NotANumber → ¬ IsNumeral (radix_of word.now) (digits_of word.now) }
    ensures too_large { result ≡ Err NumberError.TooLarge → most < digits_value (radix_of word.now) (digits_of word.now) }
{
    let number = parse(word)?;
    if most < number {
        return Err(NumberError::TooLarge);
    }
    Ok(number)
}
