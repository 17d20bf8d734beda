// Bytes written as hexadecimal digits.

ghost use Rattle.std.specs.Prelude.{◌≤◌, IfOk, length};

use super::files::{Content, FileFault, ROOM};

// Whether a byte may stand between digits.
fn is_space(b: u8) -> bool {
    matches!(b, b' ' | b'\t' | b'\r' | b'\n')
}

// The number of a digit.
fn digit(b: u8) -> Result<u8, FileFault> {
    match char::from(b).to_digit(16) {
        Some(number) => Ok(number as u8),
        None => Err(FileFault::NoDigit),
    }
}

// The bytes of digits, fewer than 65,536, which take the digits' place. Two digits are a byte; white space may stand anywhere.
pub fn bytes_of(digits: &mut [u8]) -> Result<&[u8], FileFault>
    ensures { IfOk result (λ bytes. length bytes.now ≤ 65535) }
{
    let mut len = 0;
    let mut high = None;
    for i in 0..digits.len() {
        let b = digits[i];
        if !is_space(b) {
            let low = digit(b)?;
            // Asked here too: too many bytes are refused before a later byte that is no digit, and before an odd number of digits.
            if ROOM <= len {
                return Err(FileFault::Long(Content::Datagram));
            }
            match high.take() {
                Some(high) => {
                    digits[len] = high << 4 | low;
                    len += 1;
                }
                None => high = Some(low),
            }
        }
    }
    if high.is_some() {
        return Err(FileFault::OddDigits);
    }
    if ROOM <= len {
        return Err(FileFault::Long(Content::Datagram));
    }
    Ok(&digits[..len])
}
