// The lines of the input: a label, a colon and bytes in hexadecimal.

ghost use Rattle.std.specs.Prelude.{◌≤◌};
ghost use Rattle.arrayvec.specs.ArrayVec.{array_vec_len};

use arrayvec::ArrayVec;
use std::array;

// The most bytes of a line.
pub const MOST: usize = 2048;

// The bytes of a line.
pub type Bytes = ArrayVec<u8, MOST>;

// What stands before the first of a mark, and what stands from it on: nothing where there is none.
pub fn split_at_mark(text: &[u8], mark: u8) -> (&[u8], &[u8]) {
    let place = text.iter().position(|b| *b == mark).unwrap_or(text.len());
    text.split_at(place)
}

// The number of a hexadecimal digit, of which the letters are capitals.
fn digit_of(b: u8) -> Option<u8> {
    match b {
        b'0'..=b'9' => Some(b - b'0'),
        b'A'..=b'F' => Some(b - b'A' + 10),
        _ => None,
    }
}

// The bytes of a line, of which those past the most are cut off. What is no digit is passed over between bytes, and counts as 0 within one.
// Put into the body of `run_line`, the loop takes more.
#[inline(never)]
pub fn decode(digits: &[u8], bytes: &mut Bytes)
    ensures { array_vec_len bytes.new ≤ 2048 }
{
    bytes.clear();
    let mut digits = digits.iter();
    while bytes.len() < MOST {
        let Some(high) = digits.find_map(|b| digit_of(*b)) else {
            break
        };
        let Some(low) = digits.next() else { break };
        bytes.push(high << 4 | digit_of(*low).unwrap_or(0));
    }
}

// What is left of a line's bytes. Zeros follow behind their end.
#[derive(Drop)]
pub struct Fields<'a>(pub &'a [u8]);

impl Fields<'_> {
    // The next byte.
    pub fn byte(&mut self) -> u8 {
        let Some((first, rest)) = self.0.split_first() else {
            return 0
        };
        self.0 = rest;
        *first
    }

    // The next N bytes.
    fn bytes<const N: usize>(&mut self) -> [u8; N] {
        let Some((first, rest)) = self.0.split_first_chunk() else {
            return array::from_fn(|_| self.byte())
        };
        self.0 = rest;
        *first
    }

    // The number of the next two bytes.
    pub fn two(&mut self) -> u16 {
        u16::from_be_bytes(self.bytes())
    }

    // The number of the next eight bytes.
    pub fn eight(&mut self) -> u64 {
        u64::from_be_bytes(self.bytes())
    }
}
