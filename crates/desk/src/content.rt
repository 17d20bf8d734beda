// The texts and arrays of all rows, one behind the other.

ghost use Rattle.std.specs.Prelude.{◌≤◌};

use payload::row::{Row, Value};
use text::quote::{self, QuoteError};

// The most bytes of content.
const CONTENT_MOST: usize = 65536;

// The content so far, at the start of an array. No ArrayVec: a quotation's text goes into what is left of the array.
#[derive(Drop)]
pub struct Content {
    bytes: [u8; CONTENT_MOST],
    len: usize,
    ghost within: { len ≤ 65536 },
}

impl Content {
    // Before the first value.
    pub fn new() -> Content {
        Content {
            bytes: [0; CONTENT_MOST],
            len: 0,
        }
    }

    pub fn as_bytes(&self) -> &[u8] {
        &self.bytes[..self.len]
    }

    // How many bytes there are.
    pub fn len(&self) -> usize {
        self.len
    }

    // The row of the content from a place on.
    pub fn run(&self, place: usize) -> Row {
        Row::plain(Value::Bytes {
            place,
            len: self.len.saturating_sub(place),
        })
    }

    // Puts the text of a quotation behind the content.
    pub fn push_text(&mut self, quotation: &[u8]) -> Result<(), QuoteError> {
        let text = quote::read(quotation, &mut self.bytes[self.len..])?;
        self.len += text.len();
        Ok(())
    }

    // Puts bytes behind the content, where they have room.
    pub fn push(&mut self, bytes: &[u8]) -> Option<()> {
        let room = self.bytes[self.len..].get_mut(..bytes.len())?;
        room.copy_from_slice(bytes);
        self.len += bytes.len();
        Some(())
    }
}
