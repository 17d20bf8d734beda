// The lines of an input, read into a buffer that is lent for each.

ghost use Rattle.std.specs.Prelude.{◌≡◌, ◌-◌, ◌<◌, ◌≤◌, IfSome, length};

use std::io::{ErrorKind, Read};

// The most bytes of a line with its line feed. A longer one is cut, and ends the input.
pub const LINE_MOST: usize = 65536;

// An input, and between which places of its buffer bytes lie that have been read and are in no line yet.
#[derive(Drop)]
pub struct Lines<S> {
    source: S,
    from: usize,
    to: usize,
    ended: bool,
    ghost within: { (from ≤ to) × (to ≤ 65536) },
}

impl<S: Read> Lines<S> {
    // All lines of an input.
    pub fn new(source: S) -> Self {
        Lines {
            source,
            from: 0,
            to: 0,
            ended: false,
        }
    }

    // The next line without its line feed, in the buffer, which is the same for all. The last is one that no line feed ends, or the start
    // of one that is too long.
    pub fn next<'b>(&mut self, buf: &'b mut [u8; LINE_MOST]) -> Option<&'b [u8]> {
        if self.ended {
            return None;
        }
        let end = self.line_feed(&mut *buf);
        let from = self.from;
        if let Some(end) = end {
            self.from = end + 1;
            return Some(&buf[from..end]);
        }
        self.ended = true;
        if from == self.to {
            return None;
        }
        Some(&buf[from..self.to])
    }

    // Where the next line feed stands, read up to it; none where the input ends before. Each read but the last brings a byte or more, and
    // what it brings is searched once.
    fn line_feed(&mut self, buf: &mut [u8; LINE_MOST]) -> Option<usize>
        ensures { IfSome result (λ end. (self.new.from ≤ end) × (end < self.new.to)) }
    {
        let mut seen = self.from;
        for _ in 0..=LINE_MOST {
            let come = &buf[seen..self.to];
            if let Some(place) = come.iter().position(|b| *b == b'\n') {
                return Some(seen + place);
            }
            self.move_up(buf);
            seen = self.to;
            if !self.read_more(buf) {
                return None;
            }
        }
        None
    }

    // Moves what is in no line yet to the buffer's start.
    fn move_up(&mut self, buf: &mut [u8; LINE_MOST])
        ensures { self.new.from ≡ 0 }
    {
        if 0 < self.from {
            buf.copy_within(self.from..self.to, 0);
            self.to -= self.from;
            self.from = 0;
        }
    }

    // Reads once, behind what is there, and answers whether something came. The read is offered all the room that is left, since what keeps
    // borders, as a socket can, gives a read one piece and loses what doesn't fit.
    fn read_more(&mut self, buf: &mut [u8; LINE_MOST]) -> bool
        ensures from { self.new.from ≡ self.old.from }
        ensures to { self.old.to ≤ self.new.to }
    {
        let come = read_once(&mut self.source, &mut buf[self.to..]);
        self.to += come;
        0 < come
    }
}

// Reads once, and answers how many bytes came: none without room, at the input's end and where a read fails. One that a signal interrupts
// is tried again.
fn read_once<S: Read>(source: &mut S, buf: &mut [u8]) -> usize
    ensures { result ≤ length buf.new }
{
    if buf.is_empty() {
        return 0;
    }
    for _ in 0..u64::MAX {
        match source.read(buf) {
            Ok(come) => return come,
            Err(why) => {
                if why.kind() != ErrorKind::Interrupted {
                    return 0;
                }
            }
        }
    }
    0
}
