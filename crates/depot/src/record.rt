// The records of a file one after the other, each as its length says, whether or not it is one of a message.

ghost use Rattle.std.specs.Prelude.{◌≡◌, ◌+◌, ◌-◌, ◌<◌, ◌≤◌, IfSome};
ghost use Rattle.std.specs.Iterator.{at_most};

use super::layout;

// A record: its number from 1, where it starts, the length that stands there, where it ends by that, and the message, which is empty where
// the file ends before.
#[derive(Clone, Copy)]
pub struct Record<'a> {
    pub number: usize,
    pub at: usize,
    pub len: usize,
    pub end: usize,
    pub message: &'a [u8],
    ghost counted: { (1 ≤ number) × (number ≤ at + 1) },
    ghost placed: { at < 4294967296 },
    ghost behind: { (at < end) × (end < 4295032834) },
}

impl<'a> Record<'a> {
    ghost use Rattle.depot.specs.Record.{IsRecordOf};

    // The record that stands at a place, as the n-th.
    fn read(file: &'a [u8], number: usize, at: usize) -> Record<'a>
        requires { (at < 4294967296) × (1 ≤ number) × (number ≤ at + 1) }
        ensures record { IsRecordOf file.now result }
        ensures place { result.at ≡ at }
    {
        Record {
            number,
            at,
            len: layout::two_at(file, at),
            end: layout::record_end(file, at),
            message: layout::message_at(file, at),
        }
    }
}

// The records before a place that has at most 32 bits, up to one that reaches past it.
#[derive(Drop)]
pub struct Records<'a> {
    file: &'a [u8],
    end: usize,
    at: usize,
    number: usize,
    ghost narrow: { end < 4294967296 },
    ghost near: { at < 4295032834 },
    ghost counted: { (1 ≤ number) × (number ≤ at + 1) },
}

impl<'a> Records<'a> {
    // Those before a place. For this program's own walks: a trailer's offset has 32 bits.
    pub fn before(file: &'a [u8], end: usize) -> Records<'a>
        requires { end < 4294967296 }
    {
        Records {
            file,
            end,
            at: 0,
            number: 1,
        }
    }
}

impl<'a> Iterator for Records<'a> {
    type Item = Record<'a>;

    ghost use Rattle.depot.specs.Record.{IsRecordOf};

    ghost next_gives = { λ s r t. IfSome r (IsRecordOf s.file.now) };

    ghost remaining = { λ s. at_most (s.end - s.at) };

    fn next(&mut self) -> Option<Record<'a>> {
        if self.end <= self.at {
            return None;
        }
        let record = Record::read(self.file, self.number, self.at);
        self.at = record.end;
        self.number += 1;
        Some(record)
    }
}
