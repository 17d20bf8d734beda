// Why a file or a message is refused, in words. The library's verdict decides; its reason says what is first wrong, where that was found.

use archive::verdict::Verdict;
use std::fmt;

// Why bytes are no message: they are over the most, or have no room for a header, or their Length is another than their size asks for.
#[derive(Clone, Copy)]
pub enum MessageFault {
    Long,
    Short {
        size: usize,
    },
    Length {
        size: usize,
        told: usize,
        due: usize,
    },
}

impl fmt::Display for MessageFault {
    fn fmt<W: fmt::Write>(&self, f: &mut fmt::Formatter<W>) -> fmt::Result {
        match *self {
            MessageFault::Long => f.write_str("size over 65535"),
            MessageFault::Short { size } => write!(f, "size {size} is not 16 to 65535"),
            MessageFault::Length { size, told, due } => {
                write!(f, "size {size} and Length {told}, which is not {due}")
            }
        }
    }
}

// What is wrong with a file's size or its trailer.
#[derive(Clone, Copy)]
pub enum TrailerFault {
    Short {
        size: usize,
    },
    Long,
    Form {
        form: usize,
    },
    Index {
        offset: usize,
        entries: usize,
        end: usize,
        start: usize,
    },
}

impl fmt::Display for TrailerFault {
    fn fmt<W: fmt::Write>(&self, f: &mut fmt::Formatter<W>) -> fmt::Result {
        match *self {
            TrailerFault::Short { size } => write!(
                f,
                "the file has {size} of the trailer's 8 bytes"
            ),
            TrailerFault::Long => f.write_str(
                "the file has over 65535 bytes, the most of an archive",
            ),
            TrailerFault::Form { form } => write!(f, "form number {form} is not 1"),
            TrailerFault::Index {
                offset,
                entries,
                end,
                start,
            } => write!(
                f,
                "index offset {offset} and number of entries {entries} put the index's end at {end}, past the trailer's start at {start}"
            ),
        }
    }
}

// What is wrong with a record: its length is cut off or reaches past the records' end, or its bytes are no message.
#[derive(Clone, Copy)]
pub enum RecordFault {
    Cut { end: usize },
    Past { len: usize, end: usize },
    Message(MessageFault),
}

impl fmt::Display for RecordFault {
    fn fmt<W: fmt::Write>(&self, f: &mut fmt::Formatter<W>) -> fmt::Result {
        match *self {
            RecordFault::Cut { end } => write!(
                f,
                ": its two bytes of length reach past the records' end at {end}"
            ),
            RecordFault::Past { len, end } => write!(
                f,
                ": its length {len} reaches past the records' end at {end}"
            ),
            RecordFault::Message(fault) => write!(f, " is no message: {fault}"),
        }
    }
}

// What is wrong with a file's records, or with its index.
#[derive(Clone, Copy)]
pub enum RecordsFault {
    Record {
        number: usize,
        at: usize,
        fault: RecordFault,
    },
    Count {
        told: usize,
        found: usize,
    },
    Cover {
        end: usize,
        start: usize,
    },
    Offset {
        number: usize,
        told: usize,
        found: usize,
    },
    Session {
        number: usize,
        told: usize,
        found: usize,
    },
}

impl fmt::Display for RecordsFault {
    fn fmt<W: fmt::Write>(&self, f: &mut fmt::Formatter<W>) -> fmt::Result {
        match *self {
            RecordsFault::Record { number, at, fault } => write!(
                f,
                "record {number} at offset {at}{fault}"
            ),
            RecordsFault::Count { told, found } => {
                write!(
                    f,
                    "the trailer's number of entries is {told}, and that of the records {found}"
                )
            }
            RecordsFault::Cover { end, start } => {
                write!(
                    f,
                    "the index ends at {end}, and the trailer starts at {start}"
                )
            }
            RecordsFault::Offset {
                number,
                told,
                found,
            } => {
                write!(
                    f,
                    "entry {number} says offset {told}, and its record is at {found}"
                )
            }
            RecordsFault::Session {
                number,
                told,
                found,
            } => {
                write!(
                    f,
                    "entry {number} says session {told}, and its record has {found}"
                )
            }
        }
    }
}

// What a message was looked for by.
#[derive(Clone, Copy)]
pub enum Asked {
    Number(u64),
    Session(u16),
}

impl fmt::Display for Asked {
    fn fmt<W: fmt::Write>(&self, f: &mut fmt::Formatter<W>) -> fmt::Result {
        match *self {
            Asked::Number(number) => write!(f, "no message {number}"),
            Asked::Session(session) => write!(f, "no message with session {session}"),
        }
    }
}

// What was first found wrong.
#[derive(Clone, Copy)]
pub enum Reason {
    Room { needed: usize },
    Trailer(TrailerFault),
    Records(RecordsFault),
    Message(MessageFault),
    Missing { asked: Asked, among: usize },
    Unclosed,
}

impl fmt::Display for Reason {
    fn fmt<W: fmt::Write>(&self, f: &mut fmt::Formatter<W>) -> fmt::Result {
        match *self {
            Reason::Room { needed } => {
                write!(
                    f,
                    "the archive would need {needed} bytes with it, and 65535 is the most"
                )
            }
            Reason::Trailer(fault) => write!(f, "{fault}"),
            Reason::Records(fault) => write!(f, "{fault}"),
            Reason::Message(fault) => write!(f, "{fault}"),
            Reason::Missing { asked, among } => write!(f, "{asked} among {among}"),
            Reason::Unclosed => f.write_str("the archive cannot be closed"),
        }
    }
}

// A verdict that is no acceptance, and what was found wrong.
#[derive(Clone, Copy)]
pub struct Refusal {
    pub verdict: Verdict,
    pub reason: Option<Reason>,
}

// The word of a verdict.
fn word(verdict: Verdict) -> &'static str {
    match verdict {
        Verdict::Accepted => "accepted",
        Verdict::Full => "full",
        Verdict::Trailer => "trailer",
        Verdict::Records => "records",
        Verdict::NoMessage => "no message",
        Verdict::NoRecord => "no record",
    }
}

impl fmt::Display for Refusal {
    fn fmt<W: fmt::Write>(&self, f: &mut fmt::Formatter<W>) -> fmt::Result {
        let number = self.verdict.number();
        let word = word(self.verdict);
        write!(f, "verdict {number} {word}: ")?;
        match self.reason {
            Some(reason) => write!(f, "{reason}"),
            None => Ok(()),
        }
    }
}
