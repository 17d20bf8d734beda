// What went wrong, and with what. All of it is written here, and goes to standard error.

use super::reason::Refusal;
use std::io::Write;
use std::{fmt, io};
use text::failure::Reason;
use text::quote;

// What is wrong with a file: the library's refusal, what the system says, a file in the way of a new one, or a name that none is added to.
#[derive(Drop)]
pub enum Fault {
    Refused(Refusal),
    System(io::Error),
    Taken,
    NoName,
}

impl fmt::Display for Fault {
    fn fmt<W: fmt::Write>(&self, f: &mut fmt::Formatter<W>) -> fmt::Result {
        match self {
            Fault::Refused(refusal) => write!(f, "{refusal}"),
            Fault::System(why) => write!(f, "{}", Reason(why)),
            Fault::Taken => f.write_str(
                "another add is at work, or one was cut off and left this file, which can be removed then",
            ),
            Fault::NoName => f.write_str(
                "an archive to add to is a file by its name, of at most 4091 bytes",
            ),
        }
    }
}

impl From<Refusal> for Fault {
    fn from(refusal: Refusal) -> Fault {
        Fault::Refused(refusal)
    }
}

impl From<io::Error> for Fault {
    fn from(why: io::Error) -> Fault {
        Fault::System(why)
    }
}

// What went wrong.
#[derive(Drop)]
pub enum Complaint<'a> {
    Usage,
    LongArgument { index: usize },
    NoNumber { word: &'a [u8] },
    Over { word: &'a [u8], most: u64 },
    File { name: &'a [u8], fault: Fault },
    Output,
}

// An error turned into a complaint about a file.
pub trait Of<T> {
    fn of(self, name: &[u8]) -> Result<T, Complaint<'_>>;
}

impl<T, E: Into<Fault>> Of<T> for Result<T, E> {
    fn of(self, name: &[u8]) -> Result<T, Complaint<'_>> {
        match self {
            Ok(value) => Ok(value),
            Err(why) => Err(Complaint::File {
                name,
                fault: why.into(),
            }),
        }
    }
}

impl Complaint<'_> {
    // Says it. Where that can't be written either, nothing is left to tell it by.
    pub fn say(&self, err: &mut impl Write) {
        let _ = self.write(err);
    }

    // Its line. A name or a word need not be text, so it has no Display: a name's bytes are written as they are.
    fn write(&self, out: &mut impl Write) -> io::Result<()> {
        match self {
            Complaint::Usage => writeln!(
                out,
                "usage: depot list ARCHIVE, verify ARCHIVE..., take ARCHIVE N, find ARCHIVE SESSION, add ARCHIVE FILE..."
            ),
            Complaint::LongArgument { index } => writeln!(
                out,
                "argument {index} is over 4096 bytes"
            ),
            Complaint::NoNumber { word } => {
                quote::write(out, word)?;
                writeln!(out, " is no number")
            }
            Complaint::Over { word, most } => {
                quote::write(out, word)?;
                writeln!(out, " is over {most}")
            }
            Complaint::File { name, fault } => {
                out.write_all(name)?;
                writeln!(out, ": {fault}")
            }
            Complaint::Output => writeln!(out, "standard output cannot be written"),
        }
    }
}

// That something went wrong, which has been said.
#[derive(Clone, Copy)]
pub struct Said;

// What came of something; where it went wrong, that is said.
pub fn or_say<T>(came: Result<T, Complaint<'_>>, err: &mut impl Write) -> Result<T, Said> {
    match came {
        Ok(value) => Ok(value),
        Err(complaint) => {
            complaint.say(err);
            Err(Said)
        }
    }
}
