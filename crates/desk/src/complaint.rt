// Messages on standard error: the file, the line where there is one, and what is wrong.

use std::io;
use std::io::Write;
use text::quote;

// What is wrong, as a message says it. A message quotes words as they stand in a text, and those need not be UTF-8, so it is no Display.
pub trait Fault {
    // Writes what is wrong.
    fn write<W: Write>(&self, out: &mut W) -> io::Result<()>;
}

// What is wrong with a file, or with one of its lines, which are counted from 1.
#[derive(Drop)]
pub struct Complaint<F> {
    line: Option<usize>,
    fault: F,
}

impl<F: Fault> Complaint<F> {
    // About a file as a whole.
    pub fn of_file(fault: F) -> Complaint<F> {
        Complaint { line: None, fault }
    }

    // About a line.
    pub fn of_line(line: usize, fault: F) -> Complaint<F> {
        Complaint {
            line: Some(line),
            fault,
        }
    }

    // Writes the message, a line of its own.
    pub fn write<W: Write>(&self, out: &mut W, path: &[u8]) -> io::Result<()> {
        out.write_all(path)?;
        if let Some(line) = self.line {
            write!(out, ":{line}")?;
        }
        out.write_all(b": ")?;
        self.fault.write(out)?;
        out.write_all(b"\n")
    }
}

// Writes a word in quotation marks, and what is wrong with it.
pub fn quoted<W: Write>(out: &mut W, word: &[u8], what: &str) -> io::Result<()> {
    quote::write(out, word)?;
    write!(out, " {what}")
}
