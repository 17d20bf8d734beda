// What can be wrong with a row's line.

use super::complaint::{Fault, quoted};
use std::io;
use std::io::Write;

// What is wrong with the words between the Data ID and the name.
#[derive(Clone, Copy)]
pub enum KindFault<'a> {
    NoKind(&'a [u8]),
    NoElement(&'a [u8]),
    OnlyArray(&'a [u8]),
    NoMark(&'a [u8]),
}

impl Fault for KindFault<'_> {
    fn write<W: Write>(&self, out: &mut W) -> io::Result<()> {
        match self {
            KindFault::NoKind(word) => quoted(
                out,
                word,
                "is no kind: boolean, uint8 to uint64, sint8 to sint64, float32, float64, string, array or struct",
            ),
            KindFault::NoElement(word) => quoted(
                out,
                word,
                "is no element kind: behind array stands one of boolean to float64",
            ),
            KindFault::OnlyArray(word) => quoted(
                out,
                word,
                "stands behind no array: only an array has an element kind",
            ),
            KindFault::NoMark(word) => quoted(out, word, "is neither required nor optional"),
        }
    }
}

// What is wrong with a name.
#[derive(Clone, Copy)]
pub enum NameFault<'a> {
    Missing,
    Long(&'a [u8]),
    Odd(&'a [u8]),
    Taken(&'a [u8]),
}

impl Fault for NameFault<'_> {
    fn write<W: Write>(&self, out: &mut W) -> io::Result<()> {
        match self {
            NameFault::Missing => write!(
                out,
                "the row's name is missing: LEVEL DATA-ID KIND required (or optional) NAME"
            ),
            NameFault::Long(word) => {
                quoted(out, word, "is too long: a name has at most 32 characters")
            }
            NameFault::Odd(word) => quoted(
                out,
                word,
                "is no name: it begins with a letter and has letters, digits, _ - and . only",
            ),
            NameFault::Taken(word) => {
                quoted(out, word, "is a word that lines of values use, and no name")
            }
        }
    }
}

// Why a row can't stand behind the rows before it.
#[derive(Clone, Copy)]
pub enum PlaceFault {
    Level0,
    FirstLevel(u8),
    LevelAfter { level: u8, before: u8 },
    StructLevel,
    IdentTwice { ident: u16, line: usize },
    ManyRows,
}

impl Fault for PlaceFault {
    fn write<W: Write>(&self, out: &mut W) -> io::Result<()> {
        match self {
            PlaceFault::Level0 => write!(out, "level 0: a level is 1 to 4"),
            PlaceFault::FirstLevel(level) => {
                write!(out, "level {level} of the first row: it has to be 1")
            }
            PlaceFault::LevelAfter { level, before } => write!(
                out,
                "level {level} after level {before} is wrong: \
                 a level is at most the one before it, or one more than a struct's"
            ),
            PlaceFault::StructLevel => {
                write!(out, "a struct at level 4: a struct stands at level 1 to 3")
            }
            PlaceFault::IdentTwice { ident, line } => write!(
                out,
                "Data ID {ident} stands in line {line} already: \
                 it differs among the members of one struct, and among the rows of level 1"
            ),
            PlaceFault::ManyRows => write!(out, "a row too many: a table has 1 to 64"),
        }
    }
}
