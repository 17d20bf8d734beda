// What can be wrong with a table file.

use super::complaint::{Fault, quoted};
use super::line::WordFault;
use super::row_fault::{KindFault, NameFault, PlaceFault};
use super::setting::{Setting, SettingFault};
use std::io;
use std::io::Write;

// What is wrong with a line: a fault of its own, or a word that stands in an earlier line already; or with the table as a whole.
#[derive(Clone, Copy)]
pub enum TableFault<'a> {
    Word(WordFault<'a>),
    Setting(SettingFault<'a>),
    Kind(KindFault<'a>),
    Name(NameFault<'a>),
    Place(PlaceFault),
    Twice(&'a [u8], usize),
    Missing(Setting),
    NoRows,
    Unfit,
}

// The words of the part's fault, or of the table's own.
impl Fault for TableFault<'_> {
    fn write<W: Write>(&self, out: &mut W) -> io::Result<()> {
        match self {
            TableFault::Word(fault) => fault.write(out),
            TableFault::Setting(fault) => fault.write(out),
            TableFault::Kind(fault) => fault.write(out),
            TableFault::Name(fault) => fault.write(out),
            TableFault::Place(fault) => fault.write(out),
            TableFault::Twice(word, line) => {
                quoted(out, word, "stands in line")?;
                write!(out, " {line} already")
            },
            TableFault::Missing(setting) => {
                write!(out, "the table lacks a setting: {}", setting.name())
            }
            TableFault::NoRows => write!(out, "the table has no row, and it needs 1 to 64"),
            TableFault::Unfit => {
                write!(
                    out,
                    "the table breaks a rule that no line was found to break"
                )
            }
        }
    }
}

// A fault of a part of the line is one of the line.
impl<'a> From<WordFault<'a>> for TableFault<'a> {
    fn from(fault: WordFault<'a>) -> TableFault<'a> {
        TableFault::Word(fault)
    }
}

impl<'a> From<SettingFault<'a>> for TableFault<'a> {
    fn from(fault: SettingFault<'a>) -> TableFault<'a> {
        TableFault::Setting(fault)
    }
}

impl<'a> From<KindFault<'a>> for TableFault<'a> {
    fn from(fault: KindFault<'a>) -> TableFault<'a> {
        TableFault::Kind(fault)
    }
}

impl<'a> From<NameFault<'a>> for TableFault<'a> {
    fn from(fault: NameFault<'a>) -> TableFault<'a> {
        TableFault::Name(fault)
    }
}

impl From<PlaceFault> for TableFault<'_> {
    fn from(fault: PlaceFault) -> Self {
        TableFault::Place(fault)
    }
}
