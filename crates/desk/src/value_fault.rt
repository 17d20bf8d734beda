// What can be wrong with a text of values.

use super::complaint::{Fault, quoted};
use super::line::WordFault;
use std::io;
use std::io::Write;

// What is wrong with a word that is to be a number of its row's kind.
#[derive(Clone, Copy)]
pub enum NumberFault<'a> {
    Word(WordFault<'a>),
    Missing,
    NoNumber(&'a [u8]),
    Below(&'a [u8]),
    Large(&'a [u8]),
    Far(&'a [u8]),
    NoDecimal(&'a [u8]),
}

impl Fault for NumberFault<'_> {
    fn write<W: Write>(&self, out: &mut W) -> io::Result<()> {
        match self {
            NumberFault::Word(fault) => fault.write(out),
            NumberFault::Missing => write!(out, "the value is missing"),
            NumberFault::NoNumber(word) => quoted(out, word, "is no number"),
            NumberFault::Below(word) => {
                quoted(out, word, "is below the least that the row's kind has")
            }
            NumberFault::Large(word) => quoted(out, word, "is too large for the row's kind"),
            NumberFault::Far(word) => quoted(
                out,
                word,
                "has more than 18 digits, or an exponent that no float has",
            ),
            NumberFault::NoDecimal(word) => quoted(
                out,
                word,
                "is no decimal, no bits behind 0x, and none of inf and nan",
            ),
        }
    }
}

// A number that is no float is read as any other number of a line.
impl<'a> From<WordFault<'a>> for NumberFault<'a> {
    fn from(fault: WordFault<'a>) -> NumberFault<'a> {
        NumberFault::Word(fault)
    }
}

// What is wrong with a row's value that is no number, or with more content than there is room for.
#[derive(Clone, Copy)]
pub enum ContentFault<'a> {
    NoText(&'a [u8]),
    Open(&'a [u8]),
    NoEscape(&'a [u8]),
    LongText(&'a [u8]),
    LongArray,
    NoStruct(&'a [u8]),
}

impl Fault for ContentFault<'_> {
    fn write<W: Write>(&self, out: &mut W) -> io::Result<()> {
        match self {
            ContentFault::NoText(word) => quoted(out, word, "is no text in quotation marks"),
            ContentFault::Open(word) => quoted(out, word, "lacks its last quotation mark"),
            ContentFault::NoEscape(word) => quoted(
                out,
                word,
                "has a backslash before none of \" \\ n r t and x with two hexadecimal digits",
            ),
            ContentFault::LongText(word) => {
                quoted(out, word, "is more text than there is room for")
            }
            ContentFault::LongArray => {
                write!(out, "the array is more content than there is room for")
            }
            ContentFault::NoStruct(word) => quoted(
                out,
                word,
                "is no value of a struct: it is present (or members) or absent",
            ),
        }
    }
}

// What is wrong with the place of a value or of a field: which row it is for, or whether it may stand there.
#[derive(Clone, Copy)]
pub enum TargetFault<'a> {
    Row0,
    NoName(&'a [u8]),
    Given(usize),
    NoField(&'a [u8]),
    Refused,
}

impl Fault for TargetFault<'_> {
    fn write<W: Write>(&self, out: &mut W) -> io::Result<()> {
        match self {
            TargetFault::Row0 => write!(out, "row 0: rows are counted from 1"),
            TargetFault::NoName(word) => {
                quoted(
                    out,
                    word,
                    "is the name of no row, and no field of the header",
                )
            }
            TargetFault::Given(line) => {
                write!(out, "the row's value stands in line {line} already")
            }
            TargetFault::NoField(word) => quoted(
                out,
                word,
                "is no field of the header: client, session or code",
            ),
            TargetFault::Refused => write!(out, "a refused datagram has no values"),
        }
    }
}

// What is wrong with a line of values.
#[derive(Clone, Copy)]
pub enum ValueFault<'a> {
    Word(WordFault<'a>),
    Number(NumberFault<'a>),
    Content(ContentFault<'a>),
    Target(TargetFault<'a>),
}

impl Fault for ValueFault<'_> {
    fn write<W: Write>(&self, out: &mut W) -> io::Result<()> {
        match self {
            ValueFault::Word(fault) => fault.write(out),
            ValueFault::Number(fault) => fault.write(out),
            ValueFault::Content(fault) => fault.write(out),
            ValueFault::Target(fault) => fault.write(out),
        }
    }
}

// A fault of a part of the line is one of the line.
impl<'a> From<WordFault<'a>> for ValueFault<'a> {
    fn from(fault: WordFault<'a>) -> ValueFault<'a> {
        ValueFault::Word(fault)
    }
}

impl<'a> From<NumberFault<'a>> for ValueFault<'a> {
    fn from(fault: NumberFault<'a>) -> ValueFault<'a> {
        ValueFault::Number(fault)
    }
}
