// The settings of a table file, each a line of its own.

use super::complaint::{Fault, quoted};
use super::line;
use super::table_fault::TableFault;
use message::message_type::MessageType;
use std::io;
use std::io::Write;
use text::word::{self, Words};

// What a line can set.
#[derive(Clone, Copy, PartialEq, Eq)]
pub enum Setting {
    Service,
    Method,
    Interface,
    Type,
    Width,
}

impl Setting {
    // Every setting.
    const ALL: [Setting; 5] = [
        Setting::Service,
        Setting::Method,
        Setting::Interface,
        Setting::Type,
        Setting::Width,
    ];

    // The setting that a word names, its letters in either case.
    pub fn of_word(word: &[u8]) -> Option<Setting> {
        word::named(&Setting::ALL.map(|setting| (setting.name(), setting)), word)
    }

    // The setting's name.
    pub fn name(self) -> &'static str {
        match self {
            Setting::Service => "service",
            Setting::Method => "method",
            Setting::Interface => "interface",
            Setting::Type => "type",
            Setting::Width => "width",
        }
    }
}

// How long length fields are, and whether the writer uses the static wire type 4 or tells that in the tag.
#[derive(Clone, Copy)]
pub struct Width {
    pub bytes: usize,
    pub fixed: bool,
}

// What is wrong with a setting.
#[derive(Clone, Copy)]
pub enum SettingFault<'a> {
    Unknown(&'a [u8]),
    NoType(&'a [u8]),
    NoMark(&'a [u8]),
    NoWidth(u64),
}

impl Fault for SettingFault<'_> {
    fn write<W: Write>(&self, out: &mut W) -> io::Result<()> {
        match self {
            SettingFault::Unknown(word) => quoted(
                out,
                word,
                "is no setting (service, method, interface, type, width), and a row begins with its level",
            ),
            SettingFault::NoType(word) => quoted(
                out,
                word,
                "is none of request, request_no_return, notification, response, error",
            ),
            SettingFault::NoMark(word) => quoted(
                out,
                word,
                "is neither tagged nor static, one of which stands behind the width",
            ),
            SettingFault::NoWidth(bytes) => {
                write!(
                    out,
                    "width {bytes} is wrong: a length field has 1, 2 or 4 bytes"
                )
            }
        }
    }
}

// The Message Types' names.
const TYPES: [(&str, MessageType); 5] = [
    ("request", MessageType::REQUEST),
    ("request_no_return", MessageType::REQUEST_NO_RETURN),
    ("notification", MessageType::NOTIFICATION),
    ("response", MessageType::RESPONSE),
    ("error", MessageType::ERROR),
];

// The Message Type that the last word of a line names.
pub fn read_type<'a>(words: Words<'a>) -> Result<MessageType, TableFault<'a>> {
    let word = line::last_word(words)?;
    Ok(word::named(&TYPES, word).ok_or(SettingFault::NoType(word))?)
}

// Whether the width is told in the tag, by the word behind it.
fn is_fixed(word: &[u8]) -> Result<bool, SettingFault<'_>> {
    let marks = [("tagged", false), ("static", true)];
    word::named(&marks, word).ok_or(SettingFault::NoMark(word))
}

// The width of length fields, by the two words behind it.
pub fn read_width<'a>(mut words: Words<'a>) -> Result<Width, TableFault<'a>> {
    let bytes = line::next_word(&mut words);
    let mark = line::last_word(words)?;
    let fixed = is_fixed(mark)?;
    match line::number("width", bytes, 4)? {
        1 => Ok(Width { bytes: 1, fixed }),
        2 => Ok(Width { bytes: 2, fixed }),
        4 => Ok(Width { bytes: 4, fixed }),
        other => Err(TableFault::Setting(SettingFault::NoWidth(other))),
    }
}
