// Reads a type table with its expectation and the names of its rows from a text that a person writes. Each line is a setting or a row:
//
//     service N, method N, interface N, type WORD, width N tagged (or static)
//     LEVEL DATA-ID KIND required (or optional) NAME          with the element kind behind the kind array

use super::complaint::Complaint;
use super::line::{self, WordFault};
use super::row_line;
use super::setting::{self, Setting, SettingFault, Width};
use super::sheet::{NamedRow, ROWS_MOST, Sheet};
use super::table_fault::TableFault;
use arrayvec::ArrayVec;
use message::message_type::MessageType;
use message::read::Expected;
use payload::table;
use text::word::{self, Words};
use wire::id::{MethodId, ServiceId};

// A setting's value, and the line that sets it.
#[derive(Clone, Copy)]
struct Set<T> {
    value: T,
    line: usize,
}

// What the lines up to one have said.
#[derive(Drop)]
struct Draft {
    service: Option<Set<u16>>,
    method: Option<Set<u16>>,
    interface: Option<Set<u8>>,
    kind: Option<Set<MessageType>>,
    width: Option<Set<Width>>,
    rows: ArrayVec<NamedRow, ROWS_MOST>,
}

impl Draft {
    // Before the first line.
    fn new() -> Draft {
        Draft {
            service: None,
            method: None,
            interface: None,
            kind: None,
            width: None,
            rows: ArrayVec::new(),
        }
    }

    // The line of a setting.
    fn line_of(&self, setting: Setting) -> Option<usize> {
        match setting {
            Setting::Service => self.service.map(|set| set.line),
            Setting::Method => self.method.map(|set| set.line),
            Setting::Interface => self.interface.map(|set| set.line),
            Setting::Type => self.kind.map(|set| set.line),
            Setting::Width => self.width.map(|set| set.line),
        }
    }

    // Takes what stands behind a setting's word.
    fn set<'a>(
        &mut self,
        setting: Setting,
        line: usize,
        words: Words<'a>,
    ) -> Result<(), TableFault<'a>> {
        match setting {
            Setting::Service => self.service = Some(Set {
                value: two_bytes(setting, words)?,
                line,
            }),
            Setting::Method => self.method = Some(Set {
                value: two_bytes(setting, words)?,
                line,
            }),
            Setting::Interface => self.interface = Some(Set {
                value: one_byte(setting, words)?,
                line,
            }),
            Setting::Type => self.kind = Some(Set {
                value: setting::read_type(words)?,
                line,
            }),
            Setting::Width => self.width = Some(Set {
                value: setting::read_width(words)?,
                line,
            }),
        }
        Ok(())
    }

    // Takes a line whose first word is no number.
    fn read_setting<'a>(
        &mut self,
        line: usize,
        word: &'a [u8],
        words: Words<'a>,
    ) -> Result<(), TableFault<'a>> {
        let setting = Setting::of_word(word).ok_or(SettingFault::Unknown(word))?;
        match self.line_of(setting) {
            Some(before) => Err(TableFault::Twice(word, before)),
            None => self.set(setting, line, words),
        }
    }

    // Takes a line, which is a row's if it begins with a digit.
    fn read_line<'a>(&mut self, line: usize, words: Words<'a>) -> Result<(), TableFault<'a>> {
        let mut behind = words;
        match behind.next() {
            None => Ok(()),
            Some([b'0'..=b'9', ..]) => row_line::read(line, words, &mut self.rows),
            Some(word) => self.read_setting(line, word, behind),
        }
    }

    // What the lines say, where no setting is missing and the table keeps its rules.
    fn finish<'a>(self) -> Result<Sheet, TableFault<'a>> {
        checked(Sheet {
            expected: Expected {
                service: ServiceId(needed(self.service, Setting::Service)?),
                method: MethodId(needed(self.method, Setting::Method)?),
                interface: needed(self.interface, Setting::Interface)?,
                kind: needed(self.kind, Setting::Type)?,
            },
            width: needed(self.width, Setting::Width)?,
            rows: self.rows,
        })
    }
}

// A setting's number of two bytes, the last word of its line.
fn two_bytes<'a>(setting: Setting, words: Words<'a>) -> Result<u16, WordFault<'a>> {
    let word = line::last_word(words)?;
    Ok(line::number(setting.name(), word, 65535)? as u16)
}

// A setting's number of one byte, the last word of its line.
fn one_byte<'a>(setting: Setting, words: Words<'a>) -> Result<u8, WordFault<'a>> {
    let word = line::last_word(words)?;
    Ok(line::number(setting.name(), word, 255)? as u8)
}

// The value of a setting that a table needs.
fn needed<'a, T: Copy>(set: Option<Set<T>>, setting: Setting) -> Result<T, TableFault<'a>> {
    set.map(|set| set.value).ok_or(TableFault::Missing(setting))
}

// A sheet whose table keeps its rules. The last word is the library's.
fn checked<'a>(sheet: Sheet) -> Result<Sheet, TableFault<'a>> {
    if sheet.rows.is_empty() {
        return Err(TableFault::NoRows);
    }
    if !table::table_fits(sheet.table()) {
        return Err(TableFault::Unfit);
    }
    Ok(sheet)
}

// The lines of a text, up to the first that is wrong. A generic one for values too would need a closure, and be no shorter.
fn read_lines(text: &[u8]) -> Result<Draft, Complaint<TableFault<'_>>> {
    let mut draft = Draft::new();
    for (before, words) in text.split(|b| *b == b'\n').enumerate() {
        let line = before + 1;
        draft
            .read_line(line, Words::new(words))
            .map_err(|fault| Complaint::of_line(line, fault))?;
    }
    Ok(draft)
}

// The sheet of a table file's text.
pub fn read(text: &[u8]) -> Result<Sheet, Complaint<TableFault<'_>>> {
    read_lines(text)?
        .finish()
        .map_err(|fault| Complaint::of_file(fault))
}
