// Values as text, one row to a line, by the row's name or number:
//
//     temperature -125      place present      depot 2900      note "Frost"      readings 1 2 3
//     client 1 session 5 code 0
//
// A line of show is one too: the row's number and Data ID may stand before the name, and the words that show puts before a value.
// Rows without a line are absent.

use super::complaint::Complaint;
use super::content::Content;
use super::sheet::{NamedRow, ROWS_MOST, Sheet};
use super::value_fault::{TargetFault, ValueFault};
use super::{line, value};
use payload::row::Row;
use text::number as text_number;
use text::word::{self, Words};

// A row's value, and the line that gives it.
#[derive(Clone, Copy)]
struct Given {
    line: usize,
    row: Row,
}

// What the lines up to one have said: the header's three fields, the value of each row that has one, and their content.
#[derive(Drop)]
pub struct Values {
    pub client: u16,
    pub session: u16,
    pub code: u8,
    given: [Option<Given>; ROWS_MOST],
    pub content: Content,
}

// What a line is for by its first word, where that names no row.
#[derive(Clone, Copy)]
enum LineKind {
    Verdict,
    Header,
}

const LINE_KINDS: [(&str, LineKind); 4] = [
    ("verdict", LineKind::Verdict),
    ("client", LineKind::Header),
    ("session", LineKind::Header),
    ("code", LineKind::Header),
];

// A field of the header's line. What show tells of the bytes after the message has no part in a datagram that is made.
#[derive(Clone, Copy)]
enum Field {
    Client,
    Session,
    Code,
    After,
}

const FIELDS: [(&str, Field); 4] = [
    ("client", Field::Client),
    ("session", Field::Session),
    ("code", Field::Code),
    ("after", Field::After),
];

// The row that a line is for, whose first word is its name, and the words of its value.
fn by_name<'a, 't>(
    name: &'a [u8],
    words: Words<'a>,
    sheet: &'t Sheet,
) -> Result<(&'t NamedRow, Words<'a>), ValueFault<'a>> {
    match sheet.find(name) {
        Some(row) => Ok((row, words)),
        None => Err(ValueFault::Target(TargetFault::NoName(name))),
    }
}

// The same where the first word is the row's number. Behind it may stand the Data ID and the name, as show has them.
fn by_number<'a, 't>(
    number: &'a [u8],
    words: Words<'a>,
    sheet: &'t Sheet,
) -> Result<(&'t NamedRow, Words<'a>), ValueFault<'a>> {
    let n = line::number("row", number, sheet.rows.len() as u64)?;
    let Some(row) = sheet.numbered(n) else {
        return Err(ValueFault::Target(TargetFault::Row0));
    };
    let mut behind = words;
    let _ident = behind.next();
    match sheet.find(line::next_word(&mut behind)) {
        Some(named) if named.index == row.index => Ok((row, behind)),
        _ => Ok((row, words)),
    }
}

// The row of a line, and the words of its value.
fn target<'a, 't>(
    first: &'a [u8],
    words: Words<'a>,
    sheet: &'t Sheet,
) -> Result<(&'t NamedRow, Words<'a>), ValueFault<'a>> {
    match first {
        [b'0'..=b'9', ..] => by_number(first, words, sheet),
        _ => by_name(first, words, sheet),
    }
}

// A verdict's line, as show has it: only of an accepted datagram can the values be written.
fn read_verdict(mut words: Words<'_>) -> Result<(), ValueFault<'_>> {
    match text_number::parse(line::next_word(&mut words)) {
        Ok(0) => Ok(()),
        _ => Err(ValueFault::Target(TargetFault::Refused)),
    }
}

impl Values {
    // Before the first line.
    pub fn new() -> Values {
        Values {
            client: 0,
            session: 0,
            code: 0,
            given: [None; ROWS_MOST],
            content: Content::new(),
        }
    }

    // The rows of the table, in the form that the library takes. Those that no line gives are absent.
    pub fn rows(&self) -> [Row; 64] {
        self.given
            .map(|given| given.map_or(Row::ABSENT, |given| given.row))
    }

    // Takes a field of the header.
    fn read_field<'a>(&mut self, name: &'a [u8], value: &'a [u8]) -> Result<(), ValueFault<'a>> {
        match word::named(&FIELDS, name) {
            Some(Field::Client) => self.client = line::number("client", value, 65535)? as u16,
            Some(Field::Session) => self.session = line::number("session", value, 65535)? as u16,
            Some(Field::Code) => self.code = line::number("code", value, 255)? as u8,
            Some(Field::After) => {
                line::number("after", value, 65535)?;
            }
            None => return Err(ValueFault::Target(TargetFault::NoField(name))),
        }
        Ok(())
    }

    // Takes a line of header fields, each with its number.
    fn read_header<'a>(&mut self, words: Words<'a>) -> Result<(), ValueFault<'a>> {
        let mut field = None;
        for word in words {
            match field.take() {
                None => field = Some(word),
                Some(name) => self.read_field(name, word)?,
            }
        }
        match field {
            None => Ok(()),
            Some(name) => self.read_field(name, &[]),
        }
    }

    // Takes the value of a row.
    fn read_value<'a>(
        &mut self,
        line: usize,
        row: &NamedRow,
        words: Words<'a>,
    ) -> Result<(), ValueFault<'a>> {
        // Each row of a sheet has a place.
        let Some(place) = self.given.get_mut(row.index) else {
            return Ok(());
        };
        if let Some(before) = place {
            return Err(ValueFault::Target(TargetFault::Given(before.line)));
        }
        let value = value::read(&mut self.content, row.kind, words)?;
        *place = Some(Given { line, row: value });
        Ok(())
    }

    // Takes a line.
    fn read_line<'a>(
        &mut self,
        line: usize,
        words: Words<'a>,
        sheet: &Sheet,
    ) -> Result<(), ValueFault<'a>> {
        let mut behind = words;
        let Some(first) = behind.next() else {
            return Ok(());
        };
        match word::named(&LINE_KINDS, first) {
            Some(LineKind::Verdict) => read_verdict(behind),
            Some(LineKind::Header) => self.read_header(words),
            None => {
                let (row, value) = target(first, behind, sheet)?;
                self.read_value(line, row, value)
            }
        }
    }

    // Takes the lines of a text, for the rows of a sheet. The lines of a table file go the same way: one function for both would need a
    // closure, and be no shorter.
    pub fn read<'a>(
        &mut self,
        text: &'a [u8],
        sheet: &Sheet,
    ) -> Result<(), Complaint<ValueFault<'a>>> {
        for (before, words) in text.split(|b| *b == b'\n').enumerate() {
            let line = before + 1;
            self.read_line(line, Words::new(words), sheet)
                .map_err(|fault| Complaint::of_line(line, fault))?;
        }
        Ok(())
    }
}
