// A datagram from values: each row is looked at, so that a refusal names it; the writer then has the last word.

use super::complaint::{Complaint, Fault};
use super::kind::Kind;
use super::sheet::{NamedRow, Sheet};
use super::values::Values;
use super::verdict_word;
use message::header::Header;
use message::write;
use payload::row::{Row, Value};
use std::io::Write;
use std::{fmt, io};
use wire::id::{ClientId, SessionId};
use wire::part::{self, Part};
use wire::text as wire_text;
use wire::verdict::Verdict;

// The most bytes of a message: its header and the largest payload.
pub const MESSAGE_MOST: usize = 1416;

// What a row's value can break.
#[derive(Clone, Copy)]
pub enum Rule {
    Required,
    Inside,
    Text,
}

// Behind the row's name.
impl fmt::Display for Rule {
    fn fmt<W: fmt::Write>(&self, f: &mut fmt::Formatter<W>) -> fmt::Result {
        f.write_str(match self {
            Rule::Required => "is required and has no value",
            Rule::Inside => "has a value, and the struct that it is in is absent",
            Rule::Text => "has a zero byte, or bytes that are no text",
        })
    }
}

// Why values make no datagram: a row, counted from 1, and the rule that its value breaks; or the writer's verdict.
#[derive(Clone, Copy)]
pub enum MakeFault<'a> {
    Row {
        number: usize,
        name: &'a str,
        rule: Rule,
    },
    Refused(Verdict),
}

impl Fault for MakeFault<'_> {
    fn write<W: Write>(&self, out: &mut W) -> io::Result<()> {
        match self {
            MakeFault::Row { number, name, rule } => {
                write!(out, "verdict 30 value: row {number} {name} {rule}")
            }
            MakeFault::Refused(verdict) => write!(
                out,
                "verdict {} {}{}",
                verdict.number(),
                verdict_word::word(*verdict),
                verdict_word::why(*verdict)
            ),
        }
    }
}

// A text of a row keeps its rule, where a row of another kind, or an absent one, has none.
fn text_fits(kind: Kind, value: Value, content: &[u8]) -> bool {
    match (kind, value) {
        (Kind::Text, Value::Bytes { place, len }) => {
            let text = part::part_of(content, Part { at: place, len });
            wire_text::text_fits(text)
        }
        _ => true,
    }
}

// A row's value keeps its rules, where the levels up to `opened` are present.
fn row_fits(named: &NamedRow, row: Row, opened: u8, content: &[u8]) -> Result<(), Rule> {
    let is_absent = row.is_absent();
    if opened < named.level {
        return if is_absent { Ok(()) } else { Err(Rule::Inside) };
    }
    if named.required && is_absent {
        return Err(Rule::Required);
    }
    if text_fits(named.kind, row.value, content) {
        return Ok(());
    }
    Err(Rule::Text)
}

// The levels that are present behind a row, where those up to `opened` are before it: one more than a present struct's, else the row's own.
fn opened_by(named: &NamedRow, row: Row, opened: u8) -> u8 {
    if opened < named.level {
        return opened;
    }
    if row.is_absent() {
        return named.level;
    }
    named.deepest()
}

// Every row's value keeps its rules.
fn rows_fit<'t>(rows: &[Row], content: &[u8], sheet: &'t Sheet) -> Result<(), MakeFault<'t>> {
    let mut opened = 1;
    for (before, (named, row)) in sheet.rows.iter().zip(rows).enumerate() {
        row_fits(named, *row, opened, content).map_err(|rule| MakeFault::Row {
            number: before + 1,
            name: named.name.as_str(),
            rule,
        })?;
        opened = opened_by(named, *row, opened);
    }
    Ok(())
}

// The header: what the table expects, and what the values say.
fn header(values: &Values, sheet: &Sheet) -> Header {
    Header {
        service: sheet.expected.service,
        method: sheet.expected.method,
        client: ClientId(values.client),
        session: SessionId(values.session),
        interface: sheet.expected.interface,
        kind: sheet.expected.kind,
        code: values.code,
    }
}

// The message of values, as the writer makes it once every row fits. It is in a buffer.
fn message<'b, 't>(
    values: &Values,
    sheet: &'t Sheet,
    room: &'b mut [u8; MESSAGE_MOST],
) -> Result<&'b [u8], MakeFault<'t>> {
    let rows = values.rows();
    rows_fit(&rows, values.content.as_bytes(), sheet)?;
    let written = write::write_by_value(
        header(values, sheet),
        rows,
        64,
        sheet.table(),
        values.content.as_bytes(),
        room,
    );
    if written.verdict != Verdict::Accepted {
        return Err(MakeFault::Refused(written.verdict));
    }
    Ok(part::part_of(
        room,
        Part {
            at: 0,
            len: written.len,
        },
    ))
}

// The datagram of the values of a file, in a buffer.
pub fn datagram<'b, 't>(
    values: &Values,
    sheet: &'t Sheet,
    room: &'b mut [u8; MESSAGE_MOST],
) -> Result<&'b [u8], Complaint<MakeFault<'t>>> {
    message(values, sheet, room).map_err(|fault| Complaint::of_file(fault))
}
