// A row's line: LEVEL DATA-ID KIND [ELEMENT-KIND] required (or optional) NAME.

use super::kind::{self, Kind, KindWord};
use super::line;
use super::row_fault::{KindFault, NameFault, PlaceFault};
use super::sheet::{self, NAME_MOST, NamedRow, ROWS_MOST};
use super::table_fault::TableFault;
use arrayvec::{ArrayString, ArrayVec};
use std::str;
use text::word::{self, Words};

// The words that mean something in a line of values, so that no row can have one for a name.
const TAKEN: [&str; 9] = [
    "verdict", "client", "session", "code", "after", "inf", "nan", "true", "false",
];

// The kind that the next words name.
fn read_kind<'a>(words: &mut Words<'a>) -> Result<Kind, KindFault<'a>> {
    let word = line::next_word(words);
    match kind::of_word(word).ok_or(KindFault::NoKind(word))? {
        KindWord::Is(kind) => Ok(kind),
        KindWord::Array => array_of(line::next_word(words)),
    }
}

// The kind of an array whose elements' kind a word names.
fn array_of(word: &[u8]) -> Result<Kind, KindFault<'_>> {
    kind::scalar_of_word(word)
        .map(Kind::Array)
        .ok_or(KindFault::NoElement(word))
}

// Whether a row is required, by the word behind its kind.
fn is_required(word: &[u8]) -> Result<bool, KindFault<'_>> {
    if let Some(required) = word::named(&[("optional", false), ("required", true)], word) {
        return Ok(required);
    }
    match kind::of_word(word) {
        Some(_) => Err(KindFault::OnlyArray(word)),
        None => Err(KindFault::NoMark(word)),
    }
}

// Whether a text begins as a name does, and has nothing that a name can't have.
fn is_name(text: &str) -> bool {
    let is_begun = text.starts_with(|c: char| c.is_ascii_alphabetic() || c == '_');
    is_begun
        && text.bytes().all(|b| b.is_ascii_alphanumeric() || b == b'_' || b == b'-' || b == b'.')
}

// The name that a word is.
fn read_name(word: &[u8]) -> Result<ArrayString<NAME_MOST>, NameFault<'_>> {
    if word.is_empty() {
        return Err(NameFault::Missing);
    }
    if NAME_MOST < word.len() {
        return Err(NameFault::Long(word));
    }
    let name = str::from_utf8(word).map_err(|_| NameFault::Odd(word))?;
    if !is_name(name) {
        return Err(NameFault::Odd(word));
    }
    if line::is_one_of(&TAKEN, word) {
        return Err(NameFault::Taken(word));
    }
    ArrayString::from(name).map_err(|_| NameFault::Long(word))
}

// A level may stand behind the rows before it.
fn level_fits(level: u8, before: &[NamedRow]) -> Result<(), PlaceFault> {
    if level == 0 {
        return Err(PlaceFault::Level0);
    }
    match before.last() {
        None if level == 1 => Ok(()),
        None => Err(PlaceFault::FirstLevel(level)),
        Some(last) if level <= last.deepest() => Ok(()),
        Some(last) => Err(PlaceFault::LevelAfter {
            level,
            before: last.level,
        }),
    }
}

// A row's Data ID is no other's among the members of its struct, or among the rows of level 1.
fn ident_fits(row: &NamedRow, before: &[NamedRow]) -> Result<(), PlaceFault> {
    let twin = before
        .iter()
        .rev()
        .take_while(|other| row.level <= other.level)
        .find(|other| other.level == row.level && other.ident == row.ident);
    match twin {
        Some(other) => Err(PlaceFault::IdentTwice {
            ident: row.ident,
            line: other.line,
        }),
        None => Ok(()),
    }
}

// A row may stand behind the rows before it.
fn place_fits(row: &NamedRow, before: &[NamedRow]) -> Result<(), PlaceFault> {
    level_fits(row.level, before)?;
    if row.kind == Kind::Struct && 3 < row.level {
        return Err(PlaceFault::StructLevel);
    }
    ident_fits(row, before)
}

// Reads a row's line, and puts the row behind those before it.
pub fn read<'a>(
    line: usize,
    mut words: Words<'a>,
    rows: &mut ArrayVec<NamedRow, ROWS_MOST>,
) -> Result<(), TableFault<'a>> {
    if rows.is_full() {
        return Err(TableFault::Place(PlaceFault::ManyRows));
    }
    let level = line::number("level", line::next_word(&mut words), 4)? as u8;
    let ident = line::number("Data ID", line::next_word(&mut words), 4095)? as u16;
    let kind = read_kind(&mut words)?;
    let required = is_required(line::next_word(&mut words))?;
    let word = line::next_word(&mut words);
    let name = read_name(word)?;
    line::ends(words)?;
    let row = NamedRow {
        index: rows.len(),
        level,
        ident,
        kind,
        required,
        name,
        line,
    };
    place_fits(&row, rows.as_slice())?;
    if let Some(other) = sheet::find(rows.as_slice(), word) {
        return Err(TableFault::Twice(word, other.line));
    }
    rows.push(row);
    Ok(())
}
