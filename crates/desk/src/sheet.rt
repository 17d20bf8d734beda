// A type table with its expectation and the names of its rows, as a table file says them.

use super::kind::Kind;
use super::setting::Width;
use arrayvec::{ArrayString, ArrayVec};
use message::read::Expected;
use payload::table::{Table, TypeRow};

// The most rows of a table, and the most characters of a name.
pub const ROWS_MOST: usize = 64;

pub const NAME_MOST: usize = 32;

// A row of the table, with its index, its name and the line that has it.
#[derive(Clone, Copy)]
pub struct NamedRow {
    pub index: usize,
    pub level: u8,
    pub ident: u16,
    pub kind: Kind,
    pub required: bool,
    pub name: ArrayString<NAME_MOST>,
    pub line: usize,
}

impl NamedRow {
    // The row as the library has it.
    fn type_row(&self) -> TypeRow {
        TypeRow {
            level: self.level,
            ident: self.ident,
            kind: self.kind.number(),
            elem: self.kind.element_number(),
            required: self.required,
        }
    }

    // The level that the next row has at most.
    pub fn deepest(&self) -> u8 {
        if self.kind == Kind::Struct {
            return self.level.saturating_add(1);
        }
        self.level
    }
}

// What an unused place holds.
impl Default for NamedRow {
    fn default() -> Self {
        NamedRow {
            index: 0,
            level: 0,
            ident: 0,
            kind: Kind::Struct,
            required: false,
            name: ArrayString::new(),
            line: 0,
        }
    }
}

// The row among some that has a name, its letters in either case. A row has its name in itself, where `word::named` takes pairs.
pub fn find<'a>(rows: &'a [NamedRow], name: &[u8]) -> Option<&'a NamedRow> {
    rows.iter().find(|row| row.name.as_str().as_bytes().eq_ignore_ascii_case(name))
}

// What a table file says.
#[derive(Drop)]
pub struct Sheet {
    pub expected: Expected,
    pub width: Width,
    pub rows: ArrayVec<NamedRow, ROWS_MOST>,
}

impl Sheet {
    // The table as the library has it.
    pub fn table(&self) -> Table {
        let mut rows = [TypeRow::NONE; 64];
        for (to, from) in rows.iter_mut().zip(&self.rows) {
            *to = from.type_row();
        }
        Table {
            rows,
            count: self.rows.len(),
            width: self.width.bytes,
            fixed: self.width.fixed,
        }
    }

    // The row that has a name.
    pub fn find<'a>(&'a self, name: &[u8]) -> Option<&'a NamedRow> {
        find(&self.rows, name)
    }

    // The row of a number, counted from 1.
    pub fn numbered(&self, number: u64) -> Option<&NamedRow> {
        let index = number.checked_sub(1)?;
        self.rows.get(index as usize)
    }
}
