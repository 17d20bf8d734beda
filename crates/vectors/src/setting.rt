// What the lines of the input set for the cases behind them.

use super::line::{Bytes, Fields};
use arrayvec::ArrayVec;
use message::header::Header;
use message::message_type::MessageType;
use message::read::Expected;
use payload::row::{Row, Value};
use payload::table::{Table, TypeRow};
use wire::id::{ClientId, MethodId, ServiceId, SessionId};

// The bytes of a value row.
const RECORD: usize = 26;

// What is set: for reading the table, the lent rows' number and the expectation; for writing header, rows and content. As many rows are
// lent for writing as stood in the line, which may be more than the 64 that the library takes.
#[derive(Drop)]
pub struct Setting {
    pub table: Table,
    pub room: u8,
    pub expected: Expected,
    pub header: Header,
    pub rows: [Row; 64],
    pub lent: usize,
    pub content: Bytes,
}

// What a line may set.
#[derive(Clone, Copy)]
pub enum Item {
    Table,
    Expect,
    Header,
    Rows,
    Content,
}

impl Item {
    // What a line with this label sets. A case sets nothing.
    pub fn of(label: &[u8]) -> Option<Item> {
        match label {
            b"table" => Some(Item::Table),
            b"expect" => Some(Item::Expect),
            b"header" => Some(Item::Header),
            b"rows" => Some(Item::Rows),
            b"content" => Some(Item::Content),
            _ => None,
        }
    }
}

// The next type row.
fn type_row(fields: &mut Fields) -> TypeRow {
    TypeRow {
        level: fields.byte(),
        ident: fields.two(),
        kind: fields.byte(),
        elem: fields.byte(),
        required: fields.byte() == 1,
    }
}

// The table of a line, behind the lent rows' number: how many type rows, the length width and the static mark, then the rows.
fn table_of(fields: &mut Fields) -> Table {
    let count = usize::from(fields.byte());
    let width = usize::from(fields.byte());
    let fixed = fields.byte() == 1;
    let mut rows = [TypeRow::NONE; 64];
    for row in rows.iter_mut().take(count) {
        *row = type_row(fields);
    }
    Table {
        rows,
        count,
        width,
        fixed,
    }
}

// What a line expects of a message.
fn expected_of(fields: &mut Fields) -> Expected {
    Expected {
        service: ServiceId(fields.two()),
        method: MethodId(fields.two()),
        interface: fields.byte(),
        kind: MessageType(fields.byte()),
    }
}

// The header of a line.
fn header_of(fields: &mut Fields) -> Header {
    Header {
        service: ServiceId(fields.two()),
        method: MethodId(fields.two()),
        client: ClientId(fields.two()),
        session: SessionId(fields.two()),
        interface: fields.byte(),
        kind: MessageType(fields.byte()),
        code: fields.byte(),
    }
}

// The float that stands beside the bits, which no answer depends on.
fn float_beside(spare: u8) -> f32 {
    match spare {
        0 => 0.0,
        1 => 1.0,
        2 => -1.0,
        _ => 0.0 / 0.0,
    }
}

// The next value row.
fn row_of(fields: &mut Fields) -> Row {
    let what = fields.byte();
    let number = fields.eight();
    let len = fields.eight();
    let bits = fields.eight();
    let float = float_beside(fields.byte());
    let value = match what {
        1 => Value::Unsigned(number),
        2 => Value::Signed(number.cast_signed()),
        3 => Value::Float32(float),
        4 => Value::Float64(f64::from(float)),
        5 => Value::Bytes {
            place: number as usize,
            len: len as usize,
        },
        6 => Value::Members,
        _ => Value::Absent,
    };
    Row { value, bits }
}

// The first 64 value rows of a line.
fn rows_of(fields: &mut Fields) -> [Row; 64] {
    let mut rows = [Row::ABSENT; 64];
    for row in rows.iter_mut() {
        *row = row_of(fields);
    }
    rows
}

impl Setting {
    // What is set before the first line: as lines without bytes set it.
    pub fn new() -> Setting {
        let mut none = Fields(&[]);
        Setting {
            table: table_of(&mut none),
            room: 0,
            expected: expected_of(&mut none),
            header: header_of(&mut none),
            rows: rows_of(&mut none),
            lent: 0,
            content: ArrayVec::new(),
        }
    }

    // Sets an item to the bytes of its line.
    pub fn set(&mut self, item: Item, bytes: &Bytes) {
        let mut fields = Fields(bytes);
        match item {
            Item::Table => {
                self.room = fields.byte();
                self.table = table_of(&mut fields);
            }
            Item::Expect => self.expected = expected_of(&mut fields),
            Item::Header => self.header = header_of(&mut fields),
            Item::Rows => {
                self.rows = rows_of(&mut fields);
                self.lent = bytes.len() / RECORD;
            }
            Item::Content => {
                self.content.clear();
                let Ok(()) = self.content.try_extend_from_slice(bytes) else {
                    unreachable!()
                };
            }
        }
    }
}
