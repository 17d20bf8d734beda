// Table W, what its messages have in their headers, and the reading of a datagram under both.

ghost use Rattle.std.specs.Prelude.{◌≡◌};
ghost use Rattle.payload.specs.Cases.{table_w};
ghost use Rattle.message.specs.Reading.{message_of};
ghost use Rattle.showw.specs.TableW.{row as row_of, expected_w, row_count};

use message::message_type::MessageType;
use message::read;
use message::read::Expected;
use payload::read::Reading;
use payload::table::{Table, TypeRow};
use wire::id::{MethodId, ServiceId};

// The kinds of table W's rows. A type row has its kind as a number: one that is no kind gets verdict 1.
const UINT16: u8 = 3;

const UINT32: u8 = 4;

const SINT16: u8 = 7;

const STRING: u8 = 12;

const STRUCT: u8 = 14;

// The rows of table W.
const ROWS: usize = 5;

// A type row that is no array's.
fn row(level: u8, ident: u16, kind: u8, required: bool) -> TypeRow
    ensures { result ≡ row_of level ident kind required }
{
    TypeRow {
        level: level,
        ident: ident,
        kind: kind,
        elem: 0,
        required: required,
    }
}

// Table W: length fields of width 1, told in the tag.
pub fn table_w() -> Table
    ensures { result ≡ table_w }
{
    let mut rows = [row(0, 0, 0, false); 64];
    rows[0] = row(1, 1, UINT32, false);
    rows[1] = row(1, 2, SINT16, true);
    rows[2] = row(1, 5, STRUCT, false);
    rows[3] = row(2, 1, UINT16, true);
    rows[4] = row(1, 7, STRING, false);
    Table {
        rows: rows,
        count: ROWS,
        width: 1,
        fixed: false,
    }
}

// What a header has to be for table W.
fn expected_w() -> Expected
    ensures { result ≡ expected_w }
{
    Expected {
        service: ServiceId(0x4A01),
        method: MethodId(0x8001),
        interface: 1,
        kind: MessageType::NOTIFICATION,
    }
}

// Reads a datagram under table W, into as many rows as it has.
pub fn read_w(d: &[u8]) -> Reading
    ensures { result ≡ (message_of d.now expected_w table_w row_count).reading }
{
    let answer = read::read_by_value(d, expected_w(), table_w(), ROWS);
    answer.reading
}
