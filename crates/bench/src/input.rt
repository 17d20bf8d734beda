// What stands where in the input, for this program alone. Numbers are big-endian. What the value rows are, bench/run holds to the answers
// of the program in C.

ghost use Rattle.std.specs.Prelude.{◌≡◌, ◌≤◌};
ghost use Rattle.bench.specs.Form.{pair_at, count_in, type_row_at, table_in, expected_in, header_in};

use message::header::Header;
use message::message_type::MessageType;
use message::read::Expected;
use payload::row::{Row, Value};
use payload::table::{Table, TypeRow};
use std::array;
use wire::id::{ClientId, MethodId, ServiceId, SessionId};
use wire::number;

// The number of the two bytes at a place.
fn two_at(b: &[u8; 4096], at: usize) -> u16
    requires { at ≤ 4000 }
    ensures { result ≡ pair_at at b.now }
{
    u16::from_be_bytes([b[at], b[at + 1]])
}

// The number of the eight bytes at a place.
fn eight_at(b: &[u8; 4096], at: usize) -> u64
    requires { at ≤ 4000 }
{
    number::read_number(b, at, 8)
}

// The number of type rows, and of lent rows: 64 at most.
pub fn count(b: &[u8; 4096]) -> usize
    ensures { (result ≡ count_in b.now) × (result ≤ 64) }
{
    usize::from(b[1]).min(64)
}

// How often to read or write.
pub fn repeats(b: &[u8; 4096]) -> u16
    ensures { result ≡ pair_at 16 b.now }
{
    two_at(b, 16)
}

// The bytes of the datagram, or of the content to write from.
pub fn size(b: &[u8; 4096]) -> usize
    ensures { result ≡ pair_at 18 b.now }
{
    usize::from(two_at(b, 18))
}

// The bytes of the output.
pub fn room(b: &[u8; 4096]) -> usize
    ensures { result ≡ pair_at 20 b.now }
{
    usize::from(two_at(b, 20))
}

// The type row at a place.
fn type_row(b: &[u8; 4096], at: usize) -> TypeRow
    requires { at ≤ 1024 }
    ensures { result ≡ type_row_at at b.now }
{
    TypeRow {
        level: b[at],
        ident: two_at(b, at + 1),
        kind: b[at + 3],
        elem: b[at + 4],
        required: b[at + 5] == 1,
    }
}

// The type table.
pub fn table(b: &[u8; 4096]) -> Table
    ensures { result ≡ table_in b.now }
{
    let mut rows = [type_row(b, 24); 64];
    for i in 0..64 {
        rows[i] = type_row(b, 24 + 6 * i);
    }
    Table {
        rows,
        count: count(b),
        width: usize::from(b[2]),
        fixed: b[3] == 1,
    }
}

// What is expected of the message to read.
pub fn expected(b: &[u8; 4096]) -> Expected
    ensures { result ≡ expected_in b.now }
{
    Expected {
        service: ServiceId(two_at(b, 4)),
        method: MethodId(two_at(b, 6)),
        interface: b[12],
        kind: MessageType(b[13]),
    }
}

// The header of the message to write.
pub fn header(b: &[u8; 4096]) -> Header
    ensures { result ≡ header_in b.now }
{
    Header {
        service: ServiceId(two_at(b, 4)),
        method: MethodId(two_at(b, 6)),
        client: ClientId(two_at(b, 8)),
        session: SessionId(two_at(b, 10)),
        interface: b[12],
        kind: MessageType(b[13]),
        code: b[14],
    }
}

// The value row at a place: what it shows, its number, float bits or place, and a run's length.
fn row_at(b: &[u8; 4096], at: usize) -> Row
    requires { at ≤ 2000 }
{
    let bits = eight_at(b, at + 1);
    let value = match b[at] {
        1 => Value::Unsigned(bits),
        2 => Value::Signed(bits.cast_signed()),
        3 => Value::Float32(0.0),
        4 => Value::Float64(0.0),
        5 => Value::Bytes {
            place: bits as usize,
            len: eight_at(b, at + 9) as usize,
        },
        6 => Value::Members,
        _ => Value::Absent,
    };
    Row { value, bits }
}

// The value rows to write.
pub fn rows(b: &[u8; 4096]) -> [Row; 64] {
    array::from_fn(|i| row_at(b, 408 + 17 * i))
}
