// Value rows as numbers.

ghost use Rattle.std.specs.Prelude.{◌≡◌, ◌++◌, ◌+◌, ◌*◌, ◌≤◌, ◌<◌, length, take, drop};
ghost use Rattle.std.proofs.lemmas.List.Edits.{sets};
ghost use Rattle.chudopolk.specs.Rows.{listed, flat, float32_row, row_at, lent_of, rows_of};

use payload::row::{Row, Value};
use wire::number;

// The numbers of a value row.
pub const NUMBERS: usize = 4;

// A value row as numbers: what the value is, its number or bits, and the place and length of a run.
#[derive(Clone, Copy)]
struct Numbers {
    what: u64,
    number: u64,
    place: u64,
    len: u64,
}

// A row that has a number.
fn numbered(what: u64, number: u64) -> Numbers
    ensures { result ≡ record { what = what; number = number; place = 0; len = 0 } }
{
    Numbers {
        what,
        number,
        place: 0,
        len: 0,
    }
}

// What stands for each value is of C's enum chudopolk_what in include/chudopolk.h; the conversion back below reads it.
impl From<Row> for Numbers {
    ghost use Rattle.chudopolk.specs.Rows.{numbers_of};

    ghost from_gives = { λ r n. n ≡ numbers_of r.value r.bits };

    fn from(r: Row) -> Numbers {
        match r.value {
            Value::Absent => numbered(0, 0),
            Value::Unsigned(x) => numbered(1, x),
            Value::Signed(z) => numbered(2, number::twos_of(z)),
            Value::Float32(_) => numbered(3, r.bits),
            Value::Float64(_) => numbered(4, r.bits),
            Value::Bytes { place, len } => Numbers {
                what: 5,
                number: 0,
                place: place as u64,
                len: len as u64,
            },
            Value::Members => numbered(6, 0),
        }
    }
}

// Stores the numbers of a row from `at` on.
fn put_row(out: &mut [u64], at: usize, n: Numbers)
    requires { at + 4 ≤ length out.old }
    ensures { out.new ≡ sets out.old at (listed n) }
{
    out[at] = n.what;
    out[at + 1] = n.number;
    out[at + 2] = n.place;
    out[at + 3] = n.len;
}

// Stores the numbers of the first n rows over the first of the lent ones; those beyond stay. The rows come by value: of a slice of them
// LLVM copies the whole array once more, which takes 318 instructions a message, and over 1,000 where the table is refused.
// For this library's own reading, which has looked that so many are lent.
pub(crate) fn put_rows(out: &mut [u64], rows: [Row; 64], n: usize)
    requires { (n ≤ 64) × (length rows ≡ 64) × (4 * n ≤ length out.old) }
    ensures { out.new ≡ flat (take n rows) ++ drop (4 * n) out.old }
{
    for i in 0..n {
        put_row(out, NUMBERS * i, Numbers::from(rows[i]));
    }
}

// The row of a float32 by its bits, which are too many where they are no float32's.
fn float32_row(bits: u64) -> Row
    ensures { result ≡ float32_row bits }
{
    let low = bits % 4294967296;
    Row {
        value: Value::Float32(number::float32_of(low as u32)),
        bits,
    }
}

// The row of numbers. Where `what` says no value it is a float32 with too many bits, which is of no kind.
impl From<Numbers> for Row {
    ghost use Rattle.chudopolk.specs.Rows.{row_of};

    ghost from_gives = { λ n r. r ≡ row_of n.what n.number n.place n.len };

    fn from(n: Numbers) -> Row {
        match n.what {
            0 => Row::ABSENT,
            1 => Row::plain(Value::Unsigned(n.number)),
            2 => Row::plain(Value::Signed(n.number.cast_signed())),
            3 => float32_row(n.number),
            4 => Row {
                value: Value::Float64(number::float64_of(n.number)),
                bits: n.number,
            },
            5 => Row::plain(Value::Bytes {
                place: n.place as usize,
                len: n.len as usize,
            }),
            6 => Row::plain(Value::Members),
            _ => float32_row(4294967296),
        }
    }
}

// The row of the four numbers from 4 · i on.
fn row_at(values: &[u64], i: usize) -> Row
    requires { (i < 64) × (4 * i + 4 ≤ length values.now) }
    ensures { result ≡ row_at values.now i }
{
    let at = NUMBERS * i;
    Row::from(Numbers {
        what: values[at],
        number: values[at + 1],
        place: values[at + 2],
        len: values[at + 3],
    })
}

// How many of the lent rows are taken: as many as there are, and 64 at most.
fn lent(len: usize) -> usize
    ensures { result ≡ lent_of len }
{
    (len / NUMBERS).min(64)
}

// The first 64 of the lent rows; where fewer are lent, absent rows follow.
pub fn rows_of(values: &[u64]) -> [Row; 64]
    ensures { result ≡ rows_of values.now }
{
    let n = lent(values.len());
    let mut rows = [Row::ABSENT; 64];
    for i in 0..n {
        rows[i] = row_at(values, i);
    }
    rows
}
