// Type tables as numbers.

ghost use Rattle.std.specs.Prelude.{◌≡◌, ◌+◌, ◌*◌, ◌≤◌, ◌<◌, length, eqb, unwrap_or, SomeIff};
ghost use Rattle.payload.specs.Table.{no_row};
ghost use Rattle.chudopolk.specs.Table.{type_row_at, type_rows_of, taken_of, table_of};

use payload::table::{Table, TypeRow};

// The numbers of a type row: level, Data ID, kind, element kind, and 1 for required or 0 for optional.
const NUMBERS: usize = 5;

// A type table beside its rows: how many there are, the width of length fields, and 1 where the writer uses the static wire type or 0 where
// it tells the width in the tag.
#[repr(C)]
#[derive(Clone, Copy)]
pub struct Form {
    pub count: usize,
    pub width: u32,
    pub fixed: u32,
}

// What a mark says, which is 0 or 1; none where it is wild.
fn mark_of(number: u64) -> Option<bool>
    ensures { SomeIff result (number ≤ 1) (eqb number 1) }
{
    (number <= 1).then_some(number == 1)
}

// The type row of the five numbers from 5 · i on; none where one of them is wild.
fn type_row(numbers: &[u64], i: usize) -> Option<TypeRow>
    requires { (i < 64) × (5 * i + 5 ≤ length numbers.now) }
    ensures { unwrap_or result no_row ≡ type_row_at numbers.now i }
{
    let at = NUMBERS * i;
    Some(TypeRow {
        level: u8::try_from(numbers[at]).ok()?,
        ident: u16::try_from(numbers[at + 1]).ok()?,
        kind: u8::try_from(numbers[at + 2]).ok()?,
        elem: u8::try_from(numbers[at + 3]).ok()?,
        required: mark_of(numbers[at + 4])?,
    })
}

// The first n rows of a table.
fn rows_of(numbers: &[u64], n: usize) -> [TypeRow; 64]
    requires { (n ≤ 64) × (5 * n ≤ length numbers.now) }
    ensures { result ≡ type_rows_of n numbers.now }
{
    let mut rows = [TypeRow::NONE; 64];
    for i in 0..n {
        rows[i] = type_row(numbers, i).unwrap_or(TypeRow::NONE);
    }
    rows
}

// How many rows a table has: what its form says; none where that is more than 64 or than the numbers are of, or where the mark is wild.
fn taken(form: Form, len: usize) -> usize
    ensures { result ≡ taken_of form len }
{
    if form.count <= 64 && NUMBERS * form.count <= len && form.fixed <= 1 {
        form.count
    } else {
        0
    }
}

// The table that a form and numbers stand for.
pub fn table_of(form: Form, numbers: &[u64]) -> Table
    ensures { result ≡ table_of form numbers.now }
{
    let n = taken(form, numbers.len());
    Table {
        rows: rows_of(numbers, n),
        count: n,
        width: form.width as usize,
        fixed: form.fixed == 1,
    }
}
