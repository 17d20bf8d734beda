// Verdicts 31 and 30, row by row.

ghost use Rattle.std.specs.Prelude.{◌≡◌, ◌+◌, ◌-◌, ◌*◌, ◌^◌, ◌≤◌, ◌<◌, length, false, ltb};
ghost use Rattle.payload.specs.Cells.{row_in, table_in};
ghost use Rattle.payload.specs.Judging.{outside, unsigned_fits, signed_fits, float_fits, run_fits, value_fits, row_fine};
ghost use Rattle.payload.specs.Judging.{is_members, up_after, flip_of, judged_of, judging_is};

use super::row::{Row, Value};
use super::table::{Cell, CheckedTable};
use wire::verdict::Verdict;
use wire::{kind, number, text};

// Whether a value is a struct's.
fn is_members(v: Value) -> bool
    ensures { result ≡ is_members v }
{
    matches!(v, Value::Members)
}

// Whether a run of bytes goes past a content buffer of `room` bytes, as it does where its end is no number that fits.
fn run_outside(room: usize, place: usize, len: usize) -> bool
    ensures { result ≡ ltb room (place + len) }
{
    match place.checked_add(len) {
        Some(end) => room < end,
        None => true,
    }
}

// Whether a value is a run of bytes past the content buffer.
fn is_outside(room: usize, v: Value) -> bool
    ensures { result ≡ outside room v }
{
    match v {
        Value::Bytes { place, len } => run_outside(room, place, len),
        _ => false,
    }
}

// Whether a number has `size` bytes, the first of them below `top`.
fn below(num: u64, size: usize, top: u64) -> bool
    requires { (0 < size) × (size ≤ 8) }
    ensures { result ≡ ltb num (top * 256 ^ (size - 1)) }
{
    (num >> (8 * (size - 1))) < top
}

// Whether an unsigned number is of a kind and its range.
fn unsigned_fits(kind: usize, n: u64) -> bool
    requires { (0 < kind) × (kind < 15) }
    ensures { result ≡ unsigned_fits kind n }
{
    match kind {
        kind::BOOLEAN => n < 2,
        2..=5 => below(n, kind::size_of(kind), 256),
        _ => false,
    }
}

// Of a two's complement in eight bytes, n for n and for -1 - n.
fn flipped(num: u64) -> u64
    ensures { result ≡ flip_of num }
{
    if num < 1 << 63 { num } else { u64::MAX - num }
}

// Whether a signed number is of a kind and its range.
fn signed_fits(kind: usize, z: i64) -> bool
    requires { kind < 15 }
    ensures { result ≡ signed_fits kind z }
{
    match kind {
        6..=9 => below(flipped(number::twos_of(z)), kind::size_of(kind), 128),
        _ => false,
    }
}

// Whether a float's bits are of its kind, which is `own`.
#[tactic(auto, unfolding(crate::specs::Judging::float_fits))]
fn float_fits(own: usize, kind: usize, bits: u64) -> bool
    requires { (0 < own) × (own < 12) }
    ensures { result ≡ float_fits own kind bits }
{
    kind == own && below(bits, kind::size_of(kind), 256)
}

// Whether a run in the content buffer is of a row's kind.
fn run_fits(cell: Cell, place: usize, len: usize, content: &[u8]) -> bool
    requires { place + len ≤ length content.now }
    ensures { result ≡ run_fits content.now (row_in cell.bits) place len }
{
    match cell.kind() {
        kind::STRING => text::text_fits(&content[place..place + len]),
        kind::ARRAY => len % kind::size_of(cell.elem()) == 0,
        _ => false,
    }
}

// Whether a present row's value is of its kind and range. A run lies in the content buffer.
fn value_fits(cell: Cell, r: Row, content: &[u8]) -> bool
    requires { outside (length content.now) r.value ≡ false }
    ensures { result ≡ value_fits content.now (row_in cell.bits) r.value r.bits }
{
    let k = cell.kind();
    let v = r.value;
    match v {
        Value::Absent => true,
        Value::Unsigned(n) => unsigned_fits(k, n),
        Value::Signed(z) => signed_fits(k, z),
        Value::Float32(_) => float_fits(10, k, r.bits),
        Value::Float64(_) => float_fits(11, k, r.bits),
        Value::Bytes { place, len } => run_fits(cell, place, len, content),
        Value::Members => k == kind::STRUCT,
    }
}

// Whether a row fits where the levels up to `upto` are present.
#[tactic(auto, unfolding(crate::specs::Judging::row_fine))]
fn row_fine(cell: Cell, r: Row, upto: u64, content: &[u8]) -> bool
    requires { outside (length content.now) r.value ≡ false }
    ensures { result ≡ row_fine content.now upto (row_in cell.bits) r }
{
    let present = cell.level() <= upto;
    if r.is_absent() {
        !present || !cell.is_required()
    } else {
        present && value_fits(cell, r, content)
    }
}

// The levels that are present at the next row.
#[tactic(auto, unfolding(crate::specs::Judging::up_after))]
fn up_after(cell: Cell, r: Row, upto: u64) -> u64
    ensures { result ≡ up_after upto (row_in cell.bits) r }
{
    let level = cell.level();
    if upto < level {
        upto
    } else if is_members(r.value) {
        level + 1
    } else {
        level
    }
}

// The rows in table order, as many as the table has: the first that is not fine decides. For this crate's own writer.
pub(crate) fn judge_rows(
    rows: &[Row; 64],
    table: &CheckedTable,
    content: &[u8],
) -> Result<(), Verdict>
    ensures { result ≡ judging_is (judged_of content.now (table_in table.now.count table.now.cells) rows.now) }
{
    let mut upto: u64 = 1;
    for (row, bits) in rows.iter().zip(&table.cells[..table.count]) {
        if is_outside(content.len(), row.value) {
            return Err(Verdict::Outside);
        }
        let cell = Cell { bits: *bits };
        if !row_fine(cell, *row, upto, content) {
            return Err(Verdict::Value);
        }
        upto = up_after(cell, *row, upto);
    }
    Ok(())
}
