// A member's content: where it lies, and the row that it shows.

ghost use Rattle.std.specs.Prelude.{◌≡◌, List, ℕ, ◌+◌, ◌-◌, ◌^◌, ◌≤◌, ◌<◌, length};
ghost use Rattle.std.proofs.Math.Seq.{slice};
ghost use Rattle.wire.specs.Number.{big, number_of};
ghost use Rattle.wire.specs.Kind.{size_of, string, array, struct};
ghost use Rattle.payload.specs.Cells.{row_in, kind_in};
ghost use Rattle.payload.specs.Reading.{content_of, body_of};
ghost use Rattle.payload.specs.Walking.{body_in, Inside, RowShown};

use super::row::{Row, Value};
use super::rows;
use super::table::Cell;
use wire::verdict::Verdict;
use wire::{kind, number, tag, text};

// The bytes from one place up to another.
#[derive(Clone, Copy)]
pub struct Span {
    pub from: usize,
    pub end: usize,
}

// Why a payload is refused, and at which place.
#[derive(Clone, Copy)]
pub struct Refusal {
    pub verdict: Verdict,
    pub place: usize,
}

// The n bytes at a place, in a level that ends at `end`.
fn taken(n: usize, from: usize, end: usize) -> Result<Span, Refusal>
    requires { from ≤ end }
    ensures is { (p : List ℕ) → end ≤ length p → body_in p end result ≡ content_of n from (slice from end p) }
    ensures inside { Inside from end result }
{
    if end - from < n {
        return Err(Refusal {
            verdict: Verdict::Overrun,
            place: from,
        });
    }
    Ok(Span {
        from,
        end: from + n,
    })
}

// The content behind a tag, in what is left of a level there. For this crate's own walk.
pub(crate) fn content_in(bytes: &[u8], width: usize, wire: u64, rest: Span) -> Result<Span, Refusal>
    requires { (rest.from ≤ rest.end) × (rest.end ≤ length bytes.now) × (width ≤ 4) }
    ensures is { body_in bytes.now rest.end result
        ≡ body_of width wire rest.from (slice rest.from rest.end bytes.now) }
    ensures inside { Inside rest.from rest.end result }
{
    if wire < 4 {
        return taken(tag::fixed_size(wire), rest.from, rest.end);
    }
    let field = tag::field_width(width, wire);
    if rest.end - rest.from < field {
        return Err(Refusal {
            verdict: Verdict::FieldCut,
            place: rest.from,
        });
    }
    let n = number::read_number(bytes, rest.from, field) as usize;
    taken(n, rest.from + field, rest.end)
}

// The number of the w bytes at a place; of 1, 2 and 4 bytes the loop is unrolled.
fn number_at(bytes: &[u8], at: usize, w: usize) -> u64
    requires { (at + w ≤ length bytes.now) × (w ≤ 8) }
    ensures { (result ≡ number_of big (slice at (at + w) bytes.now)) × (result < 256 ^ w) }
{
    match w {
        1 => number::read_number(bytes, at, 1),
        2 => number::read_number(bytes, at, 2),
        4 => number::read_number(bytes, at, 4),
        _ => number::read_number(bytes, at, w),
    }
}

// The row of a string's content: its run covers the text alone, behind the mark and before the terminator.
fn string_shown(bytes: &[u8], cell: Cell, content: Span) -> Result<Row, Refusal>
    requires { (kind_in cell.bits ≡ string) × (content.from ≤ content.end) × (content.end ≤ length bytes.now) }
    ensures { RowShown bytes.now (row_in cell.bits) content result }
{
    let Span { from, end } = content;
    if !text::string_fits(&bytes[from..end]) {
        return Err(Refusal {
            verdict: Verdict::Text,
            place: from,
        });
    }
    Ok(Row::plain(Value::Bytes {
        place: from + 3,
        len: end - from - 4,
    }))
}

// The row of an array's content, which is a multiple of the element size.
fn array_shown(cell: Cell, content: Span) -> Result<Row, Refusal>
    requires { (kind_in cell.bits ≡ array) × (content.from ≤ content.end) }
    ensures { (p : List ℕ) → content.end ≤ length p → RowShown p (row_in cell.bits) content result }
{
    let Span { from, end } = content;
    if (end - from) % kind::size_of(cell.elem()) != 0 {
        return Err(Refusal {
            verdict: Verdict::Array,
            place: from,
        });
    }
    Ok(Row::plain(Value::Bytes {
        place: from,
        len: end - from,
    }))
}

// The row that a known member's content shows; a struct's is its members'. For this crate's own walk.
pub(crate) fn shown(bytes: &[u8], cell: Cell, content: Span) -> Result<Row, Refusal>
    requires { (kind_in cell.bits < struct) × (content.from ≤ content.end) × (content.end ≤ length bytes.now)
        × (kind_in cell.bits < string → content.end ≡ content.from + size_of (kind_in cell.bits)) }
    ensures { RowShown bytes.now (row_in cell.bits) content result }
{
    let kind = cell.kind();
    match kind {
        kind::STRING => string_shown(bytes, cell, content),
        kind::ARRAY => array_shown(cell, content),
        _ => {
            let n = content.end - content.from;
            Ok(rows::number_row(kind, number_at(bytes, content.from, n)))
        }
    }
}
