// The output: each present row's member at its place, in table order.

ghost use Rattle.std.specs.Prelude.{◌≡◌, ◌+◌, ◌++◌, ◌≤◌, ◌<◌, length};
ghost use Rattle.std.proofs.lemmas.List.Edits.{sets};
ghost use Rattle.wire.specs.Kind.{size_of, string};
ghost use Rattle.wire.specs.Text.{string_bytes};
ghost use Rattle.wire.specs.Part.{run_of};
ghost use Rattle.payload.specs.Cells.{kind_in};
ghost use Rattle.payload.specs.Sizes.{content_len, own_len};
ghost use Rattle.payload.specs.Fine.{cell_at, value_at, number_member, field_start, run_content, bytes_at, piece_at, Holds};

use super::fine::FineRows;
use super::row::Value;
use super::table::Cell;
use wire::{kind, number, part, tag};

// A number's member at `at`: tag and number. The answer is the next place.
fn put_number(out: &mut [u8], at: usize, cell: Cell, num: u64) -> usize
    requires { (kind_in cell.bits < string) × (at + (2 + size_of (kind_in cell.bits)) ≤ length out.old) }
    ensures next { result ≡ at + (2 + size_of (kind_in cell.bits)) }
    ensures output { out.new ≡ sets out.old at (number_member cell.bits num) }
{
    let kind = cell.kind();
    let size = kind::size_of(kind);
    let wire = u64::from(kind::kind_at(kind).wire);
    number::write_number(out, at, 2, tag::tag_of(wire, cell.ident()));
    number::write_number(out, at + 2, size, num);
    at + (2 + size)
}

// What stands before a content of `len` bytes: tag and length field. The answer is the content's place.
fn put_field(out: &mut [u8], at: usize, cell: Cell, len: usize, fine: &FineRows) -> usize
    requires { (at + (fine.now.table.now.width + 2) ≤ length out.old) }
    ensures next { result ≡ at + (fine.now.table.now.width + 2) }
    ensures output { out.new ≡ sets out.old at (field_start fine.now cell.bits len) }
{
    let width = fine.table.width;
    number::write_number(out, at, 2, tag::tag_of(fine.wire, cell.ident()));
    number::write_number(out, at + 2, width, len as u64);
    at + (width + 2)
}

// A string's content: mark, text, terminator.
fn put_text(out: &mut [u8], at: usize, content: &[u8], place: usize, len: usize)
    requires { (at + (len + 4) ≤ length out.old) × (place + len ≤ length content.now) }
    ensures { out.new ≡ sets out.old at (string_bytes (run_of content.now place len)) }
{
    out[at] = 0xEF;
    out[at + 1] = 0xBB;
    out[at + 2] = 0xBF;
    part::put_run(out, at + 3, content, place, len);
    out[at + 3 + len] = 0;
}

// The member of a string or an array, whose bytes are a run of the content buffer. The answer is the next place.
fn put_bytes(
    out: &mut [u8],
    at: usize,
    cell: Cell,
    place: usize,
    len: usize,
    fine: &FineRows,
) -> usize
    requires { (place + len ≤ length fine.now.content.now)
        × (at + (fine.now.table.now.width + 2 + content_len (kind_in cell.bits) (Value.Bytes place len) 0) ≤ length out.old) }
    ensures next { result ≡ at + (fine.now.table.now.width + 2 + content_len (kind_in cell.bits) (Value.Bytes place len) 0) }
    ensures output { out.new ≡ sets out.old at
        (field_start fine.now cell.bits (content_len (kind_in cell.bits) (Value.Bytes place len) 0)
        ++ run_content fine.now cell.bits place len) }
{
    if cell.kind() == kind::STRING {
        let start = put_field(out, at, cell, len + 4, fine);
        put_text(out, start, fine.content, place, len);
        return start + (len + 4);
    }
    let start = put_field(out, at, cell, len, fine);
    part::put_run(out, start, fine.content, place, len);
    start + len
}

// The member of row i at `at`, where a struct holds `held` bytes. The answer is the next place.
fn put_row(out: &mut [u8], at: usize, i: usize, held: usize, fine: &FineRows) -> usize
    requires { (i < fine.now.table.now.count)
        × (at + own_len fine.now.table.now.width (kind_in (cell_at fine.now i)) (value_at fine.now i).value ≤ length out.old) }
    ensures next { result ≡ at + own_len fine.now.table.now.width (kind_in (cell_at fine.now i)) (value_at fine.now i).value }
    ensures output { out.new ≡ sets out.old at (piece_at fine.now i held) }
{
    let cell = fine.table.cell(i);
    let row = fine.rows[i];
    match row.value {
        Value::Absent => at,
        Value::Unsigned(n) => put_number(out, at, cell, n),
        Value::Signed(z) => put_number(out, at, cell, number::twos_of(z)),
        Value::Float32(_) | Value::Float64(_) => put_number(out, at, cell, row.bits),
        Value::Bytes { place, len } => put_bytes(out, at, cell, place, len, fine),
        Value::Members => put_field(out, at, cell, held, fine),
    }
}

// The members of the present rows, in table order, from the output's start. A struct's members follow as the rows do.
// For this crate's own writer.
pub(crate) fn put_rows(out: &mut [u8], held: &[usize; 64], fine: &FineRows)
    requires { Holds fine.now held.now × (length (bytes_at fine.now 0) ≤ length out.old) }
    ensures { out.new ≡ sets out.old 0 (bytes_at fine.now 0) }
{
    let mut at: usize = 0;
    for i in 0..fine.table.count {
        at = put_row(out, at, i, held[i], fine);
    }
}
