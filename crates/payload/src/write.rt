// Writing a payload.
//
// Rows are judged, then sizes are summed from the last row to the first, and then the members are written in table order. A struct is its
// tag and its length field, and its members follow as the rows do. Nothing is written before all is settled.

ghost use Rattle.std.specs.Prelude.{◌≡◌, length};
ghost use Rattle.payload.specs.Writing.{run_wire, outcome_of, result_is, output_is};
ghost use Rattle.payload.specs.Writing.{written_is, writing_of, output_of};
ghost use Rattle.payload.specs.Fine.{fine_outcome};

use super::fine::FineRows;
use super::row::Row;
use super::table::{CheckedTable, Table};
use super::{emit, judge, read, size};
use wire::verdict::Verdict;

// The answer to a writing: the verdict, and the payload's length, 0 on refusal. No Result: `writing_of` settles both fields on every
// verdict.
#[derive(Clone, Copy)]
pub struct Written {
    pub verdict: Verdict,
    pub len: usize,
}

impl From<Result<usize, Verdict>> for Written {
    ghost from_gives = { λ r w. w ≡ written_is r };

    // The answer to a writing that gave a length or was refused.
    fn from(r: Result<usize, Verdict>) -> Written {
        match r {
            Ok(len) => Written {
                verdict: Verdict::Accepted,
                len,
            },
            Err(verdict) => Written { verdict, len: 0 },
        }
    }
}

// The wire type of what has a length field.
fn run_wire(width: usize, fixed: bool) -> u64
    ensures { result ≡ run_wire width fixed }
{
    if fixed {
        return 4;
    }
    match width {
        1 => 5,
        2 => 6,
        _ => 7,
    }
}

// Writes the members of rows that fit, if their bytes are not too many and the output has room, and gives how many they are.
fn write_total(fine: &FineRows, out: &mut [u8]) -> Result<usize, Verdict>
    ensures answer { result ≡ result_is (fine_outcome fine.now (length out.old)) }
    ensures output { out.new ≡ output_is out.old (fine_outcome fine.now (length out.old)) }
{
    let mut held = [0usize; 64];
    let total = size::measure(fine, &mut held)?;
    if read::PAYLOAD_MOST < total {
        return Err(Verdict::Heavy);
    }
    if out.len() < total {
        return Err(Verdict::Room);
    }
    emit::put_rows(out, &held, fine);
    Ok(total)
}

// Writes the payload of these rows, of which `room` are lent, from the output's start, and gives its length, or says why it is refused.
// A refusal changes no byte. For the library's own writers.
pub fn write_rows(
    rows: &[Row; 64],
    room: usize,
    t: &Table,
    content: &[u8],
    out: &mut [u8],
) -> Result<usize, Verdict>
    ensures answer { result ≡ result_is (outcome_of rows.now room t.now content.now (length out.old)) }
    ensures output { out.new ≡ output_is out.old (outcome_of rows.now room t.now content.now (length out.old)) }
{
    let table = CheckedTable::of(t).ok_or(Verdict::Table)?;
    if room < table.count {
        return Err(Verdict::Room);
    }
    judge::judge_rows(rows, &table, content)?;
    let wire = run_wire(table.width, t.fixed);
    let fine = FineRows {
        table: &table,
        rows,
        content,
        wire,
    };
    write_total(&fine, out)
}

// Writes the payload of these rows, of which `room` are lent, from the output's start. A refusal changes no byte.
pub fn write_payload(
    rows: [Row; 64],
    room: usize,
    t: Table,
    content: &[u8],
    out: &mut [u8],
) -> Written
    ensures answer { result ≡ writing_of rows room t content.now (length out.old) }
    ensures output { out.new ≡ output_of rows room t content.now out.old }
{
    Written::from(write_rows(&rows, room, &t, content, out))
}
