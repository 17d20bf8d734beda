// Sizes, from the last row to the first: what each struct holds, and what the whole payload has.

ghost use Rattle.std.specs.Prelude.{◌≡◌, ℕ, suc, ◌+◌, ◌≤◌, ◌<◌, length, get_or, ltb, IfOk};
ghost use Rattle.wire.specs.Choose.{pick};
ghost use Rattle.payload.specs.Parts.{wide_under};
ghost use Rattle.payload.specs.Sizes.{field_top, content_len, head_len, ShortRun, measured_is};
ghost use Rattle.payload.specs.Fine.{parts_at, bytes_at, Holds};

use super::fine::FineRows;
use super::row::Value;
use wire::kind;
use wire::verdict::Verdict;

// How many numbers a length field of this width holds.
fn field_top(width: usize) -> usize
    ensures { result ≡ field_top width }
{
    match width {
        1 => 256,
        2 => 65536,
        _ => 4294967296,
    }
}

// The bytes of a value's content in a row of a kind, where a struct holds `held` bytes. A string has its mark and its terminator.
fn content_len(kind: usize, v: Value, held: usize) -> usize
    requires { (kind < 15) × ShortRun v }
    ensures { result ≡ content_len kind v held }
{
    match v {
        Value::Absent => 0,
        Value::Bytes { place: _, len } => { if kind == kind::STRING { len + 4 } else { len } }
        Value::Members => held,
        _ => kind::size_of(kind),
    }
}

// The bytes before a value's content: its tag, and a length field, which a number has not.
fn head_len(width: usize, v: Value) -> usize
    requires { width ≤ 4 }
    ensures { result ≡ head_len width v }
{
    match v {
        Value::Absent => 0,
        Value::Bytes { place: _, len: _ } => width + 2,
        Value::Members => width + 2,
        _ => 2,
    }
}

// Counts in a row of this level, which stands in front of those counted so far: its own bytes are below each level above it, and what was
// below deeper ones belongs to no later row.
fn count_in(sums: &mut [usize; 5], level: u64, own: usize)
    requires { (length sums.old ≡ 5) × ((d : ℕ) → d < 5 → own + get_or sums.old d 0 < 18446744073709551616) }
    ensures long { length sums.new ≡ 5 }
    ensures each { (d : ℕ) → d < 5 → get_or sums.new d 0 ≡ pick (ltb level (suc d)) 0 (own + get_or sums.old d 0) }
{
    for (above, sum) in sums.iter_mut().enumerate() {
        *sum = if (above as u64) < level {
            own + *sum
        } else {
            0
        };
    }
}

// The bytes of the payload, where each content fits its length field; then `held` has what each struct holds. The sums are those of the
// bytes below each level, as far as the rows in front have passed. `held` is an array beside the rows, for there is no heap. For this
// crate's own writer.
pub(crate) fn measure(fine: &FineRows, held: &mut [usize; 64]) -> Result<usize, Verdict>
    requires { length held.old ≡ 64 }
    ensures answer { result ≡ measured_is (wide_under fine.now.table.now.width 1 (parts_at fine.now 0)) (length (bytes_at fine.now 0)) }
    ensures holds { IfOk result (λ total. Holds fine.now held.new) }
    ensures long { length held.new ≡ 64 }
{
    let width = fine.table.width;
    let top = field_top(width);
    let mut sums = [0usize; 5];
    for i in (0..fine.table.count).rev() {
        let cell = fine.table.cell(i);
        let kind = cell.kind();
        let level = cell.level();
        let v = fine.rows[i].value;
        let below = sums[level as usize];
        if top <= content_len(kind, v, below) {
            return Err(Verdict::Wide);
        }
        held[i] = below;
        count_in(
            &mut sums,
            level,
            head_len(width, v) + content_len(kind, v, 0),
        );
    }
    Ok(sums[0])
}
