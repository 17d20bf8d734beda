// An answer in the form of document 01: a line for the verdict, then one for each row.

use payload::read::Reading;
use payload::row::{Row, Value};
use payload::table::Table;
use std::fmt::Display;
use std::io::Write;
use std::{fmt, io, iter};
use text::say::OrNone;

// What a row shows. Floats are shown by their bits; table W has none. desk and vectors say rows in other words, so each has its own.
#[derive(Clone, Copy)]
struct Shown(Row);

impl Display for Shown {
    fn fmt<W: fmt::Write>(&self, f: &mut fmt::Formatter<W>) -> fmt::Result {
        let bits = self.0.bits;
        match self.0.value {
            Value::Absent => write!(f, "absent"),
            Value::Unsigned(n) => write!(f, "unsigned {n}"),
            Value::Signed(z) => write!(f, "signed {z}"),
            Value::Float32(_) => write!(f, "float32 {bits:08x}"),
            Value::Float64(_) => write!(f, "float64 {bits:016x}"),
            Value::Bytes { place, len } => write!(f, "bytes {place} {len}"),
            Value::Members => write!(f, "members"),
        }
    }
}

// The first line: verdict, return code, place and count of skipped members.
fn write_verdict<W: Write>(out: &mut W, answer: &Reading) -> io::Result<()> {
    let verdict = answer.verdict.number();
    let code = OrNone(answer.verdict.return_code());
    let place = answer.place;
    let skipped = answer.skipped;
    writeln!(
        out,
        "verdict {verdict} code {code} place {place} skipped {skipped}"
    )
}

// Writes an answer: behind its first line one for each row of the table, whatever the verdict, with the row's number from 1 on, its Data ID and
// its value.
pub fn write_answer<W: Write>(out: &mut W, answer: &Reading, table: &Table) -> io::Result<()> {
    write_verdict(out, answer)?;
    let kinds = table.rows.iter().take(table.count);
    for (i, (kind, row)) in kinds.zip(answer.rows.iter()).enumerate() {
        let ident = kind.ident;
        writeln!(out, "{} {ident} {}", i + 1, Shown(*row))?;
    }
    Ok(())
}
