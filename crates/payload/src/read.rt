// Reading a payload. A walker goes over the bytes by places, level by level, and keeps the row of each member that it meets.

ghost use Rattle.std.specs.Prelude.{◌≡◌, ◌+◌, ◌≤◌, ◌<◌, length, drop};
ghost use Rattle.wire.specs.Kind.{struct};
ghost use Rattle.payload.specs.Cells.{table_in, Stops};
ghost use Rattle.payload.specs.Reading.{cleared, checked_of, reading_of};
ghost use Rattle.payload.specs.Reading.{lacks as lacks_of};
ghost use Rattle.payload.specs.Walking.{types_in, met_in, inner_of, Ready, KnownRead, LevelRead, MemberRead};

use super::member;
use super::member::{Refusal, Span};
use super::row::{Row, Value};
use super::table::{CheckedTable, Table};
use wire::verdict::Verdict;
use wire::{kind, number, tag};

// The most bytes of a payload.
pub const PAYLOAD_MOST: usize = 1400;

// The answer to a reading: the verdict, its place, the count of skipped members, how many of the lent rows are set, and those rows. Rows
// beyond are absent. No Result: the theorem RefusalClears speaks of the fields on every refusal. An array and a count: there is no heap.
#[derive(Clone, Copy)]
pub struct Reading {
    pub verdict: Verdict,
    pub place: usize,
    pub skipped: usize,
    pub filled: usize,
    pub rows: [Row; 64],
}

impl Reading {
    // A refusal at a place: no member counts, and the first `filled` of the lent rows are set, to absent.
    pub fn refused(verdict: Verdict, place: usize, filled: usize) -> Reading
        ensures { result ≡ cleared filled verdict place }
    {
        Reading {
            verdict,
            place,
            skipped: 0,
            filled,
            rows: [Row::ABSENT; 64],
        }
    }
}

// A level: its number, its rows from `first` to `stop`, and its bytes.
#[derive(Clone, Copy)]
struct Level {
    number: u64,
    first: usize,
    stop: usize,
    span: Span,
}

// A walk over a payload's bytes under a checked table: the rows of the members that were met, and how many unknown ones were skipped.
#[derive(Clone, Copy)]
struct Walker<'a> {
    bytes: &'a [u8],
    table: &'a CheckedTable,
    rows: [Row; 64],
    skipped: usize,
}

impl Walker<'_> {
    // The level of the members of a struct, whose row and content these are.
    fn inner(&self, number: u64, row: usize, content: Span) -> Level
        requires { (number ≤ 4) × (row < self.now.table.now.count) }
        ensures is { result ≡ inner_of number row content result.stop }
        ensures stops { Stops self.now.table.now.cells (row + 1) result.stop self.now.table.now.count (number + 1) }
    {
        let first = row + 1;
        let number = number + 1;
        Level {
            number,
            first,
            stop: self.table.level_end(first, number),
            span: content,
        }
    }

    // Whether a required row of a level was not met. Each other such row is shown as absent: it began so, and no default takes its place.
    fn lacks(&mut self, level: Level) -> bool
        requires { Stops self.old.table.now.cells level.first level.stop self.old.table.now.count level.number
            × (length self.old.rows ≡ 64) }
        ensures is { result ≡ lacks_of level.number (drop level.first (types_in self.old)) (drop level.first (met_in self.old)) }
        ensures kept { self.new ≡ self.old }
    {
        for i in level.first..level.stop {
            if self.rows[i].is_absent() {
                let cell = self.table.cell(i);
                if cell.level() == level.number && cell.is_required() {
                    return true;
                }
                self.rows[i].value = Value::Absent;
            }
        }
        false
    }

    // The known member of a row, whose tag stands at a place: its end. A struct is met before its members are.
    #[cycle(walk)]
    fn read_known(
        &mut self,
        row: usize,
        wire: u64,
        at: usize,
        level: Level,
    ) -> Result<usize, Refusal>
        requires { Ready self.old at level × (at + 2 ≤ level.span.end) × (row < self.old.table.now.count) × (level.number ≤ 4) }
        ensures { KnownRead self.old row wire at level result self.new }
    {
        let cell = self.table.cell(row);
        let kind = cell.kind();
        if !kind::wire_fits(kind, wire) {
            return Err(Refusal {
                verdict: Verdict::Wire,
                place: at,
            });
        }
        if !self.rows[row].is_absent() {
            return Err(Refusal {
                verdict: Verdict::Twice,
                place: at,
            });
        }
        let rest = Span {
            from: at + 2,
            end: level.span.end,
        };
        let content = member::content_in(self.bytes, self.table.width, wire, rest)?;
        if kind == kind::STRUCT {
            self.rows[row] = Row::plain(Value::Members);
            let members = self.inner(level.number, row, content);
            self.read_level(members)?;
            Ok(members.span.end)
        } else {
            let shown = member::shown(self.bytes, cell, content)?;
            self.rows[row] = shown;
            Ok(content.end)
        }
    }

    // The member at a place: its end. An unknown one is skipped.
    #[cycle(walk)]
    fn read_member(&mut self, at: usize, level: Level) -> Result<usize, Refusal>
        requires { Ready self.old at level × (at < level.span.end) }
        ensures { MemberRead self.old at level result self.new }
    {
        let end = level.span.end;
        if end - at < 2 {
            return Err(Refusal {
                verdict: Verdict::TagCut,
                place: at,
            });
        }
        let tag = number::read_number(self.bytes, at, 2);
        let wire = tag::wire_of(tag);
        match self
            .table
            .find(level.first, level.stop, level.number, tag::ident_of(tag))
        {
            Some(row) => self.read_known(row, wire, at, level),
            None => {
                let rest = Span { from: at + 2, end };
                let unknown = member::content_in(self.bytes, self.table.width, wire, rest)?;
                self.skipped += 1;
                Ok(unknown.end)
            }
        }
    }

    // The members of a level, to its end.
    #[cycle(walk)]
    fn read_level(&mut self, level: Level) -> Result<(), Refusal>
        requires { Ready self.old level.span.from level }
        ensures { LevelRead self.old level.span.from level result self.new }
    {
        // No index is counted: each member says where it ends.
        let mut at = level.span.from;
        while at < level.span.end {
            at = self.read_member(at, level)?;
        }
        if self.lacks(level) {
            return Err(Refusal {
                verdict: Verdict::Missing,
                place: level.span.end,
            });
        }
        Ok(())
    }
}

// Reads a payload under a checked table. For the library's own readers.
pub fn read_checked(p: &[u8], table: &CheckedTable) -> Reading
    ensures { result ≡ checked_of p.now (table_in table.now.count table.now.cells) table.now.count table.now.width }
{
    let filled = table.count;
    if PAYLOAD_MOST < p.len() {
        return Reading::refused(Verdict::Large, 0, filled);
    }
    let mut walker = Walker {
        bytes: p,
        table,
        rows: [Row::ABSENT; 64],
        skipped: 0,
    };
    let level = Level {
        number: 1,
        first: 0,
        stop: filled,
        span: Span {
            from: 0,
            end: p.len(),
        },
    };
    if let Err(refusal) = walker.read_level(level) {
        return Reading::refused(refusal.verdict, refusal.place, filled);
    }
    Reading {
        verdict: Verdict::Accepted,
        place: 0,
        skipped: walker.skipped,
        filled,
        rows: walker.rows,
    }
}

// Reads a payload under a type table, where `room` value rows are lent. Any payload, table and number of rows gets one answer.
pub fn read_payload(p: &[u8], t: Table, room: usize) -> Reading
    ensures { result ≡ reading_of p.now t room }
{
    let checked = CheckedTable::of(&t);
    let Some(table) = &checked else {
        return Reading::refused(Verdict::Table, 0, 0);
    };
    if room < table.count {
        return Reading::refused(Verdict::Room, 0, 0);
    }
    read_checked(p, table)
}
