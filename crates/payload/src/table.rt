// The type table, its rules, and its rows as numbers.

ghost use Rattle.std.specs.Prelude.{◌≡◌, ◌≢◌, true, false, ℕ, ◌+◌, ◌*◌, ◌/◌, ◌≤◌, ◌<◌, length, get_or, leb};
ghost use Rattle.std.specs.Prelude.{MatchOption, IfSome, is_some, unwrap_or};
ghost use Rattle.wire.specs.Choose.{and};
ghost use Rattle.payload.specs.Table.{elem_fits, struct_fits, row_fits, level_most, width_fits, idents_differ, table_fits};
ghost use Rattle.payload.specs.Cells.{cell_of, ident_in, level_in, kind_in, elem_in, required_in, row_in, table_in};
ghost use Rattle.payload.specs.Cells.{FineRow, FineTable, SoundTable, Checked, search_at, Within, Stops};

use wire::kind;

// A type row: level 1 to 4, Data ID 0 to 4,095, kind 1 to 14, an array's element kind, and whether the row is required. Plain numbers and
// no enums: a row of C may have any, and a wrong one gets the verdict of a wrong table.
#[derive(Clone, Copy)]
pub struct TypeRow {
    pub level: u8,
    pub ident: u16,
    pub kind: u8,
    pub elem: u8,
    pub required: bool,
}

impl TypeRow {
    // A row that no table may have: what stands in an array behind a table's rows, or for a row that is none.
    pub const NONE: TypeRow = TypeRow {
        level: 0,
        ident: 0,
        kind: 0,
        elem: 0,
        required: false,
    };
}

// A type table: the first `count` of its rows, depth first; the width of its length fields; and whether the writer uses the static wire
// type 4 or tells the width in the tag. An array and a count, for there is no heap; a wrong count gets the verdict of a wrong table.
#[derive(Clone, Copy)]
pub struct Table {
    pub rows: [TypeRow; 64],
    pub count: usize,
    pub width: usize,
    pub fixed: bool,
}

// A checked type table: its rows as cells, one number each, how many rows it has, and the width of its length fields. What `of` gives are a
// table's that keeps its rules; each value has what readers and writers need. An array and a count, for there is no heap.
#[derive(Clone, Copy)]
pub struct CheckedTable {
    pub cells: [u64; 64],
    pub count: usize,
    pub width: usize,
    pub ghost sound: { SoundTable cells count width },
}

// A cell of a checked table: one number whose row keeps the rules, so that what is asked of it needs no condition. Its methods are the
// five functions below, which answer for any number.
#[derive(Clone, Copy)]
pub(crate) struct Cell {
    pub bits: u64,
    pub ghost fine: { FineRow (row_in bits) },
}

impl Cell {
    // The level of the row.
    pub(crate) fn level(self) -> u64
        ensures { result ≡ level_in self.bits }
    {
        level_in(self.bits)
    }

    // The kind of the row.
    pub(crate) fn kind(self) -> usize
        ensures { result ≡ kind_in self.bits }
    {
        kind_in(self.bits)
    }

    // The element kind of the row.
    pub(crate) fn elem(self) -> usize
        ensures { result ≡ elem_in self.bits }
    {
        elem_in(self.bits)
    }

    // The Data ID of the row.
    pub(crate) fn ident(self) -> u64
        ensures { result ≡ ident_in self.bits }
    {
        ident_in(self.bits)
    }

    // Whether the row is required.
    pub(crate) fn is_required(self) -> bool
        ensures { result ≡ required_in self.bits }
    {
        is_required(self.bits)
    }
}

impl CheckedTable {
    // The checked form of a table that keeps its rules. A reading and a writing would each copy the cells once more where it is a call.
    #[inline(always)]
    pub fn of(t: &Table) -> Option<CheckedTable>
        ensures { MatchOption result (table_fits t.now ≡ false) (λ c.
            (c.count ≡ t.now.count) × (c.width ≡ t.now.width) × Checked t.now c.cells true) }
    {
        let mut cells = [0u64; 64];
        if !checked(t, &mut cells) {
            return None;
        }
        Some(CheckedTable {
            cells,
            count: t.count,
            width: t.width,
        })
    }

    // The cell of a row.
    pub(crate) fn cell(&self, i: usize) -> Cell
        requires { i < self.now.count }
        ensures { result.bits ≡ get_or self.now.cells i 0 }
    {
        Cell {
            bits: self.cells[i],
        }
    }

    // Where the rows of a level end that begin at `first`: at the first row above the level, or with the table.
    pub(crate) fn level_end(&self, first: usize, level: u64) -> usize
        requires { first ≤ self.now.count }
        ensures { Stops self.now.cells first result self.now.count level }
    {
        level_end(&self.cells, first, self.count, level)
    }

    // The row of a Data ID among the direct members of the level whose rows are those from `first` to `stop`.
    pub(crate) fn find(&self, first: usize, stop: usize, level: u64, ident: u64) -> Option<usize>
        requires { Stops self.now.cells first stop self.now.count level × (level < 16) × (ident < 4096) }
        ensures is { result ≡ search_at self.now.count self.now.cells level ident first }
        ensures within { Within self.now.cells first self.now.count level result }
    {
        find_in(&self.cells, first, stop, level, ident)
    }
}

// The level of a cell's row.
pub fn level_in(c: u64) -> u64
    ensures { result ≡ level_in c }
{
    c / 512 % 16
}

// The kind of a cell's row. It stays a type row's number: sizes and wire types are read by it from one table.
pub fn kind_in(c: u64) -> usize
    ensures { result ≡ kind_in c }
{
    (c / 32 % 16) as usize
}

// The element kind of a cell's row.
pub fn elem_in(c: u64) -> usize
    ensures { result ≡ elem_in c }
{
    (c / 2 % 16) as usize
}

// The Data ID of a cell's row.
pub fn ident_in(c: u64) -> u64
    ensures { result ≡ ident_in c }
{
    c / 8192
}

// Whether a cell's row is required.
pub fn is_required(c: u64) -> bool
    ensures { result ≡ required_in c }
{
    c % 2 == 1
}

// The cell of a row: a walk copies and compares one number where a row has five.
fn packed(r: TypeRow) -> u64
    requires { FineRow r }
    ensures { result ≡ cell_of r }
{
    ((u64::from(r.ident) * 16 + u64::from(r.level)) * 16 + u64::from(r.kind)) * 32
        + u64::from(r.elem) * 2
        + u64::from(r.required)
}

// The first of these rows that has a key, which is level and Data ID.
fn first_with(cells: &[u64], key: u64) -> Option<usize>
    ensures found { IfSome result (λ i. (i < length cells.now) × (get_or cells.now i 0 / 512 ≡ key)) }
    ensures before { (k : ℕ) → k < unwrap_or result (length cells.now) → get_or cells.now k 0 / 512 ≢ key }
{
    cells.iter().position(|cell| *cell / 512 == key)
}

// Where the rows of a level end that begin at `first`: at the first row above the level, or with the table.
// For this crate's own walk.
pub fn level_end(cells: &[u64; 64], first: usize, count: usize, level: u64) -> usize
    requires { (first ≤ count) × (count ≤ 64) }
    ensures { Stops cells.now first result count level }
{
    for i in first..count {
        if level_in(cells[i]) < level {
            return i;
        }
    }
    count
}

// The row of a Data ID among the direct members of the level whose rows are those from `first` to `stop`.
// For this crate's own walk.
pub fn find_in(
    cells: &[u64; 64],
    first: usize,
    stop: usize,
    level: u64,
    ident: u64,
) -> Option<usize>
    requires { (first ≤ stop) × (stop ≤ 64) × (level < 16) × (ident < 4096)
        × ((i : ℕ) → first ≤ i → i < stop → level ≤ level_in (get_or cells.now i 0)) }
    ensures is { result ≡ search_at stop cells.now level ident first }
    ensures within { Within cells.now first stop level result }
{
    let key = ident * 16 + level;
    let mut at = first;
    // Four rows at a time: a search of four is unrolled, and takes 5 instructions for a row; one search of all takes 9, as measured.
    while at + 4 <= stop {
        if let Some(n) = first_with(&cells[at..at + 4], key) {
            return Some(at + n);
        }
        at += 4;
    }
    let n = first_with(&cells[at..stop], key)?;
    Some(at + n)
}

// Whether a row of the same level and Data ID comes behind a row, before its level ends.
fn comes_again(cell: u64, behind: &[u64]) -> bool
    ensures { result ≡ is_some (search_at (length behind.now) behind.now (level_in cell) (ident_in cell) 0) }
{
    for other in behind {
        if *other / 512 == cell / 512 {
            return true;
        }
        if level_in(*other) < level_in(cell) {
            return false;
        }
    }
    false
}

// The level that the next row may have at most: one more behind a struct.
fn level_most(r: TypeRow) -> u8
    requires { r.level ≤ 4 }
    ensures { result ≡ level_most r }
{
    if usize::from(r.kind) == kind::STRUCT {
        return r.level + 1;
    }
    r.level
}

// Whether a row's element kind fits its kind, and a struct its level: behind a struct at level 4 a row could have level 5.
fn elem_fits(r: TypeRow) -> bool
    requires { r.level ≤ 4 }
    ensures { result ≡ and (elem_fits r) (struct_fits r) }
{
    if usize::from(r.kind) == kind::ARRAY {
        return matches!(r.elem, 1..=11);
    }
    r.elem == 0 && level_most(r) <= 4
}

// Whether a row keeps its rules, where its level may be at most `most`.
fn row_fits(r: TypeRow, most: u8) -> bool
    requires { most ≤ 4 }
    ensures { result ≡ row_fits most r }
{
    1 <= r.level && r.level <= most && r.ident <= 4095 && matches!(r.kind, 1..=14) && elem_fits(r)
}

// Whether the Data IDs differ among the direct members of each struct and among the rows of level 1: each row is searched behind itself.
fn all_differ(cells: &[u64]) -> bool
    requires { FineTable (length cells.now) cells.now }
    ensures { result ≡ idents_differ (table_in (length cells.now) cells.now) }
{
    for (i, cell) in cells.iter().enumerate() {
        if comes_again(*cell, &cells[i + 1..]) {
            return false;
        }
    }
    true
}

// Whether Data IDs differ in their last six bits already: a row leaves its struct's number at the place of its level and bits.
fn spread(cells: &[u64]) -> bool
    requires { FineTable (length cells.now) cells.now }
    ensures { result ≡ true → idents_differ (table_in (length cells.now) cells.now) ≡ true }
{
    // Arrays by place in fixed memory, and no set or map: there is no heap.
    let mut marks = [0u8; 320];
    let mut owners = [1u8; 6];
    for (i, cell) in cells.iter().enumerate() {
        let l = level_in(*cell) as usize;
        let place = l * 64 + (ident_in(*cell) % 64) as usize;
        let owner = owners[l];
        if marks[place] == owner {
            return false;
        }
        marks[place] = owner;
        owners[l + 1] = (i + 2) as u8;
    }
    true
}

// Whether the Data IDs differ among the direct members of each struct and among the rows of level 1; most tables need no search for it.
fn idents_differ(cells: &[u64]) -> bool
    requires { FineTable (length cells.now) cells.now }
    ensures { result ≡ idents_differ (table_in (length cells.now) cells.now) }
{
    spread(cells) || all_differ(cells)
}

// Whether a length width is 1, 2 or 4, as length fields have it.
fn width_fits(w: usize) -> bool
    ensures { result ≡ width_fits w }
{
    matches!(w, 1 | 2 | 4)
}

// Whether Data IDs still rise: they did before, and `last`, one more than the last of the struct, is at most this one.
fn rises(before: bool, last: u64, ident: u64) -> bool
    ensures { result ≡ and before (leb last ident) }
{
    before && last <= ident
}

// Whether a table keeps its rules, with its rows' cells. Data IDs that rise in each struct differ; only others are compared one by one.
// The cells are filled where the caller has them: an Option of them would be one more copy of an array for each datagram.
fn checked(t: &Table, cells: &mut [u64; 64]) -> bool
    requires { length cells.old ≡ 64 }
    ensures { Checked t.now cells.new result }
{
    let n = t.count;
    if n == 0 {
        return false;
    }
    if 64 < n {
        return false;
    }
    if !width_fits(t.width) {
        return false;
    }
    // One place for each level in fixed memory: there is no heap.
    let mut lasts = [0u64; 6];
    let mut rising = true;
    let mut most: u8 = 1;
    for i in 0..n {
        let r = t.rows[i];
        if !row_fits(r, most) {
            return false;
        }
        cells[i] = packed(r);
        let l = usize::from(r.level);
        let id = u64::from(r.ident);
        rising = rises(rising, lasts[l], id);
        lasts[l] = id + 1;
        lasts[l + 1] = 0;
        most = level_most(r);
    }
    if rising {
        return true;
    }
    idents_differ(&cells[..n])
}

// Whether a table keeps its rules, for a caller that has no use for the cells.
pub fn table_fits(t: Table) -> bool
    ensures { result ≡ table_fits t }
{
    let mut cells = [0u64; 64];
    checked(&t, &mut cells)
}
