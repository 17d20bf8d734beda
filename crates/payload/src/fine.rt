// Rows that fit their table, as the writer's passes share them.

ghost use Rattle.std.specs.Prelude.{◌≡◌, ◌≤◌, ◌<◌, true, length, get_or};
ghost use Rattle.payload.specs.Cells.{level_in, table_in};
ghost use Rattle.payload.specs.Judging.{judged_of, is_fine};
ghost use Rattle.payload.specs.Sizes.{Wires};

use super::row::Row;
use super::table::CheckedTable;

// Rows that were judged fine under a checked table, with the content buffer that their runs lie in, and the wire type of what has a length
// field. What is measured and written is of this type, so that no pass has to ask again.
#[derive(Clone, Copy)]
pub struct FineRows<'a> {
    pub table: &'a CheckedTable,
    pub rows: &'a [Row; 64],
    pub content: &'a [u8],
    pub wire: u64,
    pub ghost some: { 0 < table.now.count },
    pub ghost first: { level_in (get_or table.now.cells 0 0) ≡ 1 },
    pub ghost wires: { Wires table.now.width wire },
    pub ghost lent: { table.now.count ≤ length rows.now },
    pub ghost fine: { is_fine (judged_of content.now (table_in table.now.count table.now.cells) rows.now) ≡ true },
}
