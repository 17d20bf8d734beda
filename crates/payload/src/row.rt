// Value rows.

ghost use Rattle.std.specs.Prelude.{◌≡◌};
ghost use Rattle.payload.specs.Row.{plain as plain_row, is_absent};

// What a row shows. A run of bytes is a place and a length.
#[derive(Clone, Copy)]
pub enum Value {
    Absent,
    Unsigned(u64),
    Signed(i64),
    Float32(f32),
    Float64(f64),
    Bytes { place: usize, len: usize },
    Members,
}

// A value row. A float's bits stand beside it; they decide in comparing and writing. All other rows that a reading sets have bits 0.
// Two fields, as the C interface hands them over: bits wider than their float get the verdict of a wrong value.
#[derive(Clone, Copy)]
pub struct Row {
    pub value: Value,
    pub bits: u64,
}

impl Row {
    // The row of a member that was not met.
    pub const ABSENT: Row = Row {
        value: Value::Absent,
        bits: 0,
    };

    // A row whose value has no bits beside it.
    pub fn plain(value: Value) -> Row
        ensures { result ≡ plain_row value }
    {
        Row { value, bits: 0 }
    }

    // Whether the row's member was not met, or is not to be written.
    pub fn is_absent(self) -> bool
        ensures { result ≡ is_absent self }
    {
        matches!(self.value, Value::Absent)
    }
}
