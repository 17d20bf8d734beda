// What lent rows hold before a case.

use payload::row::{Row, Value};
use wire::number;

// What row i of those that are lent for reading holds, counted from 1.
pub fn lent_row(i: u8) -> Row {
    let bits = 100 + u32::from(i);
    let count = usize::from(i);
    let value = match i % 7 {
        1 => Value::Unsigned(u64::from(i)),
        2 => Value::Signed(-i64::from(i)),
        3 => Value::Float32(number::float32_of(bits)),
        4 => Value::Float64(number::float64_of(u64::from(bits))),
        5 => Value::Bytes {
            place: count,
            len: count,
        },
        6 => Value::Members,
        _ => Value::Absent,
    };
    Row {
        value,
        bits: u64::from(bits),
    }
}
