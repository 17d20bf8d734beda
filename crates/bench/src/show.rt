// The answers, as the program in C writes them, so that the two can be compared byte for byte. No contract can speak of output.
//
// Numbers are printed one by one by the kit's io: bench/run links this program with read and write alone, so without a heap, and with
// std's formats over them LLVM copies the rows of each reading that is counted once more, which takes 445 instructions.

use message::rows::Answered;
use payload::row::{Row, Value};
use payload::write::Written;
use wire::part::Part;

// A number and a space.
fn put<N: Into<u64>>(n: N) {
    io::print_decimal(1, n.into());
    io::write_all(1, b" ");
}

// A part's place and length.
fn part(p: Part) {
    put(p.at as u64);
    put(p.len as u64);
}

// What a row shows, its number, float bits or place, and a run's length.
fn row(r: Row) {
    io::write_all(1, b"\n");
    match r.value {
        Value::Absent => put(0u64),
        Value::Unsigned(n) => {
            put(1u64);
            put(n);
        }
        Value::Signed(z) => {
            put(2u64);
            put(z.cast_unsigned());
        }
        Value::Float32(_) => {
            put(3u64);
            put(r.bits);
        }
        Value::Float64(_) => {
            put(4u64);
            put(r.bits);
        }
        Value::Bytes { place, len } => {
            put(5u64);
            put(place as u64);
            put(len as u64);
        }
        Value::Members => put(6u64),
    }
}

// The answer to a datagram, and the rows.
pub fn read(a: Answered, rows: &[Row]) {
    put(a.verdict.number());
    put(a.place as u64);
    put(a.skipped as u64);
    let h = a.head;
    put(h.client.0);
    put(h.session.0);
    put(h.found_code);
    part(h.payload);
    part(h.rest);
    for r in rows {
        row(*r);
    }
    io::write_all(1, b"\n");
}

// The answer to a writing, and the message.
pub fn written(w: Written, message: &[u8]) {
    put(w.verdict.number());
    put(w.len as u64);
    io::write_all(1, b"\n");
    io::write_all(1, &message[..w.len.min(message.len())]);
}
