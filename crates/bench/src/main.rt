// Reads or writes one message as often as its input says, and writes the last answer. bench/run counts the instructions that this takes.
#![tactic(auto)]

mod input;
mod lent;
mod show;

// Where the datagram or the content begins.
const CONTENT_AT: usize = 2048;

// Runs what the input says: bench/workloads.py has what stands where.
fn run(b: &[u8; 4096]) {
    let t = input::table(b);
    let times = input::repeats(b);
    let behind = &b[CONTENT_AT..];
    let bytes = &behind[..input::size(b).min(behind.len())];
    let mut rows = input::rows(b);
    if b[0] == b'r' {
        let last = lent::read_often(bytes, input::expected(b), t, &mut rows, times);
        show::read(last, &rows[..input::count(b)]);
    } else {
        let mut buffer = [0; 2048];
        let out = &mut buffer[..input::room(b).min(2048)];
        let lent = &rows[..input::count(b)];
        let last = lent::write_often(input::header(b), lent, t, bytes, out, times);
        show::written(last, out);
    }
}

// The input is a form of 4,096 bytes; what is missing of it is 0.
fn main() {
    let mut b = [0; 4096];
    io::read_full(0, &mut b);
    run(&b);
}
