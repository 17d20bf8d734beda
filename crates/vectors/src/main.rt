// Runs the cases that standard input has and writes what the library answers, both in the form of docs/CASES.md.
#![tactic(auto)]

mod case;
mod lent;
mod line;
mod lines;
mod output;
mod setting;
mod show;

use line::Bytes;
use lines::{LINE_MOST, Lines};
use output::Output;
use setting::Setting;
use std::io::{self, Read, Write};

// Runs each line.
fn run<S: Read + Drop, W: Write>(source: S, out: &mut W) -> io::Result<()> {
    let mut buf = [0; LINE_MOST];
    let mut lines = Lines::new(source);
    let mut setting = Setting::new();
    let mut bytes = Bytes::new();
    for _ in 0..u64::MAX {
        let Some(line) = lines.next(&mut buf) else {
            break
        };
        case::run_line(line, &mut bytes, &mut setting, out)?;
    }
    Ok(())
}

// Where the answers can't be written the program ends without a word: who compares them sees what is missing.
fn main(rt: HostRuntime) {
    let _ = run(rt.stdin(), &mut Output::new(rt.stdout()));
}
