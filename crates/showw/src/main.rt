// Shows one datagram: reads it from standard input under table W and prints the verdict and the five rows, as document 01 has them.
//
// A datagram has at most 65,535 bytes. A longer input, or one that can't be read, prints nothing but a message on standard error. The exit
// status is always 0: that nothing stands on standard output tells that no datagram was shown.

#![tactic(auto)]

mod show;
mod table_w;

use std::fmt;
use std::io::{Read, Write};
use text::input;
use text::input::InputError;

// A byte more than the most that a datagram has.
const ROOM: usize = 65536;

// Why no datagram is shown.
#[derive(Clone, Copy)]
enum ShowError {
    TooLong,
    Unread,
    Unwritten,
}

impl fmt::Display for ShowError {
    fn fmt<W: fmt::Write>(&self, f: &mut fmt::Formatter<W>) -> fmt::Result {
        f.write_str(match self {
            ShowError::TooLong =>
                "the input is longer than 65535 bytes, the most that a datagram has",
            ShowError::Unread => "cannot read standard input",
            ShowError::Unwritten => "cannot write standard output",
        })
    }
}

impl From<InputError> for ShowError {
    fn from(why: InputError) -> ShowError {
        match why {
            InputError::TooLong => ShowError::TooLong,
            InputError::Unread(_) => ShowError::Unread,
        }
    }
}

// Shows the datagram that is the whole of an input.
fn show_datagram<S: Read + Drop, W: Write>(source: S, out: &mut W) -> Result<(), ShowError> {
    let mut room = [0; ROOM];
    let datagram = input::read_whole_into(source, &mut room)?;
    let answer = table_w::read_w(datagram);
    show::write_answer(out, &answer, &table_w::table_w()).map_err(|_| ShowError::Unwritten)
}

fn main(rt: HostRuntime) {
    if let Err(why) = show_datagram(rt.stdin(), &mut rt.stdout()) {
        let _ = eprintln!(rt; "showw: {why}");
    }
}
