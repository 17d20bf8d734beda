// The desk's program: shows datagrams under a type table that a person wrote, and makes a datagram from values.
//
//     desk show TABLE [FILE...]       desk show-hex TABLE [FILE...]       desk make TABLE VALUES
//
// The exit status is always 0: whatever went wrong stands on standard error, and nothing else does.

#![tactic(auto)]

mod complaint;
mod content;
mod files;
mod float;
mod hex;
mod kind;
mod line;
mod make;
mod number;
mod program;
mod row_fault;
mod row_line;
mod setting;
mod sheet;
mod show;
mod table_fault;
mod table_file;
mod tally;
mod value;
mod value_fault;
mod value_out;
mod values;
mod verdict_word;

use program::Program;
use text::argument::Arguments;

// Runs the program over the three streams.
fn main(rt: HostRuntime) {
    Program::new(&rt, rt.stdout(), rt.stderr()).run(&Arguments::new(&rt));
}
