// What the program does, with what it reads and writes.

use super::complaint::{Complaint, Fault};
use super::files::{self, Content, DIGITS_ROOM, ROOM};
use super::make::MESSAGE_MOST;
use super::sheet::Sheet;
use super::tally::Tally;
use super::values::Values;
use super::{make, show, table_file};
use std::io;
use std::io::{Input, Write};
use std::rt::{Env, Files};
use text::argument::{Argument, Arguments};
use text::file::Inputs;
use text::word;

// What the program is asked for.
#[derive(Clone, Copy)]
enum Command {
    Show,
    ShowHex,
    Make,
}

const COMMANDS: [(&str, Command); 3] = [
    ("show", Command::Show),
    ("show-hex", Command::ShowHex),
    ("make", Command::Make),
];

const USAGE: &str =
    "usage: desk show TABLE [FILE...], desk show-hex TABLE [FILE...], desk make TABLE [VALUES]";

// An argument. One that is missing or too long has no bytes, and is the name of no file.
fn argument<V: Env>(arguments: &Arguments<'_, V>, i: usize) -> Argument {
    arguments.get(i).unwrap_or_default()
}

// What the first argument asks for.
fn asked<V: Env>(arguments: &Arguments<'_, V>) -> Option<Command> {
    word::named(&COMMANDS, argument(arguments, 1).as_bytes())
}

// The files that are read, standard output and standard error.
#[derive(Drop)]
pub struct Program<'a, R, O, E> {
    inputs: Inputs<'a, R>,
    out: O,
    err: E,
}

impl<'a, R: Files + Input, O: Write, E: Write> Program<'a, R, O, E> {
    // With nothing read or written yet.
    pub fn new(rt: &'a R, out: O, err: E) -> Program<'a, R, O, E> {
        Program {
            inputs: Inputs::new(rt),
            out,
            err,
        }
    }

    // Says something on standard error. Where even that can't be written, nobody can be told.
    fn say(&mut self, text: &str) {
        let _ = writeln!(self.err, "{text}");
    }

    // What came of a file; where nothing did, what is wrong with it is said in the same way.
    fn or_complain<T, F: Fault + Drop>(
        &mut self,
        path: &[u8],
        came: Result<T, Complaint<F>>,
    ) -> Option<T> {
        match came {
            Ok(value) => Some(value),
            Err(complaint) => {
                let _ = complaint.write(&mut self.err, path);
                None
            }
        }
    }

    // The sheet of a table file. This, `show_bytes`, `show_digits` and `make` are calls of their own: no two have their arrays at once.
    #[inline(never)]
    fn sheet(&mut self, path: &[u8]) -> Option<Sheet> {
        let mut room = [0; ROOM];
        let read = files::read(&mut self.inputs, path, Content::Table, &mut room);
        let text = self.or_complain(path, read)?;
        self.or_complain(path, table_file::read(text))
    }

    // The line that says which datagram follows, where there are several.
    fn title(&mut self, path: &[u8]) -> io::Result<()> {
        self.out.write_all(b"== ")?;
        self.out.write_all(path)?;
        self.out.write_all(b"\n")
    }

    // Shows the datagram of a file, and counts it.
    fn show_file(
        &mut self,
        path: &[u8],
        content: Content,
        is_one_of_many: bool,
        sheet: &Sheet,
        room: &mut [u8],
        tally: &mut Tally,
    ) -> io::Result<()> {
        let read = files::read_datagram(&mut self.inputs, path, content, room);
        let Some(datagram) = self.or_complain(path, read) else {
            tally.add_unread();
            return Ok(());
        };
        if is_one_of_many {
            self.title(path)?;
        }
        tally.add(show::datagram(&mut self.out, datagram, sheet)?);
        Ok(())
    }

    // Shows the datagrams that the arguments behind the table name, or the one on standard input, each in the same buffer.
    fn show<V: Env>(
        &mut self,
        arguments: &Arguments<'_, V>,
        content: Content,
        sheet: &Sheet,
        room: &mut [u8],
    ) -> io::Result<()> {
        let mut tally = Tally::new();
        let count = arguments.len();
        if count <= 3 {
            return self.show_file(b"-", content, false, sheet, room, &mut tally);
        }
        for i in 3..count {
            let path = argument(arguments, i);
            self.show_file(path.as_bytes(), content, 4 < count, sheet, room, &mut tally)?;
        }
        if 4 < count {
            // Each datagram has been shown: where this line can't be written, nothing is said.
            let _ = writeln!(self.out, "{tally}");
        }
        Ok(())
    }

    // Shows datagrams that have their bytes.
    #[inline(never)]
    fn show_bytes<V: Env>(
        &mut self,
        arguments: &Arguments<'_, V>,
        sheet: &Sheet,
    ) -> io::Result<()> {
        self.show(arguments, Content::Datagram, sheet, &mut [0; ROOM])
    }

    // Shows datagrams that are hexadecimal digits.
    #[inline(never)]
    fn show_digits<V: Env>(
        &mut self,
        arguments: &Arguments<'_, V>,
        sheet: &Sheet,
    ) -> io::Result<()> {
        self.show(arguments, Content::Digits, sheet, &mut [0; DIGITS_ROOM])
    }

    // The datagram of the values in a file, in a buffer.
    fn made<'b>(
        &mut self,
        path: &[u8],
        sheet: &Sheet,
        message: &'b mut [u8; MESSAGE_MOST],
    ) -> Option<&'b [u8]> {
        let mut room = [0; ROOM];
        let read = files::read(&mut self.inputs, path, Content::Values, &mut room);
        let text = self.or_complain(path, read)?;
        let mut values = Values::new();
        let read = values.read(text, sheet);
        self.or_complain(path, read)?;
        self.or_complain(path, make::datagram(&values, sheet, message))
    }

    // Makes the datagram of the values in a file.
    #[inline(never)]
    fn make(&mut self, path: &[u8], sheet: &Sheet) -> io::Result<()> {
        match self.made(path, sheet, &mut [0; MESSAGE_MOST]) {
            Some(datagram) => self.out.write_all(datagram),
            None => Ok(()),
        }
    }

    // Does what is asked under a sheet.
    fn follow<V: Env>(
        &mut self,
        command: Command,
        arguments: &Arguments<'_, V>,
        sheet: &Sheet,
    ) -> io::Result<()> {
        match command {
            Command::Show => self.show_bytes(arguments, sheet),
            Command::ShowHex => self.show_digits(arguments, sheet),
            Command::Make if arguments.len() <= 3 => self.make(b"-", sheet),
            Command::Make => self.make(argument(arguments, 3).as_bytes(), sheet),
        }
    }

    // Does what is asked under the table of a file.
    fn run_under<V: Env>(&mut self, command: Command, path: &[u8], arguments: &Arguments<'_, V>) {
        let Some(sheet) = self.sheet(path) else {
            return;
        };
        if self.follow(command, arguments, &sheet).is_err() {
            self.say("standard output cannot be written");
        }
    }

    // Does what the arguments ask for.
    pub fn run<V: Env>(&mut self, arguments: &Arguments<'_, V>) {
        match asked(arguments) {
            Some(command) => {
                let path = argument(arguments, 2);
                self.run_under(command, path.as_bytes(), arguments);
            }
            None => self.say(USAGE),
        }
    }
}
