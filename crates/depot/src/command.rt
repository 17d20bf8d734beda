// What the program is asked for, by its arguments. The command is the first, behind the program's name, and its archive the second.

ghost use Rattle.std.specs.Prelude.{◌≤◌, IfOk};

use super::complaint::{Complaint, Said, or_say};
use super::reason::Asked;
use std::io::Write;
use std::rt::Env;
use text::argument::{Argument, Arguments};
use text::number::NumberError;
use text::{number, word};

// The first argument that can be the name of a further archive, where each has a line of its own; and of a file that is added.
pub const ARCHIVES_AT: usize = 2;

pub const FILES_AT: usize = 3;

// What a command's name says of it.
#[derive(Clone, Copy)]
enum Name {
    List,
    Verify,
    Take { with_line: bool },
    Find { with_line: bool },
    Add,
}

const NAMES: [(&str, Name); 7] = [
    ("list", Name::List),
    ("verify", Name::Verify),
    ("take", Name::Take { with_line: false }),
    ("take-line", Name::Take { with_line: true }),
    ("find", Name::Find { with_line: false }),
    ("find-line", Name::Find { with_line: true }),
    ("add", Name::Add),
];

// A command with what it is asked of.
#[derive(Clone, Copy)]
pub enum Command<'a> {
    List {
        archive: &'a [u8],
    },
    Verify,
    Message {
        archive: &'a [u8],
        asked: Asked,
        with_line: bool,
    },
    Add {
        archive: &'a [u8],
    },
}

// The words of a command line that say what is asked: the command's name, its archive and the next, none where it is missing; and how many
// there are. Of these only the archive's is needed behind the line.
#[derive(Clone, Copy)]
pub struct Line<'a, 'w> {
    pub name: &'w [u8],
    pub archive: &'a [u8],
    pub next: &'w [u8],
    pub count: usize,
}

// An argument. One that is missing has no bytes. A call of its own, so that what it is made in takes no room in its callers' frames.
#[inline(never)]
pub fn argument<E: Env>(arguments: &Arguments<'_, E>, i: usize) -> Argument {
    arguments.get(i).unwrap_or_default()
}

// The first argument that is too long. It is none that is cut short.
pub fn long_argument<E: Env>(arguments: &Arguments<'_, E>) -> Option<usize> {
    (1..arguments.len()).find(|index| arguments.is_longer(*index))
}

// The command of the arguments with an archive, or what is wrong with them, which is said. A call of its own, so that the words that are
// needed for this alone take no room in its caller's frame.
#[inline(never)]
pub fn asked<'a, E: Env>(
    arguments: &Arguments<'_, E>,
    archive: &'a [u8],
    err: &mut impl Write,
) -> Result<Command<'a>, Said> {
    let name = argument(arguments, 1);
    let next = argument(arguments, 3);
    let line = Line {
        name: name.as_bytes(),
        archive,
        next: next.as_bytes(),
        count: arguments.len().saturating_sub(1),
    };
    or_say(parse(line), err)
}

// The command that a line says.
pub fn parse<'a, 'w>(line: Line<'a, 'w>) -> Result<Command<'a>, Complaint<'w>> {
    let archive = line.archive;
    match (word::named(&NAMES, line.name), line.count) {
        (Some(Name::List), 2) => Ok(Command::List { archive }),
        (Some(Name::Verify), 2..) => Ok(Command::Verify),
        (Some(Name::Take { with_line }), 3) => Ok(Command::Message {
            archive,
            asked: by_number(line.next)?,
            with_line,
        }),
        (Some(Name::Find { with_line }), 3) => Ok(Command::Message {
            archive,
            asked: by_session(line.next)?,
            with_line,
        }),
        (Some(Name::Add), 3..) => Ok(Command::Add { archive }),
        _ => Err(Complaint::Usage),
    }
}

// Asks for the message of a number.
fn by_number(word: &[u8]) -> Result<Asked, Complaint<'_>> {
    Ok(Asked::Number(number_within(word, u64::MAX)?))
}

// Asks for the first message of a session.
fn by_session(word: &[u8]) -> Result<Asked, Complaint<'_>> {
    Ok(Asked::Session(number_within(word, 65535)? as u16))
}

// The number that a word says, which has a most.
fn number_within(word: &[u8], most: u64) -> Result<u64, Complaint<'_>>
    ensures { IfOk result (λ n. n ≤ most) }
{
    number::parse_within(word, most).map_err(|error| match error {
        NumberError::NotANumber => Complaint::NoNumber { word },
        NumberError::TooLarge => Complaint::Over { word, most },
    })
}

#[cfg(test)]
mod tests {
    use super::{Command, Line, long_argument, parse};
    use text::argument::Arguments;

    #[test]
    fn takes_the_words_of_a_command_line(rt: HostRuntime) {
        assert!(rt; long_argument(&Arguments::new(&rt)).is_none());
    }

    #[test]
    fn understands_adding(rt: HostRuntime) {
        let line = Line {
            name: b"ADD",
            archive: b"a",
            next: b"1",
            count: 3,
        };
        assert!(rt; matches!(parse(line), Ok(Command::Add { .. })));
    }
}
