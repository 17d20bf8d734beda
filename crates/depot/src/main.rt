// The depot's program: archives of messages on disk.
//
//     depot list ARCHIVE     depot verify ARCHIVE...     depot take ARCHIVE N     depot find ARCHIVE SESSION     depot add ARCHIVE FILE...
//
// take-line and find-line write the message behind its line. The exit status is always 0: whatever went wrong stands on standard error, and
// nothing else does.

#![tactic(auto)]

ghost use Rattle.std.specs.Prelude.{◌≡◌, IfOk};
ghost use Rattle.archive.specs.Opening.{archive_of, opening_by};

mod command;
mod complaint;
mod diagnose;
mod layout;
mod library;
mod reason;
mod record;
mod show;
mod store;
mod trailer;

use archive::open::Opening;
use command::{ARCHIVES_AT, Command};
use complaint::{Complaint, Fault, Of, or_say};
use layout::ROOM;
use reason::Asked;
use std::io::Write;
use std::rt::{Env, Files};
use store::Adding;
use text::argument::Arguments;
use text::file::Inputs;

// The bytes of an archive, in a buffer, and their opening.
fn open<'b, R: Files + Input>(
    inputs: &mut Inputs<'_, R>,
    archive: &[u8],
    room: &'b mut [u8],
) -> Result<(&'b [u8], Opening), Fault>
    ensures { IfOk result (λ pair. pair.1 ≡ opening_by (archive_of pair.0.now)) }
{
    let file = inputs.read_start_into(archive, room)?;
    let opening = library::opened(file)?;
    Ok((file, opening))
}

// Writes the lines of an archive. Each command is a call of its own, so that it has no other's buffers in its frame.
#[inline(never)]
fn list<'a, R: Files + Input>(
    rt: &R,
    archive: &'a [u8],
    out: &mut impl Write,
) -> Result<(), Complaint<'a>> {
    let mut room = [0; ROOM];
    let (file, opening) = open(&mut Inputs::new(rt), archive, &mut room).of(archive)?;
    show::list(out, file, opening).map_err(|_| Complaint::Output)
}

// Writes a line of each archive, or says why it has none.
#[inline(never)]
fn verify<R: Files + Input, V: Env>(
    rt: &R,
    arguments: &Arguments<'_, V>,
    out: &mut impl Write,
    err: &mut impl Write,
) -> Result<(), Complaint<'static>> {
    let mut inputs = Inputs::new(rt);
    let mut room = [0; ROOM];
    for index in ARCHIVES_AT..arguments.len() {
        let name = command::argument(arguments, index);
        let archive = name.as_bytes();
        match open(&mut inputs, archive, &mut room).of(archive) {
            Ok((file, opening)) => show::verify(out, archive, file, opening).map_err(
                |_| Complaint::Output,
            )?,
            Err(complaint) => complaint.say(err),
        }
    }
    Ok(())
}

// Writes the message that is asked for.
#[inline(never)]
fn take<'a, R: Files + Input>(
    rt: &R,
    archive: &'a [u8],
    asked: Asked,
    with_line: bool,
    out: &mut impl Write,
) -> Result<(), Complaint<'a>> {
    let mut inputs = Inputs::new(rt);
    let mut room = [0; ROOM];
    let file = inputs.read_start_into(archive, &mut room).of(archive)?;
    let found = library::found(file, asked).of(archive)?;
    show::take(out, file, found, with_line).map_err(|_| Complaint::Output)
}

// Adds files to an archive. What goes wrong in that is said here, where there is the name of the new file.
#[inline(never)]
fn add<'a, R: Files + Input, V: Env>(
    rt: &R,
    archive: &'a [u8],
    arguments: &Arguments<'_, V>,
    err: &mut impl Write,
) -> Result<(), Complaint<'a>> {
    match Adding::new(archive) {
        Ok(adding) => {
            let _ = or_say(adding.run(rt, arguments, err), err);
            Ok(())
        }
        Err(fault) => Err(fault).of(archive),
    }
}

// Does what is asked for.
fn run<'a, R: Files + Input, V: Env>(
    rt: &R,
    command: Command<'a>,
    arguments: &Arguments<'_, V>,
    out: &mut impl Write,
    err: &mut impl Write,
) -> Result<(), Complaint<'a>> {
    match command {
        Command::List { archive } => list(rt, archive, out),
        Command::Verify => verify(rt, arguments, out, err),
        Command::Message {
            archive,
            asked,
            with_line,
        } => take(rt, archive, asked, with_line, out),
        Command::Add { archive } => add(rt, archive, arguments, err),
    }
}

// Does what the arguments ask for, none of which is too long, and says what goes wrong.
fn answer<R: Files + Input, V: Env>(
    rt: &R,
    arguments: &Arguments<'_, V>,
    out: &mut impl Write,
    err: &mut impl Write,
) {
    let archive = command::argument(arguments, 2);
    if let Ok(command) = command::asked(arguments, archive.as_bytes(), err) {
        let _ = or_say(run(rt, command, arguments, out, err), err);
    }
}

fn main(rt: HostRuntime) {
    let mut err = rt.stderr();
    let arguments = Arguments::new(&rt);
    match command::long_argument(&arguments) {
        Some(index) => Complaint::LongArgument { index }.say(&mut err),
        None => answer(&rt, &arguments, &mut rt.stdout(), &mut err),
    }
}
