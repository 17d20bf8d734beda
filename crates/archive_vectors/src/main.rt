// Runs the archive cases that standard input has and writes what the library answers, both in the form of docs/CASES.md.

#![tactic(auto)]

ghost use Rattle.std.specs.Prelude.{◌^◌, ◌<◌, ◌≤◌, IfOk, length};

use archive::add::Kept;
use archive::find::Found;
use archive::open::Opening;
use archive::{add, find, open};
use std::io;
use std::io::{Read, Write};
use wire::id::SessionId;

// More bytes than a case's file or message has.
const ROOM: usize = 131072;

// More cases than an input has.
const CASES_MOST: usize = 1000000000;

// What is done in a case.
#[derive(Clone, Copy)]
enum Operation {
    Add,
    Close,
    Open,
    Read,
    Find,
}

impl From<u8> for Operation {
    fn from(code: u8) -> Operation {
        match code {
            1 => Operation::Add,
            2 => Operation::Close,
            3 => Operation::Open,
            4 => Operation::Read,
            _ => Operation::Find,
        }
    }
}

// A case: an operation with its file, its number (a size, a message's number or a Session ID) and its message. Both lie in what is lent for
// them.
#[derive(Drop)]
struct Case<'a> {
    operation: Operation,
    file: &'a mut [u8],
    number: u64,
    message: &'a [u8],
    ghost short: { length file.now ≤ 131072 },
}

// The answer to a case but for the file's bytes: a verdict's number and three numbers. Its form has 0 where an operation has no such.
#[derive(Clone, Copy)]
struct Answer {
    verdict: u8,
    numbers: [u64; 3],
}

impl From<Kept> for Answer {
    fn from(kept: Kept) -> Answer {
        Answer {
            verdict: kept.verdict.number(),
            numbers: [kept.size as u64, 0, 0],
        }
    }
}

impl From<Opening> for Answer {
    fn from(opening: Opening) -> Answer {
        Answer {
            verdict: opening.verdict.number(),
            numbers: [opening.size as u64, opening.entries as u64, 0],
        }
    }
}

impl From<Found> for Answer {
    fn from(found: Found) -> Answer {
        let message = found.message;
        Answer {
            verdict: found.verdict.number(),
            numbers: [found.number as u64, message.at as u64, message.len as u64],
        }
    }
}

// So many bytes of the input.
fn read_bytes<const N: usize>(input: &mut impl Read) -> io::Result<[u8; N]> {
    let mut bytes = [0; N];
    input.read_exact(&mut bytes)?;
    Ok(bytes)
}

// So many bytes, but not more than a buffer has, read into its start.
fn read_run<'a>(
    input: &mut impl Read,
    len: u32,
    room: &'a mut [u8; ROOM],
) -> io::Result<&'a mut [u8]>
    ensures { IfOk result (λ run. length run.now ≤ 131072) }
{
    let run = &mut room[..ROOM.min(len as usize)];
    input.read_exact(run)?;
    Ok(run)
}

// The case that stands next; an input that has none is at its end. It is read in four calls: up to each length, and what the length says.
fn read_case<'a>(
    input: &mut impl Read,
    file: &'a mut [u8; ROOM],
    message: &'a mut [u8; ROOM],
) -> io::Result<Case<'a>> {
    let head: [u8; 5] = read_bytes(input)?;
    let mut fields = &head[..];
    let [code]: [u8; 1] = read_bytes(&mut fields)?;
    let file = read_run(input, u32::from_be_bytes(read_bytes(&mut fields)?), file)?;
    let asked: [u8; 12] = read_bytes(input)?;
    let mut fields = &asked[..];
    let number = u64::from_be_bytes(read_bytes(&mut fields)?);
    let message = read_run(input, u32::from_be_bytes(read_bytes(&mut fields)?), message)?;
    Ok(Case {
        operation: Operation::from(code),
        file,
        number,
        message,
    })
}

// Does what a case asks.
fn answered(case: &mut Case) -> Answer {
    let number = case.number as usize;
    match case.operation {
        Operation::Add => Answer::from(add::add(case.file, number, case.message)),
        Operation::Close => Answer::from(add::close(case.file, number)),
        Operation::Open => Answer::from(open::open(case.file)),
        Operation::Read => Answer::from(find::read(case.file, number)),
        Operation::Find => Answer::from(find::find(case.file, SessionId((number % 65536) as u16))),
    }
}

// Writes an answer, and then the file's bytes.
fn write_answer(out: &mut impl Write, answer: Answer, file: &[u8]) -> io::Result<()>
    requires { length file.now < 2 ^ 32 }
{
    let mut head = [0; 29];
    let mut room = &mut head[..];
    room.write_all(&[answer.verdict])?;
    for number in answer.numbers {
        room.write_all(&number.to_be_bytes())?;
    }
    room.write_all(&(file.len() as u32).to_be_bytes())?;
    out.write_all(&head)?;
    out.write_all(file)
}

// Runs the case that stands next.
fn run_case(
    input: &mut impl Read,
    file: &mut [u8; ROOM],
    message: &mut [u8; ROOM],
    out: &mut impl Write,
) -> io::Result<()> {
    let mut case = read_case(input, file, message)?;
    let answer = answered(&mut case);
    let Case { file, .. } = case;
    write_answer(out, answer, file)
}

// Runs case after case, up to the input's end or a failed write.
fn main(rt: HostRuntime) {
    let mut input = rt.stdin();
    let mut out = rt.stdout();
    let mut file = [0; ROOM];
    let mut message = [0; ROOM];
    for _ in 0..CASES_MOST {
        if run_case(&mut input, &mut file, &mut message, &mut out).is_err() {
            return;
        }
    }
}
