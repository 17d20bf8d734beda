// Files by what they have: a table, values, or a datagram as bytes or as hexadecimal digits.

ghost use Rattle.std.specs.Prelude.{◌≡◌, ◌≤◌, ◌<◌, IfOk, length};

use super::complaint::{Complaint, Fault};
use super::hex;
use std::io::Write;
use std::rt::Files;
use std::{fmt, io};
use text::failure::Reason;
use text::file::Inputs;
use text::input::InputError;

// What a file has.
#[derive(Clone, Copy)]
pub enum Content {
    Table,
    Values,
    Datagram,
    Digits,
}

impl Content {
    // The most bytes that are read.
    fn most(self) -> usize
        ensures digits { result ≤ 262143 }
        ensures others { ¬ (self ≡ Content.Digits) → result ≤ 65535 }
    {
        match self {
            Content::Table | Content::Values | Content::Datagram => 65535,
            Content::Digits => 262143,
        }
    }
}

// Behind a number of bytes: what has so many at most.
impl fmt::Display for Content {
    fn fmt<W: fmt::Write>(&self, f: &mut fmt::Formatter<W>) -> fmt::Result {
        f.write_str(match self {
            Content::Table => "a table file has",
            Content::Values => "a file of values has",
            Content::Datagram => "a datagram has",
            Content::Digits => "is read as hexadecimal digits",
        })
    }
}

// Why there is nothing of a file.
#[derive(Drop)]
pub enum FileFault {
    Unread(io::Error),
    Long(Content),
    OddDigits,
    NoDigit,
}

impl Fault for FileFault {
    fn write<W: Write>(&self, out: &mut W) -> io::Result<()> {
        match self {
            FileFault::Unread(error) => write!(out, "{}", Reason(error)),
            FileFault::Long(content) => write!(
                out,
                "longer than {} bytes, the most that {content}",
                content.most()
            ),
            FileFault::OddDigits => write!(out, "an odd number of hexadecimal digits"),
            FileFault::NoDigit => {
                write!(
                    out,
                    "something other than hexadecimal digits and white space"
                )
            }
        }
    }
}

// The most bytes that are read of a file, and one more; of hexadecimal digits.
pub const ROOM: usize = 65536;

pub const DIGITS_ROOM: usize = 262144;

// The bytes of a file, in a buffer.
pub fn read<'b, R: Files + io::Input>(
    inputs: &mut Inputs<'_, R>,
    path: &[u8],
    content: Content,
    room: &'b mut [u8],
) -> Result<&'b [u8], Complaint<FileFault>>
    ensures room { IfOk result (λ bytes. length bytes.now ≤ length room.old) }
    ensures digits { IfOk result (λ bytes. length bytes.now ≤ 262143) }
    ensures others { ¬ (content ≡ Content.Digits) → IfOk result (λ bytes. length bytes.now ≤ 65535) }
{
    let len = room.len().min(content.most() + 1);
    inputs
        .read_whole_into(path, &mut room[..len])
        .map_err(|error| {
            Complaint::of_file(match error {
                InputError::TooLong => FileFault::Long(content),
                InputError::Unread(why) => FileFault::Unread(why),
            })
        })
}

// The datagram of a file, which has its bytes, or has them as hexadecimal digits. It is in a buffer, where bytes take the digits' place.
pub fn read_datagram<'b, R: Files + io::Input>(
    inputs: &mut Inputs<'_, R>,
    path: &[u8],
    content: Content,
    room: &'b mut [u8],
) -> Result<&'b [u8], Complaint<FileFault>>
    ensures { IfOk result (λ datagram. length datagram.now ≤ 65535) }
{
    match content {
        Content::Digits => {
            let len = read(inputs, path, content, room)?.len();
            hex::bytes_of(&mut room[..len]).map_err(|fault| Complaint::of_file(fault))
        }
        _ => read(inputs, path, content, room),
    }
}
