// Archives and messages on standard output: the lines of list and verify, and a message's bytes.

use super::layout;
use super::record::Records;
use super::trailer::Trailer;
use archive::find::Found;
use archive::open::Opening;
use archive::{find, form};
use std::io;
use std::io::Write;
use wire::header;

// The first line of an archive: its verdict, the sizes of the file and of its records, and the number of messages.
fn write_archive_line(out: &mut impl Write, file: &[u8], opening: Opening) -> io::Result<()> {
    writeln!(
        out,
        "verdict 0 size {} records {} messages {} accepted",
        file.len(),
        opening.size,
        opening.entries
    )
}

// A message's line: its number, its record's offset, its size, and the IDs of its header.
fn write_message_line(
    out: &mut impl Write,
    number: usize,
    at: usize,
    message: &[u8],
) -> io::Result<()> {
    let service = layout::two_at(message, header::SERVICE_AT);
    let method = layout::two_at(message, header::METHOD_AT);
    let client = layout::two_at(message, header::CLIENT_AT);
    let session = layout::two_at(message, header::SESSION_AT);
    writeln!(
        out,
        "{number} offset {at} size {} service 0x{service:04X} method 0x{method:04X} client {client} session {session}",
        message.len()
    )
}

// An archive's line, and behind it the line of each of its messages.
pub fn list(out: &mut impl Write, file: &[u8], opening: Opening) -> io::Result<()> {
    write_archive_line(out, file, opening)?;
    for record in Records::before(file, Trailer::of(file).size) {
        write_message_line(out, record.number, record.at, record.message)?;
    }
    Ok(())
}

// An archive's line behind its name, which need not be text.
pub fn verify(out: &mut impl Write, name: &[u8], file: &[u8], opening: Opening) -> io::Result<()> {
    out.write_all(name)?;
    write!(out, ": ")?;
    write_archive_line(out, file, opening)
}

// A message's bytes; where it is asked for, behind its line as a comment.
pub fn take(out: &mut impl Write, file: &[u8], found: Found, with_line: bool) -> io::Result<()> {
    let message = find::message_part(file, found);
    if with_line {
        write!(out, "# ")?;
        let at = found.message.at.saturating_sub(form::LENGTH_LEN);
        write_message_line(out, found.number, at, message)?;
    }
    out.write_all(message)
}
