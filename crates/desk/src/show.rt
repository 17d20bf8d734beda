// A datagram, shown: the verdict's line, the header's, and one for each row with its name.

use super::sheet::Sheet;
use super::{value_out, verdict_word};
use message::read::Head;
use message::{part, read};
use payload::read::Reading;
use std::io;
use std::io::Write;
use text::say::OrNone;
use wire::verdict::Verdict;

// The first line: verdict, return code, place and count of skipped members, and the verdict in words, with its place where it has one.
fn write_verdict<W: Write>(out: &mut W, reading: &Reading) -> io::Result<()> {
    let verdict = reading.verdict;
    let number = verdict.number();
    let code = OrNone(verdict.return_code());
    write!(
        out,
        "verdict {number} code {code} place {} skipped {}",
        reading.place, reading.skipped
    )?;
    write!(out, " {}", verdict_word::word(verdict))?;
    if verdict_word::has_place(verdict) {
        write!(out, " at payload byte {}", reading.place)?;
    }
    writeln!(out, "{}", verdict_word::why(verdict))
}

// The header's line: what was found, and how many bytes follow the message.
fn write_head<W: Write>(out: &mut W, head: Head) -> io::Result<()> {
    let client = head.client.0;
    let session = head.session.0;
    let code = head.found_code;
    writeln!(
        out,
        "client {client} session {session} code {code} after {}",
        head.rest.len
    )
}

// A line for each row of the table, whatever the verdict: its number, its Data ID, its name, its value.
fn write_rows<W: Write>(
    out: &mut W,
    reading: &Reading,
    sheet: &Sheet,
    payload: &[u8],
) -> io::Result<()> {
    for (before, (named, row)) in sheet.rows.iter().zip(&reading.rows).enumerate() {
        write!(out, "{} {} {} ", before + 1, named.ident, named.name)?;
        value_out::write(out, *row, named.kind, payload)?;
        out.write_all(b"\n")?;
    }
    Ok(())
}

// Shows a datagram, and answers its verdict.
pub fn datagram<W: Write>(out: &mut W, datagram: &[u8], sheet: &Sheet) -> io::Result<Verdict> {
    let answer = read::read_by_value(datagram, sheet.expected, sheet.table(), 64);
    write_verdict(out, &answer.reading)?;
    write_head(out, answer.head)?;
    write_rows(
        out,
        &answer.reading,
        sheet,
        part::payload_part(datagram, answer.head),
    )?;
    Ok(answer.reading.verdict)
}
