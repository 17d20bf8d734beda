// The cases, each told by its label's first word.

use super::line::{self, Bytes, Fields};
use super::setting::{Item, Setting};
use super::show;
use message::{read as message_read, write as message_write};
use payload::{read, table, write};
use std::io::{self, Write};

// Runs a line, whose bytes are put into those lent: it sets something, or it is a case, whose label and answer are written and handed on
// before the next line.
pub fn run_line<W: Write>(
    text: &[u8],
    bytes: &mut Bytes,
    setting: &mut Setting,
    out: &mut W,
) -> io::Result<()> {
    let (label, digits) = line::split_at_mark(text, b':');
    line::decode(digits, bytes);
    if let Some(item) = Item::of(label) {
        setting.set(item, bytes);
        return Ok(());
    }
    out.write_all(label)?;
    out.write_all(b"\n")?;
    let (word, _) = line::split_at_mark(label, b' ');
    run_case(word, bytes, setting, out)?;
    out.flush()
}

// Runs a case, and writes the answer.
fn run_case<W: Write>(word: &[u8], bytes: &[u8], set: &Setting, out: &mut W) -> io::Result<()> {
    let room = usize::from(set.room);
    let content = set.content.as_slice();
    match word {
        b"read-message" => {
            let reading = message_read::read_by_value(bytes, set.expected, set.table, room);
            show::message(&reading, set.room, out)
        }
        b"write-message" => {
            let mut buffer = [0xA5; line::MOST];
            let output = output_of(bytes, &mut buffer);
            let header = set.header;
            let written = message_write::write_by_value(
                header, set.rows, set.lent, set.table, content, output,
            );
            show::written(written, output, out)
        }
        b"write-payload" => {
            let mut buffer = [0xA5; line::MOST];
            let output = output_of(bytes, &mut buffer);
            let written = write::write_payload(set.rows, set.lent, set.table, content, output);
            show::written(written, output, out)
        }
        b"check-table" => show::table(table::table_fits(set.table), out),
        _ => show::payload(&read::read_payload(bytes, set.table, room), &set.table, out),
    }
}

// The output of a case that writes: as long as its two bytes say.
fn output_of<'a>(bytes: &[u8], buffer: &'a mut [u8]) -> &'a mut [u8] {
    let end = usize::from(Fields(bytes).two()).min(buffer.len());
    &mut buffer[..end]
}
