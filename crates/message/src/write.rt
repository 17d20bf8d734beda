// Writing a message: the payload behind the header's place, and then the header, which counts it. Nothing is written before all is settled.

ghost use Rattle.std.specs.Prelude.{◌≡◌, ◌≤◌, length};
ghost use Rattle.std.proofs.lemmas.List.Edits.{sets};
ghost use Rattle.payload.specs.Writing.{result_is, output_is};
ghost use Rattle.message.specs.Header.{header_bytes};
ghost use Rattle.message.specs.Writing.{sending_of, message_writing, message_output};

use super::header::Header;
use payload::row::Row;
use payload::table::Table;
use payload::write;
use payload::write::Written;
use wire::verdict::Verdict;
use wire::{header, number};

// The header's nine fields at their places, before a payload of n bytes.
fn put_header(out: &mut [u8], h: Header, n: usize)
    requires { (16 ≤ length out.old) × (n ≤ 1400) }
    ensures { out.new ≡ sets out.old 0 (header_bytes h n) }
{
    number::write_number(out, header::SERVICE_AT, 2, u64::from(h.service.0));
    number::write_number(out, header::METHOD_AT, 2, u64::from(h.method.0));
    number::write_number(out, header::LENGTH_AT, 4, (8 + n) as u64);
    number::write_number(out, header::CLIENT_AT, 2, u64::from(h.client.0));
    number::write_number(out, header::SESSION_AT, 2, u64::from(h.session.0));
    number::write_number(out, header::VERSION_AT, 1, u64::from(header::VERSION));
    number::write_number(out, header::INTERFACE_AT, 1, u64::from(h.interface));
    number::write_number(out, header::TYPE_AT, 1, u64::from(h.kind.0));
    number::write_number(out, header::CODE_AT, 1, u64::from(h.code));
}

// Writes the message of these rows, or says why it is refused. Where the output has no room for a header, the payload's writing is handed
// its end: there only whether the payload is refused counts.
fn send(
    h: Header,
    rows: &[Row; 64],
    room: usize,
    t: &Table,
    content: &[u8],
    out: &mut [u8],
) -> Result<usize, Verdict>
    ensures answer { result ≡ result_is (sending_of h rows.now room t.now content.now (length out.old)) }
    ensures output { out.new ≡ output_is out.old (sending_of h rows.now room t.now content.now (length out.old)) }
{
    if !h.kind.is_one() {
        return Err(Verdict::Table);
    }
    let len = out.len();
    let from = len.min(header::LEN);
    let n = write::write_rows(rows, room, t, content, &mut out[from..])?;
    if len < header::LEN {
        return Err(Verdict::Room);
    }
    put_header(out, h, n);
    Ok(header::LEN + n)
}

// Writes the message of these rows, of which `room` are lent, from the output's start. A refusal changes no byte.
pub fn write_by_value(
    h: Header,
    rows: [Row; 64],
    room: usize,
    t: Table,
    content: &[u8],
    out: &mut [u8],
) -> Written
    ensures { (result ≡ message_writing h rows room t content.now (length out.old))
        × (out.new ≡ message_output h rows room t content.now out.old) }
{
    Written::from(send(h, &rows, room, &t, content, out))
}
