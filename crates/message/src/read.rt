// Reading a message: the table and the room, the header, then the payload.

ghost use Rattle.std.specs.Prelude.{◌≡◌, ◌≤◌, length, IfOk};
ghost use Rattle.payload.specs.Reading.{cleared};
ghost use Rattle.message.specs.Reading.{unheaded, length_fails, header_verdict, payload_shown, head_at, message_of};
ghost use Rattle.message.specs.Opening.{header_is, end_in, headed_in};

use super::message_type::MessageType;
use payload::read;
use payload::read::Reading;
use payload::table::{CheckedTable, Table};
use wire::id::{ClientId, MethodId, ServiceId, SessionId};
use wire::part::Part;
use wire::verdict::Verdict;
use wire::{header, number};

// What the caller expects of a header.
#[derive(Clone, Copy)]
pub struct Expected {
    pub service: ServiceId,
    pub method: MethodId,
    pub interface: u8,
    pub kind: MessageType,
}

// What a header hands on as found, and the parts of the datagram; 0 and empty where the header isn't looked at, and no Option, for
// `HandsOn` says so of each field. `found_code` is the header's Return Code; the verdict's is another thing.
#[derive(Clone, Copy)]
pub struct Head {
    pub client: ClientId,
    pub session: SessionId,
    pub found_code: u8,
    pub payload: Part,
    pub rest: Part,
}

// The answer to a message: what the header hands on, and the payload's reading, whose verdict is the message's. No Result: on a refusal
// both are settled too (`OneAnswer`).
#[derive(Clone, Copy)]
pub struct MessageReading {
    pub head: Head,
    pub reading: Reading,
}

// Whether a Length is below 8, or the message past the datagram's end; what is left of the datagram is compared, so that no sum can wrap.
fn length_fails(length: u64, size: usize) -> bool
    requires { 16 ≤ size }
    ensures { result ≡ length_fails length size }
{
    length < 8 || ((size - 8) as u64) < length
}

// Whether a header is what the caller expects, in the verdicts' order.
fn check_header(d: &[u8], e: Expected) -> Result<(), Verdict>
    requires { 16 ≤ length d.now }
    ensures { result ≡ header_is (header_verdict d.now e) }
{
    if d[header::VERSION_AT] != header::VERSION {
        return Err(Verdict::Protocol);
    }
    if header::two_at(d, header::SERVICE_AT) != e.service.0 {
        return Err(Verdict::Service);
    }
    if d[header::INTERFACE_AT] != e.interface {
        return Err(Verdict::Interface);
    }
    if header::two_at(d, header::METHOD_AT) != e.method.0 {
        return Err(Verdict::Method);
    }
    if d[header::TYPE_AT] != e.kind.0 {
        return Err(Verdict::MessageType);
    }
    Ok(())
}

// The payload's part of a message that ends at `end`: none is given where the header is refused, or the payload for its size.
#[tactic(auto, using(crate::proofs::HeaderLaws::shown_given), unfolding(crate::specs::Reading::payload_shown))]
fn payload_shown(why: Verdict, end: usize) -> Part
    requires { 16 ≤ end }
    ensures { result ≡ payload_shown why end }
{
    match why {
        Verdict::Protocol
        | Verdict::Service
        | Verdict::Interface
        | Verdict::Method
        | Verdict::MessageType => Part { at: 0, len: 0 },
        Verdict::Large => Part { at: 0, len: 0 },
        _ => Part {
            at: header::LEN,
            len: end - header::LEN,
        },
    }
}

// What the header of a message that ends at `end` hands on, with the parts that a verdict gives.
fn head_at(d: &[u8], end: usize, why: Verdict) -> Head
    requires { (16 ≤ end) × (end ≤ length d.now) }
    ensures { result ≡ head_at d.now end why }
{
    Head {
        client: ClientId(header::two_at(d, header::CLIENT_AT)),
        session: SessionId(header::two_at(d, header::SESSION_AT)),
        found_code: d[header::CODE_AT],
        payload: payload_shown(why, end),
        rest: Part {
            at: end,
            len: d.len() - end,
        },
    }
}

// The answer to a message whose header isn't looked at.
fn unheaded(why: Verdict, filled: usize) -> MessageReading
    ensures { result ≡ unheaded (cleared filled why 0) }
{
    MessageReading {
        head: Head {
            client: ClientId(0),
            session: SessionId(0),
            found_code: 0,
            payload: Part { at: 0, len: 0 },
            rest: Part { at: 0, len: 0 },
        },
        reading: Reading::refused(why, 0, filled),
    }
}

// Where the message at a datagram's start ends, as its Length says.
fn message_end(d: &[u8]) -> Result<usize, Verdict>
    ensures is { result ≡ end_in d.now }
    ensures inside { IfOk result (λ end. (16 ≤ end) × (end ≤ length d.now)) }
{
    if d.len() < header::LEN {
        return Err(Verdict::Short);
    }
    let length = number::read_number(d, header::LENGTH_AT, 4);
    if length_fails(length, d.len()) {
        return Err(Verdict::Length);
    }
    Ok(length as usize + 8)
}

// The answer to a message that ends at `end`, under a checked table: the header's verdict, then the payload's.
fn headed(d: &[u8], e: Expected, table: &CheckedTable, end: usize) -> MessageReading
    requires { (16 ≤ end) × (end ≤ length d.now) }
    ensures { result ≡ headed_in d.now e table.now end }
{
    if let Err(why) = check_header(d, e) {
        return MessageReading {
            head: head_at(d, end, why),
            reading: Reading::refused(why, 0, table.count),
        };
    }
    let reading = read::read_checked(&d[header::LEN..end], table);
    MessageReading {
        head: head_at(d, end, reading.verdict),
        reading,
    }
}

// Reads the message at a datagram's start, where `room` value rows are lent. Any datagram, expectation, table and number of rows gets one
// answer, by value.
pub fn read_by_value(d: &[u8], e: Expected, t: Table, room: usize) -> MessageReading
    ensures { result ≡ message_of d.now e t room }
{
    if !e.kind.is_one() {
        return unheaded(Verdict::Table, 0);
    }
    let checked = CheckedTable::of(&t);
    let Some(table) = &checked else {
        return unheaded(Verdict::Table, 0);
    };
    if room < table.count {
        return unheaded(Verdict::Room, 0);
    }
    match message_end(d) {
        Err(why) => unheaded(why, table.count),
        Ok(end) => headed(d, e, table, end),
    }
}
