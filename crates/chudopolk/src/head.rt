// What crosses beside rows and bytes: what is expected of a header, the fields of one to write, and the answers.

ghost use Rattle.std.specs.Prelude.{◌≡◌};
ghost use Rattle.chudopolk.specs.Head.{code_number};

use message::header::Header;
use message::message_type::MessageType;
use message::read::{Expected, MessageReading};
use payload::write::Written;
use wire::id::{ClientId, MethodId, ServiceId, SessionId};

// What the caller expects of a header. `kind` is the Message Type.
#[repr(C)]
#[derive(Clone, Copy)]
pub struct Expectation {
    pub service: u16,
    pub method: u16,
    pub interface: u8,
    pub kind: u8,
}

// The answer to a reading: verdict and its return code, or 256 where it has none; place and count; what the header hands on; and the parts
// of the datagram, each as the place of its first byte and its length.
#[repr(C)]
#[derive(Clone, Copy)]
pub struct Answer {
    pub verdict: u32,
    pub code: u32,
    pub place: usize,
    pub skipped: usize,
    pub client: u16,
    pub session: u16,
    pub found_code: u8,
    pub payload_at: usize,
    pub payload_len: usize,
    pub rest_at: usize,
    pub rest_len: usize,
}

// The fields of a header to write: all but Length and Protocol Version. `kind` is the Message Type.
#[repr(C)]
#[derive(Clone, Copy)]
pub struct Fields {
    pub service: u16,
    pub method: u16,
    pub client: u16,
    pub session: u16,
    pub interface: u8,
    pub kind: u8,
    pub code: u8,
}

// The answer to a writing: the verdict, and the message's length, 0 on refusal.
#[repr(C)]
#[derive(Clone, Copy)]
pub struct Sent {
    pub verdict: u32,
    pub len: usize,
}

// What the message reader expects.
impl From<Expectation> for Expected {
    ghost use Rattle.chudopolk.specs.Head.{expected_of};

    ghost from_gives = { λ e x. x ≡ expected_of e };

    fn from(e: Expectation) -> Expected {
        Expected {
            service: ServiceId(e.service),
            method: MethodId(e.method),
            interface: e.interface,
            kind: MessageType(e.kind),
        }
    }
}

// What no return code is shown as: a number that no byte has.
const NO_CODE: u32 = 256;

// A return code as a number.
fn code_number(c: Option<u8>) -> u32
    ensures { result ≡ code_number c }
{
    c.map_or(NO_CODE, u32::from)
}

// The answer to a reading.
impl From<MessageReading> for Answer {
    ghost use Rattle.chudopolk.specs.Head.{answer_of};

    ghost from_gives = { λ m a. a ≡ answer_of m };

    fn from(m: MessageReading) -> Answer {
        let v = m.reading.verdict;
        let h = m.head;
        Answer {
            verdict: u32::from(v.number()),
            code: code_number(v.return_code()),
            place: m.reading.place,
            skipped: m.reading.skipped,
            client: h.client.0,
            session: h.session.0,
            found_code: h.found_code,
            payload_at: h.payload.at,
            payload_len: h.payload.len,
            rest_at: h.rest.at,
            rest_len: h.rest.len,
        }
    }
}

// The header that the message writer is handed.
impl From<Fields> for Header {
    ghost use Rattle.chudopolk.specs.Head.{header_of};

    ghost from_gives = { λ f h. h ≡ header_of f };

    fn from(f: Fields) -> Header {
        Header {
            service: ServiceId(f.service),
            method: MethodId(f.method),
            client: ClientId(f.client),
            session: SessionId(f.session),
            interface: f.interface,
            kind: MessageType(f.kind),
            code: f.code,
        }
    }
}

// The answer to a writing.
impl From<Written> for Sent {
    ghost use Rattle.chudopolk.specs.Head.{sent_of};

    ghost from_gives = { λ w s. s ≡ sent_of w };

    fn from(w: Written) -> Sent {
        Sent {
            verdict: u32::from(w.verdict.number()),
            len: w.len,
        }
    }
}
