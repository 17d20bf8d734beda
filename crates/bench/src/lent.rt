// Messages read into lent rows, and written from them, for this program alone.

use message::header::Header;
use message::read::{Expected, Head};
use message::rows::{self, Answered};
use payload::row::Row;
use payload::table::Table;
use payload::write::Written;
use wire::id::{ClientId, SessionId};
use wire::part::Part;
use wire::verdict::Verdict;

const NO_PART: Part = Part { at: 0, len: 0 };

// The answer where nothing is read.
const UNREAD: Answered = Answered {
    head: Head {
        client: ClientId(0),
        session: SessionId(0),
        found_code: 0,
        payload: NO_PART,
        rest: NO_PART,
    },
    verdict: Verdict::Accepted,
    place: 0,
    skipped: 0,
};

// The answer where nothing is written.
const UNWRITTEN: Written = Written {
    verdict: Verdict::Accepted,
    len: 0,
};

// Reads a datagram into the same rows as often as is asked, and gives the last answer.
pub fn read_often(d: &[u8], e: Expected, t: Table, rows: &mut [Row; 64], times: u16) -> Answered {
    let mut last = UNREAD;
    for _ in 0..times {
        last = rows::read_message(d, e, t, rows);
    }
    last
}

// Writes the message of the lent rows as often as is asked, and gives the last answer.
pub fn write_often(
    h: Header,
    lent: &[Row],
    t: Table,
    content: &[u8],
    out: &mut [u8],
    times: u16,
) -> Written {
    let mut last = UNWRITTEN;
    for _ in 0..times {
        last = rows::write_message(h, lent, t, content, out);
    }
    last
}
