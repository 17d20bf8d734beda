// The library for C and Rust: a table checked, a message read, a message written, over numbers and bytes. include/chudopolk.h declares it.
//
// A slice crosses as a pointer and a count of elements. What rows and tables cross as is in `table` and `rows`. No function has a premise:
// numbers that no table has get verdict 1, too few value rows 2, and a value row that says no value 30.

#![tactic(auto)]

mod head;
mod rows;
mod table;

ghost use Rattle.std.specs.Prelude.{◌≡◌, length};
ghost use Rattle.chudopolk.specs.Head.{answer_of, values_after, sent_of};
ghost use Rattle.chudopolk.specs.Calls.{check_of, read_of, write_of, out_of};

use head::{Answer, Expectation, Fields, Sent};
use message::header::Header;
use message::read::Expected;
use message::{read, write};
use payload::table as payload_table;
use table::Form;
use wire::verdict::Verdict;

// Whether a type table keeps its rules: 0, or verdict 1.
#[unsafe(no_mangle)]
pub extern "C" fn chudopolk_check_table(form: Form, types: &[u64]) -> u32
    ensures { result ≡ check_of form types.now }
{
    let verdict = if payload_table::table_fits(table::table_of(form, types)) {
        Verdict::Accepted
    } else {
        Verdict::Table
    };
    u32::from(verdict.number())
}

// Reads the message at a datagram's start into lent value rows, four numbers to a row.
#[unsafe(no_mangle)]
pub extern "C" fn chudopolk_read_message(
    datagram: &[u8],
    expected: Expectation,
    form: Form,
    types: &[u64],
    values: &mut [u64],
) -> Answer
    ensures answer { result ≡ answer_of (read_of datagram.now expected form types.now values.old) }
    ensures rows { values.new
        ≡ values_after (read_of datagram.now expected form types.now values.old) values.old }
{
    let t = table::table_of(form, types);
    let e = Expected::from(expected);
    let m = read::read_by_value(datagram, e, t, values.len() / rows::NUMBERS);
    rows::put_rows(values, m.reading.rows, m.reading.filled);
    Answer::from(m)
}

// Writes the message of a header and of lent value rows from the output's start. A refusal changes no byte.
#[unsafe(no_mangle)]
pub extern "C" fn chudopolk_write_message(
    header: Fields,
    form: Form,
    types: &[u64],
    values: &[u64],
    content: &[u8],
    out: &mut [u8],
) -> Sent
    ensures answer { result
        ≡ sent_of (write_of header form types.now values.now content.now (length out.old)) }
    ensures output { out.new
        ≡ out_of header form types.now values.now content.now out.old }
{
    let h = Header::from(header);
    let all = rows::rows_of(values);
    let t = table::table_of(form, types);
    let w = write::write_by_value(h, all, values.len() / rows::NUMBERS, t, content, out);
    Sent::from(w)
}
