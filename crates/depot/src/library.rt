// What the library does with an archive, each refusal with its reason.

ghost use Rattle.std.specs.Prelude.{◌≡◌, IfOk};
ghost use Rattle.archive.specs.Adding.{adding, closing, kept_by, file_by};
ghost use Rattle.archive.specs.Opening.{archive_of, opening_by};
ghost use Rattle.depot.specs.Asked.{found_of};

use super::diagnose;
use super::reason::{Asked, Reason, Refusal};
use archive::find::Found;
use archive::open::Opening;
use archive::verdict::Verdict;
use archive::{add, find, open};
use wire::id::SessionId;

// Opens a file.
pub fn opened(file: &[u8]) -> Result<Opening, Refusal>
    ensures { IfOk result (λ opening. opening ≡ opening_by (archive_of file.now)) }
{
    let opening = open::open(file);
    match opening.verdict {
        Verdict::Accepted => Ok(opening),
        verdict => Err(file_refusal(verdict, file)),
    }
}

// Reads the message of a number, or finds the first of a session.
pub fn found(file: &[u8], asked: Asked) -> Result<Found, Refusal>
    ensures { IfOk result (λ found. found ≡ found_of file.now asked) }
{
    let found = match asked {
        Asked::Number(number) => find::read(file, number as usize),
        Asked::Session(session) => find::find(file, SessionId(session)),
    };
    match found.verdict {
        Verdict::Accepted => Ok(found),
        Verdict::NoRecord => Err(asking_refusal(asked, file)),
        verdict => Err(file_refusal(verdict, file)),
    }
}

// Adds a message to the records of a file, which have `told` bytes, and answers how many they have then.
pub fn added(file: &mut [u8], told: usize, message: &[u8]) -> Result<usize, Refusal>
    ensures size { IfOk result (λ size. size ≡ (kept_by told (adding file.old told message.now)).size) }
    ensures file { file.new ≡ file_by file.old told (adding file.old told message.now) }
{
    let kept = add::add(file, told, message);
    match kept.verdict {
        Verdict::Accepted => Ok(kept.size),
        verdict => Err(message_refusal(verdict, file, told, message)),
    }
}

// Closes a file whose records have `told` bytes, and answers how many the file has then.
pub fn closed(file: &mut [u8], told: usize) -> Result<usize, Refusal>
    ensures size { IfOk result (λ size. size ≡ (kept_by told (closing file.old told)).size) }
    ensures file { file.new ≡ file_by file.old told (closing file.old told) }
{
    let kept = add::close(file, told);
    match kept.verdict {
        Verdict::Accepted => Ok(kept.size),
        verdict => Err(Refusal {
            verdict,
            reason: Some(Reason::Unclosed),
        }),
    }
}

// The refusal of a file in opening.
fn file_refusal(verdict: Verdict, file: &[u8]) -> Refusal {
    let reason = match verdict {
        Verdict::Trailer => Some(Reason::Trailer(diagnose::trailer_fault(file))),
        _ => diagnose::records_fault(file).map(Reason::Records),
    };
    Refusal { verdict, reason }
}

// The refusal where a file has no message of a number or a session.
fn asking_refusal(asked: Asked, file: &[u8]) -> Refusal {
    let among = open::open(file).entries;
    Refusal {
        verdict: Verdict::NoRecord,
        reason: Some(Reason::Missing { asked, among }),
    }
}

// The refusal of a message that was to be added to the records of a file, which have `told` bytes.
fn message_refusal(verdict: Verdict, file: &[u8], told: usize, message: &[u8]) -> Refusal {
    let reason = match verdict {
        Verdict::NoMessage => Reason::Message(diagnose::message_fault(message)),
        _ => Reason::Room {
            needed: diagnose::size_with(file, told, message),
        },
    };
    Refusal {
        verdict,
        reason: Some(reason),
    }
}
