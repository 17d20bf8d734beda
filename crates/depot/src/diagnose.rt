// What is first wrong with a file or a message that the library refuses, looked for in the order in which the library tests.

use super::layout;
use super::layout::{FORM, ROOM};
use super::reason::{MessageFault, RecordFault, RecordsFault, TrailerFault};
use super::record::{Record, Records};
use super::trailer::Trailer;
use archive::{form, records};
use wire::header;

// Why a file gets the verdict of the trailer.
pub fn trailer_fault(file: &[u8]) -> TrailerFault {
    if file.len() < form::TRAILER_LEN {
        return TrailerFault::Short { size: file.len() };
    }
    if FORM.limit() < file.len() {
        return TrailerFault::Long;
    }
    let trailer = Trailer::of(file);
    if trailer.form as u64 != FORM.number() {
        return TrailerFault::Form { form: trailer.form };
    }
    TrailerFault::Index {
        offset: trailer.size,
        entries: trailer.entries,
        end: trailer.index_end(),
        start: trailer.at,
    }
}

// Why bytes are no message.
pub fn message_fault(message: &[u8]) -> MessageFault {
    let size = message.len();
    if records::MESSAGE_MOST < size {
        return MessageFault::Long;
    }
    if size < header::LEN {
        return MessageFault::Short { size };
    }
    MessageFault::Length {
        size,
        told: layout::four_at(message, header::LENGTH_AT),
        due: size - 8,
    }
}

// Why a record is none of a message before the records' end, where it is none.
fn record_fault(record: Record, end: usize) -> Option<RecordsFault> {
    let fault = if end < record.at + form::LENGTH_LEN {
        RecordFault::Cut { end }
    } else if end < record.end {
        RecordFault::Past {
            len: record.len,
            end,
        }
    } else if records::is_message(record.message) {
        return None;
    } else {
        RecordFault::Message(message_fault(record.message))
    };
    Some(RecordsFault::Record {
        number: record.number,
        at: record.at,
        fault,
    })
}

// Why the records' number or the index's size is not what the trailer says, where it isn't.
fn count_fault(file: &[u8], trailer: Trailer) -> Option<RecordsFault> {
    let found = Records::before(file, trailer.size).count();
    if found != trailer.entries {
        return Some(RecordsFault::Count {
            told: trailer.entries,
            found,
        });
    }
    let end = trailer.index_end();
    if end != trailer.at {
        return Some(RecordsFault::Cover {
            end,
            start: trailer.at,
        });
    }
    None
}

// Why a record's entry in the index is not the record's, where it isn't.
fn entry_fault(file: &[u8], trailer: Trailer, record: Record) -> Option<RecordsFault> {
    let number = record.number;
    let entry = trailer.size + FORM.entry_size() * (number - 1);
    let offset = layout::two_at(file, entry);
    if offset != record.at {
        return Some(RecordsFault::Offset {
            number,
            told: offset,
            found: record.at,
        });
    }
    let told = layout::two_at(file, entry + FORM.offset_width());
    let found = layout::two_at(record.message, header::SESSION_AT);
    if told != found {
        return Some(RecordsFault::Session {
            number,
            told,
            found,
        });
    }
    None
}

// Why a file gets the verdict of the records.
pub fn records_fault(file: &[u8]) -> Option<RecordsFault> {
    let trailer = Trailer::of(file);
    Records::before(file, trailer.size)
        .find_map(|record| record_fault(record, trailer.size))
        .or_else(|| count_fault(file, trailer))
        .or_else(|| Records::before(file, trailer.size).find_map(|record| entry_fault(
            file, trailer, record,
        )))
}

// How many bytes an archive would have with one message more behind the records of a file, which have `told` bytes.
pub fn size_with(file: &[u8], told: usize, message: &[u8]) -> usize {
    let entries = Records::before(file, told.min(ROOM))
        .count()
        .saturating_add(1);
    form::TRAILER_LEN
        .saturating_add(form::LENGTH_LEN)
        .saturating_add(told)
        .saturating_add(message.len())
        .saturating_add(entries.saturating_mul(FORM.entry_size()))
}
