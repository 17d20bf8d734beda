// An archive: one file of messages that opens from its end. Records first, then an index entry for each record, then the trailer.

#![tactic(auto)]

pub mod add;
pub mod find;
pub mod form;
pub mod open;
pub mod records;
pub mod verdict;
