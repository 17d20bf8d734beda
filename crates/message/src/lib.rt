// Messages: a header before a payload, read from a datagram and written to an output.

#![tactic(auto)]

pub mod header;
pub mod message_type;
pub mod part;
pub mod read;
pub mod rows;
pub mod write;
