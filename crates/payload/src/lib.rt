// Tagged payloads: the type table, the value rows, reading and writing.

#![tactic(auto)]

mod emit;
mod fine;
mod judge;
mod member;
pub mod read;
pub mod row;
mod rows;
mod size;
pub mod table;
pub mod write;
