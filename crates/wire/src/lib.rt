// Numbers, tags, kinds, strings, the header's layout, parts and verdicts: what every layer above shares. Nothing here knows a type table.

#![tactic(auto)]

pub mod header;
pub mod id;
pub mod kind;
pub mod number;
pub mod part;
pub mod tag;
pub mod text;
pub mod verdict;
