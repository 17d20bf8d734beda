// Text that people write, for the programs: arguments, a file or an input read to its end, words and numbers in a line, floats as decimals,
// and quotations.
//
// No function that a program calls has a premise: whatever stands in a text is answered.

#![tactic(auto)]

pub mod argument;
pub mod decimal;
pub mod failure;
pub mod file;
pub mod input;
pub mod number;
pub mod quote;
pub mod say;
#[cfg(test)]
mod tests;
pub mod word;
