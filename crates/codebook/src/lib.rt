// Tests of a word: which words a search may answer with.
#![tactic(auto)]

pub mod both;
pub mod fields;
pub mod parity;
pub mod testing;
#[cfg(test)]
mod tests;
