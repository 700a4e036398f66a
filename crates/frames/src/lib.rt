// Words, patterns and rows; readings and the cells that they give; frames; and the faults of making and searching.
#![tactic(auto)]

pub mod bits;
pub mod faults;
pub mod framing;
pub mod halves;
pub mod length;
pub mod readings;
pub mod tables;
pub mod words;
