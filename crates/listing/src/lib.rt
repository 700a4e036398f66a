// The cells of a frame as text: what the program `cells` prints.
#![tactic(auto)]

pub mod lines;
mod reads;
