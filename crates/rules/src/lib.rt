// Guess rules: which patterns of flips are tried, and what they weigh. Layers stand over any rule.
#![tactic(auto)]

pub mod burst;
pub mod cap;
pub mod cells;
pub mod free;
pub mod layer;
pub mod rows;
pub mod rule;
pub mod step;
#[cfg(test)]
mod tests;
pub mod weigh;
