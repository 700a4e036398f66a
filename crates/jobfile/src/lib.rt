// Job files: jobs, their faults, and how they are read and written.
#![tactic(auto)]

mod entries;
pub mod faults;
pub mod jobs;
pub mod reading;
pub mod records;
mod rows;
mod sections;
mod trailers;
pub mod writing;
