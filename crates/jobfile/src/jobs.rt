// A job: what is read of a frame, and how it is to be decoded.
use frames::halves::Halves;
use frames::readings::Reading;

// How patterns are weighed.
#[derive(Clone, Copy, Debug, PartialEq, Eq)]
pub enum WeightKind {
    // 0 in a file
    Level,
    // 1 in a file
    FlipsFirst,
}

// A job in parts. Nothing is checked of one that is made by hand: `write` refuses what no file can hold.
#[derive(Drop)]
pub struct Job {
    pub readings: Vec<Reading>,
    pub rows: Vec<Halves>,
    // how many of the first rows are guessed with
    pub guessed: usize,
    pub limit: usize,
    pub kind: WeightKind,
}
