// The trailer of a file: its last 16 bytes, which say what the file holds and where.
use crate::jobs::WeightKind;

pub(crate) mod ops;

// What a trailer says, each number at the width that it has in the file.
#[derive(Clone, Copy)]
pub(crate) struct Trailer {
    pub(crate) n: u16,
    pub(crate) rows: u8,
    pub(crate) guessed: u8,
    pub(crate) readings_at: u32,
    pub(crate) rows_at: u32,
    pub(crate) limit: u16,
    pub(crate) kind: WeightKind,
}

// The numbers of a job: how many readings and rows it has, with how many of the rows it guesses, and its limit.
#[derive(Clone, Copy)]
pub(crate) struct Numbers {
    pub(crate) n: usize,
    pub(crate) rows: usize,
    pub(crate) guessed: usize,
    pub(crate) limit: usize,
}
