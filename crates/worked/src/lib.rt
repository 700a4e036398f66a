// Worked examples of the library, shown from its definitions or run as tests.
#![tactic(auto)]

ghost use Rattle.worked.specs.Cells.{WorkedCells};

// The worked cells follow from the definition of a cell alone.
pub fn cells_stand()
    ensures { WorkedCells }
{}

#[cfg(test)]
mod cell_tests;
#[cfg(test)]
mod frame_tests;
#[cfg(test)]
mod listing_tests;
#[cfg(test)]
mod word_tests;
