// The frame that records give.
ghost use Rattle.std.specs.Prelude.{◌≡◌, is_some, Some, vec_items};
ghost use Rattle.frames.specs.Frames.{held};
ghost use Rattle.listing.specs.Records.{records_of, cells_of, is_numbered, Gives};
ghost use Rattle.listing.specs.Shown.{list_fault_text};
ghost use Rattle.listing.specs.declared.reads.ListFault.TheVariants.{Frame as OfFrame, File as OfFile};

use frames::faults::Fault;
use frames::framing::Frame;
use frames::length::Length;
use frames::readings::Reading;
use jobfile::faults::FileFault;
use jobfile::reading::read_readings;
use std::alloc::Global;
use std::fmt;

// Why records give no frame.
#[derive(Clone, Copy, Debug, PartialEq, Eq)]
pub enum ListFault {
    // the frame's: their number, or want of memory
    Frame(Fault),
    // the file's: a record that gives no reading, or want of memory
    File(FileFault),
}

impl ListFault {
    // The number of a fault; want of memory has none.
    pub fn number(self) -> Option<u8>
        ensures { is_some result ≡ is_numbered self }
    {
        match self {
            ListFault::Frame(fault) => fault.number(),
            ListFault::File(fault) => fault.number(),
        }
    }
}

impl From<Fault> for ListFault {
    ghost from_gives = { λ f r. r ≡ OfFrame f };

    fn from(fault: Fault) -> ListFault {
        ListFault::Frame(fault)
    }
}

impl From<FileFault> for ListFault {
    ghost from_gives = { λ f r. r ≡ OfFile f };

    fn from(fault: FileFault) -> ListFault {
        ListFault::File(fault)
    }
}

impl fmt::Display for ListFault {
    ghost output = { λ x. Some (list_fault_text x) };

    fn fmt<W: fmt::Write>(&self, f: &mut fmt::Formatter<W>) -> fmt::Result {
        match self {
            ListFault::Frame(fault) => write!(f, "{fault}"),
            ListFault::File(fault) => write!(f, "{fault}"),
        }
    }
}

// The readings of 1 to 128 records one after another; of several bad ones the first is told.
fn read_all(heap: Global, bytes: &[u8]) -> Result<Vec<Reading>, ListFault>
    ensures { Gives vec_items result (records_of bytes.now) }
{
    if bytes.len() % 9 != 0 {
        return Err(ListFault::Frame(Fault::Length));
    }
    Length::try_from(bytes.len() / 9)?;
    Ok(read_readings(heap, bytes)?)
}

// The frame of 1 to 128 records one after another.
pub fn read_frame(heap: Global, bytes: &[u8]) -> Result<Frame, ListFault>
    ensures { Gives held result (cells_of bytes.now) }
{
    let readings = read_all(heap, bytes)?;
    Ok(Frame::new(heap, &readings)?)
}
