// Prints the hard bits and the weights of a frame: records of nine bytes on standard input, at most 128.
#![tactic(auto)]

use listing::lines::lines;
use std::io::Read;

// One byte more than 128 records have, so that too many are seen to be too many. A function for both programs would
// need a crate for one call.
const MOST: u64 = 1153;

fn main(rt: HostRuntime) -> anyhow::Result<()> {
    let mut bytes = Vec::new(rt.alloc());
    rt.stdin().take(MOST).read_to_end(&mut bytes)?;
    let text = lines(rt.alloc(), &bytes)?;
    rt.print(text)?;
    Ok(())
}
