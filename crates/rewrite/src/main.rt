// Reads a job from standard input, and writes it to standard output in the writer's layout.
// A fault goes to standard error, with nothing on standard output, and the program ends with an error.
#![tactic(auto)]

use jobfile::reading::read;
use jobfile::writing::write;
use std::io::{Read, Write};
use std::process::ExitCode;

// One byte more than a file may have, so that a longer one is seen to be too long.
const MOST: u64 = 4097;

// Room for any file: the writer fills what it is lent, and allocates nothing.
const ROOM: usize = 4096;

// Rewrites the job on standard input.
fn run(rt: &HostRuntime) -> anyhow::Result<()> {
    let mut bytes = Vec::new(rt.alloc());
    rt.stdin().take(MOST).read_to_end(&mut bytes)?;
    let job = read(rt.alloc(), &bytes)?;
    let mut out = vec![in rt.alloc(); 0; ROOM]?;
    let size = write(&job, &mut out)?;
    out.truncate(size);
    rt.stdout().write_all(&out)?;
    Ok(())
}

// The fault is printed here and once: an error that `main` returned would be printed after it.
fn main(rt: HostRuntime) -> ExitCode {
    match run(&rt) {
        Ok(()) => ExitCode::SUCCESS,
        Err(error) => {
            let _ = eprintln!(rt; "{error}");
            ExitCode::FAILURE
        }
    }
}
