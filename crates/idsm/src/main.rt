//! The program `idsm`: hands the words of its command line to the run that they ask for, and ends with its status.
//!
//! Layer 10, runs. Over `idsm_run`, whose `run_asked` chooses the run, the host's files and standard output of
//! `ids_outside`, and the disk over a file of the host of `memory_disk`. That the words are the host's is shown by the
//! stored run (`args`, `data`, `stdout`) and by the tables of `tools/commands.d` alone.
#![tactic(auto)]

use ids_outside::{HostShelf, HostSink};
use idsm_run::{NO_MEMORY, run_asked};
use memory_disk::HostDisk;
use std::fs::File;
use std::process::ExitCode;
use std::rt::Env;
use std::{env, io};

/// The host did not give the words of the command line.
const NO_WORDS: u8 = 22;

/// A file that is there on each host, and holds nothing.
const NO_FILE: &str = "/dev/null";

fn main(rt: HostRuntime) -> ExitCode {
    // Where a standard file is closed, this takes its place. Else the next file that is opened would, and
    // what is put on standard output would be written into it.
    let _standard = (
        File::open(&rt, NO_FILE),
        File::open(&rt, NO_FILE),
        File::open(&rt, NO_FILE),
    );
    match words(&rt) {
        Ok(words) => {
            let mut shelf = HostShelf::new(rt, rt.alloc());
            let mut out = HostSink::new(rt);
            let status = run_asked(&rt, rt.alloc(), &words, &mut shelf, &mut out, |name| {
                HostDisk::new(rt, name)
            });
            ExitCode::from(status)
        }
        Err(error) if error.kind() == io::ErrorKind::OutOfMemory => ExitCode::from(NO_MEMORY),
        Err(_) => ExitCode::from(NO_WORDS),
    }
}

/// The words after the program's name.
fn words<R: Env + AllocGlobal>(rt: &R) -> io::Result<Vec<String>> {
    let words = env::args(rt)?.skip(1).collect(rt.alloc())?;
    Ok(words)
}
