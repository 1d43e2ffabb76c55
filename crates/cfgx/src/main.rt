//! The program `cfgx`, which shows what is in conditions such as `cfg(all(unix, target_arch =
//! "x86_64"))`.
#![tactic(auto)]

use cfgx_engine::engine::{Counted, run};
use std::process::ExitCode;
use std::{env, io};

/// The status if the words cannot be read: out of memory, or not UTF-8. Nothing is written then.
const REFUSED: u8 = 3;

/// Returns the words after the program's name.
fn words_of(rt: &HostRuntime) -> io::Result<Vec<String>> {
    // If its first request is refused, `collect` asks for less room.
    let mut words = Vec::new(rt.alloc());
    for word in env::args(rt)?.skip(1) {
        words.push(word)?;
    }
    Ok(words)
}

/// Runs the command in the words after the program's name, and returns the exit status.
fn status(rt: &HostRuntime) -> io::Result<u8> {
    let owned = words_of(rt)?;
    // The system hands out words that are owned, and `run` borrows them.
    let mut words = Vec::new(rt.alloc());
    for word in &owned {
        words.push(word.as_str())?;
    }
    let mut source = Counted::new(rt.stdin());
    let mut sink = Counted::new(rt.stdout());
    Ok(run(rt.alloc(), words.as_slice(), &mut source, &mut sink))
}

fn main(rt: HostRuntime) -> ExitCode {
    ExitCode::from(status(&rt).unwrap_or(REFUSED))
}
