//! The program's engine over the streams of the process.
use cfgx_engine::engine::{Counted, run};

/// Runs `parse` and returns its status.
pub fn run_parse(rt: &HostRuntime, text: &str) -> u8 {
    let mut source = Counted::new(rt.stdin());
    let mut sink = Counted::new(rt.stdout());
    run(rt.alloc(), &["parse", text], &mut source, &mut sink)
}
