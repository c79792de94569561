// Reads a settings file from standard input and prints what it holds, or its first fault.
#![tactic(auto)]

use report::report;
use std::io::{Read, Write};

// What lies behind this many bytes is not read.
const MAX_FILE: u64 = 20_000;

fn main(rt: HostRuntime) -> anyhow::Result<()> {
    let heap = rt.alloc();
    let mut file = Vec::new(heap);
    let _ = rt.stdin().take(MAX_FILE).read_to_end(&mut file)?;
    let text = report(heap, file.as_slice())?;
    rt.stdout().write_all(text.as_bytes())?;
    Ok(())
}
