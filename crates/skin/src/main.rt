#![tactic(auto)]

use extract::skin;
use std::io::{Read, Write};

// Reads a volume file from standard input, and writes the OFF page of its skin, or the line that reports why it is refused.
fn main(rt: HostRuntime) -> anyhow::Result<()> {
    let mut input = Vec::new(rt.alloc());
    rt.stdin().take(4097).read_to_end(&mut input)?;
    let output = skin(rt.alloc(), &input)?;
    rt.stdout().write_all(&output)?;
    Ok(())
}
