// Prepares a run of two items, which holds 7 and 9, from a few raw words. For each ring code: refusal, count, and the run.
#![tactic(auto)]

use std::io;

fn main(rt: HostRuntime) -> io::Result<()> {
    let raw = [8191, 8192, 5];
    for code in [13, 1, 14] {
        show(&rt, code, &raw)?;
    }
    let few = [8191, 8192];
    show(&rt, 13, &few)
}

// The code is a number, as a tape is prepared for one: 14 is no ring's.
fn show(rt: &impl Print, code: u64, raw: &[u64]) -> io::Result<()> {
    let mut run = [7, 9];
    match tape::prepare(code, raw, &mut run) {
        Ok(used) => println!(rt; "0\n{used}")?,
        Err(why) => println!(rt; "{}\n0", why.number())?,
    }
    for item in run {
        println!(rt; "{item}")?;
    }
    Ok(())
}
