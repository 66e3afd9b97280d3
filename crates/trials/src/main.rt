// Trials: the verdict on each line file that is named.
#![tactic(auto)]

use report::verdict::{Report, Verdict};
use std::{env, fs};

fn main(rt: HostRuntime) -> anyhow::Result<()> {
    for name in env::args(&rt)?.skip(1) {
        let file = fs::read(&rt, name.as_str())?;
        let report = Report(Verdict::on(file.as_slice()));
        println!(rt; "{name}: {report}")?;
    }
    Ok(())
}
