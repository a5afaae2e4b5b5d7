// Times the reading of a text: the words are FILE and TIMES, and what is printed is the nanoseconds of all TIMES readings.
#![tactic(auto)]

use anyhow::bail;
use std::time::Instant;
use std::{env, fs};
use text::Forms;

fn run(rt: &HostRuntime) -> anyhow::Result<()> {
    let mut words = env::args(rt)?.skip(1);
    let (Some(file), Some(times)) = (words.next(), words.next()) else {
        return Ok(());
    };
    let times = times.parse::<u32>()?;
    let text = fs::read(rt, file.as_str())?;
    let mut forms = Forms::new(rt.alloc());
    let start = Instant::now(rt)?;
    for _ in 0..times {
        if forms.read(rt.alloc(), text.as_slice()).is_err() {
            bail!("the text is refused");
        }
    }
    let nanoseconds = start.elapsed(rt)?.as_nanos();
    println!(rt; "{nanoseconds}")?;
    Ok(())
}

fn main(rt: HostRuntime) -> anyhow::Result<()> {
    run(&rt)
}
