// Prints the forms of a rules file, one line each with the place where it starts, or what is wrong with it and where.
#![tactic(auto)]

use anyhow::ensure;
use report::report;
use std::io::Write;
use std::{env, fs};

fn run(rt: &HostRuntime) -> anyhow::Result<()> {
    let mut words = env::args(rt)?.skip(1);
    let file = match words.next() {
        Some(name) => name,
        None => String::from_str(rt.alloc(), "game.kif")?,
    };
    ensure!(words.next().is_none(), "usage: validate [FILE]");
    let text = fs::read(rt, file.as_str())?;
    let mut out = Vec::new(rt.alloc());
    report(text.as_slice(), &mut out)?;
    rt.stdout().write_all(out.as_slice())?;
    Ok(())
}

fn main(rt: HostRuntime) -> anyhow::Result<()> {
    run(&rt)
}
