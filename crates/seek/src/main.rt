//! `seek`: the vector that each recipe finds, for a job read from standard input.
#![tactic(auto)]

mod recipes;

use anyhow::anyhow;
use opening::read_job;
use recipes::seek;
use std::env;

const USAGE: &str = "usage: seek < JOB
Reads a job from standard input, searches its block by two recipes, SAD first and then SATD,
and prints one line for each,
  full PICTURE X Y COST TRIALS STRIPS
  fast PICTURE X Y COST TRIALS STRIPS
the picture, the vector in quarter samples, its cost, and how many vectors were tried and
strips of four sample rows read. Where the job is refused, prints one line
  refused ROW LAYER VALUE
docs/JOB.md has the format of a job and every refusal.";

fn main(rt: HostRuntime) -> anyhow::Result<()> {
    run(&rt)
}

/// Reads the arguments and then, unless help was asked for, the job.
fn run(rt: &HostRuntime) -> anyhow::Result<()> {
    let mut args = env::args(rt)?;
    let _program = args.next();
    let Some(first) = args.next() else {
        return answer(rt);
    };
    if !matches!(first.as_str(), "--help" | "-h") {
        return Err(anyhow!("seek takes no arguments; try seek --help"));
    }
    println!(rt; "{USAGE}")?;
    Ok(())
}

/// Reads a job and prints both reports, or the refusal.
fn answer(rt: &HostRuntime) -> anyhow::Result<()> {
    let bytes = read_job(rt.stdin(), rt.alloc())?;
    match seek(bytes.as_slice()) {
        Ok((full, fast)) => {
            println!(rt; "full {full}")?;
            println!(rt; "fast {fast}")?;
        }
        Err(fault) => println!(rt; "{fault}")?,
    }
    Ok(())
}
