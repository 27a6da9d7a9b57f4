//! `price`: what vectors cost, for a job read from standard input: the centre of each window, or one vector that is named.
#![tactic(auto)]

mod arguments;
mod lines;

use anyhow::anyhow;
use arguments::read_candidate;
use cost::Candidate;
use lines::Prices;
use opening::{open, read_job};
use reference::ComputedList;
use settings::Setup;
use std::env;

const USAGE: &str = "usage: price < JOB
       price PICTURE X Y < JOB
Reads a job from standard input and prints, for each reference picture, one line
  PICTURE X Y RATE SAD SSD SATD
the centre of its window in quarter samples, the rate part of that vector, and its cost
under each measure; or, with three arguments, that line for the vector (X, Y), in quarter
samples, in that picture. X and Y lie in -4400..4400, the picture is one of the job's, and
neither component is more than 261 from the picture's predicted vector.
Where the job is refused, prints one line
  refused ROW LAYER VALUE
docs/JOB.md has the format of a job and every refusal.";

/// What is asked of a job.
// Three things, and so no `Option`: help is printed without a job.
enum Asked {
    Help,
    Centres,
    Vector(Candidate),
}

fn main(rt: HostRuntime) -> anyhow::Result<()> {
    run(&rt)
}

/// Reads the arguments and then, unless help was asked for, the job.
fn run(rt: &HostRuntime) -> anyhow::Result<()> {
    match read_arguments(rt)? {
        Asked::Help => println!(rt; "{USAGE}")?,
        Asked::Centres => answer(rt, None)?,
        Asked::Vector(candidate) => answer(rt, Some(candidate))?,
    }
    Ok(())
}

/// No arguments, a request for help, or a picture and a vector.
fn read_arguments(rt: &HostRuntime) -> anyhow::Result<Asked> {
    let mut args = env::args(rt)?;
    let _program = args.next();
    let Some(first) = args.next() else {
        return Ok(Asked::Centres);
    };
    if matches!(first.as_str(), "--help" | "-h") {
        return Ok(Asked::Help);
    }
    if let (Some(x), Some(y), None) = (args.next(), args.next(), args.next()) {
        return Ok(Asked::Vector(read_candidate(first.as_str(), x.as_str(), y.as_str())?));
    }
    Err(anyhow!("price takes no arguments, or three: PICTURE X Y; try price --help"))
}

/// Reads a job and prints its prices, or its refusal.
fn answer(rt: &HostRuntime, named: Option<Candidate>) -> anyhow::Result<()> {
    let bytes = read_job(rt.stdin(), rt.alloc())?;
    match open(bytes.as_slice()) {
        Ok((job, setup)) => {
            let list = ComputedList::new(job.reference());
            let prices = Prices {
                setup: &setup,
                list: &list,
            };
            print_prices(rt, &prices, named)
        }
        Err(fault) => {
            println!(rt; "{fault}")?;
            Ok(())
        }
    }
}

/// Prints the named vector's line, or one for the centre of each picture's window.
fn print_prices(
    rt: &HostRuntime,
    prices: &Prices<'_>,
    named: Option<Candidate>,
) -> anyhow::Result<()> {
    if let Some(candidate) = named {
        return print_price(rt, prices, candidate);
    }
    let pictures = 0..prices.setup.predicted.pictures;
    for line in pictures.filter_map(|picture| prices.centre(picture)) {
        println!(rt; "{line}")?;
    }
    Ok(())
}

/// Prints the line of one vector, or says why it has no price.
fn print_price(rt: &HostRuntime, prices: &Prices<'_>, candidate: Candidate) -> anyhow::Result<()> {
    let Some(line) = prices.line(candidate) else {
        return Err(unpriced(prices.setup, candidate));
    };
    println!(rt; "{line}")?;
    Ok(())
}

/// Why a candidate has no price.
fn unpriced(setup: &Setup, candidate: Candidate) -> anyhow::Error {
    if candidate.picture >= setup.predicted.pictures {
        anyhow!("the job has no reference picture of that number")
    } else {
        anyhow!("a component is more than 261 quarter samples from the picture's predicted vector")
    }
}

#[cfg(test)]
mod tests;
