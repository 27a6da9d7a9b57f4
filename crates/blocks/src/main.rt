//! `blocks`: what the exhaustive recipe finds for every 16x16 block of a picture, against one reference picture.
#![tactic(auto)]

ghost use Rattle.std.specs.Prelude.{Ok, IfOk};

mod pictures;

use anyhow::anyhow;
use block::BlockRequest;
use measure::{Sad, Satd};
use picture::Fault;
use pictures::Pair;
use reference::ComputedList;
use search::{Opening, exhaustive};
use std::env;
use std::io::Read;
use std::str::FromStr;

const USAGE: &str = "usage: blocks WIDTH HEIGHT RANGE QP < PICTURES
Reads the samples of a current and a reference picture of that size, one after the other, and
prints for each 16x16 block, by rows, what the exhaustive recipe reports about (0, 0):
  LEFT TOP PICTURE X Y COST TRIALS STRIPS";

/// One byte more than two pictures of the greatest size have.
const ENOUGH: u64 = 2 * 1920 * 1920 + 1;

fn main(rt: HostRuntime) -> anyhow::Result<()> {
    run(&rt)
}

/// Reads the arguments, then the pictures.
fn run(rt: &HostRuntime) -> anyhow::Result<()> {
    let mut args = env::args(rt)?;
    let _program = args.next();
    let (Some(width), Some(height), Some(range), Some(qp), None) = (
        args.next(),
        args.next(),
        args.next(),
        args.next(),
        args.next(),
    ) else {
        println!(rt; "{USAGE}")?;
        return Ok(());
    };
    let mut bytes = Vec::new(rt.alloc());
    rt.stdin().take(ENOUGH).read_to_end(&mut bytes)?;
    let (width, height) = (number(width.as_str())?, number(height.as_str())?);
    match Pair::new(width, height, bytes.as_slice()) {
        Ok(pair) => search_all(rt, &pair, number(range.as_str())?, number(qp.as_str())?),
        Err(fault) => {
            println!(rt; "{fault}")?;
            Ok(())
        }
    }
}

/// The number that a word writes.
fn number(word: &str) -> anyhow::Result<i64>
    ensures { IfOk result (λ n. ⟦<i64 as FromStr>⟧.from_str_gives word.now (Ok n)) }
{
    i64::from_str(word).map_err(|_| anyhow!("an argument is not a number; try blocks alone"))
}

/// Searches the blocks by rows, and prints what is found of each.
fn search_all(rt: &HostRuntime, pair: &Pair<'_>, range: i64, qp: i64) -> anyhow::Result<()> {
    let size = pair.current.size;
    for row in 0..size.height / 16 {
        for column in 0..size.width / 16 {
            let (left, top) = (16 * column as i64, 16 * row as i64);
            let opening = Opening {
                current: pair.current,
                request: BlockRequest {
                    left,
                    top,
                    width: 16,
                    height: 16,
                },
                list: ComputedList::new(pair.reference),
                measure: Sad,
                qp,
                range,
                xs: &[0],
                ys: &[0],
            };
            match exhaustive(opening, Satd) {
                Ok(report) => println!(rt; "{left} {top} {report}")?,
                Err(fault) => return refuse(rt, fault),
            }
        }
    }
    Ok(())
}

/// Prints a refusal.
fn refuse(rt: &HostRuntime, fault: Fault) -> anyhow::Result<()> {
    println!(rt; "{fault}")?;
    Ok(())
}
