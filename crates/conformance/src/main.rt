//! `conformance`: compares the engine with a table of outside results on standard input, and counts what agrees.
#![tactic(auto)]

mod comparing;
mod costs;
mod offsets;
mod patterns;
mod records;
mod rounds;

use comparing::Held;
use costs::costs_agree;
use offsets::Offsets;
use patterns::offsets_agree;
use records::Record;
use rounds::round_agrees;
use std::alloc::Global;
use std::io::Read;
use tally::{Tally, numbers};

fn main(rt: HostRuntime) -> anyhow::Result<()> {
    run(&rt)
}

/// Reads the table, record by record, and prints the counts.
fn run(rt: &HostRuntime) -> anyhow::Result<()> {
    let mut text = String::new(rt.alloc());
    rt.stdin().read_to_string(&mut text)?;
    let mut held = Held::none(rt.alloc());
    let mut tally = Tally::default();
    for line in text.lines() {
        take(&mut held, &mut tally, rt.alloc(), line)?;
    }
    println!(rt; "{tally}")?;
    Ok(())
}

/// One record: a list to hold, more of it, or results to compare.
// Costs, offsets and rounds are compared at once, each by itself: no value of theirs stands between.
fn take(held: &mut Held, tally: &mut Tally, heap: Global, line: &str) -> anyhow::Result<()> {
    let mut words = line.split(' ');
    let kind = words.next().unwrap_or("");
    if kind == "costs" {
        for agrees in costs_agree(heap, words)? {
            tally.count(agrees);
        }
        return Ok(());
    }
    let name = if kind == "offsets" {
        words.next().unwrap_or("")
    } else {
        ""
    };
    // In one place for all kinds: most of the program's time goes here, and so it stays one loop.
    let numbers = numbers(heap, words)?;
    let numbers = numbers.as_slice();
    match kind {
        "offsets" => {
            let record = Offsets::read(heap, numbers)?;
            tally.count(record.is_some_and(|record| offsets_agree(name, &record)));
        }
        "round" => {
            let record = Offsets::read(heap, numbers)?;
            tally.count(record.is_some_and(|record| round_agrees(&record)));
        }
        kind => compare(held, tally, Record::read(heap, kind, numbers)?)?,
    }
    Ok(())
}

/// A list to hold, more of it, or a result of it to compare.
fn compare(held: &mut Held, tally: &mut Tally, record: Record) -> anyhow::Result<()> {
    match record {
        Record::List(shape) => held.begin(shape),
        Record::Drawn(list) => held.draw(list),
        Record::Samples(samples) => held.extend(samples.as_slice())?,
        Record::Outcome(outcome) => {
            tally.count(outcome.as_ref().is_some_and(|outcome| held.gives(outcome)));
        }
    }
    Ok(())
}

/// The words of a record that are left.
type Words<'a> = std::str::Split<'a, char>;
