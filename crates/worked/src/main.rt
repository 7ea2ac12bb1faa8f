// Worked examples: each printed with what is expected and what was found; any difference ends the program with an error.
#![tactic(auto)]

use anyhow::ensure;
use faults::Fault;
use std::fmt;

mod bids;
mod plant;
mod raises;

// Number, layer, place, marks and length of an answer.
#[derive(Clone, Copy, PartialEq, Eq)]
pub struct Verdict {
    pub number: u8,
    pub layer: u8,
    pub place: u32,
    pub marks: u16,
    pub length: usize,
}

// Granted, with no marks and nothing written.
pub const GRANTED: Verdict = Verdict {
    number: 0,
    layer: 0,
    place: 0,
    marks: 0,
    length: 0,
};

impl From<Fault> for Verdict {
    fn from(fault: Fault) -> Verdict {
        let answer = fault.answer();
        Verdict {
            number: answer.number,
            layer: answer.layer,
            place: answer.place,
            ..GRANTED
        }
    }
}

impl fmt::Display for Verdict {
    fn fmt<W: fmt::Write>(&self, f: &mut fmt::Formatter<W>) -> fmt::Result {
        let Verdict {
            number,
            layer,
            place,
            marks,
            length,
        } = *self;
        write!(
            f,
            "number {number}, layer {layer}, place {place}, marks {marks}, length {length}"
        )
    }
}

// Prints an example, and tells whether it came out as expected.
pub fn compare(
    rt: &HostRuntime,
    example: &str,
    expected: Verdict,
    found: Verdict,
) -> anyhow::Result<bool> {
    let agrees = expected == found;
    let word = if agrees { "agrees" } else { "DIFFERS" };
    println!(rt; "{example}: {word}")?;
    println!(rt; "  expected: {expected}")?;
    println!(rt; "  found: {found}")?;
    Ok(agrees)
}

fn run(rt: &HostRuntime) -> anyhow::Result<()> {
    let raises = raises::examples(rt)?;
    let bids = bids::examples(rt)?;
    ensure!(raises && bids, "an example differs");
    println!(rt; "All examples agree.")?;
    Ok(())
}

fn main(rt: HostRuntime) -> anyhow::Result<()> {
    run(&rt)
}
