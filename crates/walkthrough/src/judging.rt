// The morning's bids are judged: granted, mended, denied.
use crate::records::tell_denial;
use crate::{desk, plant};
use bid::{Bid, Components};
use register_file::RegisterFile;
use rules::{Judged, Mark, judge_bid};
use words::tell_bid;

// The coordinator who files.
const COORDINATOR: u8 = 3;

// What each mark means.
const MEANINGS: [(Mark, &str); 6] = [
    (Mark::Price, "a price above the ceiling became the ceiling"),
    (
        Mark::Quantities,
        "the curve was extended to carry the reserves",
    ),
    (
        Mark::Spinning,
        "Spinning was erased, as no energy is offered with it",
    ),
    (
        Mark::NonSpinning,
        "Non-Spinning was erased, as no energy is offered with it",
    ),
    (
        Mark::RegulationUp,
        "Regulation Up was set to what is free of its award",
    ),
    (
        Mark::RegulationDown,
        "Regulation Down was set to what is free of its award",
    ),
];

fn tell_marks(rt: &HostRuntime, marks: u16) -> anyhow::Result<()> {
    for (mark, words) in MEANINGS {
        let bit = mark.bit();
        if marks & bit != 0 {
            println!(rt; "    mark {bit}: {words}")?;
        }
    }
    Ok(())
}

fn tell_granted(rt: &HostRuntime, judged: &Judged) -> anyhow::Result<()> {
    let marks = judged.marks;
    if marks == 0 {
        println!(rt; "  granted as filed")?;
        return Ok(());
    }
    println!(rt; "  granted, mended with marks {marks}:")?;
    tell_marks(rt, marks)?;
    println!(rt; "  the row that goes to the planner:")?;
    tell_bid(rt, &judged.row)?;
    Ok(())
}

fn tell_judged(
    rt: &HostRuntime,
    register: &RegisterFile,
    filed: &Components,
) -> anyhow::Result<()> {
    println!(rt; "Coordinator {COORDINATOR} files:")?;
    let bid = match Bid::make(filed) {
        Ok(bid) => bid,
        Err(fault) => return tell_denial(rt, fault),
    };
    tell_bid(rt, &bid)?;
    match judge_bid(register, COORDINATOR, &bid) {
        Ok(judged) => tell_granted(rt, &judged),
        Err(fault) => tell_denial(rt, fault),
    }
}

pub fn tell(rt: &HostRuntime) -> anyhow::Result<()> {
    println!(rt; "The morning's bids are judged against the register.")?;
    let file = match RegisterFile::new(&plant::REGISTER) {
        Ok(file) => file,
        Err(fault) => return tell_denial(rt, fault),
    };
    tell_judged(rt, &file, &desk::morning_bid())?;
    // All of PMax.
    tell_judged(rt, &file, &desk::schedule_bid(9, 10_000))?;
    tell_judged(rt, &file, &desk::dear_bid())?;
    // A hundredth of a MW below PMin.
    tell_judged(rt, &file, &desk::schedule_bid(11, 1_999))
}
