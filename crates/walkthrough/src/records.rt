// A bid becomes a record, is read back, and damaged copies are denied.
use crate::{damage, desk};
use bid::{Bid, LONGEST_RECORD};
use faults::Fault;
use words::{Hex, tell_bid};

pub fn tell_denial(rt: &HostRuntime, fault: Fault) -> anyhow::Result<()> {
    println!(rt; "  denied: {fault}")?;
    Ok(())
}

fn tell_record(rt: &HostRuntime, record: &[u8]) -> anyhow::Result<()> {
    let length = record.len();
    let hex = Hex(record);
    println!(rt; "  {length} bytes: {hex}")?;
    match Bid::read(record) {
        Ok(bid) => {
            println!(rt; "Read back, the record says:")?;
            tell_bid(rt, &bid)?;
        }
        Err(fault) => tell_denial(rt, fault)?,
    }
    Ok(())
}

fn tell_written(rt: &HostRuntime, bid: &Bid) -> anyhow::Result<()> {
    let mut memory = [0; LONGEST_RECORD];
    let record = match bid.write(&mut memory) {
        Ok(length) => &mut memory[..length],
        Err(fault) => return tell_denial(rt, fault),
    };
    println!(rt; "Its record, as it is filed:")?;
    tell_record(rt, record)?;
    println!(rt; "The same record with its last byte lost on the way:")?;
    tell_record(rt, damage::cut(record))?;
    println!(rt; "The same record with a bit set that no field has:")?;
    damage::unknown_bit(record);
    tell_record(rt, record)
}

pub fn tell(rt: &HostRuntime) -> anyhow::Result<()> {
    println!(rt; "A coordinator writes down a bid.")?;
    match Bid::make(&desk::morning_bid()) {
        Ok(bid) => {
            tell_bid(rt, &bid)?;
            tell_written(rt, &bid)?;
        }
        Err(fault) => tell_denial(rt, fault)?,
    }
    println!(rt; "A bid with a quantity that no plant has is not even made into a record.")?;
    // Over 100,000 MW.
    match Bid::make(&desk::schedule_bid(8, 10_000_001)) {
        Ok(bid) => tell_bid(rt, &bid)?,
        Err(fault) => tell_denial(rt, fault)?,
    }
    Ok(())
}
