// What writing answers, and what the memory holds after.
use crate::cases::tables;
use crate::hexadecimal::{ROOM, bytes_of};
use crate::reading::refusal;
use bid::Bid;
use faults::Answer;
use std::process::Abort;
use std::test::Fail;

// What stands in memory before.
const FILL: u8 = 0xA5;

const TOO_SHORT: Answer = Answer {
    number: 21,
    layer: 4,
    place: 0,
};

// Memory of which some length was lent holds these bytes at its front, and behind them what stood there.
fn holds(rt: &impl Abort, case: &str, length: usize, memory: &[u8], front: &[u8]) {
    let behind = memory.strip_prefix(front);
    let stays = behind.is_some_and(|rest| rest.iter().all(|byte| *byte == FILL));
    assert!(rt; stays, "{case}, {length}, what stands in memory");
}

// Lent memory of some length, a bid writes its record where it fits, and else nothing.
fn written_into(
    rt: &impl Abort,
    case: &str,
    bid: &Bid,
    record: &[u8],
    length: usize,
) -> Result<(), Fail> {
    let mut memory = [FILL; ROOM];
    assert!(rt; length <= ROOM, "{case}, {length}");
    let res = bid.write(&mut memory[..length]);
    if length < record.len() {
        assert_eq!(rt; refusal(res), Some(TOO_SHORT), "{case}, {length}");
        holds(rt, case, length, &memory, &[]);
    } else {
        assert_eq!(rt; res?, record.len(), "{case}, {length}");
        holds(rt, case, length, &memory, record);
    }
    Ok(())
}

// A bid is written as this record, and only where it fits.
pub fn written_as(rt: &impl Abort, case: &str, bid: &Bid, record: &[u8]) -> Result<(), Fail> {
    assert_eq!(rt; bid.length(), record.len(), "{case}");
    for length in 0..=record.len() {
        written_into(rt, case, bid, record, length)?;
    }
    written_into(rt, case, bid, record, ROOM)
}

#[test]
fn granted_records_written_again(rt: HostRuntime) -> Result<(), Fail> {
    for table in &tables() {
        for case in *table {
            if case.refusal().is_none() {
                let record = bytes_of(case.0, rt.alloc())?;
                written_as(&rt, case.0, &Bid::read(&record)?, &record)?;
            }
        }
    }
    Ok(())
}
