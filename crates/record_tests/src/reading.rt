// What reading answers.
use crate::cases::tables;
use crate::hexadecimal::{ROOM, bytes_of, lay};
use crate::longest::{FLAWS, Flaw, LONGEST};
use bid::Bid;
use faults::{Answer, Fault};
use std::process::Abort;
use std::test::Fail;

// What a call answers that refuses.
pub fn refusal<T: Drop>(res: Result<T, Fault>) -> Option<Answer> {
    res.err().map(Fault::answer)
}

// A refusal for a fault of the record, which is layer 1.
pub fn of_record(number: u8, place: u32) -> Option<Answer> {
    Some(Answer {
        number,
        layer: 1,
        place,
    })
}

// The first n bytes of a record are cut short at n.
fn cut_at_each_length(rt: &impl Abort, case: &str, record: &[u8]) {
    assert!(rt; record.len() <= ROOM, "{case}");
    for n in 0..record.len() {
        let found = refusal(Bid::read(&record[..n]));
        assert_eq!(rt; found, of_record(1, n as u32), "{case}, {n}");
    }
}

// Bytes behind a record are told at its end, however many they are.
fn told_from_the_end(rt: &impl Abort, case: &str, record: Vec<u8>) -> Result<(), Fail> {
    let length = record.len();
    let expected = of_record(5, u32::try_from(length)?);
    let mut followed = record;
    followed.push(0)?;
    assert_eq!(rt; refusal(Bid::read(&followed)), expected, "{case}");
    followed.resize(ROOM, 0)?;
    assert_eq!(rt; refusal(Bid::read(&followed)), expected, "{case}");
    Ok(())
}

// A fault is told as soon as its field ends, whatever follows.
fn told_from_its_end_on(rt: &impl Abort, flaw: &Flaw, end: usize, bytes: &[u8]) {
    let Flaw(place, _, number) = *flaw;
    assert!(rt; bytes.len() <= ROOM, "{place}");
    for n in 0..bytes.len() {
        let expected = if n < end {
            of_record(1, n as u32)
        } else {
            of_record(number, place)
        };
        assert_eq!(rt; refusal(Bid::read(&bytes[..n])), expected, "{place}, {n}");
    }
}

#[test]
fn table_of_records(rt: HostRuntime) -> Result<(), Fail> {
    for table in &tables() {
        for case in *table {
            let record = bytes_of(case.0, rt.alloc())?;
            assert_eq!(rt; refusal(Bid::read(&record)), case.refusal(), "{}", case.0);
        }
    }
    Ok(())
}

#[test]
fn granted_records_cut_or_followed(rt: HostRuntime) -> Result<(), Fail> {
    for table in &tables() {
        for case in *table {
            if case.refusal().is_none() {
                let record = bytes_of(case.0, rt.alloc())?;
                cut_at_each_length(&rt, case.0, &record);
                told_from_the_end(&rt, case.0, record)?;
            }
        }
    }
    Ok(())
}

// The longest record, and zeros behind it.
fn longest_and_zeros(rt: &(impl Abort + AllocGlobal)) -> Result<Vec<u8>, Fail> {
    let mut bytes = bytes_of(LONGEST, rt.alloc())?;
    assert_eq!(rt; bytes.len(), 178);
    bytes.resize(ROOM, 0)?;
    Ok(bytes)
}

#[test]
fn flaws_of_the_longest_record(rt: HostRuntime) -> Result<(), Fail> {
    for flaw in &FLAWS {
        let Flaw(place, text, _) = *flaw;
        let laid = bytes_of(text, rt.alloc())?;
        let mut bytes = longest_and_zeros(&rt)?;
        lay(&laid, place as usize, &mut bytes);
        told_from_its_end_on(&rt, flaw, place as usize + laid.len(), &bytes);
    }
    Ok(())
}

// With each fault stand all those behind it, and the first from the front is told.
#[test]
fn first_flaw_of_several(rt: HostRuntime) -> Result<(), Fail> {
    let mut bytes = longest_and_zeros(&rt)?;
    for Flaw(place, text, number) in FLAWS.iter().rev() {
        lay(&bytes_of(*text, rt.alloc())?, *place as usize, &mut bytes);
        assert_eq!(rt; refusal(Bid::read(&bytes)), of_record(*number, *place));
    }
    Ok(())
}
