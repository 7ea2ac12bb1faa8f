// What opening a register file answers, byte by byte.
use crate::files::{day_and_count, put_card};
use crate::flaws::{FILE, FLAWS, Flaw, LENGTHS, Length};
use crate::sound::{DAY, bare, full, narrow, numbered};
use crate::told::{GRANTED, Outcome, Told, answered};
use register_file::RegisterFile;
use std::process::Abort;
use std::test::Fail;

// Room for the file and some zeros behind it.
const ROOM: usize = 170;

fn opened(bytes: &[u8]) -> Outcome {
    answered(RegisterFile::closed().open(bytes))
}

// Lays bytes over memory from a place on.
fn lay(bytes: &[u8], at: usize, memory: &mut [u8; ROOM]) {
    for (slot, byte) in memory.iter_mut().skip(at).zip(bytes) {
        *slot = *byte;
    }
}

fn file_and_zeros() -> [u8; ROOM] {
    let mut memory = [0; ROOM];
    lay(FILE, 0, &mut memory);
    memory
}

// The file is cut short at each length below its own, and has bytes left over at each above.
#[test]
fn a_sound_file_at_every_length(rt: HostRuntime) {
    let memory = file_and_zeros();
    for n in 0..ROOM {
        let expected = if n < 158 {
            Err(Told(1, 1, n as u32))
        } else if n == 158 {
            GRANTED
        } else {
            Err(Told(5, 1, 158))
        };
        assert_eq!(rt; opened(&memory[..n]), expected, "{}", n);
    }
}

// The bytes of the file are those that its day and cards are written as.
#[test]
fn a_sound_file_written(rt: HostRuntime) -> Result<(), Fail> {
    let mut file = day_and_count(&DAY, 3, rt.alloc())?;
    put_card(255, &numbered(7, full()), &mut file)?;
    put_card(0, &numbered(8, bare()), &mut file)?;
    put_card(0, &numbered(300, narrow()), &mut file)?;
    assert_eq!(rt; &file[..], &FILE[..]);
    Ok(())
}

#[test]
fn cards_counted_and_standing(rt: HostRuntime) {
    for Length(count, length, expected) in &LENGTHS {
        let mut memory = file_and_zeros();
        lay(&count.to_be_bytes(), 17, &mut memory);
        assert!(rt; *length <= ROOM);
        let label = format_args!("{count} cards, {length} bytes");
        assert_eq!(rt; opened(&memory[..*length]), *expected, "{}", label);
    }
}

// A flaw is told as soon as what shows it has been read, whatever follows; before, the file is cut short.
fn told_from_its_end_on(rt: &impl Abort, flaw: &Flaw) {
    let Flaw(label, at, bytes, from, expected) = *flaw;
    let mut memory = file_and_zeros();
    lay(bytes, at, &mut memory);
    for n in 0..ROOM {
        let told = if n < from {
            Told(1, 1, n as u32)
        } else {
            expected
        };
        assert_eq!(rt; opened(&memory[..n]), Err(told), "{label}, {n}");
    }
}

#[test]
fn each_flaw_of_a_file(rt: HostRuntime) {
    for flaw in &FLAWS {
        told_from_its_end_on(&rt, flaw);
    }
}

// With each flaw stand all those behind it, and the first is told.
#[test]
fn the_first_of_several_flaws(rt: HostRuntime) {
    let mut memory = file_and_zeros();
    for Flaw(label, at, bytes, _, expected) in FLAWS.iter().rev() {
        lay(bytes, *at, &mut memory);
        assert_eq!(rt; opened(&memory), Err(*expected), "{}", *label);
    }
}
