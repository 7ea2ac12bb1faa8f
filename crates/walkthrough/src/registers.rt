// A register file is opened, and a level is raised over it.
use crate::plant;
use crate::records::tell_denial;
use faults::Fault;
use raised::Raised;
use register::{Card, Register};
use register_file::RegisterFile;
use words::{Cents, tell_card, tell_day};

// The resource that the story is about.
pub const RESOURCE: u16 = 7;

pub fn tell_held<R: Register>(rt: &HostRuntime, register: &R) -> anyhow::Result<()> {
    let mut card = Card::blank();
    if register.look(RESOURCE, &mut card) {
        tell_card(rt, RESOURCE, &card)?;
    } else {
        println!(rt; "  resource {RESOURCE} is not held")?;
    }
    Ok(())
}

fn tell_raise(rt: &HostRuntime, level: i32, answer: Result<(), Fault>) -> anyhow::Result<()> {
    let level = Cents(level.into());
    println!(rt; "The level is to be raised to {level}.")?;
    match answer {
        Ok(()) => println!(rt; "  granted")?,
        Err(fault) => tell_denial(rt, fault)?,
    }
    Ok(())
}

pub fn tell(rt: &HostRuntime) -> anyhow::Result<()> {
    println!(rt; "The register file of the day is opened.")?;
    let file = match RegisterFile::new(&plant::REGISTER) {
        Ok(file) => file,
        Err(fault) => return tell_denial(rt, fault),
    };
    tell_day(rt, &file.day())?;
    tell_held(rt, &file)?;
    let mut layer = Raised::new(file);
    tell_raise(rt, 132_000, layer.raise(RESOURCE, 132_000))?;
    tell_raise(rt, 132_001, layer.raise(RESOURCE, 132_001))?;
    println!(rt; "With the level that was granted, the card reads:")?;
    tell_held(rt, &layer)
}
