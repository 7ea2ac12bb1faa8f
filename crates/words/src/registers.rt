// A day and a card told line by line.
use crate::units::{Cents, Mw};
use register::{Card, Day, Regulation};
use std::io;

pub fn tell_day(rt: &impl Print, day: &Day) -> io::Result<()> {
    let hours = day.hours;
    let floor = Cents(day.floor.into());
    let soft = Cents(day.soft_cap.into());
    let hard = Cents(day.hard_cap.into());
    let service = Cents(day.service_cap.into());
    println!(rt;
        "  a day of {hours} hours: floor {floor}, soft cap {soft}, hard cap {hard}, service cap {service}"
    )
}

fn tell_regulation(rt: &impl Print, name: &str, regulation: &Regulation) -> io::Result<()> {
    let certified = Mw(regulation.certified);
    let award = Mw(regulation.award);
    println!(rt; "    {name}: {certified} MW certified, {award} MW awarded")
}

fn tell_limits(rt: &impl Print, card: &Card) -> io::Result<()> {
    for pair in card.start_up.standing() {
        let down_time = pair.down_time;
        let highest = Cents(pair.highest.into());
        println!(rt; "    start-up after {down_time} minutes down: at most {highest}")?;
    }
    for row in card.ramp.standing() {
        let level = Mw(row.level);
        let lowest = Mw(row.lowest);
        let highest = Mw(row.highest);
        println!(rt; "    ramp from {level} MW on: {lowest} to {highest} MW a minute")?;
    }
    Ok(())
}

// Everything that is registered of a resource.
pub fn tell_card(rt: &impl Print, resource: u16, card: &Card) -> io::Result<()> {
    let owner = card.owner;
    let pmin = Mw(card.pmin);
    let pmax = Mw(card.pmax);
    println!(rt; "  resource {resource} of coordinator {owner}: {pmin} to {pmax} MW")?;
    let level = Cents(card.level.into());
    println!(rt; "    reference level {level} a MWh")?;
    tell_regulation(rt, "Regulation Up", &card.up)?;
    tell_regulation(rt, "Regulation Down", &card.down)?;
    let spinning = Mw(card.spinning);
    let non_spinning = Mw(card.non_spinning);
    let limit = Mw(card.regulation_limit);
    println!(rt;
        "    Spinning {spinning} MW, Non-Spinning {non_spinning} MW certified; regulation up to {limit} MW"
    )?;
    tell_limits(rt, card)
}
