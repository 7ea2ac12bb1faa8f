// A bid told line by line.
use crate::units::{Cents, Mw};
use bid::{Bid, Curve, Ramp, Service, StartUp};
use std::io;

fn tell_curve(rt: &impl Print, curve: &Curve) -> io::Result<()> {
    let start = Mw(curve.start);
    println!(rt; "  energy curve from {start} MW:")?;
    for (i, step) in curve.steps.standing().iter().enumerate() {
        let number = i + 1;
        let end = Mw(step.end);
        let price = Cents(step.price.into());
        println!(rt; "    step {number}: to {end} MW at {price} a MWh")?;
    }
    Ok(())
}

fn tell_service(rt: &impl Print, name: &str, service: &Option<Service>) -> io::Result<()> {
    if let Some(service) = service {
        let quantity = Mw(service.quantity);
        let price = Cents(service.price.into());
        println!(rt; "  {name}: {quantity} MW at {price} a MW")?;
    }
    Ok(())
}

fn tell_start_up(rt: &impl Print, start_up: &StartUp) -> io::Result<()> {
    for pair in start_up.pairs.standing() {
        let down_time = pair.down_time;
        let cost = Cents(pair.cost.into());
        println!(rt; "  start-up after {down_time} minutes down: {cost}")?;
    }
    Ok(())
}

fn tell_ramp(rt: &impl Print, ramp: &Ramp) -> io::Result<()> {
    for pair in ramp.pairs.standing() {
        let level = Mw(pair.level);
        let rate = Mw(pair.rate);
        println!(rt; "  ramp from {level} MW on: {rate} MW a minute")?;
    }
    Ok(())
}

// Each component of a bid that is there, one to a line.
pub fn tell_bid(rt: &impl Print, bid: &Bid) -> io::Result<()> {
    let components = &bid.components;
    let resource = components.resource;
    let hour = components.hour;
    println!(rt; "  resource {resource}, hour {hour}")?;
    if let Some(quantity) = components.self_schedule {
        let quantity = Mw(quantity);
        println!(rt; "  self-schedule: {quantity} MW")?;
    }
    if let Some(curve) = &components.curve {
        tell_curve(rt, curve)?;
    }
    tell_service(rt, "Regulation Up", &components.services.regulation_up)?;
    tell_service(rt, "Regulation Down", &components.services.regulation_down)?;
    tell_service(rt, "Spinning reserve", &components.services.spinning)?;
    tell_service(
        rt,
        "Non-Spinning reserve",
        &components.services.non_spinning,
    )?;
    if let Some(start_up) = &components.start_up {
        tell_start_up(rt, start_up)?;
    }
    if let Some(ramp) = &components.ramp {
        tell_ramp(rt, ramp)?;
    }
    Ok(())
}
