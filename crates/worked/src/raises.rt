// Levels raised up to the threshold and a cent above it.
use crate::{GRANTED, Verdict, compare, plant};
use faults::Fault;
use raised::Raised;
use register::CardRow;

fn answered(res: Result<(), Fault>) -> Verdict {
    res.map_or_else(Verdict::from, |()| GRANTED)
}

pub fn examples(rt: &HostRuntime) -> anyhow::Result<bool> {
    let cards = [plant::card()];
    let mut row = CardRow::closed();
    let opened = answered(row.open(plant::DAY, &cards));
    let first = compare(rt, "the register opens", GRANTED, opened)?;
    let mut layer = Raised::new(row);
    let second = compare(
        rt,
        "a level of 120000 raised to 132000",
        GRANTED,
        answered(layer.raise(7, 132_000)),
    )?;
    let refused = Verdict {
        number: 23,
        layer: 2,
        ..GRANTED
    };
    let third = compare(
        rt,
        "a level of 120000 raised to 132001",
        refused,
        answered(layer.raise(7, 132_001)),
    )?;
    Ok(first && second && third)
}
