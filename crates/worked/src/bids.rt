// Bids judged: prices that stay or fall, the eleventh step, and an hour that the day lacks.
use crate::{GRANTED, Verdict, compare, plant};
use bid::{Bid, Components, Curve, LONGEST_RECORD, Service, Services, Step};
use faults::Fault;
use register::CardRow;
use rules::judge;
use std::array::from_fn;
use wire::Counted;

// Resource 7 in hour 1, with no component.
fn nothing() -> Components {
    Components {
        resource: 7,
        hour: 1,
        ..Components::default()
    }
}

// 0.11 MW of Spinning, for nothing.
fn spinning_11() -> Services {
    Services {
        spinning: Some(Service {
            quantity: 11,
            price: 0,
        }),
        ..Services::default()
    }
}

// Two steps from 20.00 MW, to 60.00 and 100.00 MW.
fn two_steps(first: i32, second: i32) -> Option<Curve> {
    let steps = [
        Step {
            end: 6_000,
            price: first,
        },
        Step {
            end: 10_000,
            price: second,
        },
    ];
    Some(Curve {
        start: 2_000,
        steps: Counted::of(&steps),
    })
}

// Ten steps of a hundredth of a MW each, all but the last at 100,000 cents.
fn ten_steps(last: i32) -> Option<Curve> {
    let steps: [Step; 10] = from_fn(|i| Step {
        end: 2_001 + i as u32,
        price: if i < 9 { 100_000 } else { last },
    });
    Some(Curve {
        start: 2_000,
        steps: Counted::of(&steps),
    })
}

// What judging the record of a bid answers.
fn judged(components: &Components) -> Result<Verdict, Fault> {
    let cards = [plant::card()];
    let register = CardRow::new(plant::DAY, &cards)?;
    let mut filed = [0; LONGEST_RECORD];
    let written = Bid::make(components)?.write(&mut filed)?;
    let mut out = [0; LONGEST_RECORD];
    let (number, layer, place, marks, length) = judge(&register, 3, &filed[..written], &mut out);
    Ok(Verdict {
        number,
        layer,
        place,
        marks,
        length,
    })
}

// A label, what is expected, and the bid.
#[derive(Drop)]
struct Example(&'static str, Verdict, Components);

pub fn examples(rt: &HostRuntime) -> anyhow::Result<bool> {
    let examples = [
        Example(
            "two steps at one price",
            Verdict {
                marks: 16,
                length: 34,
                ..GRANTED
            },
            Components {
                curve: two_steps(5_000, 5_000),
                ..nothing()
            },
        ),
        Example(
            "the second a cent lower",
            Verdict {
                number: 12,
                layer: 3,
                place: 2,
                ..GRANTED
            },
            Components {
                curve: two_steps(5_000, 4_999),
                ..nothing()
            },
        ),
        Example(
            "ten steps to 2010, the last at 100000, with Spinning 11",
            Verdict {
                number: 17,
                layer: 3,
                ..GRANTED
            },
            Components {
                curve: ten_steps(100_000),
                services: spinning_11(),
                ..nothing()
            },
        ),
        Example(
            "ten steps to 2010, the last at 120000, with Spinning 11",
            Verdict {
                marks: 18,
                length: 106,
                ..GRANTED
            },
            Components {
                curve: ten_steps(120_000),
                services: spinning_11(),
                ..nothing()
            },
        ),
        Example(
            "hour 25 of a day of 24",
            Verdict {
                number: 8,
                layer: 2,
                ..GRANTED
            },
            Components {
                hour: 25,
                ..nothing()
            },
        ),
    ];
    let mut agree = true;
    for Example(label, expected, filed) in &examples {
        let found = judged(filed).unwrap_or_else(Verdict::from);
        agree &= compare(rt, *label, *expected, found)?;
    }
    Ok(agree)
}
