// The day and the one card that the examples are worked on.
use register::{Card, Day, NumberedCard, Regulation};

pub const DAY: Day = Day {
    hours: 24,
    floor: -15_000,
    soft_cap: 100_000,
    hard_cap: 200_000,
    service_cap: 25_000,
};

// Resource 7 of owner 3, at a level of 120,000 cents.
pub fn card() -> NumberedCard {
    let card = Card {
        owner: 3,
        pmin: 2_000,
        pmax: 10_000,
        up: Regulation {
            certified: 1_500,
            award: 500,
        },
        spinning: 2_000,
        non_spinning: 1_000,
        regulation_limit: 9_000,
        level: 120_000,
        ..Card::blank()
    };
    NumberedCard { resource: 7, card }
}
