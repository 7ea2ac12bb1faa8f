// A day and cards that keep what registers keep.
use register::{Card, Day, NumberedCard, RampLimits, Regulation, StartUpLimit};
use wire::Counted;

pub const DAY: Day = Day {
    hours: 24,
    floor: -15_000,
    soft_cap: 100_000,
    hard_cap: 200_000,
    service_cap: 25_000,
};

pub const NO_REGULATION: Regulation = Regulation {
    certified: 0,
    award: 0,
};

pub const NO_PAIR: StartUpLimit = StartUpLimit {
    down_time: 0,
    highest: 0,
};

pub const NO_ROW: RampLimits = RampLimits {
    level: 0,
    lowest: 0,
    highest: 0,
};

pub const NO_PAIRS: Counted<StartUpLimit, 3> = Counted {
    count: 0,
    rows: [NO_PAIR; 3],
};

pub const NO_ROWS: Counted<RampLimits, 4> = Counted {
    count: 0,
    rows: [NO_ROW; 4],
};

// Every field stands, with all pairs and rows.
pub fn full() -> Card {
    Card {
        owner: 3,
        pmin: 2000,
        pmax: 10_000,
        up: Regulation {
            certified: 1500,
            award: 700,
        },
        down: Regulation {
            certified: 1600,
            award: 800,
        },
        spinning: 2100,
        non_spinning: 2200,
        regulation_limit: 9000,
        level: 120_000,
        start_up: Counted {
            count: 3,
            rows: [
                StartUpLimit {
                    down_time: 0,
                    highest: 50_000,
                },
                StartUpLimit {
                    down_time: 60,
                    highest: 70_000,
                },
                StartUpLimit {
                    down_time: 480,
                    highest: 90_000,
                },
            ],
        },
        ramp: Counted {
            count: 4,
            rows: [
                RampLimits {
                    level: 2000,
                    lowest: 10,
                    highest: 100,
                },
                RampLimits {
                    level: 4000,
                    lowest: 20,
                    highest: 200,
                },
                RampLimits {
                    level: 6000,
                    lowest: 30,
                    highest: 300,
                },
                RampLimits {
                    level: 8000,
                    lowest: 40,
                    highest: 400,
                },
            ],
        },
    }
}

// Only what every card has.
pub fn bare() -> Card {
    Card {
        owner: 4,
        pmin: 0,
        pmax: 5000,
        up: NO_REGULATION,
        down: NO_REGULATION,
        spinning: 0,
        non_spinning: 0,
        regulation_limit: 5000,
        level: 0,
        start_up: NO_PAIRS,
        ramp: NO_ROWS,
    }
}

// Another owner, and PMin equal to PMax.
pub fn narrow() -> Card {
    Card {
        owner: 255,
        pmin: 100,
        pmax: 100,
        regulation_limit: 100,
        ..bare()
    }
}

const RUBBISH_ROW: RampLimits = RampLimits {
    level: 4_294_967_295,
    lowest: 4_294_967_295,
    highest: 0,
};

// One pair and one row; what stands behind them breaks every range and order that it can.
pub fn rubbish_behind() -> Card {
    Card {
        start_up: Counted {
            count: 1,
            rows: [
                StartUpLimit {
                    down_time: 0,
                    highest: 4_294_967_295,
                },
                StartUpLimit {
                    down_time: 65_535,
                    highest: 7,
                },
                StartUpLimit {
                    down_time: 1,
                    highest: 7,
                },
            ],
        },
        ramp: Counted {
            count: 1,
            rows: [
                RampLimits {
                    level: 2000,
                    lowest: 10,
                    highest: 100,
                },
                RUBBISH_ROW,
                RUBBISH_ROW,
                RUBBISH_ROW,
            ],
        },
        ..full()
    }
}

pub fn numbered(resource: u16, card: Card) -> NumberedCard {
    NumberedCard { resource, card }
}

// The full card with this level.
pub fn of_level(level: i32) -> Card {
    Card { level, ..full() }
}

fn zeros_behind<T: Copy, const N: usize>(blank: T, counted: &Counted<T, N>) -> Counted<T, N> {
    let mut after = *counted;
    for row in after.rows.iter_mut().skip(counted.count as usize) {
        *row = blank;
    }
    after
}

// The card with zeros behind its counts.
pub fn with_zeros_behind(card: &Card) -> Card {
    Card {
        start_up: zeros_behind(NO_PAIR, &card.start_up),
        ramp: zeros_behind(NO_ROW, &card.ramp),
        ..*card
    }
}
