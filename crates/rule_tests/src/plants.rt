// The days and the cards that bids are judged by.
use register::{Card, Day, NumberedCard, RampLimits, Regulation, StartUpLimit};
use wire::Counted;

const USUAL: Day = Day {
    hours: 24,
    floor: -15_000,
    soft_cap: 100_000,
    hard_cap: 200_000,
    service_cap: 25_000,
};

// A floor of 0, equal caps and a service cap of 0.
const SHORT: Day = Day {
    hours: 23,
    floor: 0,
    soft_cap: 50_000,
    hard_cap: 50_000,
    service_cap: 0,
};

// The widest prices, and a soft cap of 0.
const LONG: Day = Day {
    hours: 25,
    floor: -10_000_000,
    soft_cap: 0,
    hard_cap: 10_000_000,
    service_cap: 10_000_000,
};

// A day of 23, 24 or 25 hours.
#[derive(Clone, Copy)]
pub enum Length {
    Short,
    Usual,
    Long,
}

impl Length {
    pub fn day(self) -> Day {
        match self {
            Length::Short => SHORT,
            Length::Usual => USUAL,
            Length::Long => LONG,
        }
    }
}

const NONE: Regulation = Regulation {
    certified: 0,
    award: 0,
};

const NO_PAIR: StartUpLimit = StartUpLimit {
    down_time: 0,
    highest: 0,
};

const NO_ROW: RampLimits = RampLimits {
    level: 0,
    lowest: 0,
    highest: 0,
};

// Energy only.
const PLAIN: Card = Card {
    owner: 3,
    pmin: 2_000,
    pmax: 10_000,
    up: NONE,
    down: NONE,
    spinning: 0,
    non_spinning: 0,
    regulation_limit: 9_000,
    level: 120_000,
    start_up: Counted {
        count: 0,
        rows: [NO_PAIR; 3],
    },
    ramp: Counted {
        count: 0,
        rows: [NO_ROW; 4],
    },
};

pub const CARDS: [NumberedCard; 8] = [
    // The most of everything, and a level below any floor.
    NumberedCard {
        resource: 0,
        card: Card {
            owner: 1,
            pmin: 0,
            pmax: 10_000_000,
            up: Regulation {
                certified: 10_000_000,
                award: 1,
            },
            down: Regulation {
                certified: 10_000_000,
                award: 9_999_999,
            },
            spinning: 10_000_000,
            non_spinning: 10_000_000,
            regulation_limit: 10_000_000,
            level: -10_000_000,
            ..PLAIN
        },
    },
    // Regulation Up with an award, and reserves.
    NumberedCard {
        resource: 7,
        card: Card {
            up: Regulation {
                certified: 1_500,
                award: 500,
            },
            spinning: 2_000,
            non_spinning: 1_000,
            ..PLAIN
        },
    },
    // Every service, three start-up pairs and four ramp rows.
    NumberedCard {
        resource: 9,
        card: Card {
            up: Regulation {
                certified: 1_500,
                award: 500,
            },
            down: Regulation {
                certified: 1_200,
                award: 200,
            },
            spinning: 6_000,
            non_spinning: 5_500,
            start_up: Counted {
                count: 3,
                rows: [
                    StartUpLimit {
                        down_time: 0,
                        highest: 100_000,
                    },
                    StartUpLimit {
                        down_time: 60,
                        highest: 200_000,
                    },
                    StartUpLimit {
                        down_time: 480,
                        highest: 4_294_967_294,
                    },
                ],
            },
            ramp: Counted {
                count: 4,
                rows: [
                    RampLimits {
                        level: 2_000,
                        lowest: 10,
                        highest: 500,
                    },
                    RampLimits {
                        level: 4_000,
                        lowest: 20,
                        highest: 600,
                    },
                    RampLimits {
                        level: 6_000,
                        lowest: 30,
                        highest: 30,
                    },
                    RampLimits {
                        level: 10_000,
                        lowest: 1,
                        highest: 700,
                    },
                ],
            },
            ..PLAIN
        },
    },
    // Reserves only, and a level below the soft cap.
    NumberedCard {
        resource: 12,
        card: Card {
            spinning: 3_000,
            non_spinning: 2_000,
            level: 50_000,
            start_up: Counted {
                count: 1,
                rows: [
                    StartUpLimit {
                        down_time: 0,
                        highest: 100_000,
                    },
                    NO_PAIR,
                    NO_PAIR,
                ],
            },
            ramp: Counted {
                count: 1,
                rows: [
                    RampLimits {
                        level: 2_000,
                        lowest: 10,
                        highest: 500,
                    },
                    NO_ROW,
                    NO_ROW,
                    NO_ROW,
                ],
            },
            ..PLAIN
        },
    },
    // Regulation without awards, and a level above the hard cap.
    NumberedCard {
        resource: 13,
        card: Card {
            up: Regulation {
                certified: 1_000,
                award: 0,
            },
            down: Regulation {
                certified: 800,
                award: 0,
            },
            spinning: 500,
            level: 250_000,
            start_up: Counted {
                count: 2,
                rows: [
                    StartUpLimit {
                        down_time: 0,
                        highest: 5,
                    },
                    StartUpLimit {
                        down_time: 1,
                        highest: 6,
                    },
                    NO_PAIR,
                ],
            },
            ramp: Counted {
                count: 2,
                rows: [
                    RampLimits {
                        level: 2_000,
                        lowest: 1,
                        highest: 2,
                    },
                    RampLimits {
                        level: 3_000,
                        lowest: 1,
                        highest: 2,
                    },
                    NO_ROW,
                    NO_ROW,
                ],
            },
            ..PLAIN
        },
    },
    // Regulation all awarded, and a negative level.
    NumberedCard {
        resource: 14,
        card: Card {
            up: Regulation {
                certified: 500,
                award: 500,
            },
            down: Regulation {
                certified: 300,
                award: 300,
            },
            spinning: 1,
            non_spinning: 1,
            level: -5_000,
            ..PLAIN
        },
    },
    // PMin and PMax equal.
    NumberedCard {
        resource: 20,
        card: Card {
            pmin: 5_000,
            pmax: 5_000,
            up: Regulation {
                certified: 100,
                award: 40,
            },
            down: Regulation {
                certified: 60,
                award: 10,
            },
            spinning: 10,
            non_spinning: 10,
            regulation_limit: 5_000,
            level: -5_000,
            ramp: Counted {
                count: 1,
                rows: [
                    RampLimits {
                        level: 5_000,
                        lowest: 0,
                        highest: 10_000_000,
                    },
                    NO_ROW,
                    NO_ROW,
                    NO_ROW,
                ],
            },
            ..PLAIN
        },
    },
    // A regulation limit of 0, and the highest level.
    NumberedCard {
        resource: 65535,
        card: Card {
            owner: 255,
            pmin: 0,
            up: Regulation {
                certified: 10_000,
                award: 9_999,
            },
            down: Regulation {
                certified: 10_000,
                award: 1,
            },
            regulation_limit: 0,
            level: 10_000_000,
            ..PLAIN
        },
    },
];
