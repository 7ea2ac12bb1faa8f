// One thing of a day or of a card changed.
use register::{Card, Day, RampLimits, Regulation, StartUpLimit};

pub enum DayChange {
    Hours(u8),
    Floor(i32),
    SoftCap(i32),
    HardCap(i32),
    ServiceCap(i32),
}

impl DayChange {
    pub fn of(&self, day: &Day) -> Day {
        let mut changed = *day;
        match *self {
            DayChange::Hours(hours) => changed.hours = hours,
            DayChange::Floor(price) => changed.floor = price,
            DayChange::SoftCap(price) => changed.soft_cap = price,
            DayChange::HardCap(price) => changed.hard_cap = price,
            DayChange::ServiceCap(price) => changed.service_cap = price,
        }
        changed
    }
}

pub enum CardChange {
    Nothing,
    Owner(u8),
    PMin(u32),
    PMax(u32),
    // What is certified, and the award.
    Up(u32, u32),
    Down(u32, u32),
    Spinning(u32),
    NonSpinning(u32),
    RegulationLimit(u32),
    Level(i32),
    // How many pairs; one of them, from 0, with its down time and highest cost.
    Pairs(u8),
    Pair(usize, u16, u32),
    // How many rows; one of them, from 0, with its level, lowest and highest rate.
    Rows(u8),
    Row(usize, u32, u32, u32),
}

impl CardChange {
    pub fn of(&self, card: &Card) -> Card {
        let mut changed = *card;
        match *self {
            CardChange::Nothing => {}
            CardChange::Owner(owner) => changed.owner = owner,
            CardChange::PMin(quantity) => changed.pmin = quantity,
            CardChange::PMax(quantity) => changed.pmax = quantity,
            CardChange::Up(certified, award) => changed.up = Regulation { certified, award },
            CardChange::Down(certified, award) => changed.down = Regulation { certified, award },
            CardChange::Spinning(quantity) => changed.spinning = quantity,
            CardChange::NonSpinning(quantity) => changed.non_spinning = quantity,
            CardChange::RegulationLimit(quantity) => changed.regulation_limit = quantity,
            CardChange::Level(price) => changed.level = price,
            CardChange::Pairs(count) => changed.start_up.count = count,
            CardChange::Pair(i, down_time, highest) => {
                changed.start_up.rows[i % 3] = StartUpLimit { down_time, highest }
            }
            CardChange::Rows(count) => changed.ramp.count = count,
            CardChange::Row(i, level, lowest, highest) => {
                changed.ramp.rows[i % 4] = RampLimits {
                    level,
                    lowest,
                    highest,
                }
            }
        }
        changed
    }
}
