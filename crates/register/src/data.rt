// What a register holds, as plain numbers; nothing is promised of them.
use wire::Counted;

// The hours of a day, and the limits of its prices (cents a MWh).
#[derive(Clone, Copy, PartialEq, Eq, Default, Debug)]
pub struct Day {
    pub hours: u8,
    pub floor: i32,
    pub soft_cap: i32,
    pub hard_cap: i32,
    pub service_cap: i32,
}

// One regulation service: what is certified, and what of it is awarded (hundredths of a MW).
#[derive(Clone, Copy, PartialEq, Eq, Default, Debug)]
pub struct Regulation {
    pub certified: u32,
    pub award: u32,
}

// The highest cost (cents) of a start after so many minutes down.
#[derive(Clone, Copy, PartialEq, Eq, Default, Debug)]
pub struct StartUpLimit {
    pub down_time: u16,
    pub highest: u32,
}

// The lowest and the highest ramp rate (hundredths of a MW in a minute) from an operating level on.
#[derive(Clone, Copy, PartialEq, Eq, Default, Debug)]
pub struct RampLimits {
    pub level: u32,
    pub lowest: u32,
    pub highest: u32,
}

// What is registered of one resource: quantities in hundredths of a MW, the level in cents.
// A count of 0 stands for no start-up pairs or no ramp rows.
#[derive(Clone, Copy, PartialEq, Eq, Debug)]
pub struct Card {
    pub owner: u8,
    pub pmin: u32,
    pub pmax: u32,
    pub up: Regulation,
    pub down: Regulation,
    pub spinning: u32,
    pub non_spinning: u32,
    pub regulation_limit: u32,
    pub level: i32,
    pub start_up: Counted<StartUpLimit, 3>,
    pub ramp: Counted<RampLimits, 4>,
}

// A card and the number of its resource.
#[derive(Clone, Copy, PartialEq, Eq, Debug)]
pub struct NumberedCard {
    pub resource: u16,
    pub card: Card,
}
