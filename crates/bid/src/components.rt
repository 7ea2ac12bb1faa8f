// The components of a bid as plain numbers, in the order of its record.
use wire::Counted;

// Energy up to `end` (hundredths of a MW) at `price` (cents a MWh).
#[derive(Clone, Copy, PartialEq, Eq, Default, Debug)]
pub struct Step {
    pub end: u32,
    pub price: i32,
}

// The energy curve: steps that follow one another from `start`.
#[derive(Clone, Copy, PartialEq, Eq, Debug)]
pub struct Curve {
    pub start: u32,
    pub steps: Counted<Step, 10>,
}

// A quantity of an ancillary service (hundredths of a MW) and its price (cents).
#[derive(Clone, Copy, PartialEq, Eq, Debug)]
pub struct Service {
    pub quantity: u32,
    pub price: i32,
}

#[derive(Clone, Copy, PartialEq, Eq, Default, Debug)]
pub struct Services {
    pub regulation_up: Option<Service>,
    pub regulation_down: Option<Service>,
    pub spinning: Option<Service>,
    pub non_spinning: Option<Service>,
}

// The cost (cents) of a start after so many minutes down.
#[derive(Clone, Copy, PartialEq, Eq, Default, Debug)]
pub struct StartUpPair {
    pub down_time: u16,
    pub cost: u32,
}

#[derive(Clone, Copy, PartialEq, Eq, Debug)]
pub struct StartUp {
    pub pairs: Counted<StartUpPair, 3>,
}

// The ramp rate (hundredths of a MW in a minute) from an operating level on.
#[derive(Clone, Copy, PartialEq, Eq, Default, Debug)]
pub struct RampPair {
    pub level: u32,
    pub rate: u32,
}

#[derive(Clone, Copy, PartialEq, Eq, Debug)]
pub struct Ramp {
    pub pairs: Counted<RampPair, 4>,
}

// Everything that a bid says; nothing is promised of its numbers.
#[derive(Clone, Copy, PartialEq, Eq, Default, Debug)]
pub struct Components {
    pub resource: u16,
    pub hour: u8,
    pub self_schedule: Option<u32>,
    pub curve: Option<Curve>,
    pub services: Services,
    pub start_up: Option<StartUp>,
    pub ramp: Option<Ramp>,
}
