// Components to make bids of.
use bid::{Components, Curve, Ramp, RampPair, Service, Services, StartUp, StartUpPair, Step};
use std::array::from_fn;
use wire::Counted;

// Rows that say nothing where they stand behind a count, and are out of range where they count.
pub const JUNK_STEP: Step = Step {
    end: 4_294_967_295,
    price: -2_147_483_648,
};

pub const JUNK_START: StartUpPair = StartUpPair {
    down_time: 65_535,
    cost: 4_294_967_295,
};

pub const JUNK_RAMP: RampPair = RampPair {
    level: 4_294_967_295,
    rate: 4_294_967_295,
};

pub const NO_SERVICES: Services = Services {
    regulation_up: None,
    regulation_down: None,
    spinning: None,
    non_spinning: None,
};

// Resource 7 in hour 1, with no component.
pub const NOTHING: Components = Components {
    resource: 7,
    hour: 1,
    self_schedule: None,
    curve: None,
    services: NO_SERVICES,
    start_up: None,
    ramp: None,
};

pub fn step(end: u32, price: i32) -> Step {
    Step { end, price }
}

pub fn service(quantity: u32, price: i32) -> Option<Service> {
    Some(Service { quantity, price })
}

pub fn start(down_time: u16, cost: u32) -> StartUpPair {
    StartUpPair { down_time, cost }
}

pub fn ramp(level: u32, rate: u32) -> RampPair {
    RampPair { level, rate }
}

pub fn of_schedule(self_schedule: u32) -> Components {
    Components {
        self_schedule: Some(self_schedule),
        ..NOTHING
    }
}

pub fn of_curve(start: u32, count: u8, rows: [Step; 10]) -> Components {
    let steps = Counted { count, rows };
    Components {
        curve: Some(Curve { start, steps }),
        ..NOTHING
    }
}

pub fn of_services(services: Services) -> Components {
    Components {
        services,
        ..NOTHING
    }
}

pub fn of_start_up(count: u8, rows: [StartUpPair; 3]) -> Components {
    let pairs = Counted { count, rows };
    Components {
        start_up: Some(StartUp { pairs }),
        ..NOTHING
    }
}

pub fn of_ramp(count: u8, rows: [RampPair; 4]) -> Components {
    let pairs = Counted { count, rows };
    Components {
        ramp: Some(Ramp { pairs }),
        ..NOTHING
    }
}

// So many rows of one kind, and another in every place behind them.
pub fn steps(many: usize, front: Step, behind: Step) -> [Step; 10] {
    from_fn(|i| if i < many { front } else { behind })
}

fn rising_steps() -> [Step; 10] {
    [
        step(2001, -15000),
        step(2002, -14990),
        step(2003, -14980),
        step(2004, -14970),
        step(2005, -14960),
        step(2006, -14950),
        step(2007, -14940),
        step(2008, -14930),
        step(2009, -14920),
        step(2010, -14910),
    ]
}

// What the longest record says.
pub fn longest(last_ramp: RampPair) -> Components {
    let starts = [start(0, 1), start(60, 256), start(65_535, 4_294_967_295)];
    let ramps = [ramp(2000, 50), ramp(3000, 51), ramp(4000, 52), last_ramp];
    Components {
        resource: 7,
        hour: 24,
        self_schedule: Some(10_000_000),
        curve: of_curve(2000, 10, rising_steps()).curve,
        services: Services {
            regulation_up: service(1500, 1),
            regulation_down: service(1501, 2),
            spinning: service(2000, -10_000_000),
            non_spinning: service(1000, 10_000_000),
        },
        start_up: of_start_up(3, starts).start_up,
        ramp: of_ramp(4, ramps).ramp,
    }
}
