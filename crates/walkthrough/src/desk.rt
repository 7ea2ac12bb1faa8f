// What the coordinator's desk writes down.
use bid::{Components, Curve, Ramp, RampPair, Service, Services, StartUp, StartUpPair, Step};
use wire::Counted;

// Resource 7 in hour 8, with no component.
fn nothing() -> Components {
    Components {
        resource: 7,
        hour: 8,
        ..Components::default()
    }
}

// Steps from 20.00 MW on.
fn curve(steps: &[Step]) -> Curve {
    Curve {
        start: 2_000,
        steps: Counted::of(steps),
    }
}

fn start_up() -> StartUp {
    let after_minutes = StartUpPair {
        down_time: 0,
        cost: 150_000,
    };
    let after_hours = StartUpPair {
        down_time: 480,
        cost: 275_000,
    };
    StartUp {
        pairs: Counted::of(&[after_minutes, after_hours]),
    }
}

fn ramp() -> Ramp {
    let from_pmin = RampPair {
        level: 2_000,
        rate: 150,
    };
    Ramp {
        pairs: Counted::of(&[from_pmin]),
    }
}

// Energy in two steps, Spinning reserve, start-up costs and a ramp rate.
pub fn morning_bid() -> Components {
    let low = Step {
        end: 6_000,
        price: 4_250,
    };
    let high = Step {
        end: 9_000,
        price: 5_875,
    };
    let spinning = Service {
        quantity: 500,
        price: 325,
    };
    Components {
        curve: Some(curve(&[low, high])),
        services: Services {
            spinning: Some(spinning),
            ..Services::default()
        },
        start_up: Some(start_up()),
        ramp: Some(ramp()),
        ..nothing()
    }
}

// Nothing but a self-schedule.
pub fn schedule_bid(hour: u8, quantity: u32) -> Components {
    Components {
        hour,
        self_schedule: Some(quantity),
        ..nothing()
    }
}

// One step at a price above the resource's level.
pub fn dear_bid() -> Components {
    let dear = Step {
        end: 10_000,
        price: 135_000,
    };
    Components {
        hour: 10,
        curve: Some(curve(&[dear])),
        ..nothing()
    }
}
