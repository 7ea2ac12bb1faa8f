// A bid for one resource and hour, and its record.
#![tactic(auto)]

pub mod bid;
pub mod components;
pub mod fields;
mod making;
mod record;

pub use bid::Bid;
pub use components::{
    Components, Curve, Ramp, RampPair, Service, Services, StartUp, StartUpPair, Step,
};
pub use making::LONGEST_RECORD;
