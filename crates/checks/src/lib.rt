// The checks of a bid against its card and day, and the quantities and prices that the rules speak of.
#![tactic(auto)]

mod filing;
mod pairs;
mod registered;
mod steps;
mod terms;

pub use registered::Registered;
pub use terms::{base, free, need};
