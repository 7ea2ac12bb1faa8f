// What is registered for a day and for each resource, what a register means, and cards in memory as a register.
#![tactic(auto)]

pub mod data;
pub mod kept;
pub mod limits;
pub mod register;
pub mod row;
pub mod row_register;
mod tidy;

pub use data::{Card, Day, NumberedCard, RampLimits, Regulation, StartUpLimit};
pub use kept::is_price;
pub use register::Register;
pub use row::CardRow;
