// Mending a bid that passes the checks, and marking where the row differs from the filing.
#![tactic(auto)]

mod curves;
mod marking;
mod row;
mod services;

pub use marking::{Mark, marks};
pub use row::mend_bid;
