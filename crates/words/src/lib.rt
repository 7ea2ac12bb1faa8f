// Numbers of the market in words: megawatts, dollars, hours and bytes as people write them.
#![tactic(auto)]

mod bids;
mod registers;
mod units;

pub use bids::tell_bid;
pub use registers::{tell_card, tell_day};
pub use units::{Cents, Hex, Mw};
