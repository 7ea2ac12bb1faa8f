// The rules: a bid is checked against its card and day, mended, and marked where it was changed.
#![tactic(auto)]

mod judged;
mod judging;

pub use judged::Judged;
pub use judging::{judge, judge_bid};
pub use mending::{Mark, marks};
pub use rule_laws::worked_bids_stand;
