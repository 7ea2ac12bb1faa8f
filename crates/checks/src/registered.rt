// What is registered for a bid.
use register::{Card, Day};

// The day that a bid is for, and its resource's card.
#[derive(Clone, Copy)]
pub struct Registered<'a> {
    pub day: &'a Day,
    pub card: &'a Card,
}
