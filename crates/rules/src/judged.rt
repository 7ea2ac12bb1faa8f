// A row with its marks.
use bid::Bid;

// What the rules make of a bid: the row, and a mark for each part that differs from the filing.
#[derive(Clone, Copy, Debug)]
pub struct Judged {
    pub row: Bid,
    pub marks: u16,
}
