// The tests of what a day and a card keep.
ghost use Rattle.std.specs.Prelude.{◌≡◌, ◌≤◌};
ghost use Rattle.register.specs.Cards.{blank_card};
ghost use Rattle.register.specs.CardRow.{may_stand};
ghost use Rattle.register.specs.Kept.{day_prices, is_day_length, caps_in_order, day_kept, numbers_kept, may_be_first, may_follow, start_up_kept, is_row, ramp_kept, regulation_kept, card_kept};
ghost use Rattle.wire.specs.Reading.{is_price};
ghost use Rattle.wire.specs.Rows.{entries};

use crate::data::{Card, Day, NumberedCard, RampLimits, Regulation, StartUpLimit};
use wire::Counted;
use wire::reader::MAX_QUANTITY;
pub use wire::reader::is_price;

impl Day {
    fn prices_keep(&self) -> bool
        ensures { result ≡ day_prices self.now }
    {
        is_price(self.floor)
            && is_price(self.soft_cap)
            && is_price(self.hard_cap)
            && is_price(self.service_cap)
    }

    fn caps_in_order(&self) -> bool
        ensures { result ≡ caps_in_order self.now }
    {
        self.floor <= 0
            && 0 <= self.soft_cap
            && self.soft_cap <= self.hard_cap
            && 0 <= self.service_cap
    }

    // Whether the day has what every day keeps.
    pub fn keeps(&self) -> bool
        ensures { result ≡ day_kept self.now }
    {
        self.prices_keep() && (23..=25).contains(&self.hours) && self.caps_in_order()
    }
}

impl Regulation {
    fn keeps(&self, pmax: u32) -> bool
        ensures { result ≡ regulation_kept pmax self.now }
    {
        self.award <= self.certified && self.certified <= pmax
    }
}

impl StartUpLimit {
    // Whether a pair may stand before all others: from no time down on.
    fn may_be_first(self) -> bool
        ensures { result ≡ may_be_first self }
    {
        self.down_time == 0
    }

    // Whether a pair may stand behind another: after a longer time down, at a higher cost.
    fn may_follow(self, before: StartUpLimit) -> bool
        ensures { result ≡ may_follow before self }
    {
        before.down_time < self.down_time && before.highest < self.highest
    }
}

impl RampLimits {
    fn keeps(&self, pmax: u32) -> bool
        ensures { result ≡ is_row pmax self.now }
    {
        self.level <= pmax && self.lowest <= self.highest && self.highest <= MAX_QUANTITY
    }
}

impl Card {
    // A card of zeros, with no pairs and no rows.
    pub fn blank() -> Card
        ensures { result ≡ blank_card }
    {
        Card {
            owner: 0,
            pmin: 0,
            pmax: 0,
            up: Regulation::default(),
            down: Regulation::default(),
            spinning: 0,
            non_spinning: 0,
            regulation_limit: 0,
            level: 0,
            start_up: Counted::of(&[]),
            ramp: Counted::of(&[]),
        }
    }

    fn numbers_keep(&self) -> bool
        ensures { result ≡ numbers_kept self.now }
    {
        1 <= self.owner
            && self.pmin <= self.pmax
            && self.pmax <= MAX_QUANTITY
            && self.up.keeps(self.pmax)
            && self.down.keeps(self.pmax)
            && self.spinning <= self.pmax
            && self.non_spinning <= self.pmax
            && self.regulation_limit <= self.pmax
            && is_price(self.level)
    }

    fn start_up_keeps(&self) -> bool
        ensures { result ≡ start_up_kept (entries self.now.start_up) }
    {
        let pairs = self.start_up.standing();
        pairs.first().is_none_or(|first| first.may_be_first())
            && pairs.is_sorted_by(|before, pair| pair.may_follow(*before))
    }

    fn ramp_keeps(&self) -> bool
        ensures { result ≡ ramp_kept self.now.pmin self.now.pmax (entries self.now.ramp) }
    {
        let rows = self.ramp.standing();
        rows.first()
            .is_none_or(|first| first.level == self.pmin && first.keeps(self.pmax))
            && rows.is_sorted_by(|before, row| before.level < row.level && row.keeps(self.pmax))
    }

    // Whether the card has what every card keeps; what stands past its counts says nothing.
    pub fn keeps(&self) -> bool
        ensures { result ≡ card_kept self.now }
    {
        self.numbers_keep()
            && self.start_up.count <= 3
            && self.ramp.count <= 4
            && self.start_up_keeps()
            && self.ramp_keeps()
    }
}

impl NumberedCard {
    // Whether the card may stand where numbers are at least `least`: it keeps what cards keep, and its number is not lower.
    pub fn may_stand(&self, least: u32) -> bool
        ensures { result ≡ may_stand least self.now }
    {
        least <= self.resource as u32 && self.card.keeps()
    }
}
