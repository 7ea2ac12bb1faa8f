// A bid: components that keep their ranges and counts, with zeros behind the counts.
ghost use Rattle.std.specs.Prelude.{◌≡◌, true};
ghost use Rattle.bid.specs.Kept.{keeps};

use crate::components::Components;

#[derive(Clone, Copy, Debug)]
pub struct Bid {
    pub components: Components,
    ghost kept: { keeps components ≡ true },
}
