// A day and a lent row of numbered cards that keep what registers keep.
ghost use Rattle.std.specs.Prelude.{◌≡◌, true};
ghost use Rattle.register.specs.CardRow.{row_kept};

use crate::data::{Day, NumberedCard};

#[derive(Clone, Copy)]
pub struct CardRow<'a> {
    pub(crate) day: Day,
    pub(crate) cards: &'a [NumberedCard],
    ghost kept: { row_kept day cards.now ≡ true },
}
