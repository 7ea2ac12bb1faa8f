// Cards with zeros past their counts.
ghost use Rattle.std.specs.Prelude.{◌≡◌};
ghost use Rattle.register.specs.Cards.{tidied};

use crate::data::Card;

impl Card {
    // The card that says the same and has zeros past its counts.
    pub fn tidied(&self) -> Card
        ensures { result ≡ tidied self.now }
    {
        Card {
            start_up: self.start_up.tidied(),
            ramp: self.ramp.tidied(),
            ..*self
        }
    }
}
