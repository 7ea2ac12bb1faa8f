// A register: what it means, and the two questions that it answers.
ghost use Rattle.std.specs.Prelude.{◌≡◌, ℕ, is_some};
ghost use Rattle.register.specs.Meaning.{Meaning, Keeps, card_or};

use crate::data::{Card, Day};

pub trait Register {
    ghost meaning: { Self → Meaning };

    fn day(&self) -> Day
        ensures value { result ≡ (meaning self.now).day }
        ensures keeps { Keeps (meaning self.now) };

    // Whether the resource is held; its card is filled in if so, and else not written.
    fn look(&self, resource: u16, card: &mut Card) -> bool
        ensures answer { result ≡ is_some ((meaning self.now).cards resource) }
        ensures filled { card.new ≡ card_or card.old ((meaning self.now).cards resource) }
        ensures keeps { Keeps (meaning self.now) };

    // Every kind of register owes that its meaning keeps what registers keep.
    ghost keeps: { (r : Self) → Keeps (meaning r) };
}
