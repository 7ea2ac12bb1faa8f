// Cards in memory as a register.
ghost use Rattle.std.specs.Prelude.{◌≡◌, [], IfOk};
ghost use Rattle.register.specs.Meaning.{granted};
ghost use Rattle.register.specs.CardRow.{row_checked, cards_checked, row_meaning};
ghost use Rattle.register.specs.RowKeeps.{row_keeps};
ghost use Rattle.register.specs.Rows.{closed_day, row_parts, row_told, row_made, row_opened};

use crate::data::{Card, Day, NumberedCard};
use crate::register::Register;
use crate::row::CardRow;
use faults::{Fault, RegisterFault};

fn check_cards(cards: &[NumberedCard]) -> Result<(), Fault>
    ensures { result ≡ cards_checked 1 0 cards.now }
{
    let mut least = 0;
    for (i, numbered) in cards.iter().enumerate() {
        if !numbered.may_stand(least) {
            return Err(Fault::Register(RegisterFault::Breach, i as u32 + 1));
        }
        least = numbered.resource as u32 + 1;
    }
    Ok(())
}

impl<'a> CardRow<'a> {
    // A register that holds no card, of a day without prices.
    pub fn closed() -> CardRow<'a>
        ensures { row_parts result ≡ (closed_day, []) }
    {
        CardRow {
            day: Day {
                hours: 24,
                ..Day::default()
            },
            cards: &[],
        }
    }

    // The register of a day and cards, unless the day or a card is refused.
    pub fn new(day: Day, cards: &'a [NumberedCard]) -> Result<CardRow<'a>, Fault>
        ensures value { row_told result ≡ row_made day cards.now }
        ensures means { IfOk result (λ r. row_meaning r.day r.cards.now ≡ row_meaning day cards.now) }
    {
        if !day.keeps() {
            return Err(Fault::Register(RegisterFault::Breach, 0));
        }
        check_cards(cards)?;
        Ok(CardRow { day, cards })
    }

    // Takes the day and the cards given, unless the day or a card is refused.
    pub fn open(&mut self, day: Day, cards: &'a [NumberedCard]) -> Result<(), Fault>
        ensures answer { result ≡ row_checked day cards.now }
        ensures parts { row_parts self.new ≡ row_opened (row_parts self.old) day cards.now }
        ensures means { row_meaning self.new.day self.new.cards.now ≡ granted (row_checked day cards.now) (row_meaning day cards.now) (row_meaning self.old.day self.old.cards.now) }
    {
        *self = CardRow::new(day, cards)?;
        Ok(())
    }
}

impl<'a> Register for CardRow<'a> {
    ghost meaning = { λ r. row_meaning r.day r.cards.now };

    ghost keeps = { λ r. row_keeps r.day r.cards.now r.kept };

    fn day(&self) -> Day {
        self.day
    }

    fn look(&self, resource: u16, card: &mut Card) -> bool {
        let at = self.cards.partition_point(|held| held.resource < resource);
        match self.cards.get(at) {
            Some(held) if held.resource == resource => {
                *card = held.card.tidied();
                true
            }
            _ => false,
        }
    }
}
