// Levels raised over a register: it means what the register below means, with each level put in where it is higher.
ghost use Rattle.std.specs.Prelude.{◌≡◌, true, List, []};
ghost use Rattle.wire.specs.Reading.{is_price};
ghost use Rattle.wire.specs.Rows.{entries};
ghost use Rattle.raised.specs.declared.level.RaisedLevel.{RaisedLevel as Raise};
ghost use Rattle.raised.specs.Levels.{threshold, raise_answer, levels_after, raised_meaning};
ghost use Rattle.raised.specs.RaisedKeeps.{priced, raised_keeps};
ghost use Rattle.raised.specs.Runs.{RaisesHold};

use crate::levels::LevelTable;
use faults::{Fault, RecordFault, RegisterFault};
use register::{Card, Day, Register, is_price};

#[derive(Drop)]
pub struct Raised<R> {
    below: R,
    levels: LevelTable,
}

// A tenth above the level, rounded down; a negative level is its own threshold.
fn threshold(level: i32) -> i32
    requires { is_price level ≡ true }
    ensures { result ≡ threshold level }
{
    if level < 0 { level } else { level + level / 10 }
}

impl<R: Register> Raised<R> {
    // No level is raised yet.
    pub fn new(below: R) -> Raised<R>
        ensures below { result.below ≡ below }
        ensures levels { entries result.levels.levels ≡ [] }
    {
        Raised {
            below,
            levels: LevelTable::new(),
        }
    }

    // Raises a resource's level, from the level below up to its threshold; raising again replaces.
    pub fn raise(&mut self, resource: u16, level: i32) -> Result<(), Fault>
        ensures answer { result ≡ raise_answer (R.Register.meaning self.old.below) (entries self.old.levels.levels) resource level }
        ensures below { self.new.below ≡ self.old.below }
        ensures levels { entries self.new.levels.levels ≡ levels_after (R.Register.meaning self.old.below) (entries self.old.levels.levels) resource level }
        ensures means { raised_meaning (R.Register.meaning self.new.below) (entries self.new.levels.levels) ≡ raised_meaning (R.Register.meaning self.old.below) (levels_after (R.Register.meaning self.old.below) (entries self.old.levels.levels) resource level) }
        ensures raises { (rs : List Raise) → RaisesHold (R.Register.meaning self.old.below) rs }
    {
        if !is_price(level) {
            return Err(Fault::Record(RecordFault::OutOfRange, 0));
        }
        let mut card = Card::blank();
        if !self.below.look(resource, &mut card) {
            return Err(Fault::Register(RegisterFault::ResourceNotHeld, 0));
        }
        if level < card.level || level > threshold(card.level) {
            return Err(Fault::Register(RegisterFault::RaiseNotAllowed, 0));
        }
        self.levels.put(resource, level)
    }
}

impl<R: Register> Register for Raised<R> {
    ghost meaning = { λ r. raised_meaning (R.Register.meaning r.below) (entries r.levels.levels) };

    ghost keeps = { λ r. raised_keeps (R.Register.meaning r.below) (entries r.levels.levels) (R.Register.keeps r.below) (priced r.levels.levels r.levels.kept) };

    fn day(&self) -> Day {
        self.below.day()
    }

    fn look(&self, resource: u16, card: &mut Card) -> bool {
        if !self.below.look(resource, card) {
            return false;
        }
        match self.levels.level_of(resource) {
            Some(level) if level > card.level => card.level = level,
            _ => {}
        }
        true
    }
}
