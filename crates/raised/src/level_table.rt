// Looking up and putting in raised levels.
ghost use Rattle.std.specs.Prelude.{◌≡◌, ◌≤◌, true, []};
ghost use Rattle.wire.specs.Reading.{is_price};
ghost use Rattle.wire.specs.Rows.{entries};
ghost use Rattle.raised.specs.Levels.{level_of, put_level, put_answer};
ghost use Rattle.register.specs.Meaning.{granted};
ghost use Rattle.raised.specs.Tables.{place_of};

use crate::level::RaisedLevel;
use crate::levels::LevelTable;
use faults::{Fault, WindowFault};
use wire::Counted;

// How many resources may have a raised level.
const PLACES: usize = 32;

impl LevelTable {
    pub fn new() -> LevelTable
        ensures { entries result.levels ≡ [] }
    {
        LevelTable {
            levels: Counted {
                count: 0,
                rows: [RaisedLevel::default(); 32],
            },
        }
    }

    // The place of the resource's level, if it has one.
    fn place_of(&self, resource: u16) -> Option<usize>
        ensures { result ≡ place_of resource (entries self.now.levels) }
    {
        self.levels
            .standing()
            .iter()
            .position(|held| held.resource == resource)
    }

    // The level that is held for a resource.
    pub fn level_of(&self, resource: u16) -> Option<i32>
        ensures { result ≡ level_of (entries self.now.levels) resource }
    {
        self.levels
            .standing()
            .iter()
            .find(|held| held.resource == resource)
            .map(|held| held.level)
    }

    // Holds the level for the resource, in place of any that is held; a 33rd resource is refused.
    pub(crate) fn put(&mut self, resource: u16, level: i32) -> Result<(), Fault>
        requires { is_price level ≡ true }
        ensures answer { result ≡ put_answer (entries self.old.levels) resource }
        ensures after { entries self.new.levels ≡ granted (put_answer (entries self.old.levels) resource) (put_level resource level (entries self.old.levels)) (entries self.old.levels) }
    {
        let mut levels = self.levels;
        match self.place_of(resource) {
            Some(at) => levels.rows[at].level = level,
            None => {
                let at = levels.count as usize;
                if at == PLACES {
                    return Err(Fault::Window(WindowFault::Full, 0));
                }
                levels.rows[at] = RaisedLevel { resource, level };
                levels.count += 1;
            }
        }
        *self = LevelTable { levels };
        Ok(())
    }
}
