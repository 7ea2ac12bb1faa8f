// The levels that are raised for up to 32 resources.
ghost use Rattle.std.specs.Prelude.{◌≡◌, true};
ghost use Rattle.raised.specs.Levels.{levels_kept};

use crate::level::RaisedLevel;
use wire::Counted;

#[derive(Drop)]
pub struct LevelTable {
    pub(crate) levels: Counted<RaisedLevel, 32>,
    ghost kept: { levels_kept levels ≡ true },
}
