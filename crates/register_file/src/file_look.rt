// Looking for a number in a register file.
ghost use Rattle.std.specs.Prelude.{◌≡◌};
ghost use Rattle.wire.specs.Reading.{word_at};
ghost use Rattle.register_file.specs.Skipping.{or_zero, find_at};

use crate::file::RegisterFile;
use crate::skipping::{after_card, word_or_zero};

impl RegisterFile<'_> {
    // The place of the number's card; the first number that is not lower ends the search.
    pub(crate) fn find(&self, resource: u16) -> Option<usize>
        ensures { result ≡ find_at resource (or_zero (word_at self.now.bytes.now 17)) self.now.bytes.now 19 }
    {
        let bytes = self.bytes;
        let mut next = 19;
        for _i in 0..word_or_zero(bytes, 17) {
            match word_or_zero(bytes, next) {
                number if number == resource => return Some(next),
                number if number > resource => return None,
                _ => next = after_card(bytes, next),
            }
        }
        None
    }
}
