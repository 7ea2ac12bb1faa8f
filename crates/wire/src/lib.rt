// Big-endian fields of records and register files, read at any place of any bytes and written into lent memory.
#![tactic(auto)]

ghost use Rattle.std.specs.Prelude.{◌≡◌};
ghost use Rattle.wire.specs.Bytes.{Bytes};
ghost use Rattle.wire.specs.Maps.{stands};

pub mod counted;
pub mod field;
pub mod laws;
pub mod quantity;
pub mod reader;
pub mod writer;

pub use counted::Counted;
pub use field::{Field, Measured, OfWidth, Row};
pub use reader::Reader;
pub use writer::Writer;

// Whether a bit stands in a map, bit 0 being the lowest.
pub fn stands_in(map: u16, bit: u32) -> bool
    ensures { result ≡ stands bit map }
{
    bit < 16 && map >> bit & 1 == 1
}

// Tells proofs what the type of lent memory says: that its numbers are bytes; does nothing when run.
fn tell_bytes(memory: &[u8])
    ensures { Bytes memory.now }
{}
