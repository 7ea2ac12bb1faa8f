// A quantity as a field: hundredths of a MW, at most 10,000,000.
ghost use Rattle.wire.specs.Bytes.{long_bytes};
ghost use Rattle.wire.specs.Reading.{is_quantity, quantity_at};
ghost use Rattle.wire.specs.Writing.{put_at};
ghost use Rattle.wire.specs.Lawful.{quantity_lawful};
ghost use Rattle.wire.specs.Laid.{puts_bytes};

use crate::field::{Field, Measured};
use crate::reader::Reader;
use crate::writer::Writer;
use faults::Fault;

impl Field for u32 {
    ghost parsed = { quantity_at };

    ghost encoded = { long_bytes };

    ghost put = { λ v. put_at (long_bytes v) };

    ghost held = { is_quantity };

    ghost longest = { 4 };

    ghost lawful = { quantity_lawful };

    ghost puts = { λ v. puts_bytes (long_bytes v) };

    fn read(reader: &mut Reader) -> Result<u32, Fault> {
        reader.quantity()
    }

    fn write(&self, writer: &mut Writer) -> Result<(), Fault> {
        writer.long(*self)
    }
}

impl Measured for u32 {
    fn length(&self) -> usize {
        4
    }
}
