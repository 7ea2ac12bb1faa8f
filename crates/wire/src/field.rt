// A field of a format and counted rows of it: each kind is read, written and measured by its own functions, under one law.
ghost use Rattle.std.specs.Prelude.{◌≡◌, ℕ, ◌+◌, ◌*◌, ◌≤◌, Bool, true, List, [], length, OnErr};
ghost use Rattle.wire.specs.Laws.{Lawful, Puts};
ghost use Rattle.wire.specs.Reading.{Read};
ghost use Rattle.wire.specs.Reads.{Reads};
ghost use Rattle.wire.specs.Rows.{packed_at, counted_at, counted_bytes, counted_held, counted_put};
ghost use Rattle.wire.specs.Writing.{Written, rows_put};
ghost use Rattle.wire.specs.Writes.{Writes};

use crate::counted::Counted;
use crate::reader::Reader;
use crate::writer::Writer;
use faults::Fault;

pub trait Field: Copy {
    // what reading at a place of some bytes gives
    ghost parsed: { List ℕ → ℕ → Read Self };

    // the bytes that it is written in
    ghost encoded: { Self → List ℕ };

    // what writing into lent memory answers, and the memory after
    ghost put: { Self → List ℕ → ℕ → Written };

    // the values that reading can give
    ghost held: { Self → Bool };

    // the most bytes that such a value takes
    ghost longest: { ℕ };

    // That the reader's numbers are bytes, as `Reads` says, an impl has from any call that reads with it, else from `tell_bytes`.
    fn read(reader: &mut Reader) -> Result<Self, Fault>
        ensures value { Reads parsed reader.old result reader.new }
        ensures stays { OnErr result (reader.new.at ≡ reader.old.at) };

    // That the memory's numbers are bytes, as `Writes` says, an impl has from any call that writes to it, else from `tell_bytes`.
    fn write(&self, writer: &mut Writer) -> Result<(), Fault>
        ensures value { Writes (put self.now) writer.old result writer.new }
        ensures stays { OnErr result (writer.new.at ≡ writer.old.at) };

    ghost lawful: { Lawful parsed encoded held longest };

    ghost puts: { (v : Self) → Puts (put v) (encoded v) };
}

// A field that stands in counted rows.
pub trait Row: Field {
    // what stands in an array behind the rows that count
    ghost blank: { Self };

    ghost is_blank: { Self → Bool };

    fn blank() -> Self
        ensures { result ≡ blank };

    ghost blanks: { (v : Self) → is_blank v ≡ true → v ≡ blank };

    ghost blanked: { is_blank blank ≡ true };
}

// A field that tells its length.
pub trait Measured: Field {
    // How many bytes it is written in.
    fn length(&self) -> usize
        ensures value { result ≡ length (Self.encoded self.now) }
        ensures bound { result ≤ Self.longest };
}

// A row of which each is written in as many bytes.
pub trait OfWidth: Row {
    ghost WIDTH: { ℕ };

    const WIDTH: u8;

    ghost wide: { (v : Self) → length (Self.encoded v) ≡ WIDTH };

    ghost narrow: { WIDTH ≤ Self.longest };
}
