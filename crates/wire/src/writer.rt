// Writing one field after another into lent memory; a number or bytes that do not fit are refused, with nothing of them written.
ghost use Rattle.std.specs.Prelude.{◌≡◌, OnErr};
ghost use Rattle.wire.specs.Bytes.{Bytes, byte_bytes, word_bytes, long_bytes, signed_bytes};
ghost use Rattle.wire.specs.Rows.{counted_put, optional_put};
ghost use Rattle.wire.specs.Writing.{put_at, rows_put};
ghost use Rattle.wire.specs.Writes.{Writes};

use crate::counted::Counted;
use crate::field::Field;
use crate::tell_bytes;
use faults::{Fault, WindowFault};

fn write_rows<T: Field>(rows: &[T], writer: &mut Writer) -> Result<(), Fault>
    ensures { Writes (rows_put T.Field.put rows.now) writer.old result writer.new }
{
    writer.tell_bytes();
    for row in rows {
        row.write(writer)?;
    }
    Ok(())
}

// Lent memory, and the place from which it is written on; what is refused leaves the place where it was.
#[derive(Drop)]
pub struct Writer<'a> {
    pub out: &'a mut [u8],
    pub at: usize,
}

impl<'a> Writer<'a> {
    // Writes from the front on.
    pub fn new(out: &'a mut [u8]) -> Writer<'a>
        ensures same { result.out.ghost_name ≡ out.entry.ghost_name }
        ensures memory { result.out.now ≡ out.old }
        ensures place { result.at ≡ 0 }
    {
        Writer { out, at: 0 }
    }

    // Tells proofs that the numbers in the writer's memory are bytes; does nothing when run.
    pub fn tell_bytes(&self)
        ensures { Bytes self.now.out.now }
    {
        tell_bytes(self.out);
    }

    pub fn bytes(&mut self, bytes: &[u8]) -> Result<(), Fault>
        ensures value { Writes (put_at bytes.now) self.old result self.new }
        ensures stays { OnErr result (self.new.at ≡ self.old.at) }
    {
        self.tell_bytes();
        let out = &mut *self.out;
        let at = self.at;
        if at > out.len() || out.len() - at < bytes.len() {
            return Err(Fault::Window(WindowFault::MemoryTooShort, 0));
        }
        let next = at + bytes.len();
        out[at..next].copy_from_slice(bytes);
        self.at = next;
        Ok(())
    }

    pub fn byte(&mut self, value: u8) -> Result<(), Fault>
        ensures value { Writes (put_at (byte_bytes value)) self.old result self.new }
        ensures stays { OnErr result (self.new.at ≡ self.old.at) }
    {
        self.bytes(&[value])
    }

    pub fn word(&mut self, value: u16) -> Result<(), Fault>
        ensures value { Writes (put_at (word_bytes value)) self.old result self.new }
        ensures stays { OnErr result (self.new.at ≡ self.old.at) }
    {
        self.bytes(&value.to_be_bytes())
    }

    pub fn long(&mut self, value: u32) -> Result<(), Fault>
        ensures value { Writes (put_at (long_bytes value)) self.old result self.new }
        ensures stays { OnErr result (self.new.at ≡ self.old.at) }
    {
        self.bytes(&value.to_be_bytes())
    }

    pub fn signed(&mut self, value: i32) -> Result<(), Fault>
        ensures value { Writes (put_at (signed_bytes value)) self.old result self.new }
        ensures stays { OnErr result (self.new.at ≡ self.old.at) }
    {
        self.bytes(&value.to_be_bytes())
    }

    // A count as it stands, and the rows that stand.
    pub fn counted<T: Field, const N: usize>(
        &mut self,
        counted: &Counted<T, N>,
    ) -> Result<(), Fault>
        ensures value { Writes (counted_put T.Field.put counted.now) self.old result self.new }
        ensures stays { OnErr result (self.new.at ≡ self.old.at) }
    {
        let mut ahead = Writer {
            out: &mut *self.out,
            at: self.at,
        };
        ahead.byte(counted.count)?;
        write_rows(counted.standing(), &mut ahead)?;
        self.at = ahead.at;
        Ok(())
    }

    // A field where there is one, else nothing.
    pub fn optional<T: Field>(&mut self, value: &Option<T>) -> Result<(), Fault>
        ensures value { Writes (optional_put T.Field.put value.now) self.old result self.new }
        ensures stays { OnErr result (self.new.at ≡ self.old.at) }
    {
        self.tell_bytes();
        match value {
            Some(value) => value.write(self),
            None => Ok(()),
        }
    }
}
