// Reading one field after another: the value that stands there, or the fault that does.
ghost use Rattle.std.specs.Prelude.{◌≡◌, ◌≤◌, min, cond, Ok, Err, OnErr};
ghost use Rattle.wire.specs.Bytes.{Bytes};
ghost use Rattle.wire.specs.Reading.{place_of, fault_at, is_quantity, is_price, is_map, array_at, byte_at, word_at, long_at, quantity_at, rate_at, price_at, cost_at, down_time_at, count_at, map_at};
ghost use Rattle.wire.specs.Reads.{Reads, reader_at};
ghost use Rattle.wire.specs.Rows.{optional_at, OptionalUndone};

use crate::field::Field;
use crate::tell_bytes;
use faults::{Fault, RecordFault};

pub const MAX_QUANTITY: u32 = 10_000_000;

pub const MAX_PRICE: i32 = 10_000_000;

pub const MIN_PRICE: i32 = -10_000_000;

// A place as faults tell it.
pub fn place(at: usize) -> u32
    ensures { result ≡ place_of at }
{
    at.min(4_294_967_295) as u32
}

// A fault of a record or a file, found at a place.
pub fn fault_at(fault: RecordFault, at: usize) -> Fault
    ensures { result ≡ fault_at fault at }
{
    Fault::Record(fault, place(at))
}

// Whether the hundredths of a MW are a quantity.
pub fn is_quantity(value: u32) -> bool
    ensures { result ≡ is_quantity value }
{
    value <= MAX_QUANTITY
}

// Whether the cents are a price.
pub fn is_price(value: i32) -> bool
    ensures { result ≡ is_price value }
{
    MIN_PRICE <= value && value <= MAX_PRICE
}

// Whether no bit of a map stands above the last one that has a meaning.
fn is_map(last: u32, map: u16) -> bool
    ensures { result ≡ is_map last map }
{
    last >= 15 || map >> (last + 1) == 0
}

// Bytes, and the place from which they are read on; what is refused leaves it where it stood.
#[derive(Clone, Copy)]
pub struct Reader<'a> {
    pub bytes: &'a [u8],
    pub at: usize,
}

impl<'a> Reader<'a> {
    // A value that stood at a place, refused there unless it keeps its range.
    fn ranged<T: Copy>(
        &mut self,
        fault: RecordFault,
        at: usize,
        value: T,
        kept: bool,
    ) -> Result<T, Fault>
        ensures value { result ≡ cond kept (Ok value) (Err (fault_at fault at)) }
        ensures place { self.new.at ≡ cond kept self.old.at at }
        ensures bytes { self.new.bytes ≡ self.old.bytes }
    {
        if kept {
            Ok(value)
        } else {
            self.at = at;
            Err(fault_at(fault, at))
        }
    }

    // Tells proofs that the numbers behind the reader are bytes; does nothing when run.
    pub fn tell_bytes(&self)
        ensures { Bytes self.now.bytes.now }
    {
        tell_bytes(self.bytes);
    }

    // The next N bytes.
    fn array<const N: usize>(&mut self) -> Result<[u8; N], Fault>
        requires { 1 ≤ N }
        ensures value { Reads (array_at N) self.old result self.new }
        ensures stays { OnErr result (self.new.at ≡ self.old.at) }
    {
        self.tell_bytes();
        let length = self.bytes.len();
        if length.saturating_sub(self.at) < N {
            return Err(fault_at(RecordFault::CutShort, length));
        }
        let next = self.at + N;
        let mut array = [0; N];
        array.copy_from_slice(&self.bytes[self.at..next]);
        self.at = next;
        Ok(array)
    }

    pub fn byte(&mut self) -> Result<u8, Fault>
        ensures value { Reads byte_at self.old result self.new }
        ensures stays { OnErr result (self.new.at ≡ self.old.at) }
    {
        Ok(u8::from_be_bytes(self.array()?))
    }

    pub fn word(&mut self) -> Result<u16, Fault>
        ensures value { Reads word_at self.old result self.new }
        ensures stays { OnErr result (self.new.at ≡ self.old.at) }
    {
        Ok(u16::from_be_bytes(self.array()?))
    }

    fn long(&mut self) -> Result<u32, Fault>
        ensures value { Reads long_at self.old result self.new }
        ensures stays { OnErr result (self.new.at ≡ self.old.at) }
    {
        Ok(u32::from_be_bytes(self.array()?))
    }

    // Hundredths of a MW, at most 10,000,000.
    pub fn quantity(&mut self) -> Result<u32, Fault>
        ensures value { Reads quantity_at self.old result self.new }
        ensures stays { OnErr result (self.new.at ≡ self.old.at) }
    {
        let at = self.at;
        let value = self.long()?;
        self.ranged(RecordFault::OutOfRange, at, value, is_quantity(value))
    }

    // Hundredths of a MW in a minute, in the range of quantities.
    pub fn rate(&mut self) -> Result<u32, Fault>
        ensures value { Reads rate_at self.old result self.new }
        ensures stays { OnErr result (self.new.at ≡ self.old.at) }
    {
        self.quantity()
    }

    // Cents, from -10,000,000 to 10,000,000.
    pub fn price(&mut self) -> Result<i32, Fault>
        ensures value { Reads price_at self.old result self.new }
        ensures stays { OnErr result (self.new.at ≡ self.old.at) }
    {
        let at = self.at;
        let value = self.long()?.cast_signed();
        self.ranged(RecordFault::OutOfRange, at, value, is_price(value))
    }

    // Cents, any number of 32 bits.
    pub fn cost(&mut self) -> Result<u32, Fault>
        ensures value { Reads cost_at self.old result self.new }
        ensures stays { OnErr result (self.new.at ≡ self.old.at) }
    {
        self.long()
    }

    // Minutes, any number of 16 bits.
    pub fn down_time(&mut self) -> Result<u16, Fault>
        ensures value { Reads down_time_at self.old result self.new }
        ensures stays { OnErr result (self.new.at ≡ self.old.at) }
    {
        self.word()
    }

    // A count of at least 1 and at most `most`.
    pub fn count(&mut self, most: usize) -> Result<u8, Fault>
        ensures value { Reads (count_at most) self.old result self.new }
        ensures stays { OnErr result (self.new.at ≡ self.old.at) }
    {
        let at = self.at;
        let count = self.byte()?;
        let kept = 1 <= count && count as usize <= most;
        self.ranged(RecordFault::BadCount, at, count, kept)
    }

    // A bit map of 16 bits, in which no bit may stand above the last one that has a meaning.
    pub fn map(&mut self, last: u32) -> Result<u16, Fault>
        ensures value { Reads (map_at last) self.old result self.new }
        ensures stays { OnErr result (self.new.at ≡ self.old.at) }
    {
        let at = self.at;
        let map = self.word()?;
        self.ranged(RecordFault::UnknownBit, at, map, is_map(last, map))
    }

    // A field that stands where its bit does.
    pub fn optional<T: Field>(&mut self, present: bool) -> Result<Option<T>, Fault>
        ensures value { Reads (optional_at present T.Field.parsed) self.old result self.new }
        ensures stays { OnErr result (self.new.at ≡ self.old.at) }
        ensures lawful { OptionalUndone present T.Field.parsed T.Field.encoded T.Field.held }
    {
        self.tell_bytes();
        if !present {
            return Ok(None);
        }
        Ok(Some(T::read(self)?))
    }
}
