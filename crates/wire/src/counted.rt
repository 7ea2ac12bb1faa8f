// Up to N rows in a fixed array, and how many of them count.
ghost use Rattle.std.specs.Prelude.{◌≡◌, ◌+◌, ◌*◌, ◌≤◌, [], length, min, take};
ghost use Rattle.wire.specs.CountedRows.{counted_lawful};
ghost use Rattle.wire.specs.Laid.{puts_counted};
ghost use Rattle.wire.specs.Reading.{count_at};
ghost use Rattle.wire.specs.Rows.{entries, packed, packed_at, counted_at, counted_bytes, counted_held, counted_put};
ghost use Rattle.wire.specs.Reads.{Reads};
ghost use Rattle.wire.specs.Writing.{rows_put};
ghost use Rattle.wire.specs.Writes.{Writes};

use crate::field::{Field, Measured, OfWidth, Row};
use crate::reader::Reader;
use crate::writer::Writer;
use faults::Fault;

#[derive(Clone, Copy, PartialEq, Eq, Debug)]
pub struct Counted<T, const N: usize> {
    pub count: u8,
    pub rows: [T; N],
}

impl<T, const N: usize> Counted<T, N> {
    // The rows that stand: as many as count, of those that there are.
    pub fn standing(&self) -> &[T]
        ensures value { result.now ≡ entries self.now }
        ensures bound { length result.now ≤ N }
        ensures few { length result.now ≤ 255 }
    {
        let rows = &self.rows[..];
        &rows[..rows.len().min(self.count as usize)]
    }
}

impl<T: Row, const N: usize> Counted<T, N> {
    // The rows given, as far as there is room for them, and blanks behind them.
    pub fn of(given: &[T]) -> Counted<T, N>
        ensures { result ≡ packed T.Row.blank N (take (min N 255) given.now) }
    {
        let count = given.len().min(N.min(255));
        let mut rows = [T::blank(); N];
        rows[..count].copy_from_slice(&given[..count]);
        Counted {
            count: count as u8,
            rows,
        }
    }

    // The same rows that stand, and blanks behind them.
    pub fn tidied(&self) -> Counted<T, N>
        ensures { result ≡ packed T.Row.blank N (entries self.now) }
    {
        Counted::of(self.standing())
    }
}

fn read_rows<T: Row, const N: usize>(count: u8, reader: &mut Reader) -> Result<Counted<T, N>, Fault>
    requires { count ≤ N }
    ensures { Reads (packed_at T.Row.blank T.Field.parsed N count []) reader.old result reader.new }
{
    reader.tell_bytes();
    let mut rows = [T::blank(); N];
    for row in &mut rows[..count as usize] {
        *row = T::read(reader)?;
    }
    Ok(Counted { count, rows })
}

// A count from 1 to N, and that many rows, with blanks behind them; it is written as it stands, with the rows that stand.
impl<T: Row, const N: usize> Field for Counted<T, N> {
    ghost parsed = { counted_at T.Row.blank T.Field.parsed N };

    ghost encoded = { counted_bytes T.Field.encoded };

    ghost put = { counted_put T.Field.put };

    ghost held = { counted_held T.Field.held T.Row.is_blank };

    ghost longest = { 1 + N * T.Field.longest };

    ghost lawful = { counted_lawful T.Row.blank T.Field.lawful N T.Row.is_blank T.Row.blanks T.Row.blanked };

    ghost puts = { puts_counted T.Field.put T.Field.encoded T.Field.puts };

    fn read(reader: &mut Reader) -> Result<Counted<T, N>, Fault> {
        let mut ahead = *reader;
        let count = ahead.count(N)?;
        let counted = read_rows(count, &mut ahead)?;
        *reader = ahead;
        Ok(counted)
    }

    fn write(&self, writer: &mut Writer) -> Result<(), Fault> {
        writer.counted(self)
    }
}

impl<T: OfWidth, const N: usize> Measured for Counted<T, N> {
    fn length(&self) -> usize {
        1 + self.standing().len() * T::WIDTH as usize
    }
}
