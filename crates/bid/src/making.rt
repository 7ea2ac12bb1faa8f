// A bid read from its record, made from components, and written.
ghost use Rattle.std.specs.Prelude.{◌≡◌, ℕ, ◌≤◌, true, List, length, take, IfOk, Ok};
ghost use Rattle.faults.specs.Answers.{result_answer};
ghost use Rattle.bid.specs.Read.{told};
ghost use Rattle.bid.specs.Record.{record_read, record_bytes, record_written, ReadsRecords, TellsBytesLeft};

use crate::bid::Bid;
use crate::components::Components;
use crate::record::{put_record, read_record, record_length};
use faults::{Fault, RecordFault, WindowFault};
use wire::Reader;
use wire::reader::fault_at;

// The longest record: every component, with all its rows.
pub const LONGEST_RECORD: usize = 178;

impl Bid {
    // The bid whose record these bytes are, or the first fault from the front.
    pub fn read(bytes: &[u8]) -> Result<Bid, Fault>
        ensures value { told result ≡ record_read bytes.now }
        ensures exact { ReadsRecords bytes.now }
        ensures left { TellsBytesLeft bytes.now }
        ensures placed { (result_answer result).place ≤ 178 }
    {
        let mut reader = Reader { bytes, at: 0 };
        let components = read_record(&mut reader)?;
        if reader.at < bytes.len() {
            return Err(fault_at(RecordFault::BytesLeftOver, reader.at));
        }
        Ok(Bid { components })
    }

    // How many bytes the bid's record has.
    pub fn length(&self) -> usize
        ensures { result ≡ length (record_bytes self.now.components) }
    {
        record_length(&self.components)
    }

    // Writes the bid's record at the front of `out` and answers its length; nothing is written where it does not fit.
    pub fn write(&self, out: &mut [u8]) -> Result<usize, Fault>
        ensures answer { result ≡ (record_written self.now.components out.old).0 }
        ensures memory { out.new ≡ (record_written self.now.components out.old).1 }
        ensures within { IfOk result (λ n. n ≤ length out.new) }
        ensures restores { (n : ℕ) → result ≡ Ok n → record_read (take n out.new) ≡ Ok self.now.components }
    {
        if out.len() < self.length() {
            return Err(Fault::Window(WindowFault::MemoryTooShort, 0));
        }
        put_record(&self.components, out)
    }

    // The bid with these components, refused as the record that they are written in would be.
    // What stands behind a count says nothing.
    pub fn make(components: &Components) -> Result<Bid, Fault>
        ensures { told result ≡ record_read (record_bytes components.now) }
    {
        let mut record = [0u8; LONGEST_RECORD];
        let length = record_length(components);
        put_record(components, &mut record)?;
        Bid::read(&record[..length])
    }
}
