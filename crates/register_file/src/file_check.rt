// A register file is checked once, front to back.
ghost use Rattle.std.specs.Prelude.{◌≡◌};
ghost use Rattle.register_file.specs.File.{cards_at, file_at, answer_only, end_of};

use crate::fields::{read_day, read_standing};
use faults::{Fault, RecordFault, RegisterFault};
use wire::Reader;
use wire::reader::fault_at;

// The place after so many cards; each has to keep what cards keep, and to have a number above the one before.
fn check_cards(count: u16, mut reader: Reader) -> Result<usize, Fault>
    ensures { result ≡ end_of (cards_at count 1 0 reader.entry.bytes.now reader.entry.at) }
{
    let mut least = 0;
    for i in 0..count as u32 {
        let numbered = read_standing(&mut reader)?.numbered;
        if !numbered.may_stand(least) {
            return Err(Fault::Register(RegisterFault::Breach, i + 1));
        }
        least = numbered.resource as u32 + 1;
    }
    Ok(reader.at)
}

pub(crate) fn check_file(bytes: &[u8]) -> Result<(), Fault>
    ensures { result ≡ answer_only (file_at bytes.now) }
{
    let mut reader = Reader { bytes, at: 0 };
    let day = read_day(&mut reader)?;
    if !day.keeps() {
        return Err(Fault::Register(RegisterFault::Breach, 0));
    }
    let count = reader.word()?;
    let end = check_cards(count, reader)?;
    if end < bytes.len() {
        return Err(fault_at(RecordFault::BytesLeftOver, end));
    }
    Ok(())
}
