// A register file as a register.
ghost use Rattle.std.specs.Prelude.{◌≡◌, IfOk};
ghost use Rattle.register_file.specs.File.{file_at, answer_only, file_meaning};
ghost use Rattle.register_file.specs.FileKeeps.{file_keeps};
ghost use Rattle.register_file.specs.FileLaws.{Placed, ReadAsRow, FileWritten};
ghost use Rattle.register_file.specs.Files.{closed_bytes, file_told, file_made};
ghost use Rattle.register.specs.Meaning.{granted};

use crate::fields::{read_day, read_standing};
use crate::file::RegisterFile;
use crate::file_check::check_file;
use faults::Fault;
use register::{Card, Day, Register};
use wire::Reader;

impl<'a> RegisterFile<'a> {
    // A register that holds no card, of a day without prices.
    pub fn closed() -> RegisterFile<'a>
        ensures { result.bytes.now ≡ closed_bytes }
    {
        RegisterFile {
            bytes: &[24, 0, 0, 0, 0, 0, 0, 0, 0, 0, 0, 0, 0, 0, 0, 0, 0, 0, 0],
        }
    }

    // The register of a file's bytes, checked front to back, unless they are refused.
    pub fn new(bytes: &'a [u8]) -> Result<RegisterFile<'a>, Fault>
        ensures value { file_told result ≡ file_made bytes.now }
        ensures means { IfOk result (λ r. file_meaning r.bytes.now ≡ file_meaning bytes.now) }
        ensures placed { Placed bytes.now }
        ensures rows { ReadAsRow bytes.now }
        ensures written { FileWritten bytes.now }
    {
        check_file(bytes)?;
        Ok(RegisterFile { bytes })
    }

    // Takes the bytes of a register file, checked front to back, unless they are refused.
    pub fn open(&mut self, bytes: &'a [u8]) -> Result<(), Fault>
        ensures answer { result ≡ answer_only (file_at bytes.now) }
        ensures bytes { self.new.bytes.now ≡ granted (file_at bytes.now) bytes.now self.old.bytes.now }
        ensures means { file_meaning self.new.bytes.now ≡ granted (file_at bytes.now) (file_meaning bytes.now) (file_meaning self.old.bytes.now) }
        ensures placed { Placed bytes.now }
        ensures rows { ReadAsRow bytes.now }
        ensures written { FileWritten bytes.now }
    {
        *self = RegisterFile::new(bytes)?;
        Ok(())
    }
}

impl<'a> Register for RegisterFile<'a> {
    ghost meaning = { λ r. file_meaning r.bytes.now };

    ghost keeps = { λ r. file_keeps r.bytes.now r.accepted };

    fn day(&self) -> Day {
        match read_day(&mut Reader {
            bytes: self.bytes,
            at: 0,
        }) {
            Ok(day) => day,
            Err(_) => unreachable!(),
        }
    }

    fn look(&self, resource: u16, card: &mut Card) -> bool {
        let Some(at) = self.find(resource) else {
            return false;
        };
        match read_standing(&mut Reader {
            bytes: self.bytes,
            at,
        }) {
            Ok(standing) => {
                *card = standing.numbered.card;
                true
            }
            Err(_) => unreachable!(),
        }
    }
}
