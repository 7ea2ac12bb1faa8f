// Cards of a file that are passed over, by their lengths.
ghost use Rattle.std.specs.Prelude.{◌≡◌, ◌+◌, ◌*◌, ◌≤◌, true, length, is_ok, Ok};
ghost use Rattle.wire.specs.Reading.{byte_at, word_at};
ghost use Rattle.register_file.specs.Fields.{standing_at};
ghost use Rattle.register_file.specs.File.{end_of};
ghost use Rattle.register_file.specs.Parts.{part_bit};
ghost use Rattle.register_file.specs.Skipping.{or_zero, width_of, fixed_length, rows_length, after_card};

use crate::parts::{Part, has};
use wire::Reader;

pub(crate) fn byte_or_zero(bytes: &[u8], at: usize) -> u8
    ensures { result ≡ or_zero (byte_at bytes.now at) }
{
    Reader { bytes, at }.byte().unwrap_or(0)
}

pub(crate) fn word_or_zero(bytes: &[u8], at: usize) -> u16
    ensures { result ≡ or_zero (word_at bytes.now at) }
{
    Reader { bytes, at }.word().unwrap_or(0)
}

fn width_of(map: u16, part: Part, width: u8) -> usize
    ensures value { result ≡ width_of map (part_bit part) width }
    ensures most { result ≤ width }
{
    if has(map, part) { width as usize } else { 0 }
}

fn fixed_length(map: u16) -> usize
    ensures value { result ≡ fixed_length map }
    ensures most { result ≤ 45 }
{
    let regulation = 13 + width_of(map, Part::Up, 8) + width_of(map, Part::Down, 8);
    let reserves = regulation
        + width_of(map, Part::Spinning, 4)
        + width_of(map, Part::NonSpinning, 4);
    reserves + width_of(map, Part::RegulationLimit, 4) + width_of(map, Part::Level, 4)
}

fn rows_length(map: u16, part: Part, width: u8, bytes: &[u8], at: usize) -> usize
    ensures { result ≡ rows_length map (part_bit part) width bytes.now at }
{
    if !has(map, part) {
        return 0;
    }
    1 + byte_or_zero(bytes, at) as usize * width as usize
}

// The place after a card that stands at a place; nothing of it is built.
pub(crate) fn after_card(bytes: &[u8], at: usize) -> usize
    requires { is_ok (standing_at bytes.now at) ≡ true }
    ensures end { end_of (standing_at bytes.now at) ≡ Ok result }
    ensures value { result ≡ after_card bytes.now at }
{
    let map = word_or_zero(bytes, at + 3);
    let pairs = at + fixed_length(map);
    let rows = pairs + rows_length(map, Part::StartUp, 6, bytes, pairs);
    rows + rows_length(map, Part::Ramp, 12, bytes, rows)
}
