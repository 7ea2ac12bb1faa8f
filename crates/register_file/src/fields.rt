// The fields of a register file, read one after another.
ghost use Rattle.std.specs.Prelude.{◌≡◌};
ghost use Rattle.wire.specs.Reads.{Reads};
ghost use Rattle.register_file.specs.Parts.{part_bit};
ghost use Rattle.register_file.specs.Fields.{day_at, owner_at, head_at, bits_at, quantity_or, regulation_at, level_at, services_at, rows_or_none, standing_at};

use crate::parts::{Part, has};
use crate::standing::{Head, Services, Standing};
use faults::{Fault, RecordFault};
use register::{Card, Day, NumberedCard, Regulation};
use wire::reader::{fault_at, is_price, is_quantity};
use wire::{Counted, Field, Reader, Row};

// The last bit of a card's map that has a meaning.
pub const LAST_BIT: u32 = 7;

pub(crate) fn read_day(reader: &mut Reader) -> Result<Day, Fault>
    ensures { Reads day_at reader.old result reader.new }
{
    Ok(Day {
        hours: reader.byte()?,
        floor: reader.price()?,
        soft_cap: reader.price()?,
        hard_cap: reader.price()?,
        service_cap: reader.price()?,
    })
}

fn read_owner(reader: &mut Reader) -> Result<u8, Fault>
    ensures { Reads owner_at reader.old result reader.new }
{
    let at = reader.at;
    match reader.byte()? {
        owner if owner == 0 => Err(fault_at(RecordFault::OutOfRange, at)),
        owner => Ok(owner),
    }
}

fn read_head(reader: &mut Reader) -> Result<Head, Fault>
    ensures { Reads head_at reader.old result reader.new }
{
    Ok(Head {
        resource: reader.word()?,
        owner: read_owner(reader)?,
        map: reader.map(LAST_BIT)?,
        pmin: reader.quantity()?,
        pmax: reader.quantity()?,
    })
}

// A number of 32 bits where its bit stands in the map.
fn read_bits(map: u16, part: Part, reader: &mut Reader) -> Result<Option<u32>, Fault>
    ensures { Reads (bits_at map (part_bit part)) reader.old result reader.new }
{
    reader.tell_bytes();
    if has(map, part) {
        Ok(Some(reader.cost()?))
    } else {
        Ok(None)
    }
}

// A quantity where its bit stands in the map, else what its absence means.
fn quantity_or(map: u16, part: Part, absent: u32, reader: &mut Reader) -> Result<u32, Fault>
    ensures { Reads (quantity_or map (part_bit part) absent) reader.old result reader.new }
{
    let at = reader.at;
    match read_bits(map, part, reader)? {
        Some(value) if !is_quantity(value) => Err(fault_at(RecordFault::OutOfRange, at)),
        Some(value) => Ok(value),
        None => Ok(absent),
    }
}

fn read_regulation(map: u16, part: Part, reader: &mut Reader) -> Result<Regulation, Fault>
    ensures { Reads (regulation_at map (part_bit part)) reader.old result reader.new }
{
    Ok(Regulation {
        certified: quantity_or(map, part, 0, reader)?,
        award: quantity_or(map, part, 0, reader)?,
    })
}

fn read_level(map: u16, reader: &mut Reader) -> Result<i32, Fault>
    ensures { Reads (level_at map) reader.old result reader.new }
{
    let at = reader.at;
    match read_bits(map, Part::Level, reader)? {
        Some(bits) if !is_price(bits.cast_signed()) => Err(fault_at(RecordFault::OutOfRange, at)),
        Some(bits) => Ok(bits.cast_signed()),
        None => Ok(0),
    }
}

fn read_services(head: &Head, reader: &mut Reader) -> Result<Services, Fault>
    ensures { Reads (services_at head.now) reader.old result reader.new }
{
    let map = head.map;
    Ok(Services {
        up: read_regulation(map, Part::Up, reader)?,
        down: read_regulation(map, Part::Down, reader)?,
        spinning: quantity_or(map, Part::Spinning, 0, reader)?,
        non_spinning: quantity_or(map, Part::NonSpinning, 0, reader)?,
        regulation_limit: quantity_or(map, Part::RegulationLimit, head.pmax, reader)?,
        level: read_level(map, reader)?,
    })
}

// Counted rows where their bit stands in the map, else none.
fn rows_or_none<T: Row, const N: usize>(
    map: u16,
    part: Part,
    reader: &mut Reader,
) -> Result<Counted<T, N>, Fault>
    ensures { Reads (rows_or_none T.Row.blank T.Field.parsed N map (part_bit part)) reader.old result reader.new }
{
    reader.tell_bytes();
    match has(map, part) {
        true => Counted::read(reader),
        false => Ok(Counted::of(&[])),
    }
}

// A card as it stands.
pub(crate) fn read_standing(reader: &mut Reader) -> Result<Standing, Fault>
    ensures { Reads standing_at reader.old result reader.new }
{
    let head = read_head(reader)?;
    let services = read_services(&head, reader)?;
    let card = Card {
        owner: head.owner,
        pmin: head.pmin,
        pmax: head.pmax,
        up: services.up,
        down: services.down,
        spinning: services.spinning,
        non_spinning: services.non_spinning,
        regulation_limit: services.regulation_limit,
        level: services.level,
        start_up: rows_or_none(head.map, Part::StartUp, reader)?,
        ramp: rows_or_none(head.map, Part::Ramp, reader)?,
    };
    Ok(Standing {
        map: head.map,
        numbered: NumberedCard {
            resource: head.resource,
            card,
        },
    })
}
