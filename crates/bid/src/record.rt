// The bid record, read and written.
ghost use Rattle.std.specs.Prelude.{◌≡◌, ◌^◌, ◌≤◌, cond, length};
ghost use Rattle.wire.specs.Maps.{map_of, stands};
ghost use Rattle.bid.specs.Parts.{part_bit};
ghost use Rattle.wire.specs.Reads.{Reads};
ghost use Rattle.wire.specs.Rows.{optional_bytes};
ghost use Rattle.wire.specs.Writes.{Writes};
ghost use Rattle.bid.specs.Record.{services_at, record_at, services_bytes, record_bytes, services_put, record_put, presences};

use crate::components::{Components, Services};
use faults::Fault;
use wire::{Measured, Reader, Writer, stands_in};

// The components that a record's map tells of, the one under the lowest bit first.
#[derive(Clone, Copy)]
enum Part {
    SelfSchedule,
    Curve,
    RegulationUp,
    RegulationDown,
    Spinning,
    NonSpinning,
    StartUp,
    Ramp,
}

// Whether a component stands in a map.
fn has(map: u16, part: Part) -> bool
    ensures { result ≡ stands (part_bit part) map }
{
    stands_in(map, part as u32)
}

// The last bit of the map that has a meaning.
const LAST_BIT: u32 = 7;

fn services_of(map: u16, reader: &mut Reader) -> Result<Services, Fault>
    ensures { Reads (services_at map) reader.old result reader.new }
{
    Ok(Services {
        regulation_up: reader.optional(has(map, Part::RegulationUp))?,
        regulation_down: reader.optional(has(map, Part::RegulationDown))?,
        spinning: reader.optional(has(map, Part::Spinning))?,
        non_spinning: reader.optional(has(map, Part::NonSpinning))?,
    })
}

// A record, with whatever stands behind it.
pub(crate) fn read_record(reader: &mut Reader) -> Result<Components, Fault>
    ensures { Reads record_at reader.old result reader.new }
{
    let resource = reader.word()?;
    let hour = reader.byte()?;
    let map = reader.map(LAST_BIT)?;
    Ok(Components {
        resource,
        hour,
        self_schedule: reader.optional(has(map, Part::SelfSchedule))?,
        curve: reader.optional(has(map, Part::Curve))?,
        services: services_of(map, reader)?,
        start_up: reader.optional(has(map, Part::StartUp))?,
        ramp: reader.optional(has(map, Part::Ramp))?,
    })
}

fn write_services(services: &Services, writer: &mut Writer) -> Result<(), Fault>
    ensures { Writes (services_put services.now) writer.old result writer.new }
{
    writer.optional(&services.regulation_up)?;
    writer.optional(&services.regulation_down)?;
    writer.optional(&services.spinning)?;
    writer.optional(&services.non_spinning)
}

// The bit of a component that stands, in its place.
fn bit(part: Part, stands: bool) -> u16
    ensures { result ≡ cond stands (2 ^ part_bit part) 0 }
{
    if stands { 1 << part as u16 } else { 0 }
}

// The map of a record: a bit for each component that is there, bit 0 the lowest.
fn map_of(components: &Components) -> u16
    ensures { result ≡ map_of (presences components.now) }
{
    let services = &components.services;
    bit(Part::SelfSchedule, components.self_schedule.is_some())
        + bit(Part::Curve, components.curve.is_some())
        + bit(Part::RegulationUp, services.regulation_up.is_some())
        + bit(Part::RegulationDown, services.regulation_down.is_some())
        + bit(Part::Spinning, services.spinning.is_some())
        + bit(Part::NonSpinning, services.non_spinning.is_some())
        + bit(Part::StartUp, components.start_up.is_some())
        + bit(Part::Ramp, components.ramp.is_some())
}

fn write_record(components: &Components, writer: &mut Writer) -> Result<(), Fault>
    ensures { Writes (record_put components.now) writer.old result writer.new }
{
    writer.word(components.resource)?;
    writer.byte(components.hour)?;
    writer.word(map_of(components))?;
    writer.optional(&components.self_schedule)?;
    writer.optional(&components.curve)?;
    write_services(&components.services, writer)?;
    writer.optional(&components.start_up)?;
    writer.optional(&components.ramp)
}

// Writes the record of some components at the front of `out`, and answers where it ends.
pub(crate) fn put_record(components: &Components, out: &mut [u8]) -> Result<usize, Fault>
    ensures answer { result ≡ (record_put components.now out.old 0).0 }
    ensures memory { out.new ≡ (record_put components.now out.old 0).1 }
{
    let mut writer = Writer::new(out);
    write_record(components, &mut writer)?;
    Ok(writer.at)
}

// How many bytes a field takes where there is one.
fn length_of<T: Measured>(value: &Option<T>) -> usize
    ensures value { result ≡ length (optional_bytes T.Field.encoded value.now) }
    ensures bound { result ≤ T.Field.longest }
{
    value.as_ref().map_or(0, |value| value.length())
}

fn services_length(services: &Services) -> usize
    ensures value { result ≡ length (services_bytes services.now) }
    ensures bound { result ≤ 32 }
{
    length_of(&services.regulation_up)
        + length_of(&services.regulation_down)
        + length_of(&services.spinning)
        + length_of(&services.non_spinning)
}

// How many bytes the record of some components has.
pub(crate) fn record_length(components: &Components) -> usize
    ensures value { result ≡ length (record_bytes components.now) }
    ensures bound { result ≤ 178 }
{
    5 + length_of(&components.self_schedule)
        + length_of(&components.curve)
        + services_length(&components.services)
        + length_of(&components.start_up)
        + length_of(&components.ramp)
}
