// What a card's map tells of.
ghost use Rattle.std.specs.Prelude.{◌≡◌};
ghost use Rattle.wire.specs.Maps.{stands};
ghost use Rattle.register_file.specs.Parts.{part_bit};

use wire::stands_in;

// The parts of a card that may be left out, the one under the map's lowest bit first.
#[derive(Clone, Copy)]
pub(crate) enum Part {
    Up,
    Down,
    Spinning,
    NonSpinning,
    RegulationLimit,
    Level,
    StartUp,
    Ramp,
}

// Whether a part stands in a map.
pub(crate) fn has(map: u16, part: Part) -> bool
    ensures { result ≡ stands (part_bit part) map }
{
    stands_in(map, part as u32)
}
