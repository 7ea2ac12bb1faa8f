// Marks: where a row differs from its filing.
ghost use Rattle.std.specs.Prelude.{◌≡◌, ◌≤◌};
ghost use Rattle.mending.specs.Marks.{bit_of, same_prices, same_ends, same_quantities, curve_prices, mark as mark_of, marks as marks_of};

use bid::{Components, Curve, Step};

// A part in which a row may differ from its filing.
#[derive(Clone, Copy, PartialEq, Eq, Debug)]
pub enum Mark {
    Price,
    Quantities,
    Spinning,
    NonSpinning,
    RegulationUp,
    RegulationDown,
}

impl Mark {
    // The bit under which it stands among a row's marks.
    pub fn bit(self) -> u16
        ensures { result ≡ bit_of self }
    {
        match self {
            Mark::Price => 1,
            Mark::Quantities => 2,
            Mark::Spinning => 4,
            Mark::NonSpinning => 8,
            Mark::RegulationUp => 16,
            Mark::RegulationDown => 32,
        }
    }

    // Its bit, where its part is not the same.
    fn unless(self, same: bool) -> u16
        ensures value { result ≡ mark_of (bit_of self) same }
        ensures bound { result ≤ bit_of self }
    {
        if same { 0 } else { self.bit() }
    }
}

// Each filed step has its price in the row.
fn same_prices(filed: &[Step], row: &[Step]) -> bool
    ensures { result ≡ same_prices filed.now row.now }
{
    filed.len() <= row.len()
        && filed
            .iter()
            .zip(row)
            .all(|(filed, row)| filed.price == row.price)
}

// As many steps, with the same ends.
fn same_ends(filed: &[Step], row: &[Step]) -> bool
    ensures { result ≡ same_ends filed.now row.now }
{
    filed.len() == row.len()
        && filed
            .iter()
            .zip(row)
            .all(|(filed, row)| filed.end == row.end)
}

fn curve_prices(filed: &Option<Curve>, row: &Option<Curve>) -> bool
    ensures { result ≡ curve_prices filed.now row.now }
{
    match (filed, row) {
        (Some(filed), Some(row)) => same_prices(filed.steps.standing(), row.steps.standing()),
        (Some(_), None) => false,
        (None, _) => true,
    }
}

fn same_quantities(filed: &Option<Curve>, row: &Option<Curve>) -> bool
    ensures { result ≡ same_quantities filed.now row.now }
{
    match (filed, row) {
        (Some(filed), Some(row)) => filed.start == row.start
            && same_ends(filed.steps.standing(), row.steps.standing()),
        (None, None) => true,
        _ => false,
    }
}

// The marks of a row, added up.
pub fn marks(filed: &Components, row: &Components) -> u16
    ensures { result ≡ marks_of filed.now row.now }
{
    Mark::Price.unless(curve_prices(&filed.curve, &row.curve))
        + Mark::Quantities.unless(same_quantities(&filed.curve, &row.curve))
        + Mark::Spinning.unless(filed.services.spinning == row.services.spinning)
        + Mark::NonSpinning.unless(filed.services.non_spinning == row.services.non_spinning)
        + Mark::RegulationUp.unless(filed.services.regulation_up == row.services.regulation_up)
        + Mark::RegulationDown.unless(
            filed.services.regulation_down == row.services.regulation_down,
        )
}
