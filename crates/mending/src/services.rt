// Ancillary services, mended.
ghost use Rattle.std.specs.Prelude.{◌≡◌};
ghost use Rattle.checks.specs.Terms.{free as free_of};
ghost use Rattle.mending.specs.Mending.{regulated as regulated_of, reserve as reserve_of, has_energy, regulation_up, mended_services};

use bid::{Components, Service, Services};
use checks::free;
use register::{Card, Regulation};

// A regulation bid's quantity becomes what is free; with an award, one at price 0 is made.
fn regulated(hour: u8, regulation: &Regulation, filed: &Option<Service>) -> Option<Service>
    ensures { result ≡ regulated_of (free_of hour regulation.now) regulation.now.award filed.now }
{
    let spare = free(hour, regulation);
    match filed {
        Some(service) if spare >= 1 => Some(Service {
            quantity: spare,
            price: service.price,
        }),
        None if regulation.award >= 1 && spare >= 1 => Some(Service {
            quantity: spare,
            price: 0,
        }),
        _ => None,
    }
}

fn regulation_up(card: &Card, bid: &Components) -> Option<Service>
    ensures { result ≡ regulation_up card.now bid.now }
{
    match bid.self_schedule {
        Some(quantity) if quantity > card.regulation_limit => None,
        _ => regulated(bid.hour, &card.up, &bid.services.regulation_up),
    }
}

// A reserve stays where energy is offered too.
fn reserve(bid: &Components, filed: Option<Service>) -> Option<Service>
    ensures { result ≡ reserve_of (has_energy bid.now) filed }
{
    match (bid.self_schedule.is_some(), bid.curve.is_some()) {
        (false, false) => None,
        _ => filed,
    }
}

pub(crate) fn mended_services(card: &Card, bid: &Components) -> Services
    ensures { result ≡ mended_services card.now bid.now }
{
    Services {
        regulation_up: regulation_up(card, bid),
        regulation_down: regulated(bid.hour, &card.down, &bid.services.regulation_down),
        spinning: reserve(bid, bid.services.spinning),
        non_spinning: reserve(bid, bid.services.non_spinning),
    }
}
