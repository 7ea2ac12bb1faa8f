// Mending a bid that passes the checks.
ghost use Rattle.std.specs.Prelude.{◌≡◌};
ghost use Rattle.mending.specs.Mending.{mended};

use crate::curves::Capped;
use crate::services::mended_services;
use bid::{Bid, Components};
use checks::Registered;
use faults::Fault;

// The row that mending makes of a bid.
pub fn mend_bid(registered: &Registered, bid: &Bid) -> Result<Components, Fault>
    ensures { result ≡ mended registered.now.day.now registered.now.card.now bid.now.components }
{
    let filed = &bid.components;
    let services = mended_services(registered.card, filed);
    let capped = Capped::of(registered.ceiling(), bid);
    let curve = capped.reached(
        registered.base(filed),
        registered.card.pmax,
        &services,
        registered.extension_price(),
    )?;
    Ok(Components {
        curve,
        services,
        ..*filed
    })
}
