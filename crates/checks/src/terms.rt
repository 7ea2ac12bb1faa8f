// The quantities and prices that the rules speak of.
ghost use Rattle.std.specs.Prelude.{◌≡◌, ◌^◌, ◌<◌};
ghost use Rattle.checks.specs.Terms.{ceiling as ceiling_of, extension_price, free as free_of, quantity_of, need as need_of, base as base_of};

use crate::registered::Registered;
use bid::{Components, Service, Services};
use register::{Card, Regulation};

// Where energy begins: the self-schedule, or else PMin.
pub fn base(card: &Card, bid: &Components) -> u32
    ensures { result ≡ base_of card.now bid.now }
{
    bid.self_schedule.unwrap_or(card.pmin)
}

impl Registered<'_> {
    // Where energy begins; the day counts for nothing.
    pub fn base(&self, bid: &Components) -> u32
        ensures { result ≡ base_of self.now.card.now bid.now }
    {
        base(self.card, bid)
    }

    // The larger of the soft cap and the smaller of level and hard cap.
    pub fn ceiling(&self) -> i32
        ensures { result ≡ ceiling_of self.now.day.now self.now.card.now }
    {
        self.day
            .soft_cap
            .max(self.card.level.min(self.day.hard_cap))
    }

    // The level brought into floor to ceiling.
    pub fn extension_price(&self) -> i32
        ensures { result ≡ extension_price self.now.day.now self.now.card.now }
    {
        self.day.floor.max(self.card.level.min(self.ceiling()))
    }
}

// What of a regulation service is certified and not awarded in an hour.
pub fn free(hour: u8, regulation: &Regulation) -> u32
    ensures { result ≡ free_of hour regulation.now }
{
    regulation.certified.saturating_sub(regulation.award)
}

fn quantity_of(service: &Option<Service>) -> u64
    ensures value { result ≡ quantity_of service.now }
    ensures bound { result < 2 ^ 32 }
{
    service.map_or(0, |service| service.quantity as u64)
}

// What the reserves need above the base.
pub fn need(services: &Services) -> u64
    ensures value { result ≡ need_of services.now }
    ensures bound { result < 2 ^ 33 }
{
    quantity_of(&services.spinning) + quantity_of(&services.non_spinning)
}
