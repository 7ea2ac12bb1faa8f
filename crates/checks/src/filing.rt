// The checks of a bid, in their order; the first broken one answers.
ghost use Rattle.std.specs.Prelude.{◌≡◌};
ghost use Rattle.checks.specs.Checks.{first_broken, filing_checks, self_schedule_checks, curve_checks, service_checks};
ghost use Rattle.checks.specs.Passing.{services_passed, checks_passed};
ghost use Rattle.checks.specs.Terms.{top, base as base_of};

use crate::pairs::{check_ramp, check_start_up};
use crate::registered::Registered;
use bid::{Components, Service, Services};
use faults::{Fault, RegisterFault, RuleFault};

impl Registered<'_> {
    fn check_filing(&self, coordinator: u8, bid: &Components) -> Result<(), Fault>
        ensures { result ≡ first_broken (filing_checks coordinator self.now.day.now self.now.card.now bid.now) }
    {
        if coordinator != self.card.owner {
            return Err(Fault::Register(RegisterFault::NotTheOwner, 0));
        }
        if bid.hour == 0 || bid.hour > self.day.hours {
            return Err(Fault::Register(RegisterFault::NoSuchHour, 0));
        }
        Ok(())
    }

    fn check_self_schedule(&self, bid: &Components) -> Result<(), Fault>
        ensures { result ≡ first_broken (self_schedule_checks self.now.card.now bid.now.self_schedule) }
    {
        match bid.self_schedule {
            Some(quantity) if quantity < self.card.pmin || quantity > self.card.pmax => {
                Err(Fault::Rule(RuleFault::SelfSchedule, 0))
            }
            _ => Ok(()),
        }
    }

    fn check_curve(&self, bid: &Components) -> Result<(), Fault>
        ensures { result ≡ first_broken (curve_checks (base_of self.now.card.now bid.now) (top self.now.card.now) self.now.day.now bid.now.curve) }
    {
        match &bid.curve {
            Some(curve) if curve.start != self.base(bid) => Err(Fault::Rule(
                RuleFault::CurveStart,
                0,
            )),
            Some(curve) => self.check_steps(curve),
            None => Ok(()),
        }
    }

    fn check_service(
        &self,
        place: u32,
        certified: u32,
        service: &Option<Service>,
    ) -> Result<(), Fault>
        ensures { result ≡ first_broken (service_checks self.now.day.now place certified service.now) }
    {
        match service {
            Some(service)
                if service.quantity > certified
                    || service.price < 0
                    || service.price > self.day.service_cap => {
                Err(Fault::Rule(RuleFault::Service, place))
            }
            _ => Ok(()),
        }
    }

    fn check_services(&self, services: &Services) -> Result<(), Fault>
        ensures { result ≡ services_passed self.now.day.now self.now.card.now services.now }
    {
        let card = self.card;
        self.check_service(1, card.up.certified, &services.regulation_up)?;
        self.check_service(2, card.down.certified, &services.regulation_down)?;
        self.check_service(3, card.spinning, &services.spinning)?;
        self.check_service(4, card.non_spinning, &services.non_spinning)
    }

    // Everything that is checked before a bid is mended.
    pub fn check(&self, coordinator: u8, bid: &Components) -> Result<(), Fault>
        ensures { result ≡ checks_passed coordinator self.now.day.now self.now.card.now bid.now }
    {
        self.check_filing(coordinator, bid)?;
        self.check_self_schedule(bid)?;
        self.check_curve(bid)?;
        self.check_services(&bid.services)?;
        check_start_up(&self.card.start_up, &bid.start_up)?;
        check_ramp(&self.card.ramp, &bid.ramp)
    }
}
