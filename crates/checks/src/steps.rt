// The steps of a curve, one after another.
ghost use Rattle.std.specs.Prelude.{◌≡◌};
ghost use Rattle.checks.specs.Checks.{first_broken, step_check, step_checks};
ghost use Rattle.checks.specs.Terms.{top, steps_of};
ghost use Rattle.bid.specs.Fields.{step as step_of};

use crate::registered::Registered;
use bid::{Curve, Step};
use faults::{Fault, RuleFault};

impl Registered<'_> {
    // A step after the one before it: its end first, then its price.
    fn check_step(&self, place: u32, before: &Step, step: &Step) -> Result<(), Fault>
        ensures { result ≡ first_broken (step_check (top self.now.card.now) self.now.day.now place before.now step.now) }
    {
        let day = self.day;
        if step.end <= before.end || step.end > self.card.pmax {
            return Err(Fault::Rule(RuleFault::StepEnd, place));
        }
        if step.price < before.price || step.price < day.floor || step.price > day.hard_cap {
            return Err(Fault::Rule(RuleFault::StepPrice, place));
        }
        Ok(())
    }

    // Each step in turn; before the first one stand the curve's start and the floor.
    pub(crate) fn check_steps(&self, curve: &Curve) -> Result<(), Fault>
        ensures { result ≡ first_broken (step_checks (top self.now.card.now) self.now.day.now 1 (step_of curve.now.start self.now.day.now.floor) (steps_of curve.now)) }
    {
        let mut before = Step {
            end: curve.start,
            price: self.day.floor,
        };
        for (i, step) in curve.steps.standing().iter().enumerate() {
            self.check_step(i as u32 + 1, &before, step)?;
            before = *step;
        }
        Ok(())
    }
}
