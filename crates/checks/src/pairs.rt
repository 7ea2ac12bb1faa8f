// Start-up and ramp pairs beside those of the card.
ghost use Rattle.std.specs.Prelude.{◌≡◌, Bool, Option};
ghost use Rattle.faults.specs.declared.RuleFault.{RuleFault};
ghost use Rattle.faults.specs.declared.RuleFault.TheVariants.{StartUp as StartUpFault, Ramp as RampFault};
ghost use Rattle.wire.specs.Rows.{entries};
ghost use Rattle.checks.specs.Checks.{first_broken, start_up_checks, ramp_checks};
ghost use Rattle.checks.specs.Beside.{beside_checks, start_up_broken, ramp_broken};

use bid::{Ramp, RampPair, StartUp, StartUpPair};
use faults::{Fault, RuleFault};
use register::{RampLimits, StartUpLimit};
use wire::Counted;

// A pair of a bid that stands beside one of the card's.
trait Beside<L>: Copy {
    // the fault that it is refused with
    ghost FAULT: { RuleFault };

    // whether it breaks what the card's pair and the pair before it ask for
    ghost broken: { Option Self → Self → L → Bool };

    const FAULT: RuleFault;

    fn broken(&self, limit: &L, before: Option<Self>) -> bool
        ensures { result ≡ broken before self.now limit.now };
}

// The same down time, a cost of at most the highest, and more than the cost before.
impl Beside<StartUpLimit> for StartUpPair {
    ghost FAULT = { StartUpFault };

    ghost broken = { start_up_broken };

    const FAULT: RuleFault = RuleFault::StartUp;

    fn broken(&self, limit: &StartUpLimit, before: Option<StartUpPair>) -> bool
        ensures { result ≡ start_up_broken before self.now limit.now }
    {
        self.down_time != limit.down_time
            || self.cost > limit.highest
            || before.is_some_and(|before| self.cost <= before.cost)
    }
}

// The same level, and a rate from lowest to highest.
impl Beside<RampLimits> for RampPair {
    ghost FAULT = { RampFault };

    ghost broken = { ramp_broken };

    const FAULT: RuleFault = RuleFault::Ramp;

    fn broken(&self, limit: &RampLimits, before: Option<RampPair>) -> bool
        ensures { result ≡ ramp_broken before self.now limit.now }
    {
        self.level != limit.level || self.rate < limit.lowest || self.rate > limit.highest
    }
}

// As many pairs as the card has, and each in turn beside the card's.
fn check_beside<L, P: Beside<L>, const N: usize>(
    limits: &Counted<L, N>,
    pairs: &Counted<P, N>,
) -> Result<(), Fault>
    ensures { result ≡ first_broken (beside_checks P.FAULT P.broken (entries limits.now) (entries pairs.now)) }
{
    let limits = limits.standing();
    let pairs = pairs.standing();
    if pairs.len() != limits.len() {
        return Err(Fault::Rule(P::FAULT, 0));
    }
    let mut before = None;
    for (i, (pair, limit)) in pairs.iter().zip(limits).enumerate() {
        if pair.broken(limit, before) {
            return Err(Fault::Rule(P::FAULT, i as u32 + 1));
        }
        before = Some(*pair);
    }
    Ok(())
}

pub(crate) fn check_start_up(
    limits: &Counted<StartUpLimit, 3>,
    start_up: &Option<StartUp>,
) -> Result<(), Fault>
    ensures { result ≡ first_broken (start_up_checks (entries limits.now) start_up.now) }
{
    match start_up {
        Some(start_up) => check_beside(limits, &start_up.pairs),
        None => Ok(()),
    }
}

pub(crate) fn check_ramp(limits: &Counted<RampLimits, 4>, ramp: &Option<Ramp>) -> Result<(), Fault>
    ensures { result ≡ first_broken (ramp_checks (entries limits.now) ramp.now) }
{
    match ramp {
        Some(ramp) => check_beside(limits, &ramp.pairs),
        None => Ok(()),
    }
}
