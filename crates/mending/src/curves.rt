// Curves brought under the ceiling and made to reach what the reserves need.
ghost use Rattle.std.specs.Prelude.{◌≡◌, true, [], ◌∷◌, map};
ghost use Rattle.wire.specs.Rows.{entries, packed};
ghost use Rattle.bid.specs.Fields.{blank_step, step as step_to};
ghost use Rattle.checks.specs.Terms.{end_of, curve_end, need as need_of};
ghost use Rattle.mending.specs.Mending.{curve_of, is_tidy, extended as extended_of, reached as reached_of, capped_step, capped as capped_of};

use bid::{Bid, Curve, Services, Step};
use checks::need;
use faults::{Fault, RuleFault};
use wire::{Counted, Row};

// A price above the limit becomes the limit.
fn capped_step(limit: i32, step: &Step) -> Step
    ensures { result ≡ capped_step limit step.now }
{
    Step {
        end: step.end,
        price: step.price.min(limit),
    }
}

fn capped_steps(limit: i32, steps: &Counted<Step, 10>) -> Counted<Step, 10>
    ensures { result ≡ packed blank_step 10 (map (capped_step limit) (entries steps.now)) }
{
    let steps = steps.standing();
    let mut rows = [Step::blank(); 10];
    for (i, step) in steps.iter().enumerate() {
        rows[i] = capped_step(limit, step);
    }
    Counted {
        count: steps.len() as u8,
        rows,
    }
}

// Where steps that begin at a quantity end.
fn end_of(start: u32, steps: &[Step]) -> u32
    ensures { result ≡ end_of start steps.now }
{
    steps.last().map_or(start, |last| last.end)
}

// How a curve is made to reach a target: from where without a curve, and at what price.
#[derive(Clone, Copy)]
struct Extension {
    from: u32,
    target: u32,
    price: i32,
}

impl Extension {
    // The step that is added.
    fn step(&self) -> Step
        ensures { result ≡ step_to self.now.target self.now.price }
    {
        Step {
            end: self.target,
            price: self.price,
        }
    }

    // The curve of that step alone.
    fn curve(&self) -> Curve
        ensures { result ≡ curve_of self.now.from (step_to self.now.target self.now.price ∷ []) }
    {
        Curve {
            start: self.from,
            steps: Counted::of(&[self.step()]),
        }
    }
}

// The curve of a bid with each step's price brought under the ceiling: its count is right, and zeros stand behind it.
#[derive(Clone, Copy)]
pub(crate) struct Capped {
    curve: Option<Curve>,
    ghost tidy: { is_tidy curve ≡ true },
}

impl Capped {
    pub(crate) fn of(limit: i32, bid: &Bid) -> Capped
        ensures { result.curve ≡ capped_of limit bid.now.components.curve }
    {
        let curve = bid.components.curve.as_ref().map(|curve| Curve {
            start: curve.start,
            steps: capped_steps(limit, &curve.steps),
        });
        Capped { curve }
    }

    // Where it ends; without a curve, where energy begins.
    fn end(&self, from: u32) -> u32
        ensures { result ≡ curve_end from self.now.curve }
    {
        self.curve
            .as_ref()
            .map_or(from, |curve| end_of(curve.start, curve.steps.standing()))
    }

    // Made to end at the target: the last step is lengthened where its price is at least the extension price,
    // else one is added, and an eleventh is refused; without a curve, one of a single step is made.
    fn extended(&self, by: &Extension) -> Result<Option<Curve>, Fault>
        ensures { result ≡ extended_of by.now.from by.now.target by.now.price self.now.curve }
    {
        let Some(curve) = &self.curve else {
            return Ok(Some(by.curve()));
        };
        let count = curve.steps.count as usize;
        let mut rows = curve.steps.rows;
        if rows[count - 1].price >= by.price {
            rows[count - 1].end = by.target;
            return Ok(Some(Curve {
                start: curve.start,
                steps: Counted {
                    count: curve.steps.count,
                    rows,
                },
            }));
        }
        if count >= 10 {
            return Err(Fault::Rule(RuleFault::EleventhStep, 0));
        }
        rows[count] = by.step();
        Ok(Some(Curve {
            start: curve.start,
            steps: Counted {
                count: curve.steps.count + 1,
                rows,
            },
        }))
    }

    // The reserves have to fit between base and top; then the curve is made to reach them.
    pub(crate) fn reached(
        &self,
        from: u32,
        top: u32,
        services: &Services,
        price: i32,
    ) -> Result<Option<Curve>, Fault>
        ensures { result ≡ reached_of from top (need_of services.now) price self.now.curve }
    {
        let needed = need(services);
        let target = from as u64 + needed;
        if needed >= 1 && target > top as u64 {
            return Err(Fault::Rule(RuleFault::ReserveAboveTop, 0));
        }
        if (self.end(from) as u64) < target {
            return self.extended(&Extension {
                from,
                target: target as u32,
                price,
            });
        }
        Ok(self.curve)
    }
}
