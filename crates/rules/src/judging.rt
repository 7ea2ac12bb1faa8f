// Judging a bid and judging a record.
ghost use Rattle.std.specs.Prelude.{◌≡◌, IfOk};
ghost use Rattle.rule_laws.specs.Judging.{ruled, marked, judged, denied as denied_by, verdict_of};
ghost use Rattle.register.specs.Meaning.{Meaning, Keeps};
ghost use Rattle.rule_laws.specs.Exactly.{ExactlyThen, TellsLayers};
ghost use Rattle.rule_laws.specs.Granted.{GrantedRow};
ghost use Rattle.rule_laws.specs.Settled.{Settled, OnlyMeaning};
ghost use Rattle.rules.specs.Told.{told};

use crate::judged::Judged;
use bid::Bid;
use checks::Registered;
use faults::{Fault, RegisterFault, WindowFault};
use mending::{marks, mend_bid};
use register::{Card, Register};

// The row that the rules make of a bid and its marks, or the first broken check.
fn rule_bid<R: Register>(register: &R, coordinator: u8, bid: &Bid) -> Result<Judged, Fault>
    ensures { told result ≡ marked bid.now.components (ruled coordinator (R.Register.meaning register.now) bid.now.components) }
{
    let mut card = Card::blank();
    if !register.look(bid.components.resource, &mut card) {
        return Err(Fault::Register(RegisterFault::ResourceNotHeld, 0));
    }
    let registered = Registered {
        day: &register.day(),
        card: &card,
    };
    registered.check(coordinator, &bid.components)?;
    let components = mend_bid(&registered, bid)?;
    let marks = marks(&bid.components, &components);
    Ok(Judged {
        row: Bid { components },
        marks,
    })
}

// Judges a bid that was read already; whether the coordinator is 0 is the caller's to check.
pub fn judge_bid<R: Register>(register: &R, coordinator: u8, bid: &Bid) -> Result<Judged, Fault>
    ensures value { told result ≡ marked bid.now.components (ruled coordinator (R.Register.meaning register.now) bid.now.components) }
    ensures exactly { ExactlyThen coordinator (R.Register.meaning register.now) bid.now.components }
    ensures layers { TellsLayers coordinator (R.Register.meaning register.now) bid.now.components }
    ensures granted { IfOk result (λ j. GrantedRow (R.Register.meaning register.now) bid.now.components j.row.components j.marks) }
{
    rule_bid(register, coordinator, bid)
}

// Number, layer and place of a fault, with no marks and nothing written.
fn denied(fault: Fault) -> (u8, u8, u32, u16, usize)
    ensures { result ≡ denied_by fault }
{
    let answer = fault.answer();
    (answer.number, answer.layer, answer.place, 0, 0)
}

fn judge_record<R: Register>(
    register: &R,
    coordinator: u8,
    bytes: &[u8],
    out: &mut [u8],
) -> Result<(u16, usize), Fault>
    ensures answer { verdict_of result ≡ (judged coordinator (R.Register.meaning register.now) bytes.now out.old).0 }
    ensures memory { out.new ≡ (judged coordinator (R.Register.meaning register.now) bytes.now out.old).1 }
{
    if coordinator == 0 {
        return Err(Fault::Window(WindowFault::NoCoordinator, 0));
    }
    let bid = Bid::read(bytes)?;
    let judged = rule_bid(register, coordinator, &bid)?;
    let length = judged.row.write(out)?;
    Ok((judged.marks, length))
}

// Judges a record: number, layer, place, marks and written length; the row stands at the front of `out`.
pub fn judge<R: Register>(
    register: &R,
    coordinator: u8,
    bytes: &[u8],
    out: &mut [u8],
) -> (u8, u8, u32, u16, usize)
    ensures answer { result ≡ (judged coordinator (R.Register.meaning register.now) bytes.now out.old).0 }
    ensures memory { out.new ≡ (judged coordinator (R.Register.meaning register.now) bytes.now out.old).1 }
    ensures settled { (m : Meaning) → Keeps m → Settled coordinator m bytes.now out.old }
    ensures meaning_counts { (m : Meaning) → OnlyMeaning coordinator m bytes.now out.old }
{
    match judge_record(register, coordinator, bytes, out) {
        Ok((marks, length)) => (0, 0, 0, marks, length),
        Err(fault) => denied(fault),
    }
}
