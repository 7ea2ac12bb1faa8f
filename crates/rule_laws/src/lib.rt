// What judging a bid makes, as definitions, and the laws that hold of it.
#![tactic(auto)]

ghost use Rattle.rule_laws.specs.Worked.{WorkedOut};

// The worked bids come out as they are worked by hand.
pub fn worked_bids_stand()
    ensures { WorkedOut }
{}
