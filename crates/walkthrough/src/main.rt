// One task from beginning to end: a coordinator's bids become records, a register file is opened, a level is raised, and the bids are judged.
#![tactic(auto)]

mod damage;
mod desk;
mod judging;
mod plant;
mod records;
mod registers;

fn run(rt: &HostRuntime) -> anyhow::Result<()> {
    records::tell(rt)?;
    registers::tell(rt)?;
    judging::tell(rt)
}

fn main(rt: HostRuntime) -> anyhow::Result<()> {
    run(&rt)
}
