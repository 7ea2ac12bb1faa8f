#![tactic(auto)]

// Tests of the rules: bids judged by several cards and days, each held to the answer, the row and the memory expected.
#[cfg(test)]
mod flaws;
#[cfg(test)]
mod judging;
#[cfg(test)]
mod kept;
#[cfg(test)]
mod memory;
#[cfg(test)]
mod mended;
#[cfg(test)]
mod plants;
#[cfg(test)]
mod refused;
