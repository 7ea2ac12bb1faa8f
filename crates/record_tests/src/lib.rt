#![tactic(auto)]

// Tests of the bid record, read and written, of bids made from components, and of what faults answer.
#[cfg(test)]
mod answers;
#[cfg(test)]
mod cases;
#[cfg(test)]
mod hexadecimal;
#[cfg(test)]
mod longest;
#[cfg(test)]
mod made;
#[cfg(test)]
mod making;
#[cfg(test)]
mod reading;
#[cfg(test)]
mod writing;
