#![tactic(auto)]

// Tests of the three kinds of register: opened on sound and on broken days, cards and files, looked at, raised and layered.
#[cfg(test)]
mod breaches;
#[cfg(test)]
mod changes;
#[cfg(test)]
mod files;
#[cfg(test)]
mod flaws;
#[cfg(test)]
mod keeping;
#[cfg(test)]
mod looking;
#[cfg(test)]
mod opening;
#[cfg(test)]
mod raising;
#[cfg(test)]
mod registers;
#[cfg(test)]
mod sound;
#[cfg(test)]
mod told;
