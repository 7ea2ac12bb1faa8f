// A register file as a register: checked once when it is opened, and read again on demand.
#![tactic(auto)]

mod fields;
pub mod file;
mod file_check;
mod file_look;
pub mod file_register;
mod parts;
mod skipping;
mod standing;

pub use file::RegisterFile;
