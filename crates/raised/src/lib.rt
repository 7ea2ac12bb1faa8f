// Levels raised over any register, as a register.
#![tactic(auto)]

pub mod level;
mod level_table;
mod levels;
pub mod raised;

pub use level::RaisedLevel;
pub use raised::Raised;
