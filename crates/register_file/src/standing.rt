// A card as it stands in a register file.
use register::{NumberedCard, Regulation};

// What every card has.
#[derive(Clone, Copy)]
pub struct Head {
    pub resource: u16,
    pub owner: u8,
    pub map: u16,
    pub pmin: u32,
    pub pmax: u32,
}

// What bits 0 to 5 of a card's map stand for.
#[derive(Clone, Copy)]
pub struct Services {
    pub up: Regulation,
    pub down: Regulation,
    pub spinning: u32,
    pub non_spinning: u32,
    pub regulation_limit: u32,
    pub level: i32,
}

// A numbered card, and the map that tells which of its fields stand.
#[derive(Clone, Copy)]
pub struct Standing {
    pub map: u16,
    pub numbered: NumberedCard,
}
