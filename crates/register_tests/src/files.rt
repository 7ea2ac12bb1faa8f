// Register files, written from a day and cards.
use crate::sound::{NO_PAIRS, NO_REGULATION, NO_ROWS};
use register::{Card, Day, NumberedCard, RampLimits, Regulation, StartUpLimit};
use std::alloc::{AllocError, Global};
use wire::Counted;

// The bits of a card's map.
const UP: u16 = 1;

const DOWN: u16 = 2;

const SPINNING: u16 = 4;

const NON_SPINNING: u16 = 8;

const REGULATION_LIMIT: u16 = 16;

const LEVEL: u16 = 32;

const START_UP: u16 = 64;

const RAMP: u16 = 128;

// What stands in a file.
trait Put {
    fn put(&self, file: &mut Vec<u8>) -> Result<(), AllocError>;
}

impl Put for u32 {
    fn put(&self, file: &mut Vec<u8>) -> Result<(), AllocError> {
        file.extend_from_slice(&self.to_be_bytes())
    }
}

impl Put for i32 {
    fn put(&self, file: &mut Vec<u8>) -> Result<(), AllocError> {
        file.extend_from_slice(&self.to_be_bytes())
    }
}

impl Put for u16 {
    fn put(&self, file: &mut Vec<u8>) -> Result<(), AllocError> {
        file.extend_from_slice(&self.to_be_bytes())
    }
}

impl Put for u8 {
    fn put(&self, file: &mut Vec<u8>) -> Result<(), AllocError> {
        file.extend_from_slice(&[*self])
    }
}

impl Put for Regulation {
    fn put(&self, file: &mut Vec<u8>) -> Result<(), AllocError> {
        self.certified.put(file)?;
        self.award.put(file)
    }
}

impl Put for StartUpLimit {
    fn put(&self, file: &mut Vec<u8>) -> Result<(), AllocError> {
        self.down_time.put(file)?;
        self.highest.put(file)
    }
}

impl Put for RampLimits {
    fn put(&self, file: &mut Vec<u8>) -> Result<(), AllocError> {
        self.level.put(file)?;
        self.lowest.put(file)?;
        self.highest.put(file)
    }
}

impl<T: Put, const N: usize> Put for Counted<T, N> {
    fn put(&self, file: &mut Vec<u8>) -> Result<(), AllocError> {
        self.count.put(file)?;
        for row in self.standing() {
            row.put(file)?;
        }
        Ok(())
    }
}

impl Put for Day {
    fn put(&self, file: &mut Vec<u8>) -> Result<(), AllocError> {
        self.hours.put(file)?;
        self.floor.put(file)?;
        self.soft_cap.put(file)?;
        self.hard_cap.put(file)?;
        self.service_cap.put(file)
    }
}

// A day, and how many cards follow.
pub fn day_and_count(day: &Day, count: u16, heap: Global) -> Result<Vec<u8>, AllocError> {
    let mut file = Vec::new(heap);
    day.put(&mut file)?;
    count.put(&mut file)?;
    Ok(file)
}

// A field, if its bit stands in the map.
fn put_where<T: Put>(bit: u16, field: &T, file: &mut Vec<u8>) -> Result<(), AllocError> {
    if bit == 0 { Ok(()) } else { field.put(file) }
}

// The next card, with the fields whose bits stand in the map.
pub fn put_card(map: u16, numbered: &NumberedCard, file: &mut Vec<u8>) -> Result<(), AllocError> {
    let card = &numbered.card;
    numbered.resource.put(file)?;
    card.owner.put(file)?;
    map.put(file)?;
    card.pmin.put(file)?;
    card.pmax.put(file)?;
    put_where(map & UP, &card.up, file)?;
    put_where(map & DOWN, &card.down, file)?;
    put_where(map & SPINNING, &card.spinning, file)?;
    put_where(map & NON_SPINNING, &card.non_spinning, file)?;
    put_where(map & REGULATION_LIMIT, &card.regulation_limit, file)?;
    put_where(map & LEVEL, &card.level, file)?;
    put_where(map & START_UP, &card.start_up, file)?;
    put_where(map & RAMP, &card.ramp, file)
}

// Every bit stands, but not that of pairs or rows where there are none.
pub fn map_of(card: &Card) -> u16 {
    let pairs = if card.start_up.count == 0 {
        0
    } else {
        START_UP
    };
    let rows = if card.ramp.count == 0 { 0 } else { RAMP };
    UP + DOWN + SPINNING + NON_SPINNING + REGULATION_LIMIT + LEVEL + pairs + rows
}

// A file of these cards, each with all that it has.
pub fn file_of(day: &Day, cards: &[NumberedCard], heap: Global) -> Result<Vec<u8>, AllocError> {
    let count = cards.len().min(65_535);
    let mut file = day_and_count(day, count as u16, heap)?;
    for numbered in cards {
        put_card(map_of(&numbered.card), numbered, &mut file)?;
    }
    Ok(file)
}

// A field if its bit stands, and else what a card has in its place.
fn where_it_stands<T: Copy>(bit: u16, field: T, else_is: T) -> T {
    if bit == 0 { else_is } else { field }
}

// What a card says of which only the fields stand whose bits are in the map.
pub fn standing(map: u16, card: &Card) -> Card {
    Card {
        up: where_it_stands(map & UP, card.up, NO_REGULATION),
        down: where_it_stands(map & DOWN, card.down, NO_REGULATION),
        spinning: where_it_stands(map & SPINNING, card.spinning, 0),
        non_spinning: where_it_stands(map & NON_SPINNING, card.non_spinning, 0),
        regulation_limit: where_it_stands(map & REGULATION_LIMIT, card.regulation_limit, card.pmax),
        level: where_it_stands(map & LEVEL, card.level, 0),
        start_up: where_it_stands(map & START_UP, card.start_up, NO_PAIRS),
        ramp: where_it_stands(map & RAMP, card.ramp, NO_ROWS),
        ..*card
    }
}
