// What a register means, asked day and number by number.
use crate::files::{day_and_count, file_of, put_card, standing};
use crate::sound::{DAY, bare, full, narrow, numbered, rubbish_behind, with_zeros_behind};
use raised::Raised;
use register::{Card, CardRow, Day, NumberedCard, Register};
use register_file::RegisterFile;
use std::process::Abort;
use std::test::Fail;

// The card among these that has the number, with zeros behind its counts.
fn card_of(cards: &[NumberedCard], resource: u16) -> Option<Card> {
    cards
        .iter()
        .find(|numbered| numbered.resource == resource)
        .map(|numbered| with_zeros_behind(&numbered.card))
}

// Looking fills in the card that is held, or leaves the caller's as it is.
fn answers<R: Register>(
    rt: &impl Abort,
    case: &str,
    register: &R,
    resource: u16,
    held: Option<Card>,
) {
    let mut card = rubbish_behind();
    assert_eq!(rt;
        register.look(resource, &mut card),
        held.is_some(),
        "{case}, {resource}"
    );
    let expected = held.unwrap_or(rubbish_behind());
    assert_eq!(rt; card, expected, "{case}, {resource}");
}

// The register answers this day, and of the numbers asked for these cards alone.
pub fn means<R: Register>(
    rt: &(impl Abort + AllocGlobal),
    case: &str,
    register: &R,
    day: &Day,
    cards: &[NumberedCard],
    asked: &[u16],
) -> Result<(), Fail> {
    assert_eq!(rt; register.day(), *day, "{case}");
    for resource in asked {
        answers(rt, case, register, *resource, card_of(cards, *resource));
    }
    Ok(())
}

static ASKED: [u16; 12] = [0, 1, 2, 3, 4, 699, 700, 701, 702, 32_768, 65_534, 65_535];

// The cards in memory, in a file and under a layer without levels.
fn mean_the_same(rt: &(impl Abort + AllocGlobal), cards: &[NumberedCard]) -> Result<(), Fail> {
    let case = format!(in rt.alloc(); "{} cards", cards.len())?;
    let mut row = CardRow::closed();
    row.open(DAY, cards)?;
    means(rt, &case, &row, &DAY, cards, &ASKED)?;
    means(rt, &case, &Raised::new(row), &DAY, cards, &ASKED)?;
    let written = file_of(&DAY, cards, rt.alloc())?;
    let mut file = RegisterFile::closed();
    file.open(&written)?;
    means(rt, &case, &file, &DAY, cards, &ASKED)?;
    means(rt, &case, &Raised::new(file), &DAY, cards, &ASKED)
}

// Numbers of three cards, with gaps and without.
static NUMBERS: [[u16; 3]; 4] = [[3, 700, 65_535], [0, 1, 2], [699, 701, 702], [2, 4, 65_534]];

#[test]
fn looked_for_among_up_to_three_cards(rt: HostRuntime) -> Result<(), Fail> {
    for [first, second, third] in &NUMBERS {
        let cards = [
            numbered(*first, full()),
            numbered(*second, bare()),
            numbered(*third, rubbish_behind()),
        ];
        for count in 0..=cards.len() {
            mean_the_same(&rt, &cards[..count])?;
        }
    }
    Ok(())
}

// A closed register holds no card, and its day has no prices.
#[test]
fn closed_registers(rt: HostRuntime) -> Result<(), Fail> {
    let day = Day {
        hours: 24,
        floor: 0,
        soft_cap: 0,
        hard_cap: 0,
        service_cap: 0,
    };
    means(&rt, "in memory", &CardRow::closed(), &day, &[], &ASKED)?;
    means(&rt, "in a file", &RegisterFile::closed(), &day, &[], &ASKED)
}

// A file whose first card has the fields of a map, and what it means.
fn means_what_stands(rt: &(impl Abort + AllocGlobal), map: u16) -> Result<(), Fail> {
    let case = format!(in rt.alloc(); "map {map}")?;
    let mut written = day_and_count(&DAY, 2, rt.alloc())?;
    put_card(map, &numbered(3, full()), &mut written)?;
    put_card(0, &numbered(700, narrow()), &mut written)?;
    let cards = [numbered(3, standing(map, &full())), numbered(700, narrow())];
    let mut file = RegisterFile::closed();
    file.open(&written)?;
    means(rt, &case, &file, &DAY, &cards, &[2, 3, 4, 700, 701])
}

#[test]
fn every_map_of_a_card(rt: HostRuntime) -> Result<(), Fail> {
    for map in 0..256 {
        means_what_stands(&rt, map)?;
    }
    Ok(())
}
