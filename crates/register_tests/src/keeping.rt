// Registers opened on days and cards that keep what they have to, or break it.
use crate::breaches::{CardCase, DAYS, DayCase, OF_BARE, OF_FULL, OF_RUBBISH};
use crate::files::file_of;
use crate::looking::means;
use crate::sound::{DAY, bare, full, narrow, numbered, rubbish_behind};
use crate::told::{GRANTED, Outcome, Told, answered};
use register::{Card, CardRow, Day, NumberedCard, Register};
use register_file::RegisterFile;
use std::process::Abort;
use std::test::Fail;

const ASKED: [u16; 5] = [5, 6, 7, 8, 9];

// The card that a register holds before.
fn earlier() -> [NumberedCard; 1] {
    [numbered(9, narrow())]
}

// A register was opened over the earlier card: it means the new day and cards if that was granted, and else the earlier.
fn opened_over<R: Register>(
    rt: &(impl Abort + AllocGlobal),
    case: &str,
    register: &R,
    found: Outcome,
    expected: Outcome,
    day: &Day,
    cards: &[NumberedCard],
) -> Result<(), Fail> {
    assert_eq!(rt; found, expected, "{case}");
    if expected.is_ok() {
        means(rt, case, register, day, cards, &ASKED)
    } else {
        means(rt, case, register, &DAY, &earlier(), &ASKED)
    }
}

fn opens_in_memory(
    rt: &(impl Abort + AllocGlobal),
    case: &str,
    day: &Day,
    cards: &[NumberedCard],
    expected: Outcome,
) -> Result<(), Fail> {
    let before = earlier();
    let mut row = CardRow::closed();
    row.open(DAY, &before)?;
    let found = answered(row.open(*day, cards));
    opened_over(rt, case, &row, found, expected, day, cards)
}

// The same with the bytes of files.
fn opens_in_a_file(
    rt: &(impl Abort + AllocGlobal),
    case: &str,
    day: &Day,
    cards: &[NumberedCard],
    expected: Outcome,
) -> Result<(), Fail> {
    let before = file_of(&DAY, &earlier(), rt.alloc())?;
    let written = file_of(day, cards, rt.alloc())?;
    let mut file = RegisterFile::closed();
    file.open(&before)?;
    let found = answered(file.open(&written));
    opened_over(rt, case, &file, found, expected, day, cards)
}

// In memory every refusal is a breach, of the day at 0 or of a card from 1.
fn in_memory(in_file: Outcome, place: u32) -> Outcome {
    in_file.map_err(|_| Told(24, 2, place))
}

#[test]
fn days_kept_and_broken(rt: HostRuntime) -> Result<(), Fail> {
    let cards = [numbered(7, full())];
    for DayCase(label, change, in_file) in &DAYS {
        let day = change.of(&DAY);
        opens_in_memory(&rt, *label, &day, &cards, in_memory(*in_file, 0))?;
        opens_in_a_file(&rt, *label, &day, &cards, *in_file)?;
    }
    Ok(())
}

// What a file answers with a bare card of 45 bytes in front of the one in question.
fn as_the_second(alone: Outcome) -> Outcome {
    alone.map_err(|Told(number, layer, place)| {
        let behind = if number == 24 {
            2
        } else {
            place.wrapping_add(45)
        };
        Told(number, layer, behind)
    })
}

fn alone_and_between(
    rt: &(impl Abort + AllocGlobal),
    case: &str,
    card: &Card,
    in_file: Outcome,
) -> Result<(), Fail> {
    let alone = [numbered(7, *card)];
    opens_in_memory(rt, case, &DAY, &alone, in_memory(in_file, 1))?;
    opens_in_a_file(rt, case, &DAY, &alone, in_file)?;
    let between = [numbered(6, bare()), numbered(7, *card), numbered(8, bare())];
    opens_in_memory(rt, case, &DAY, &between, in_memory(in_file, 2))?;
    opens_in_a_file(rt, case, &DAY, &between, as_the_second(in_file))
}

fn each_change(
    rt: &(impl Abort + AllocGlobal),
    name: &str,
    card: &Card,
    cases: &[CardCase],
) -> Result<(), Fail> {
    for CardCase(label, change, in_file) in cases {
        let case = format!(in rt.alloc(); "{name}, {label}")?;
        alone_and_between(rt, &case, &change.of(card), *in_file)?;
    }
    Ok(())
}

#[test]
fn cards_kept_and_broken(rt: HostRuntime) -> Result<(), Fail> {
    each_change(&rt, "the full card", &full(), &OF_FULL)?;
    each_change(&rt, "the bare card", &bare(), &OF_BARE)?;
    each_change(
        &rt,
        "the card with rubbish behind",
        &rubbish_behind(),
        &OF_RUBBISH,
    )
}

// Three numbers, and what opening a register with them answers.
struct Order(u16, u16, u16, Outcome);

static ORDERS: [Order; 12] = [
    Order(0, 1, 2, GRANTED),
    Order(5, 6, 7, GRANTED),
    Order(0, 1, 65_535, GRANTED),
    Order(7, 7, 8, Err(Told(24, 2, 2))),
    Order(7, 6, 8, Err(Told(24, 2, 2))),
    Order(0, 0, 0, Err(Told(24, 2, 2))),
    Order(65_535, 0, 1, Err(Told(24, 2, 2))),
    Order(65_535, 65_535, 65_535, Err(Told(24, 2, 2))),
    Order(6, 7, 7, Err(Told(24, 2, 3))),
    Order(6, 8, 7, Err(Told(24, 2, 3))),
    Order(6, 7, 6, Err(Told(24, 2, 3))),
    Order(0, 65_535, 0, Err(Told(24, 2, 3))),
];

fn in_this_order(rt: &(impl Abort + AllocGlobal), order: &Order) -> Result<(), Fail> {
    let Order(first, second, third, expected) = *order;
    let case = format!(in rt.alloc(); "{first}, {second}, {third}")?;
    let cards = [
        numbered(first, full()),
        numbered(second, bare()),
        numbered(third, narrow()),
    ];
    opens_in_memory(rt, &case, &DAY, &cards, expected)?;
    opens_in_a_file(rt, &case, &DAY, &cards, expected)
}

#[test]
fn numbers_that_rise_or_not(rt: HostRuntime) -> Result<(), Fail> {
    for order in &ORDERS {
        in_this_order(&rt, order)?;
    }
    Ok(())
}
