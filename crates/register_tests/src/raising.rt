// Levels raised over registers, and over raised levels.
use crate::files::file_of;
use crate::looking::means;
use crate::sound::{DAY, full, numbered, of_level};
use crate::told::{GRANTED, Outcome, Told, answered};
use raised::Raised;
use register::{CardRow, NumberedCard, Register};
use register_file::RegisterFile;
use std::array::from_fn;
use std::process::Abort;
use std::test::Fail;

// The level below, the level that it is raised to, and what is told.
struct Raise(&'static str, i32, i32, Outcome);

const NO_PRICE: Outcome = Err(Told(4, 1, 0));

const NOT_HELD: Outcome = Err(Told(6, 2, 0));

const NOT_ALLOWED: Outcome = Err(Told(23, 2, 0));

const NO_PLACE: Outcome = Err(Told(18, 4, 0));

static RAISES: [Raise; 40] = [
    // A tenth of 120,000 is 12,000.
    Raise("to itself", 120_000, 120_000, GRANTED),
    Raise("one below", 120_000, 119_999, NOT_ALLOWED),
    Raise("one above", 120_000, 120_001, GRANTED),
    Raise("to its threshold", 120_000, 132_000, GRANTED),
    Raise("above its threshold", 120_000, 132_001, NOT_ALLOWED),
    Raise("below 0", 120_000, -120_000, NOT_ALLOWED),
    // Zero is its own threshold, and so is each level below 10.
    Raise("0 to itself", 0, 0, GRANTED),
    Raise("0 to 1", 0, 1, NOT_ALLOWED),
    Raise("0 to -1", 0, -1, NOT_ALLOWED),
    Raise("9 to itself", 9, 9, GRANTED),
    Raise("9 to 10", 9, 10, NOT_ALLOWED),
    // A tenth is rounded down.
    Raise("10 to 11", 10, 11, GRANTED),
    Raise("10 to 12", 10, 12, NOT_ALLOWED),
    Raise("19 to 20", 19, 20, GRANTED),
    Raise("19 to 21", 19, 21, NOT_ALLOWED),
    Raise("20 to 22", 20, 22, GRANTED),
    Raise("20 to 23", 20, 23, NOT_ALLOWED),
    // A negative level is its own threshold.
    Raise("-1 to itself", -1, -1, GRANTED),
    Raise("-1 to 0", -1, 0, NOT_ALLOWED),
    Raise("-1 to -2", -1, -2, NOT_ALLOWED),
    Raise("-100 to itself", -100, -100, GRANTED),
    Raise("-100 to -90", -100, -90, NOT_ALLOWED),
    Raise("-100 to -99", -100, -99, NOT_ALLOWED),
    Raise("-100 to -110", -100, -110, NOT_ALLOWED),
    // The lowest price.
    Raise("lowest to itself", -10_000_000, -10_000_000, GRANTED),
    Raise("lowest to one more", -10_000_000, -9_999_999, NOT_ALLOWED),
    Raise("lowest to one less", -10_000_000, -10_000_001, NO_PRICE),
    // Thresholds at the highest price and above it.
    Raise("highest to itself", 10_000_000, 10_000_000, GRANTED),
    Raise("highest to one less", 10_000_000, 9_999_999, NOT_ALLOWED),
    Raise("highest to one more", 10_000_000, 10_000_001, NO_PRICE),
    Raise("highest to its threshold", 10_000_000, 11_000_000, NO_PRICE),
    Raise("9,999,999 to the highest", 9_999_999, 10_000_000, GRANTED),
    Raise("9,999,999 to above", 9_999_999, 10_000_001, NO_PRICE),
    Raise("9,090,909 to its threshold", 9_090_909, 9_999_999, GRANTED),
    Raise(
        "9,090,909 to the highest",
        9_090_909,
        10_000_000,
        NOT_ALLOWED,
    ),
    Raise("9,090,910 to the highest", 9_090_910, 10_000_000, GRANTED),
    Raise(
        "9,090,910 to its threshold",
        9_090_910,
        10_000_001,
        NO_PRICE,
    ),
    // Numbers far out of range.
    Raise("0 to far above", 0, 2_147_483_647, NO_PRICE),
    Raise("0 to far below", 0, -2_147_483_648, NO_PRICE),
    Raise("highest to far above", 10_000_000, 2_147_483_647, NO_PRICE),
];

fn set_level(cards: &mut [NumberedCard], resource: u16, level: i32) {
    for numbered in cards {
        if numbered.resource == resource {
            numbered.card.level = level;
        }
    }
}

// A resource and the level that it is raised to, and what is told.
#[derive(Drop)]
struct Another(&'static str, u16, i32, Outcome);

// A layer that means some cards answers as told; the level is raised if that is granted, and all else stays.
fn raised_as_told<R: Register>(
    rt: &(impl Abort + AllocGlobal),
    case: &str,
    layer: &mut Raised<R>,
    cards: &mut [NumberedCard],
    another: &Another,
    asked: &[u16],
) -> Result<(), Fail> {
    let Another(_, resource, level, expected) = *another;
    assert_eq!(rt; answered(layer.raise(resource, level)), expected, "{case}");
    if expected.is_ok() {
        set_level(cards, resource, level);
    }
    means(rt, case, layer, &DAY, cards, asked)
}

fn raised_alone(rt: &(impl Abort + AllocGlobal), raise: &Raise) -> Result<(), Fail> {
    let Raise(case, below, level, expected) = *raise;
    let cards = [numbered(7, of_level(below)), numbered(8, full())];
    let mut after = cards;
    let mut row = CardRow::closed();
    row.open(DAY, &cards)?;
    let mut layer = Raised::new(row);
    let raise = Another("alone", 7, level, expected);
    raised_as_told(rt, case, &mut layer, &mut after, &raise, &[6, 7, 8])
}

#[test]
fn each_raise(rt: HostRuntime) -> Result<(), Fail> {
    for raise in &RAISES {
        raised_alone(&rt, raise)?;
    }
    Ok(())
}

// Resources 1, 4, 7 .. with levels 0, 100, 200 ..
fn many() -> [NumberedCard; 34] {
    from_fn(|i| numbered(1 + 3 * i as u16, of_level(100 * i as i32)))
}

// When 32 resources are raised to their thresholds; the last of them is 94, from 3100 to 3410.
static ANOTHER: [Another; 19] = [
    Another("a 33rd, to its threshold", 97, 3520, NO_PLACE),
    Another("a 33rd, to itself", 97, 3200, NO_PLACE),
    Another("a 34th", 100, 3300, NO_PLACE),
    Another("a 33rd above its threshold", 97, 3521, NOT_ALLOWED),
    Another("a 33rd below its level", 97, 3199, NOT_ALLOWED),
    Another("a 33rd, to no price", 97, 10_000_001, NO_PRICE),
    Another("one not held", 98, 3200, NOT_HELD),
    Another("one not held, below every level", 0, -10_000_000, NOT_HELD),
    Another("one not held, to no price", 98, -10_000_001, NO_PRICE),
    Another("the first again", 1, 0, GRANTED),
    Another("the first again above its threshold", 1, 1, NOT_ALLOWED),
    Another("the last again to no price", 94, 10_000_001, NO_PRICE),
    Another(
        "the last again below the level below",
        94,
        3099,
        NOT_ALLOWED,
    ),
    Another("the last again above its threshold", 94, 3411, NOT_ALLOWED),
    Another("the last again to the same", 94, 3410, GRANTED),
    Another("the last again to less", 94, 3101, GRANTED),
    Another("the last again to the level below", 94, 3100, GRANTED),
    Another("one in the middle again to less", 49, 1700, GRANTED),
    Another("a 33rd after all that", 97, 3520, NO_PLACE),
];

static ASKED: [u16; 10] = [0, 1, 2, 4, 49, 91, 94, 97, 98, 100];

#[test]
fn thirty_two_raised_resources(rt: HostRuntime) -> Result<(), Fail> {
    let cards = many();
    let mut after = cards;
    let mut row = CardRow::closed();
    row.open(DAY, &cards)?;
    let mut layer = Raised::new(row);
    for i in 0..32u16 {
        let raise = Another("to its threshold", 1 + 3 * i, 110 * i as i32, GRANTED);
        let case = format!(in rt.alloc(); "{i}")?;
        raised_as_told(&rt, &case, &mut layer, &mut after, &raise, &ASKED)?;
    }
    for another in &ANOTHER {
        raised_as_told(&rt, another.0, &mut layer, &mut after, another, &ASKED)?;
    }
    Ok(())
}

// In the upper of two layers: 7 has 120,000 below both, raised to 132,000 in the lower; 8 and 9 have 120,000 in both.
static UPPER: [Another; 9] = [
    Another("below the lower layer's level", 7, 131_999, NOT_ALLOWED),
    Another("the level below both", 7, 120_000, NOT_ALLOWED),
    Another("above the lower level's threshold", 7, 145_201, NOT_ALLOWED),
    Another("to no price", 7, 10_000_001, NO_PRICE),
    Another("not held", 6, 120_000, NOT_HELD),
    Another("to the lower level's threshold", 7, 145_200, GRANTED),
    Another("again to less", 7, 140_000, GRANTED),
    Another(
        "one that the lower layer has not raised",
        8,
        132_000,
        GRANTED,
    ),
    Another("the same above its threshold", 8, 132_001, NOT_ALLOWED),
];

static AROUND: [u16; 5] = [6, 7, 8, 9, 10];

fn of_levels(first: i32, second: i32, third: i32) -> [NumberedCard; 3] {
    [
        numbered(7, of_level(first)),
        numbered(8, of_level(second)),
        numbered(9, of_level(third)),
    ]
}

#[test]
fn a_layer_over_a_layer_over_a_file(rt: HostRuntime) -> Result<(), Fail> {
    let written = file_of(&DAY, &of_levels(120_000, 120_000, 120_000), rt.alloc())?;
    let mut file = RegisterFile::closed();
    file.open(&written)?;
    let mut lower = Raised::new(file);
    lower.raise(7, 132_000)?;
    let mut upper = Raised::new(lower);
    let mut after = of_levels(132_000, 120_000, 120_000);
    for another in &UPPER {
        raised_as_told(&rt, another.0, &mut upper, &mut after, another, &AROUND)?;
    }
    let expected = of_levels(140_000, 132_000, 120_000);
    means(&rt, "in the end", &upper, &DAY, &expected, &AROUND)
}
