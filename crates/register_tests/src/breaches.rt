// Days and cards with one thing changed, and what opening a register with each answers.
use crate::changes::CardChange::*;
use crate::changes::DayChange::*;
use crate::changes::{CardChange, DayChange};
use crate::told::{GRANTED, Outcome, Told};

// The sound day changed, and what opening a file with it answers; in memory every refusal is the day's breach.
pub struct DayCase(pub &'static str, pub DayChange, pub Outcome);

const DAY_BREACH: Outcome = Err(Told(24, 2, 0));

pub static DAYS: [DayCase; 35] = [
    DayCase("no hours", Hours(0), DAY_BREACH),
    DayCase("22 hours", Hours(22), DAY_BREACH),
    DayCase("23 hours", Hours(23), GRANTED),
    DayCase("24 hours", Hours(24), GRANTED),
    DayCase("25 hours", Hours(25), GRANTED),
    DayCase("26 hours", Hours(26), DAY_BREACH),
    DayCase("255 hours", Hours(255), DAY_BREACH),
    DayCase("floor at its lowest", Floor(-10_000_000), GRANTED),
    DayCase("floor 0", Floor(0), GRANTED),
    DayCase("floor above 0", Floor(1), DAY_BREACH),
    DayCase(
        "floor below its range",
        Floor(-10_000_001),
        Err(Told(4, 1, 1)),
    ),
    DayCase(
        "floor above its range",
        Floor(10_000_001),
        Err(Told(4, 1, 1)),
    ),
    DayCase("floor far below", Floor(-2_147_483_648), Err(Told(4, 1, 1))),
    DayCase("soft cap 0", SoftCap(0), GRANTED),
    DayCase("soft cap equal to hard cap", SoftCap(200_000), GRANTED),
    DayCase("soft cap below 0", SoftCap(-1), DAY_BREACH),
    DayCase("soft cap above hard cap", SoftCap(200_001), DAY_BREACH),
    DayCase(
        "soft cap below its range",
        SoftCap(-10_000_001),
        Err(Told(4, 1, 5)),
    ),
    DayCase(
        "soft cap above its range",
        SoftCap(10_000_001),
        Err(Told(4, 1, 5)),
    ),
    DayCase("hard cap at its highest", HardCap(10_000_000), GRANTED),
    DayCase("hard cap equal to soft cap", HardCap(100_000), GRANTED),
    DayCase("hard cap below soft cap", HardCap(99_999), DAY_BREACH),
    DayCase("hard cap below 0", HardCap(-1), DAY_BREACH),
    DayCase(
        "hard cap below its range",
        HardCap(-10_000_001),
        Err(Told(4, 1, 9)),
    ),
    DayCase(
        "hard cap above its range",
        HardCap(10_000_001),
        Err(Told(4, 1, 9)),
    ),
    DayCase(
        "hard cap far above",
        HardCap(2_147_483_647),
        Err(Told(4, 1, 9)),
    ),
    DayCase("service cap 0", ServiceCap(0), GRANTED),
    DayCase(
        "service cap at its highest",
        ServiceCap(10_000_000),
        GRANTED,
    ),
    DayCase("service cap below 0", ServiceCap(-1), DAY_BREACH),
    DayCase(
        "service cap at the lowest price",
        ServiceCap(-10_000_000),
        DAY_BREACH,
    ),
    DayCase(
        "service cap below its range",
        ServiceCap(-10_000_001),
        Err(Told(4, 1, 13)),
    ),
    DayCase(
        "service cap above its range",
        ServiceCap(10_000_001),
        Err(Told(4, 1, 13)),
    ),
    DayCase(
        "service cap far above",
        ServiceCap(2_147_483_647),
        Err(Told(4, 1, 13)),
    ),
    DayCase("service cap above both caps", ServiceCap(200_001), GRANTED),
    DayCase("soft cap just below hard cap", SoftCap(199_999), GRANTED),
];

// A card changed, and what opening a file of it alone answers; in memory every refusal is the card's breach.
pub struct CardCase(pub &'static str, pub CardChange, pub Outcome);

const BREACH: Outcome = Err(Told(24, 2, 1));

// Of the full card: PMin 2000, PMax 10,000, all pairs and rows.
pub static OF_FULL: [CardCase; 86] = [
    CardCase("as it is", Nothing, GRANTED),
    CardCase("owner 0", Owner(0), Err(Told(4, 1, 21))),
    CardCase("owner 1", Owner(1), GRANTED),
    CardCase("owner 255", Owner(255), GRANTED),
    CardCase("PMax at its highest", PMax(10_000_000), GRANTED),
    CardCase(
        "PMax above its range",
        PMax(10_000_001),
        Err(Told(4, 1, 28)),
    ),
    CardCase("PMax far above", PMax(4_294_967_295), Err(Told(4, 1, 28))),
    // Regulation.
    CardCase("Up all certified and awarded", Up(10_000, 10_000), GRANTED),
    CardCase("Up award 0", Up(1500, 0), GRANTED),
    CardCase("Up certified above PMax", Up(10_001, 700), BREACH),
    CardCase("Up award above certified", Up(1500, 1501), BREACH),
    CardCase("Up award of nothing certified", Up(0, 1), BREACH),
    CardCase(
        "Up certified above its range",
        Up(10_000_001, 0),
        Err(Told(4, 1, 32)),
    ),
    CardCase(
        "Up award above its range",
        Up(10_000, 10_000_001),
        Err(Told(4, 1, 36)),
    ),
    CardCase(
        "Down all certified and awarded",
        Down(10_000, 10_000),
        GRANTED,
    ),
    CardCase("Down award 0", Down(1600, 0), GRANTED),
    CardCase("Down certified above PMax", Down(10_001, 800), BREACH),
    CardCase("Down award above certified", Down(1600, 1601), BREACH),
    CardCase("Down award of nothing certified", Down(0, 1), BREACH),
    CardCase(
        "Down certified above its range",
        Down(10_000_001, 0),
        Err(Told(4, 1, 40)),
    ),
    CardCase(
        "Down award above its range",
        Down(10_000, 10_000_001),
        Err(Told(4, 1, 44)),
    ),
    // Reserves, the regulation limit and the level.
    CardCase("Spinning at PMax", Spinning(10_000), GRANTED),
    CardCase("Spinning above PMax", Spinning(10_001), BREACH),
    CardCase(
        "Spinning at the highest quantity",
        Spinning(10_000_000),
        BREACH,
    ),
    CardCase(
        "Spinning above its range",
        Spinning(10_000_001),
        Err(Told(4, 1, 48)),
    ),
    CardCase("Non-Spinning at PMax", NonSpinning(10_000), GRANTED),
    CardCase("Non-Spinning above PMax", NonSpinning(10_001), BREACH),
    CardCase(
        "Non-Spinning above its range",
        NonSpinning(10_000_001),
        Err(Told(4, 1, 52)),
    ),
    CardCase("regulation limit 0", RegulationLimit(0), GRANTED),
    CardCase("regulation limit at PMax", RegulationLimit(10_000), GRANTED),
    CardCase(
        "regulation limit above PMax",
        RegulationLimit(10_001),
        BREACH,
    ),
    CardCase(
        "regulation limit above its range",
        RegulationLimit(10_000_001),
        Err(Told(4, 1, 56)),
    ),
    CardCase("level at the lowest price", Level(-10_000_000), GRANTED),
    CardCase("level 0", Level(0), GRANTED),
    CardCase("level at the highest price", Level(10_000_000), GRANTED),
    CardCase(
        "level below its range",
        Level(-10_000_001),
        Err(Told(4, 1, 60)),
    ),
    CardCase(
        "level above its range",
        Level(10_000_001),
        Err(Told(4, 1, 60)),
    ),
    CardCase(
        "level far below",
        Level(-2_147_483_648),
        Err(Told(4, 1, 60)),
    ),
    // Start-up pairs: after 0 minutes 50,000, after 60 minutes 70,000, after 480 minutes 90,000.
    CardCase("no pairs", Pairs(0), GRANTED),
    CardCase("one pair", Pairs(1), GRANTED),
    CardCase("two pairs", Pairs(2), GRANTED),
    CardCase("four pairs", Pairs(4), Err(Told(3, 1, 64))),
    CardCase("255 pairs", Pairs(255), Err(Told(3, 1, 64))),
    CardCase("first down time not 0", Pair(0, 1, 50_000), BREACH),
    CardCase("second down time equal", Pair(1, 0, 70_000), BREACH),
    CardCase("third down time equal", Pair(2, 60, 90_000), BREACH),
    CardCase("third down time falls", Pair(2, 59, 90_000), BREACH),
    CardCase("third down time one more", Pair(2, 61, 90_000), GRANTED),
    CardCase(
        "third down time at its highest",
        Pair(2, 65_535, 90_000),
        GRANTED,
    ),
    CardCase("second cost equal", Pair(1, 60, 50_000), BREACH),
    CardCase("second cost falls", Pair(1, 60, 49_999), BREACH),
    CardCase("third cost equal", Pair(2, 480, 70_000), BREACH),
    CardCase("third cost falls", Pair(2, 480, 69_999), BREACH),
    CardCase("third cost one more", Pair(2, 480, 70_001), GRANTED),
    CardCase(
        "third cost at its highest",
        Pair(2, 480, 4_294_967_295),
        GRANTED,
    ),
    CardCase("first cost 0", Pair(0, 0, 0), GRANTED),
    // Ramp rows: from 2000, 4000, 6000 and 8000 on.
    CardCase("no rows", Rows(0), GRANTED),
    CardCase("one row", Rows(1), GRANTED),
    CardCase("two rows", Rows(2), GRANTED),
    CardCase("three rows", Rows(3), GRANTED),
    CardCase("five rows", Rows(5), Err(Told(3, 1, 83))),
    CardCase("255 rows", Rows(255), Err(Told(3, 1, 83))),
    CardCase("first level below PMin", Row(0, 1999, 10, 100), BREACH),
    CardCase("first level above PMin", Row(0, 2001, 10, 100), BREACH),
    CardCase("second level equal", Row(1, 2000, 20, 200), BREACH),
    CardCase("third level equal", Row(2, 4000, 30, 300), BREACH),
    CardCase("third level falls", Row(2, 3999, 30, 300), BREACH),
    CardCase("fourth level equal", Row(3, 6000, 40, 400), BREACH),
    CardCase("fourth level falls", Row(3, 5999, 40, 400), BREACH),
    CardCase("fourth level one more", Row(3, 6001, 40, 400), GRANTED),
    CardCase("fourth level at PMax", Row(3, 10_000, 40, 400), GRANTED),
    CardCase("fourth level above PMax", Row(3, 10_001, 40, 400), BREACH),
    CardCase(
        "fourth level above its range",
        Row(3, 10_000_001, 40, 400),
        Err(Told(4, 1, 120)),
    ),
    CardCase("first rates equal", Row(0, 2000, 100, 100), GRANTED),
    CardCase("first rates 0", Row(0, 2000, 0, 0), GRANTED),
    CardCase("first lowest above highest", Row(0, 2000, 101, 100), BREACH),
    CardCase(
        "second lowest above highest",
        Row(1, 4000, 201, 200),
        BREACH,
    ),
    CardCase("third lowest above highest", Row(2, 6000, 301, 300), BREACH),
    CardCase(
        "fourth lowest above highest",
        Row(3, 8000, 401, 400),
        BREACH,
    ),
    CardCase(
        "first rate at its highest",
        Row(0, 2000, 10, 10_000_000),
        GRANTED,
    ),
    CardCase(
        "first rate above its range",
        Row(0, 2000, 10, 10_000_001),
        Err(Told(4, 1, 92)),
    ),
    CardCase(
        "first rates above their range",
        Row(0, 2000, 10_000_001, 10_000_001),
        Err(Told(4, 1, 88)),
    ),
    CardCase(
        "second rate above its range",
        Row(1, 4000, 10, 10_000_001),
        Err(Told(4, 1, 104)),
    ),
    CardCase(
        "third rate above its range",
        Row(2, 6000, 10, 10_000_001),
        Err(Told(4, 1, 116)),
    ),
    CardCase(
        "fourth rate above its range",
        Row(3, 8000, 10, 10_000_001),
        Err(Told(4, 1, 128)),
    ),
    CardCase(
        "fourth rate at its highest",
        Row(3, 8000, 10_000_000, 10_000_000),
        GRANTED,
    ),
];

// Of the bare card: PMin 0, PMax 5000, no pairs and no rows.
pub static OF_BARE: [CardCase; 8] = [
    CardCase("as it is", Nothing, GRANTED),
    CardCase("PMin equal to PMax", PMin(5000), GRANTED),
    CardCase("PMin above PMax", PMin(5001), BREACH),
    CardCase("PMin at the highest quantity", PMin(10_000_000), BREACH),
    CardCase(
        "PMin above its range",
        PMin(10_000_001),
        Err(Told(4, 1, 24)),
    ),
    CardCase(
        "PMax above its range",
        PMax(10_000_001),
        Err(Told(4, 1, 28)),
    ),
    CardCase("PMax below the regulation limit", PMax(4999), BREACH),
    CardCase("four pairs", Pairs(4), Err(Told(3, 1, 64))),
];

// Of the card with rubbish behind one pair and one row.
pub static OF_RUBBISH: [CardCase; 8] = [
    CardCase("as it is", Nothing, GRANTED),
    CardCase("rubbish that does not count as pairs", Pairs(0), GRANTED),
    CardCase("rubbish counted as a second pair", Pairs(2), BREACH),
    CardCase("rubbish counted as pairs", Pairs(3), BREACH),
    CardCase("rubbish that does not count as rows", Rows(0), GRANTED),
    CardCase(
        "rubbish counted as a second row",
        Rows(2),
        Err(Told(4, 1, 84)),
    ),
    CardCase("rubbish counted as rows", Rows(4), Err(Told(4, 1, 84))),
    CardCase("a fifth row", Rows(5), Err(Told(3, 1, 71))),
];
