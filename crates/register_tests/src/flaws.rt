// A register file as its bytes, and flaws laid over it.
use crate::told::{GRANTED, Outcome, Told};

// The day, and three cards: the full one (7) from byte 19 on, the bare one (8) from 132 on, the narrow one (300) from 145 on.
pub const FILE: &[u8; 158] =
    b"\x18\xFF\xFF\xC5\x68\x00\x01\x86\xA0\x00\x03\x0D\x40\x00\x00\x61\xA8\x00\x03\
    \x00\x07\x03\x00\xFF\x00\x00\x07\xD0\x00\x00\x27\x10\
    \x00\x00\x05\xDC\x00\x00\x02\xBC\x00\x00\x06\x40\x00\x00\x03\x20\
    \x00\x00\x08\x34\x00\x00\x08\x98\x00\x00\x23\x28\x00\x01\xD4\xC0\
    \x03\x00\x00\x00\x00\xC3\x50\x00\x3C\x00\x01\x11\x70\x01\xE0\x00\x01\x5F\x90\
    \x04\x00\x00\x07\xD0\x00\x00\x00\x0A\x00\x00\x00\x64\
    \x00\x00\x0F\xA0\x00\x00\x00\x14\x00\x00\x00\xC8\
    \x00\x00\x17\x70\x00\x00\x00\x1E\x00\x00\x01\x2C\
    \x00\x00\x1F\x40\x00\x00\x00\x28\x00\x00\x01\x90\
    \x00\x08\x04\x00\x00\x00\x00\x00\x00\x00\x00\x13\x88\
    \x01\x2C\xFF\x00\x00\x00\x00\x00\x64\x00\x00\x00\x64";

// What is laid over the file from a place on, the length from which on it is told, and what is told.
pub struct Flaw(
    pub &'static str,
    pub usize,
    pub &'static [u8],
    pub usize,
    pub Told,
);

// 10,000,001 and -10,000,001.
const HIGH: &[u8] = b"\x00\x98\x96\x81";

const LOW: &[u8] = b"\xFF\x67\x69\x7F";

// In the order in which they are told.
pub static FLAWS: [Flaw; 83] = [
    // The prices of the day.
    Flaw("floor too low", 1, LOW, 5, Told(4, 1, 1)),
    Flaw("floor too high", 1, HIGH, 5, Told(4, 1, 1)),
    Flaw("soft cap too low", 5, LOW, 9, Told(4, 1, 5)),
    Flaw("soft cap too high", 5, HIGH, 9, Told(4, 1, 5)),
    Flaw("hard cap too low", 9, LOW, 13, Told(4, 1, 9)),
    Flaw("hard cap too high", 9, HIGH, 13, Told(4, 1, 9)),
    Flaw("service cap too low", 13, LOW, 17, Told(4, 1, 13)),
    Flaw("service cap too high", 13, HIGH, 17, Told(4, 1, 13)),
    // The day, tested after its service cap.
    Flaw("22 hours", 0, b"\x16", 17, Told(24, 2, 0)),
    Flaw("26 hours", 0, b"\x1A", 17, Told(24, 2, 0)),
    Flaw("floor above 0", 1, b"\x00\x00\x00\x01", 17, Told(24, 2, 0)),
    Flaw(
        "soft cap below 0",
        5,
        b"\xFF\xFF\xFF\xFF",
        17,
        Told(24, 2, 0),
    ),
    Flaw(
        "soft cap above hard cap",
        5,
        b"\x00\x03\x0D\x41",
        17,
        Told(24, 2, 0),
    ),
    Flaw(
        "hard cap below soft cap",
        9,
        b"\x00\x01\x86\x9F",
        17,
        Told(24, 2, 0),
    ),
    Flaw(
        "service cap below 0",
        13,
        b"\xFF\xFF\xFF\xFF",
        17,
        Told(24, 2, 0),
    ),
    // The full card: owner, map, PMin and PMax.
    Flaw("owner 0", 21, b"\x00", 22, Told(4, 1, 21)),
    Flaw("bit 8 of the map", 22, b"\x01\xFF", 24, Told(2, 1, 22)),
    Flaw("bit 15 of the map", 22, b"\x80\xFF", 24, Told(2, 1, 22)),
    Flaw(
        "bit 8 of the map alone",
        22,
        b"\x01\x00",
        24,
        Told(2, 1, 22),
    ),
    Flaw("PMin too high", 24, HIGH, 28, Told(4, 1, 24)),
    Flaw("PMax too high", 28, HIGH, 32, Told(4, 1, 28)),
    // Its services, regulation limit and level.
    Flaw("Up certified too high", 32, HIGH, 36, Told(4, 1, 32)),
    Flaw("Up award too high", 36, HIGH, 40, Told(4, 1, 36)),
    Flaw("Down certified too high", 40, HIGH, 44, Told(4, 1, 40)),
    Flaw("Down award too high", 44, HIGH, 48, Told(4, 1, 44)),
    Flaw("Spinning too high", 48, HIGH, 52, Told(4, 1, 48)),
    Flaw("Non-Spinning too high", 52, HIGH, 56, Told(4, 1, 52)),
    Flaw("regulation limit too high", 56, HIGH, 60, Told(4, 1, 56)),
    Flaw("level too low", 60, LOW, 64, Told(4, 1, 60)),
    Flaw("level too high", 60, HIGH, 64, Told(4, 1, 60)),
    // Its counts of pairs and rows.
    Flaw("no pairs", 64, b"\x00", 65, Told(3, 1, 64)),
    Flaw("four pairs", 64, b"\x04", 65, Told(3, 1, 64)),
    Flaw("no rows", 83, b"\x00", 84, Told(3, 1, 83)),
    Flaw("five rows", 83, b"\x05", 84, Told(3, 1, 83)),
    // The levels and rates of its rows.
    Flaw("first level too high", 84, HIGH, 88, Told(4, 1, 84)),
    Flaw("first lowest rate too high", 88, HIGH, 92, Told(4, 1, 88)),
    Flaw("first highest rate too high", 92, HIGH, 96, Told(4, 1, 92)),
    Flaw("second level too high", 96, HIGH, 100, Told(4, 1, 96)),
    Flaw(
        "second lowest rate too high",
        100,
        HIGH,
        104,
        Told(4, 1, 100),
    ),
    Flaw(
        "second highest rate too high",
        104,
        HIGH,
        108,
        Told(4, 1, 104),
    ),
    Flaw("third level too high", 108, HIGH, 112, Told(4, 1, 108)),
    Flaw(
        "third lowest rate too high",
        112,
        HIGH,
        116,
        Told(4, 1, 112),
    ),
    Flaw(
        "third highest rate too high",
        116,
        HIGH,
        120,
        Told(4, 1, 116),
    ),
    Flaw("fourth level too high", 120, HIGH, 124, Told(4, 1, 120)),
    Flaw(
        "fourth lowest rate too high",
        124,
        HIGH,
        128,
        Told(4, 1, 124),
    ),
    Flaw(
        "fourth highest rate too high",
        128,
        HIGH,
        132,
        Told(4, 1, 128),
    ),
    // The full card, tested after its last byte.
    Flaw(
        "PMin above PMax",
        24,
        b"\x00\x00\x27\x11",
        132,
        Told(24, 2, 1),
    ),
    Flaw(
        "PMax below PMin",
        28,
        b"\x00\x00\x07\xCF",
        132,
        Told(24, 2, 1),
    ),
    Flaw(
        "Up certified above PMax",
        32,
        b"\x00\x00\x27\x11",
        132,
        Told(24, 2, 1),
    ),
    Flaw(
        "Up award above certified",
        36,
        b"\x00\x00\x05\xDD",
        132,
        Told(24, 2, 1),
    ),
    Flaw(
        "Down certified above PMax",
        40,
        b"\x00\x00\x27\x11",
        132,
        Told(24, 2, 1),
    ),
    Flaw(
        "Down award above certified",
        44,
        b"\x00\x00\x06\x41",
        132,
        Told(24, 2, 1),
    ),
    Flaw(
        "Spinning above PMax",
        48,
        b"\x00\x00\x27\x11",
        132,
        Told(24, 2, 1),
    ),
    Flaw(
        "Non-Spinning above PMax",
        52,
        b"\x00\x00\x27\x11",
        132,
        Told(24, 2, 1),
    ),
    Flaw(
        "regulation limit above PMax",
        56,
        b"\x00\x00\x27\x11",
        132,
        Told(24, 2, 1),
    ),
    Flaw(
        "first down time not 0",
        65,
        b"\x00\x01",
        132,
        Told(24, 2, 1),
    ),
    Flaw(
        "second down time equal",
        71,
        b"\x00\x00",
        132,
        Told(24, 2, 1),
    ),
    Flaw(
        "second cost equal",
        73,
        b"\x00\x00\xC3\x50",
        132,
        Told(24, 2, 1),
    ),
    Flaw(
        "third down time equal",
        77,
        b"\x00\x3C",
        132,
        Told(24, 2, 1),
    ),
    Flaw(
        "third cost equal",
        79,
        b"\x00\x01\x11\x70",
        132,
        Told(24, 2, 1),
    ),
    Flaw(
        "first ramp level not PMin",
        84,
        b"\x00\x00\x07\xD1",
        132,
        Told(24, 2, 1),
    ),
    Flaw(
        "second ramp level equal",
        96,
        b"\x00\x00\x07\xD0",
        132,
        Told(24, 2, 1),
    ),
    Flaw(
        "third ramp level equal",
        108,
        b"\x00\x00\x0F\xA0",
        132,
        Told(24, 2, 1),
    ),
    Flaw(
        "fourth ramp level equal",
        120,
        b"\x00\x00\x17\x70",
        132,
        Told(24, 2, 1),
    ),
    Flaw(
        "fourth ramp level above PMax",
        120,
        b"\x00\x00\x27\x11",
        132,
        Told(24, 2, 1),
    ),
    Flaw(
        "lowest rate above highest",
        124,
        b"\x00\x00\x01\x91",
        132,
        Told(24, 2, 1),
    ),
    // The bare card, and its number after its last byte.
    Flaw("bare: owner 0", 134, b"\x00", 135, Told(4, 1, 134)),
    Flaw(
        "bare: bit 8 of the map",
        135,
        b"\x01\x00",
        137,
        Told(2, 1, 135),
    ),
    Flaw(
        "bare: bit 15 of the map",
        135,
        b"\x80\x00",
        137,
        Told(2, 1, 135),
    ),
    Flaw("bare: PMin too high", 137, HIGH, 141, Told(4, 1, 137)),
    Flaw("bare: PMax too high", 141, HIGH, 145, Told(4, 1, 141)),
    Flaw("bare: number equal", 132, b"\x00\x07", 145, Told(24, 2, 2)),
    Flaw("bare: number falls", 132, b"\x00\x06", 145, Told(24, 2, 2)),
    Flaw(
        "bare: PMin above PMax",
        137,
        b"\x00\x00\x13\x89",
        145,
        Told(24, 2, 2),
    ),
    // The narrow card, and its number after its last byte.
    Flaw("narrow: owner 0", 147, b"\x00", 148, Told(4, 1, 147)),
    Flaw(
        "narrow: bit 8 of the map",
        148,
        b"\x01\x00",
        150,
        Told(2, 1, 148),
    ),
    Flaw(
        "narrow: bit 15 of the map",
        148,
        b"\x80\x00",
        150,
        Told(2, 1, 148),
    ),
    Flaw("narrow: PMin too high", 150, HIGH, 154, Told(4, 1, 150)),
    Flaw("narrow: PMax too high", 154, HIGH, 158, Told(4, 1, 154)),
    Flaw(
        "narrow: number equal",
        145,
        b"\x00\x08",
        158,
        Told(24, 2, 3),
    ),
    Flaw(
        "narrow: number falls",
        145,
        b"\x00\x07",
        158,
        Told(24, 2, 3),
    ),
    Flaw(
        "narrow: PMin above PMax",
        150,
        b"\x00\x00\x00\x65",
        158,
        Told(24, 2, 3),
    ),
    // Zeros behind the last card, read as a fourth.
    Flaw(
        "a fourth card of owner 0",
        17,
        b"\x00\x04",
        161,
        Told(4, 1, 160),
    ),
];

// How many cards are said to stand, how many bytes there are, and what is told.
pub struct Length(pub u16, pub usize, pub Outcome);

pub static LENGTHS: [Length; 20] = [
    Length(0, 17, Err(Told(1, 1, 17))),
    Length(0, 18, Err(Told(1, 1, 18))),
    Length(0, 19, GRANTED),
    Length(0, 20, Err(Told(5, 1, 19))),
    Length(0, 158, Err(Told(5, 1, 19))),
    Length(1, 19, Err(Told(1, 1, 19))),
    Length(1, 131, Err(Told(1, 1, 131))),
    Length(1, 132, GRANTED),
    Length(1, 133, Err(Told(5, 1, 132))),
    Length(1, 158, Err(Told(5, 1, 132))),
    Length(2, 132, Err(Told(1, 1, 132))),
    Length(2, 144, Err(Told(1, 1, 144))),
    Length(2, 145, GRANTED),
    Length(2, 146, Err(Told(5, 1, 145))),
    Length(3, 157, Err(Told(1, 1, 157))),
    Length(3, 158, GRANTED),
    Length(3, 159, Err(Told(5, 1, 158))),
    Length(3, 170, Err(Told(5, 1, 158))),
    Length(4, 158, Err(Told(1, 1, 158))),
    Length(65_535, 158, Err(Told(1, 1, 158))),
];
