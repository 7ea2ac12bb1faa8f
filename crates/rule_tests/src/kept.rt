// Bids that are granted as they are filed.
use crate::flaws::FULL;
use crate::plants::Length;

// A label; the day and the coordinator; the record, which is the row too.
pub struct Kept(pub &'static str, pub Length, pub u8, pub &'static [u8]);

static LIMITS: [Kept; 19] = [
    // Energy and hours at their limits.
    Kept(
        "nothing filed, nothing certified for regulation",
        Length::Usual,
        3,
        b"\x00\x0C\x01\x00\x00",
    ),
    Kept(
        "self-schedule at PMin",
        Length::Usual,
        3,
        b"\x00\x0C\x01\x00\x01\x00\x00\x07\xD0",
    ),
    Kept(
        "self-schedule at the top",
        Length::Usual,
        3,
        b"\x00\x0C\x01\x00\x01\x00\x00\x27\x10",
    ),
    Kept(
        "a curve from the self-schedule",
        Length::Usual,
        3,
        b"\x00\x0C\x01\x00\x03\x00\x00\x09\xC4\x00\x00\x09\xC4\x01\
          \x00\x00\x09\xC5\x00\x00\x00\x00",
    ),
    Kept(
        "a step one hundredth long",
        Length::Usual,
        3,
        b"\x00\x0C\x01\x00\x02\x00\x00\x07\xD0\x01\x00\x00\x07\xD1\x00\x00\x00\x00",
    ),
    Kept(
        "a step to the top at the floor",
        Length::Usual,
        3,
        b"\x00\x0C\x01\x00\x02\x00\x00\x07\xD0\x01\x00\x00\x27\x10\xFF\xFF\xC5\x68",
    ),
    Kept(
        "two steps at one price",
        Length::Usual,
        3,
        b"\x00\x0C\x01\x00\x02\x00\x00\x07\xD0\x02\
          \x00\x00\x17\x70\x00\x00\x13\x88\x00\x00\x27\x10\x00\x00\x13\x88",
    ),
    Kept(
        "negative prices and 0",
        Length::Usual,
        3,
        b"\x00\x0C\x01\x00\x02\x00\x00\x07\xD0\x03\
          \x00\x00\x0B\xB8\xFF\xFF\xC5\x68\x00\x00\x0F\xA0\xFF\xFF\xFF\xFF\
          \x00\x00\x27\x10\x00\x00\x00\x00",
    ),
    Kept("hour 24 of 24", Length::Usual, 3, b"\x00\x0C\x18\x00\x00"),
    Kept("hour 23 of 23", Length::Short, 3, b"\x00\x0C\x17\x00\x00"),
    Kept("hour 1 of 23", Length::Short, 3, b"\x00\x0C\x01\x00\x00"),
    Kept("hour 25 of 25", Length::Long, 3, b"\x00\x0C\x19\x00\x00"),
    Kept("hour 1 of 25", Length::Long, 3, b"\x00\x0C\x01\x00\x00"),
    // Start-up and ramp at their limits.
    Kept(
        "start-up at cost 0",
        Length::Usual,
        3,
        b"\x00\x0C\x01\x00\x40\x01\x00\x00\x00\x00\x00\x00",
    ),
    Kept(
        "start-up at the highest cost",
        Length::Usual,
        3,
        b"\x00\x0C\x01\x00\x40\x01\x00\x00\x00\x01\x86\xA0",
    ),
    Kept(
        "ramp at the lowest rate",
        Length::Usual,
        3,
        b"\x00\x0C\x01\x00\x80\x01\x00\x00\x07\xD0\x00\x00\x00\x0A",
    ),
    Kept(
        "ramp at the highest rate",
        Length::Usual,
        3,
        b"\x00\x0C\x01\x00\x80\x01\x00\x00\x07\xD0\x00\x00\x01\xF4",
    ),
    // Reserves at their limits.
    Kept(
        "reserves at what is certified and at the service cap",
        Length::Usual,
        3,
        b"\x00\x0C\x01\x00\x32\x00\x00\x07\xD0\x01\x00\x00\x1B\x58\x00\x00\x00\x00\
          \x00\x00\x0B\xB8\x00\x00\x61\xA8\x00\x00\x07\xD0\x00\x00\x61\xA8",
    ),
    Kept(
        "reserves of a hundredth at price 0",
        Length::Usual,
        3,
        b"\x00\x0C\x01\x00\x32\x00\x00\x07\xD0\x01\x00\x00\x1B\x58\x00\x00\x00\x00\
          \x00\x00\x00\x01\x00\x00\x00\x00\x00\x00\x00\x01\x00\x00\x00\x00",
    ),
];

static OTHERS: [Kept; 15] = [
    // Prices and the ceiling.
    Kept(
        "a step at the ceiling, which is the soft cap",
        Length::Usual,
        3,
        b"\x00\x0C\x01\x00\x02\x00\x00\x07\xD0\x01\x00\x00\x27\x10\x00\x01\x86\xA0",
    ),
    Kept(
        "a step at the ceiling, which is the hard cap",
        Length::Usual,
        3,
        b"\x00\x0D\x01\x00\x02\x00\x00\x07\xD0\x01\x00\x00\x27\x10\x00\x03\x0D\x40",
    ),
    Kept(
        "caps equal, and a step at both",
        Length::Short,
        3,
        b"\x00\x0C\x01\x00\x02\x00\x00\x07\xD0\x01\x00\x00\x27\x10\x00\x00\xC3\x50",
    ),
    Kept(
        "floor 0, and a step at it",
        Length::Short,
        3,
        b"\x00\x0C\x01\x00\x02\x00\x00\x07\xD0\x01\x00\x00\x27\x10\x00\x00\x00\x00",
    ),
    // Regulation becomes what is free.
    Kept(
        "no award and no regulation filed",
        Length::Usual,
        3,
        b"\x00\x0D\x01\x00\x00",
    ),
    Kept(
        "no award, Regulation Up for what is free",
        Length::Usual,
        3,
        b"\x00\x0D\x01\x00\x04\x00\x00\x03\xE8\x00\x00\x01\xF4",
    ),
    Kept(
        "no award, Regulation Down for what is free",
        Length::Usual,
        3,
        b"\x00\x0D\x01\x00\x08\x00\x00\x03\x20\x00\x00\x61\xA8",
    ),
    Kept(
        "an award, Regulation Up for what is free",
        Length::Usual,
        3,
        b"\x00\x07\x01\x00\x04\x00\x00\x03\xE8\x00\x00\x00\x01",
    ),
    Kept(
        "all awarded and no regulation filed",
        Length::Usual,
        3,
        b"\x00\x0E\x01\x00\x00",
    ),
    Kept(
        "self-schedule above the regulation limit, none made",
        Length::Usual,
        3,
        b"\x00\x07\x01\x00\x01\x00\x00\x23\x29",
    ),
    Kept(
        "self-schedule at the regulation limit, Regulation Up filed",
        Length::Usual,
        3,
        b"\x00\x07\x01\x00\x05\x00\x00\x23\x28\x00\x00\x03\xE8\x00\x00\x00\x02",
    ),
    // The curve reaches base plus need.
    Kept(
        "a curve that ends at base plus need",
        Length::Usual,
        3,
        b"\x00\x0C\x01\x00\x12\x00\x00\x07\xD0\x01\x00\x00\x0B\xB8\x00\x00\xC3\x4F\
          \x00\x00\x03\xE8\x00\x00\x00\x00",
    ),
    Kept(
        "a curve that ends at base plus both reserves",
        Length::Usual,
        3,
        b"\x00\x0C\x01\x00\x32\x00\x00\x07\xD0\x01\x00\x00\x0D\xAC\x00\x00\x00\x00\
          \x00\x00\x03\xE8\x00\x00\x00\x00\x00\x00\x01\xF4\x00\x00\x00\x00",
    ),
    Kept(
        "ten steps that end at base plus need",
        Length::Usual,
        3,
        b"\x00\x0C\x01\x00\x12\x00\x00\x07\xD0\x0A\
          \x00\x00\x07\xD1\x00\x00\x00\x00\x00\x00\x07\xD2\x00\x00\x00\x00\
          \x00\x00\x07\xD3\x00\x00\x00\x00\x00\x00\x07\xD4\x00\x00\x00\x00\
          \x00\x00\x07\xD5\x00\x00\x00\x00\x00\x00\x07\xD6\x00\x00\x00\x00\
          \x00\x00\x07\xD7\x00\x00\x00\x00\x00\x00\x07\xD8\x00\x00\x00\x00\
          \x00\x00\x07\xD9\x00\x00\x00\x00\x00\x00\x07\xDA\x00\x00\xC3\x4F\
          \x00\x00\x00\x0A\x00\x00\x00\x00",
    ),
    // All that a bid can have.
    Kept("every component with all its rows", Length::Usual, 3, FULL),
];

// All of them.
pub fn kept_bids() -> [&'static [Kept]; 2] {
    [&LIMITS, &OTHERS]
}
