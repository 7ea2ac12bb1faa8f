// The longest record, and faults laid over it.

// Every component with all its rows: resource, hour, map and self-schedule; curve; services; start-up; ramp.
pub const LONGEST: &str = "0007 18 00FF 00989680 \
     000007D0 0A \
     000007D1 FFFFC568 000007D2 FFFFC572 \
     000007D3 FFFFC57C 000007D4 FFFFC586 \
     000007D5 FFFFC590 000007D6 FFFFC59A \
     000007D7 FFFFC5A4 000007D8 FFFFC5AE \
     000007D9 FFFFC5B8 000007DA FFFFC5C2 \
     000005DC 00000001 000005DD 00000002 \
     000007D0 FF676980 000003E8 00989680 \
     03 0000 00000001 003C 00000100 FFFF FFFFFFFF \
     04 000007D0 00000032 00000BB8 00000033 \
     00000FA0 00000034 00989680 00989680";

// The place of a field, what is laid over it, and the number that is then answered with that place.
pub struct Flaw(pub u32, pub &'static str, pub u8);

// In the order of their places.
pub static FLAWS: [Flaw; 53] = [
    // The map, the self-schedule, the start of the curve and its count.
    Flaw(3, "01FF", 2),
    Flaw(5, "00989681", 4),
    Flaw(9, "00989681", 4),
    Flaw(13, "00", 3),
    Flaw(13, "0B", 3),
    // Ends and prices of the steps.
    Flaw(14, "00989681", 4),
    Flaw(18, "FF67697F", 4),
    Flaw(22, "00989681", 4),
    Flaw(26, "00989681", 4),
    Flaw(30, "00989681", 4),
    Flaw(34, "FF67697F", 4),
    Flaw(38, "00989681", 4),
    Flaw(42, "00989681", 4),
    Flaw(46, "00989681", 4),
    Flaw(50, "FF67697F", 4),
    Flaw(54, "00989681", 4),
    Flaw(58, "00989681", 4),
    Flaw(62, "00989681", 4),
    Flaw(66, "FF67697F", 4),
    Flaw(70, "00989681", 4),
    Flaw(74, "00989681", 4),
    Flaw(78, "00989681", 4),
    Flaw(82, "FF67697F", 4),
    Flaw(86, "00989681", 4),
    Flaw(90, "00989681", 4),
    // Quantities and prices of the services.
    Flaw(94, "00000000", 4),
    Flaw(94, "00989681", 4),
    Flaw(98, "00989681", 4),
    Flaw(98, "FF67697F", 4),
    Flaw(102, "00000000", 4),
    Flaw(102, "00989681", 4),
    Flaw(106, "00989681", 4),
    Flaw(106, "FF67697F", 4),
    Flaw(110, "00000000", 4),
    Flaw(110, "00989681", 4),
    Flaw(114, "00989681", 4),
    Flaw(114, "FF67697F", 4),
    Flaw(118, "00000000", 4),
    Flaw(118, "00989681", 4),
    Flaw(122, "00989681", 4),
    Flaw(122, "FF67697F", 4),
    // The counts of start-up and ramp.
    Flaw(126, "00", 3),
    Flaw(126, "04", 3),
    Flaw(145, "00", 3),
    Flaw(145, "05", 3),
    // Operating levels and rates.
    Flaw(146, "00989681", 4),
    Flaw(150, "00989681", 4),
    Flaw(154, "00989681", 4),
    Flaw(158, "00989681", 4),
    Flaw(162, "00989681", 4),
    Flaw(166, "00989681", 4),
    Flaw(170, "00989681", 4),
    Flaw(174, "00989681", 4),
];
