// Every bid of the tables judged, as a record and as a bid.
use crate::flaws::{FULL, Flaw, OWNER, flaws};
use crate::kept::{Kept, kept_bids};
use crate::memory::{ROOM, lay, memory_with};
use crate::mended::{Mended, mended_bids};
use crate::plants::{CARDS, Length};
use crate::refused::{Refused, refused_bids};
use bid::Bid;
use faults::{Answer, Fault};
use register::{CardRow, NumberedCard, Register};
use rules::{Judged, judge, judge_bid};
use std::fmt::Display;
use std::process::Abort;
use std::test::Fail;

const TOO_SHORT: Answer = Answer {
    number: 21,
    layer: 4,
    place: 0,
};

// The bytes of a granted row, and its marks.
#[derive(Clone, Copy)]
struct Row<'a> {
    bytes: &'a [u8],
    marks: u16,
}

// Number, layer, place, marks and written length.
fn as_numbers(expected: Result<Row, Answer>) -> (u8, u8, u32, u16, usize) {
    match expected {
        Ok(row) => (0, 0, 0, row.marks, row.bytes.len()),
        Err(answer) => (answer.number, answer.layer, answer.place, 0, 0),
    }
}

// A record that a coordinator files, and the register that it is judged by.
#[derive(Clone, Copy)]
struct Filing<'a> {
    register: CardRow<'a>,
    coordinator: u8,
    record: &'a [u8],
}

impl<'a> Filing<'a> {
    // What a coordinator files for a day on which some cards are registered.
    fn new(
        length: Length,
        cards: &'a [NumberedCard],
        coordinator: u8,
        record: &'a [u8],
    ) -> Result<Filing<'a>, Fault> {
        let mut register = CardRow::closed();
        register.open(length.day(), cards)?;
        Ok(Filing {
            register,
            coordinator,
            record,
        })
    }

    // Judged into memory of some length: what is answered, and all that stands in memory after.
    fn judges(
        &self,
        rt: &impl Abort,
        case: &impl Display,
        length: usize,
        expected: Result<Row, Answer>,
    ) {
        let mut memory = memory_with(&[]);
        assert!(rt; length <= ROOM, "{case}");
        let out = &mut memory[..length];
        let found = judge(&self.register, self.coordinator, self.record, out);
        assert_eq!(rt; found, as_numbers(expected), "{case}");
        let front = expected.map_or(&[][..], |row| row.bytes);
        assert!(rt;
            memory == memory_with(front),
            "{case}, what stands in memory"
        );
    }

    // The record read, and the bid judged.
    fn read_and_judge(&self) -> Result<Judged, Fault> {
        let bid = Bid::read(self.record)?;
        judge_bid(&self.register, self.coordinator, &bid)
    }

    // A refusal, with memory and without; coordinator 0 is not for judging a bid to check.
    fn refuses(&self, rt: &impl Abort, case: &impl Display, expected: Answer) {
        self.judges(rt, case, ROOM, Err(expected));
        let no_memory = format_args!("{case}, no memory");
        self.judges(rt, &no_memory, 0, Err(expected));
        if self.coordinator != 0 {
            let found = self.read_and_judge().err().map(Fault::answer);
            assert_eq!(rt; found, Some(expected), "{case}, as a bid");
        }
    }

    // A row is written where it fits, and nothing where it does not.
    fn writes(&self, rt: &impl Abort, case: &impl Display, row: Row) {
        self.judges(rt, case, ROOM, Ok(row));
        let it_just_fits = format_args!("{case}, it just fits");
        self.judges(rt, &it_just_fits, row.bytes.len(), Ok(row));
        for length in 0..row.bytes.len() {
            self.judges(
                rt,
                &format_args!("{case}, {length}"),
                length,
                Err(TOO_SHORT),
            );
        }
    }

    // The bid of the record comes out with these marks, and its row writes these bytes.
    fn comes_out(&self, rt: &impl Abort, case: &impl Display, row: Row) -> Result<(), Fail> {
        let judged = self.read_and_judge()?;
        assert_eq!(rt; judged.marks, row.marks, "{case}");
        let mut memory = memory_with(&[]);
        assert_eq!(rt; judged.row.write(&mut memory)?, row.bytes.len(), "{case}");
        assert!(rt;
            memory == memory_with(row.bytes),
            "{case}, the row of a bid"
        );
        Ok(())
    }

    // Refused if the record is cut at any length, or followed by a byte.
    fn needs_every_byte(&self, rt: &impl Abort, case: &impl Display) {
        let bytes = memory_with(self.record);
        let length = self.record.len();
        assert!(rt; length < ROOM, "{case}");
        let of_record = |number, place: usize| Answer {
            number,
            layer: 1,
            place: place as u32,
        };
        for n in 0..length {
            let cut = Filing {
                record: &bytes[..n],
                ..*self
            };
            cut.refuses(rt, &format_args!("{case}, {n}"), of_record(1, n));
        }
        let followed = Filing {
            record: &bytes[..length + 1],
            ..*self
        };
        followed.refuses(rt, case, of_record(5, length));
    }

    fn grants(&self, rt: &impl Abort, case: &impl Display, row: Row) -> Result<(), Fail> {
        self.writes(rt, case, row);
        self.comes_out(rt, case, row)?;
        self.needs_every_byte(rt, case);
        Ok(())
    }
}

// A filing with two flaws is refused for the first.
fn tells_the_first(rt: &impl Abort, register: &CardRow, first: &Flaw, second: &Flaw) {
    let Flaw(label, at, bytes, number, layer, place) = *first;
    let mut filed = memory_with(&[OWNER]);
    lay(FULL, &mut filed, 1);
    lay(second.2, &mut filed, second.1);
    lay(bytes, &mut filed, at);
    let case = format_args!("{label}, {}", second.0);
    assert!(rt; FULL.len() < ROOM, "{case}");
    let filing = Filing {
        register: *register,
        coordinator: filed[0],
        record: &filed[1..FULL.len() + 1],
    };
    let expected = Answer {
        number,
        layer,
        place,
    };
    filing.refuses(rt, &case, expected);
}

fn refused_as_told(rt: &impl Abort, case: &Refused) -> Result<(), Fail> {
    let Refused(label, length, coordinator, record, number, layer, place) = *case;
    let cards = CARDS;
    let filing = Filing::new(length, &cards, coordinator, record)?;
    let expected = Answer {
        number,
        layer,
        place,
    };
    filing.refuses(rt, &label, expected);
    Ok(())
}

fn kept_as_filed(rt: &impl Abort, case: &Kept) -> Result<(), Fail> {
    let Kept(label, length, coordinator, record) = *case;
    let cards = CARDS;
    let filing = Filing::new(length, &cards, coordinator, record)?;
    let row = Row {
        bytes: record,
        marks: 0,
    };
    filing.grants(rt, &label, row)
}

// A row judged again is kept.
fn mended_once(rt: &impl Abort, case: &Mended) -> Result<(), Fail> {
    let Mended(label, length, coordinator, record, marks, row) = *case;
    let cards = CARDS;
    let filing = Filing::new(length, &cards, coordinator, record)?;
    filing.grants(rt, &label, Row { bytes: row, marks })?;
    let again = Filing::new(length, &cards, coordinator, row)?;
    let kept = Row {
        bytes: row,
        marks: 0,
    };
    again.grants(rt, &format_args!("{label}, judged again"), kept)
}

// A flaw is told before each of some others.
fn told_before(rt: &impl Abort, register: &CardRow, flaw: &Flaw, others: &[Flaw]) {
    for other in others {
        if flaw.is_apart(other) {
            tells_the_first(rt, register, flaw, other);
        }
    }
}

// Each flaw of a table is told alone, and before those behind it and those of later tables.
fn told_in_order(rt: &impl Abort, register: &CardRow, table: &[Flaw], later: &[&[Flaw]]) {
    for (i, flaw) in table.iter().enumerate() {
        tells_the_first(rt, register, flaw, flaw);
        told_before(rt, register, flaw, &table[i + 1..]);
        for others in later {
            told_before(rt, register, flaw, *others);
        }
    }
}

#[test]
fn bids_refused(rt: HostRuntime) -> Result<(), Fail> {
    for table in &refused_bids() {
        for case in *table {
            refused_as_told(&rt, case)?;
        }
    }
    Ok(())
}

#[test]
fn bids_kept(rt: HostRuntime) -> Result<(), Fail> {
    for table in &kept_bids() {
        for case in *table {
            kept_as_filed(&rt, case)?;
        }
    }
    Ok(())
}

#[test]
fn bids_mended(rt: HostRuntime) -> Result<(), Fail> {
    for table in &mended_bids() {
        for case in *table {
            mended_once(&rt, case)?;
        }
    }
    Ok(())
}

#[test]
fn flaws_alone_and_in_pairs(rt: HostRuntime) -> Result<(), Fail> {
    let cards = CARDS;
    let mut register = CardRow::closed();
    register.open(Length::Usual.day(), &cards)?;
    let tables = flaws();
    for (t, table) in tables.iter().enumerate() {
        told_in_order(&rt, &register, *table, &tables[t + 1..]);
    }
    Ok(())
}
