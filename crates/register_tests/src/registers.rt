// Each kind of register is opened, looked at and layered.
use crate::sound::DAY;
use raised::Raised;
use register::{Card, CardRow, NumberedCard, Register};
use register_file::RegisterFile;
use std::test::Fail;

fn numbered() -> NumberedCard {
    let card = Card {
        owner: 3,
        pmin: 2000,
        pmax: 10000,
        regulation_limit: 9000,
        level: 120000,
        ..Card::blank()
    };
    NumberedCard { resource: 7, card }
}

#[test]
fn levels_over_levels_over_cards(rt: HostRuntime) -> Result<(), Fail> {
    let cards = [numbered()];
    let mut row = CardRow::closed();
    row.open(DAY, &cards)?;
    let mut layer = Raised::new(row);
    assert!(rt; layer.raise(7, 132001).is_err());
    layer.raise(7, 132000)?;
    let mut upper = Raised::new(layer);
    upper.raise(7, 140000)?;
    let mut card = Card::blank();
    assert!(rt; upper.look(7, &mut card));
    assert_eq!(rt; card.level, 140000);
    assert!(rt; !upper.look(8, &mut card));
    Ok(())
}

#[test]
fn a_file_with_one_card(rt: HostRuntime) -> Result<(), Fail> {
    let bytes = [
        24, 0, 0, 0, 0, 0, 0, 0, 1, 0, 0, 0, 2, 0, 0, 0, 3, 0, 1, 0, 7, 3, 0, 4, 0, 0, 0, 5, 0, 0,
        0, 9, 0, 0, 0, 8,
    ];
    let mut file = RegisterFile::closed();
    file.open(&bytes)?;
    let mut card = Card::blank();
    assert!(rt; !file.look(6, &mut card));
    assert_eq!(rt; card.owner, 0);
    assert!(rt; file.look(7, &mut card));
    assert_eq!(rt; card.spinning, 8);
    assert_eq!(rt; card.regulation_limit, 9);
    assert_eq!(rt; file.day().service_cap, 3);
    assert!(rt; file.open(&bytes[0..35]).is_err());
    Ok(())
}
