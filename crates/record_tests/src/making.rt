// Bids made from components.
use crate::hexadecimal::bytes_of;
use crate::longest::LONGEST;
use crate::made::*;
use crate::reading::{of_record, refusal};
use crate::writing::written_as;
use bid::{Bid, Components, Services};
use std::process::Abort;
use std::test::Fail;

fn refused(rt: &impl Abort, components: &Components, number: u8, place: u32) {
    assert_eq!(rt; refusal(Bid::make(components)), of_record(number, place));
}

// The bid has this record, and is the bid that reading it gives.
fn granted(
    rt: &(impl Abort + AllocGlobal),
    components: &Components,
    record: &str,
) -> Result<(), Fail> {
    let heap = rt.alloc();
    let bytes = bytes_of(record, heap)?;
    let bid = Bid::make(components)?;
    written_as(rt, record, &bid, &bytes)?;
    let read = Bid::read(&bytes)?;
    assert_eq!(rt; bid.components, read.components);
    Ok(())
}

#[test]
fn of_nothing_or_a_schedule(rt: HostRuntime) -> Result<(), Fail> {
    granted(&rt, &NOTHING, "0007 01 0000")?;
    granted(&rt, &of_schedule(0), "0007 01 0001 00000000")?;
    granted(&rt, &of_schedule(10_000_000), "0007 01 0001 00989680")?;
    refused(&rt, &of_schedule(10_000_001), 4, 5);
    refused(&rt, &of_schedule(4_294_967_295), 4, 5);
    Ok(())
}

#[test]
fn of_counted_steps(rt: HostRuntime) -> Result<(), Fail> {
    let rows = steps(1, step(10_000, 120_000), JUNK_STEP);
    granted(
        &rt,
        &of_curve(2000, 1, rows),
        "0007 01 0002 000007D0 01 00002710 0001D4C0",
    )?;
    refused(&rt, &of_curve(2000, 0, rows), 3, 9);
    refused(&rt, &of_curve(2000, 2, rows), 4, 18);
    refused(&rt, &of_curve(2000, 11, rows), 3, 9);
    refused(&rt, &of_curve(2000, 255, rows), 3, 9);
    refused(&rt, &of_curve(10_000_001, 0, rows), 4, 5);
    Ok(())
}

#[test]
fn of_steps_out_of_range(rt: HostRuntime) {
    let sound = step(1, -1);
    refused(
        &rt,
        &of_curve(0, 1, steps(1, step(10_000_001, 10_000_001), sound)),
        4,
        10,
    );
    refused(
        &rt,
        &of_curve(0, 1, steps(1, step(10_000_000, 10_000_001), sound)),
        4,
        14,
    );
    refused(
        &rt,
        &of_curve(0, 1, steps(1, step(10_000_000, -10_000_001), sound)),
        4,
        14,
    );
    refused(
        &rt,
        &of_curve(0, 10, steps(9, sound, step(10_000_001, 0))),
        4,
        82,
    );
    refused(
        &rt,
        &of_curve(0, 10, steps(9, sound, step(0, -10_000_001))),
        4,
        86,
    );
    assert!(rt; Bid::make(&of_curve(0, 9, steps(9, sound, JUNK_STEP))).is_ok());
}

// Each service stands under its own bit.
#[test]
fn of_one_service(rt: HostRuntime) -> Result<(), Fail> {
    let one = service(1, -2);
    let up = Services {
        regulation_up: one,
        ..NO_SERVICES
    };
    let down = Services {
        regulation_down: one,
        ..NO_SERVICES
    };
    let spinning = Services {
        spinning: one,
        ..NO_SERVICES
    };
    let non_spinning = Services {
        non_spinning: one,
        ..NO_SERVICES
    };
    granted(&rt, &of_services(up), "0007 01 0004 00000001 FFFFFFFE")?;
    granted(&rt, &of_services(down), "0007 01 0008 00000001 FFFFFFFE")?;
    granted(
        &rt,
        &of_services(spinning),
        "0007 01 0010 00000001 FFFFFFFE",
    )?;
    granted(
        &rt,
        &of_services(non_spinning),
        "0007 01 0020 00000001 FFFFFFFE",
    )
}

#[test]
fn of_services_out_of_range(rt: HostRuntime) {
    let up = Services {
        regulation_up: service(0, 10_000_001),
        ..NO_SERVICES
    };
    let down = Services {
        regulation_down: service(10_000_001, 0),
        ..NO_SERVICES
    };
    let spinning = Services {
        spinning: service(1, 10_000_001),
        ..NO_SERVICES
    };
    let non_spinning = Services {
        non_spinning: service(1, -10_000_001),
        ..NO_SERVICES
    };
    let behind = Services {
        regulation_up: service(1, 0),
        ..down
    };
    refused(&rt, &of_services(up), 4, 5);
    refused(&rt, &of_services(down), 4, 5);
    refused(&rt, &of_services(spinning), 4, 9);
    refused(&rt, &of_services(non_spinning), 4, 9);
    refused(&rt, &of_services(behind), 4, 13);
}

#[test]
fn of_counted_starts(rt: HostRuntime) -> Result<(), Fail> {
    let rows = [start(0, 1), JUNK_START, JUNK_START];
    granted(&rt, &of_start_up(1, rows), "0007 01 0040 01 0000 00000001")?;
    granted(
        &rt,
        &of_start_up(3, rows),
        "0007 01 0040 03 0000 00000001 FFFF FFFFFFFF FFFF FFFFFFFF",
    )?;
    refused(&rt, &of_start_up(0, rows), 3, 5);
    refused(&rt, &of_start_up(4, rows), 3, 5);
    refused(&rt, &of_start_up(255, rows), 3, 5);
    Ok(())
}

#[test]
fn of_counted_ramps(rt: HostRuntime) -> Result<(), Fail> {
    let rows = [
        ramp(2000, 10_000_000),
        ramp(10_000_000, 0),
        JUNK_RAMP,
        JUNK_RAMP,
    ];
    granted(
        &rt,
        &of_ramp(2, rows),
        "0007 01 0080 02 000007D0 00989680 00989680 00000000",
    )?;
    refused(&rt, &of_ramp(0, rows), 3, 5);
    refused(&rt, &of_ramp(5, rows), 3, 5);
    refused(&rt, &of_ramp(255, rows), 3, 5);
    refused(&rt, &of_ramp(3, rows), 4, 22);
    refused(&rt, &of_ramp(1, [ramp(10_000_001, 10_000_001); 4]), 4, 6);
    refused(&rt, &of_ramp(1, [ramp(0, 10_000_001); 4]), 4, 10);
    Ok(())
}

#[test]
fn of_every_component(rt: HostRuntime) -> Result<(), Fail> {
    let most = 10_000_000;
    granted(&rt, &longest(ramp(most, most)), LONGEST)?;
    refused(&rt, &longest(ramp(most + 1, most)), 4, 170);
    refused(&rt, &longest(ramp(most, most + 1)), 4, 174);
    let hidden = Components {
        self_schedule: Some(10_000_001),
        ..longest(JUNK_RAMP)
    };
    refused(&rt, &hidden, 4, 5);
    Ok(())
}
