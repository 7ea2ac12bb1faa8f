// What each fault answers, and some of them in words.
use faults::{Answer, Fault, RecordFault, RegisterFault, RuleFault, WindowFault};
use std::test::Fail;

// A fault; then its number, layer and place.
struct Told(Fault, u8, u8, u32);

static TOLD: [Told; 24] = [
    Told(Fault::Record(RecordFault::CutShort, 178), 1, 1, 178),
    Told(Fault::Record(RecordFault::UnknownBit, 3), 2, 1, 3),
    Told(Fault::Record(RecordFault::BadCount, 9), 3, 1, 9),
    Told(Fault::Record(RecordFault::OutOfRange, 5), 4, 1, 5),
    Told(
        Fault::Record(RecordFault::BytesLeftOver, 4294967295),
        5,
        1,
        4294967295,
    ),
    Told(Fault::Register(RegisterFault::ResourceNotHeld, 0), 6, 2, 0),
    Told(Fault::Register(RegisterFault::NotTheOwner, 0), 7, 2, 0),
    Told(Fault::Register(RegisterFault::NoSuchHour, 0), 8, 2, 0),
    Told(Fault::Rule(RuleFault::SelfSchedule, 0), 9, 3, 0),
    Told(Fault::Rule(RuleFault::CurveStart, 0), 10, 3, 0),
    Told(Fault::Rule(RuleFault::StepEnd, 1), 11, 3, 1),
    Told(Fault::Rule(RuleFault::StepPrice, 10), 12, 3, 10),
    Told(Fault::Rule(RuleFault::Service, 4), 13, 3, 4),
    Told(Fault::Rule(RuleFault::StartUp, 3), 14, 3, 3),
    Told(Fault::Rule(RuleFault::Ramp, 2), 15, 3, 2),
    Told(Fault::Rule(RuleFault::ReserveAboveTop, 0), 16, 3, 0),
    Told(Fault::Rule(RuleFault::EleventhStep, 0), 17, 3, 0),
    Told(Fault::Window(WindowFault::Full, 0), 18, 4, 0),
    Told(Fault::Window(WindowFault::BookLength, 0), 19, 4, 0),
    Told(Fault::Window(WindowFault::NoSuchRow, 0), 20, 4, 0),
    Told(Fault::Window(WindowFault::MemoryTooShort, 0), 21, 4, 0),
    Told(Fault::Window(WindowFault::NoCoordinator, 0), 22, 4, 0),
    Told(Fault::Register(RegisterFault::RaiseNotAllowed, 0), 23, 2, 0),
    Told(Fault::Register(RegisterFault::Breach, 65537), 24, 2, 65537),
];

// A fault and its text.
struct Shown(Fault, &'static str);

static SHOWN: [Shown; 6] = [
    Shown(
        Fault::Record(RecordFault::CutShort, 0),
        "fault 1, layer 1, place 0: the bytes end before a field that is due",
    ),
    Shown(
        Fault::Record(RecordFault::OutOfRange, 174),
        "fault 4, layer 1, place 174: a number is out of its range",
    ),
    Shown(
        Fault::Record(RecordFault::BytesLeftOver, 4294967295),
        "fault 5, layer 1, place 4294967295: bytes are left over at the end",
    ),
    Shown(
        Fault::Register(RegisterFault::NoSuchHour, 0),
        "fault 8, layer 2, place 0: the day has no such hour",
    ),
    Shown(
        Fault::Rule(RuleFault::EleventhStep, 0),
        "fault 17, layer 3, place 0: the curve would need an eleventh step",
    ),
    Shown(
        Fault::Window(WindowFault::MemoryTooShort, 0),
        "fault 21, layer 4, place 0: the memory is too short",
    ),
];

#[test]
fn answers_of_every_fault(rt: HostRuntime) {
    for told in &TOLD {
        let Told(fault, number, layer, place) = *told;
        let expected = Answer {
            number,
            layer,
            place,
        };
        assert_eq!(rt; fault.answer(), expected);
    }
}

#[test]
fn texts_of_faults(rt: HostRuntime) -> Result<(), Fail> {
    let heap = rt.alloc();
    for Shown(fault, text) in &SHOWN {
        let shown = format!(in heap; "{fault}")?;
        assert_eq!(rt; shown.as_str(), *text);
    }
    Ok(())
}
