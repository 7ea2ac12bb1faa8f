// Why something was refused: one fault type for every layer, and the numbers that it answers.
#![tactic(auto)]

ghost use Rattle.std.specs.Prelude.{◌≡◌};
ghost use Rattle.faults.specs.Answers.{record_number, register_number, rule_number, window_number, answer_of};

mod words;

// What can be wrong with the bytes of a record or of a register file.
#[derive(Clone, Copy, PartialEq, Eq, Debug)]
pub enum RecordFault {
    CutShort,
    UnknownBit,
    BadCount,
    OutOfRange,
    BytesLeftOver,
}

// What a register says against a bid, or what is wrong with a register or a raise of its levels.
#[derive(Clone, Copy, PartialEq, Eq, Debug)]
pub enum RegisterFault {
    ResourceNotHeld,
    NotTheOwner,
    NoSuchHour,
    RaiseNotAllowed,
    Breach,
}

// Which rule a bid breaks.
#[derive(Clone, Copy, PartialEq, Eq, Debug)]
pub enum RuleFault {
    SelfSchedule,
    CurveStart,
    StepEnd,
    StepPrice,
    Service,
    StartUp,
    Ramp,
    ReserveAboveTop,
    EleventhStep,
}

// What the window, its book or the memory lent to a call does not allow.
#[derive(Clone, Copy, PartialEq, Eq, Debug)]
pub enum WindowFault {
    Full,
    BookLength,
    NoSuchRow,
    MemoryTooShort,
    NoCoordinator,
}

// A fault of one of the four layers, with the place where it was found.
#[derive(Clone, Copy, PartialEq, Eq, Debug)]
pub enum Fault {
    Record(RecordFault, u32),
    Register(RegisterFault, u32),
    Rule(RuleFault, u32),
    Window(WindowFault, u32),
}

// A fault as numbers; all three are 0 where a call was granted.
#[derive(Clone, Copy, PartialEq, Eq, Debug)]
pub struct Answer {
    pub number: u8,
    pub layer: u8,
    pub place: u32,
}

impl RecordFault {
    fn number(self) -> u8
        ensures { result ≡ record_number self }
    {
        match self {
            RecordFault::CutShort => 1,
            RecordFault::UnknownBit => 2,
            RecordFault::BadCount => 3,
            RecordFault::OutOfRange => 4,
            RecordFault::BytesLeftOver => 5,
        }
    }
}

impl RegisterFault {
    fn number(self) -> u8
        ensures { result ≡ register_number self }
    {
        match self {
            RegisterFault::ResourceNotHeld => 6,
            RegisterFault::NotTheOwner => 7,
            RegisterFault::NoSuchHour => 8,
            RegisterFault::RaiseNotAllowed => 23,
            RegisterFault::Breach => 24,
        }
    }
}

impl RuleFault {
    fn number(self) -> u8
        ensures { result ≡ rule_number self }
    {
        match self {
            RuleFault::SelfSchedule => 9,
            RuleFault::CurveStart => 10,
            RuleFault::StepEnd => 11,
            RuleFault::StepPrice => 12,
            RuleFault::Service => 13,
            RuleFault::StartUp => 14,
            RuleFault::Ramp => 15,
            RuleFault::ReserveAboveTop => 16,
            RuleFault::EleventhStep => 17,
        }
    }
}

impl WindowFault {
    fn number(self) -> u8
        ensures { result ≡ window_number self }
    {
        match self {
            WindowFault::Full => 18,
            WindowFault::BookLength => 19,
            WindowFault::NoSuchRow => 20,
            WindowFault::MemoryTooShort => 21,
            WindowFault::NoCoordinator => 22,
        }
    }
}

impl Fault {
    // The fault's number, its layer (1 record, 2 register, 3 rule, 4 window) and its place.
    pub fn answer(self) -> Answer
        ensures { result ≡ answer_of self }
    {
        match self {
            Fault::Record(fault, place) => Answer {
                number: fault.number(),
                layer: 1,
                place,
            },
            Fault::Register(fault, place) => Answer {
                number: fault.number(),
                layer: 2,
                place,
            },
            Fault::Rule(fault, place) => Answer {
                number: fault.number(),
                layer: 3,
                place,
            },
            Fault::Window(fault, place) => Answer {
                number: fault.number(),
                layer: 4,
                place,
            },
        }
    }
}
