// A fault in plain words.
ghost use Rattle.std.specs.Prelude.{◌≡◌, Some};
ghost use Rattle.faults.specs.Words.{record_words, register_words, rule_words, window_words, words_of, fault_text};

use crate::{Fault, RecordFault, RegisterFault, RuleFault, WindowFault};
use std::fmt;

impl RecordFault {
    fn words(self) -> &'static str
        ensures { result.now ≡ record_words self }
    {
        match self {
            RecordFault::CutShort => "the bytes end before a field that is due",
            RecordFault::UnknownBit => "a bit stands in the map that no field has",
            RecordFault::BadCount => "a count is 0 or too large",
            RecordFault::OutOfRange => "a number is out of its range",
            RecordFault::BytesLeftOver => "bytes are left over at the end",
        }
    }
}

impl RegisterFault {
    fn words(self) -> &'static str
        ensures { result.now ≡ register_words self }
    {
        match self {
            RegisterFault::ResourceNotHeld => "the register does not hold the resource",
            RegisterFault::NotTheOwner => "the coordinator is not the resource's owner",
            RegisterFault::NoSuchHour => "the day has no such hour",
            RegisterFault::RaiseNotAllowed =>
                "the raised level is below the registered level or above its threshold",
            RegisterFault::Breach => "the day or a card breaks what it has to keep",
        }
    }
}

impl RuleFault {
    fn words(self) -> &'static str
        ensures { result.now ≡ rule_words self }
    {
        match self {
            RuleFault::SelfSchedule => "the self-schedule is below PMin or above the top",
            RuleFault::CurveStart => "the energy curve does not start at the base",
            RuleFault::StepEnd => "a step does not end above the one before, or ends above the top",
            RuleFault::StepPrice =>
                "a step's price is below the one before, below the floor or above the hard cap",
            RuleFault::Service =>
                "a service asks for more than is certified, or its price is below 0 or above the service cap",
            RuleFault::StartUp => "the start-up pairs do not agree with the card",
            RuleFault::Ramp => "the ramp pairs do not agree with the card",
            RuleFault::ReserveAboveTop => "the base and the reserves together are above the top",
            RuleFault::EleventhStep => "the curve would need an eleventh step",
        }
    }
}

impl WindowFault {
    fn words(self) -> &'static str
        ensures { result.now ≡ window_words self }
    {
        match self {
            WindowFault::Full => "every place is taken",
            WindowFault::BookLength => "the book has over 4,096 places or fewer than its rows",
            WindowFault::NoSuchRow => "there is no such row to pull",
            WindowFault::MemoryTooShort => "the memory is too short",
            WindowFault::NoCoordinator => "the coordinator is 0",
        }
    }
}

impl Fault {
    // What is wrong, in words.
    pub fn words(self) -> &'static str
        ensures { result.now ≡ words_of self }
    {
        match self {
            Fault::Record(fault, _) => fault.words(),
            Fault::Register(fault, _) => fault.words(),
            Fault::Rule(fault, _) => fault.words(),
            Fault::Window(fault, _) => fault.words(),
        }
    }
}

impl fmt::Display for Fault {
    ghost output = { λ f. Some (fault_text f) };

    fn fmt<W: fmt::Write>(&self, f: &mut fmt::Formatter<W>) -> fmt::Result {
        let answer = self.answer();
        let number = answer.number;
        let layer = answer.layer;
        let place = answer.place;
        let words = self.words();
        write!(f, "fault {number}, layer {layer}, place {place}: {words}")
    }
}
