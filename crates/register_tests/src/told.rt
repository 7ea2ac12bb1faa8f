// What a call answers, as numbers.
use faults::Fault;

// Number, layer and place of a fault.
#[derive(Clone, Copy, PartialEq, Eq, Debug)]
pub struct Told(pub u8, pub u8, pub u32);

impl From<Fault> for Told {
    fn from(fault: Fault) -> Told {
        let answer = fault.answer();
        Told(answer.number, answer.layer, answer.place)
    }
}

// What a call answers: nothing more where it is granted.
pub type Outcome = Result<(), Told>;

pub const GRANTED: Outcome = Ok(());

pub fn answered(res: Result<(), Fault>) -> Outcome {
    res.map_err(Told::from)
}
