// The fields that a bid's components are made of.
ghost use Rattle.bid.specs.Fields.{blank_step, is_blank_step, step_at, step_bytes, step_put, step_held};
ghost use Rattle.bid.specs.Fields.{service_quantity_at, service_at, service_bytes, service_put, service_held};
ghost use Rattle.bid.specs.Fields.{blank_start_up_pair, is_blank_start_up_pair, start_up_pair_at, start_up_pair_bytes, start_up_pair_put, start_up_pair_held};
ghost use Rattle.bid.specs.Fields.{blank_ramp_pair, is_blank_ramp_pair, ramp_pair_at, ramp_pair_bytes, ramp_pair_put, ramp_pair_held};
ghost use Rattle.bid.specs.Fields.{curve_at, curve_bytes, curve_put, curve_held};
ghost use Rattle.bid.specs.Fields.{start_up_at, start_up_bytes, start_up_put, start_up_held};
ghost use Rattle.bid.specs.Fields.{ramp_at, ramp_bytes, ramp_put, ramp_held};
ghost use Rattle.std.specs.Prelude.{◌≡◌, refl};
ghost use Rattle.std.proofs.Common.{lit≤};
ghost use Rattle.wire.specs.Reads.{Reads};
ghost use Rattle.bid.specs.FieldLaws.{step_lawful, step_puts, step_blanks, service_lawful, service_puts, start_up_pair_lawful, start_up_pair_puts, start_up_pair_blanks, ramp_pair_lawful, ramp_pair_puts, ramp_pair_blanks, curve_lawful, curve_puts, start_up_lawful, start_up_puts, ramp_lawful, ramp_puts};

use crate::components::{Curve, Ramp, RampPair, Service, StartUp, StartUpPair, Step};
use faults::{Fault, RecordFault};
use wire::reader::fault_at;
use wire::{Counted, Field, Measured, OfWidth, Reader, Row, Writer};

// A quantity of at least 1.
fn service_quantity(reader: &mut Reader) -> Result<u32, Fault>
    ensures { Reads service_quantity_at reader.old result reader.new }
{
    let at = reader.at;
    match reader.quantity()? {
        0 => Err(fault_at(RecordFault::OutOfRange, at)),
        quantity => Ok(quantity),
    }
}

impl Field for Step {
    ghost parsed = { step_at };

    ghost encoded = { step_bytes };

    ghost put = { step_put };

    ghost held = { step_held };

    ghost longest = { 8 };

    ghost lawful = { step_lawful };

    ghost puts = { step_puts };

    fn read(reader: &mut Reader) -> Result<Step, Fault> {
        let mut ahead = *reader;
        let step = Step {
            end: ahead.quantity()?,
            price: ahead.price()?,
        };
        *reader = ahead;
        Ok(step)
    }

    fn write(&self, writer: &mut Writer) -> Result<(), Fault> {
        let mut ahead = Writer {
            out: &mut *writer.out,
            at: writer.at,
        };
        ahead.long(self.end)?;
        ahead.signed(self.price)?;
        writer.at = ahead.at;
        Ok(())
    }
}

impl Measured for Step {
    fn length(&self) -> usize {
        Step::WIDTH as usize
    }
}

impl Row for Step {
    ghost blank = { blank_step };

    ghost is_blank = { is_blank_step };

    ghost blanks = { step_blanks };

    ghost blanked = { refl };

    fn blank() -> Step {
        Step::default()
    }
}

impl OfWidth for Step {
    ghost WIDTH = { 8 };

    const WIDTH: u8 = 8;

    ghost wide = { λ v. refl };

    ghost narrow = { lit≤ tt };
}

impl Field for Service {
    ghost parsed = { service_at };

    ghost encoded = { service_bytes };

    ghost put = { service_put };

    ghost held = { service_held };

    ghost longest = { 8 };

    ghost lawful = { service_lawful };

    ghost puts = { service_puts };

    fn read(reader: &mut Reader) -> Result<Service, Fault> {
        let mut ahead = *reader;
        let service = Service {
            quantity: service_quantity(&mut ahead)?,
            price: ahead.price()?,
        };
        *reader = ahead;
        Ok(service)
    }

    fn write(&self, writer: &mut Writer) -> Result<(), Fault> {
        let mut ahead = Writer {
            out: &mut *writer.out,
            at: writer.at,
        };
        ahead.long(self.quantity)?;
        ahead.signed(self.price)?;
        writer.at = ahead.at;
        Ok(())
    }
}

impl Measured for Service {
    fn length(&self) -> usize {
        8
    }
}

impl Field for StartUpPair {
    ghost parsed = { start_up_pair_at };

    ghost encoded = { start_up_pair_bytes };

    ghost put = { start_up_pair_put };

    ghost held = { start_up_pair_held };

    ghost longest = { 6 };

    ghost lawful = { start_up_pair_lawful };

    ghost puts = { start_up_pair_puts };

    fn read(reader: &mut Reader) -> Result<StartUpPair, Fault> {
        let mut ahead = *reader;
        let pair = StartUpPair {
            down_time: ahead.down_time()?,
            cost: ahead.cost()?,
        };
        *reader = ahead;
        Ok(pair)
    }

    fn write(&self, writer: &mut Writer) -> Result<(), Fault> {
        let mut ahead = Writer {
            out: &mut *writer.out,
            at: writer.at,
        };
        ahead.word(self.down_time)?;
        ahead.long(self.cost)?;
        writer.at = ahead.at;
        Ok(())
    }
}

impl Measured for StartUpPair {
    fn length(&self) -> usize {
        StartUpPair::WIDTH as usize
    }
}

impl Row for StartUpPair {
    ghost blank = { blank_start_up_pair };

    ghost is_blank = { is_blank_start_up_pair };

    ghost blanks = { start_up_pair_blanks };

    ghost blanked = { refl };

    fn blank() -> StartUpPair {
        StartUpPair::default()
    }
}

impl OfWidth for StartUpPair {
    ghost WIDTH = { 6 };

    const WIDTH: u8 = 6;

    ghost wide = { λ v. refl };

    ghost narrow = { lit≤ tt };
}

impl Field for RampPair {
    ghost parsed = { ramp_pair_at };

    ghost encoded = { ramp_pair_bytes };

    ghost put = { ramp_pair_put };

    ghost held = { ramp_pair_held };

    ghost longest = { 8 };

    ghost lawful = { ramp_pair_lawful };

    ghost puts = { ramp_pair_puts };

    fn read(reader: &mut Reader) -> Result<RampPair, Fault> {
        let mut ahead = *reader;
        let pair = RampPair {
            level: ahead.quantity()?,
            rate: ahead.rate()?,
        };
        *reader = ahead;
        Ok(pair)
    }

    fn write(&self, writer: &mut Writer) -> Result<(), Fault> {
        let mut ahead = Writer {
            out: &mut *writer.out,
            at: writer.at,
        };
        ahead.long(self.level)?;
        ahead.long(self.rate)?;
        writer.at = ahead.at;
        Ok(())
    }
}

impl Measured for RampPair {
    fn length(&self) -> usize {
        RampPair::WIDTH as usize
    }
}

impl Row for RampPair {
    ghost blank = { blank_ramp_pair };

    ghost is_blank = { is_blank_ramp_pair };

    ghost blanks = { ramp_pair_blanks };

    ghost blanked = { refl };

    fn blank() -> RampPair {
        RampPair::default()
    }
}

impl OfWidth for RampPair {
    ghost WIDTH = { 8 };

    const WIDTH: u8 = 8;

    ghost wide = { λ v. refl };

    ghost narrow = { lit≤ tt };
}

impl Field for Curve {
    ghost parsed = { curve_at };

    ghost encoded = { curve_bytes };

    ghost put = { curve_put };

    ghost held = { curve_held };

    ghost longest = { 85 };

    ghost lawful = { curve_lawful };

    ghost puts = { curve_puts };

    fn read(reader: &mut Reader) -> Result<Curve, Fault> {
        let mut ahead = *reader;
        let curve = Curve {
            start: ahead.quantity()?,
            steps: Counted::read(&mut ahead)?,
        };
        *reader = ahead;
        Ok(curve)
    }

    fn write(&self, writer: &mut Writer) -> Result<(), Fault> {
        let mut ahead = Writer {
            out: &mut *writer.out,
            at: writer.at,
        };
        ahead.long(self.start)?;
        self.steps.write(&mut ahead)?;
        writer.at = ahead.at;
        Ok(())
    }
}

impl Measured for Curve {
    fn length(&self) -> usize {
        4 + self.steps.length()
    }
}

impl Field for StartUp {
    ghost parsed = { start_up_at };

    ghost encoded = { start_up_bytes };

    ghost put = { start_up_put };

    ghost held = { start_up_held };

    ghost longest = { 19 };

    ghost lawful = { start_up_lawful };

    ghost puts = { start_up_puts };

    fn read(reader: &mut Reader) -> Result<StartUp, Fault> {
        Ok(StartUp {
            pairs: Counted::read(reader)?,
        })
    }

    fn write(&self, writer: &mut Writer) -> Result<(), Fault> {
        self.pairs.write(writer)
    }
}

impl Measured for StartUp {
    fn length(&self) -> usize {
        self.pairs.length()
    }
}

impl Field for Ramp {
    ghost parsed = { ramp_at };

    ghost encoded = { ramp_bytes };

    ghost put = { ramp_put };

    ghost held = { ramp_held };

    ghost longest = { 33 };

    ghost lawful = { ramp_lawful };

    ghost puts = { ramp_puts };

    fn read(reader: &mut Reader) -> Result<Ramp, Fault> {
        Ok(Ramp {
            pairs: Counted::read(reader)?,
        })
    }

    fn write(&self, writer: &mut Writer) -> Result<(), Fault> {
        self.pairs.write(writer)
    }
}

impl Measured for Ramp {
    fn length(&self) -> usize {
        self.pairs.length()
    }
}
