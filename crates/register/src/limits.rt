// Start-up pairs and ramp rows as fields.
ghost use Rattle.std.specs.Prelude.{refl};
ghost use Rattle.std.proofs.Common.{lit≤};
ghost use Rattle.register.specs.Cards.{blank_limit, blank_limits};
ghost use Rattle.register.specs.Kept.{is_limit};
ghost use Rattle.register.specs.Limits.{limit_at, limit_bytes, limit_put, is_blank_limit, limits_at, limits_bytes, limits_put, limits_held, is_blank_limits};
ghost use Rattle.register.specs.LimitFields.{limit_lawful, limit_puts, limit_blank, limits_lawful, limits_puts, limits_blank};

use crate::data::{RampLimits, StartUpLimit};
use faults::Fault;
use wire::{Field, Measured, OfWidth, Reader, Row, Writer};

impl Field for StartUpLimit {
    ghost parsed = { limit_at };

    ghost encoded = { limit_bytes };

    ghost put = { limit_put };

    ghost held = { is_limit };

    ghost longest = { 6 };

    ghost lawful = { limit_lawful };

    ghost puts = { λ v. limit_puts v };

    fn read(reader: &mut Reader) -> Result<StartUpLimit, Fault> {
        let mut ahead = *reader;
        let pair = StartUpLimit {
            down_time: ahead.down_time()?,
            highest: ahead.cost()?,
        };
        *reader = ahead;
        Ok(pair)
    }

    fn write(&self, writer: &mut Writer) -> Result<(), Fault> {
        let mut ahead = Writer {
            out: &mut *writer.out,
            at: writer.at,
        };
        ahead.word(self.down_time)?;
        ahead.long(self.highest)?;
        writer.at = ahead.at;
        Ok(())
    }
}

impl Measured for StartUpLimit {
    fn length(&self) -> usize {
        StartUpLimit::WIDTH as usize
    }
}

impl Row for StartUpLimit {
    ghost blank = { blank_limit };

    ghost is_blank = { is_blank_limit };

    ghost blanks = { limit_blank };

    ghost blanked = { refl };

    fn blank() -> StartUpLimit {
        StartUpLimit::default()
    }
}

impl OfWidth for StartUpLimit {
    ghost WIDTH = { 6 };

    const WIDTH: u8 = 6;

    ghost wide = { λ v. refl };

    ghost narrow = { lit≤ tt };
}

impl Field for RampLimits {
    ghost parsed = { limits_at };

    ghost encoded = { limits_bytes };

    ghost put = { limits_put };

    ghost held = { limits_held };

    ghost longest = { 12 };

    ghost lawful = { limits_lawful };

    ghost puts = { λ v. limits_puts v };

    fn read(reader: &mut Reader) -> Result<RampLimits, Fault> {
        let mut ahead = *reader;
        let row = RampLimits {
            level: ahead.quantity()?,
            lowest: ahead.rate()?,
            highest: ahead.rate()?,
        };
        *reader = ahead;
        Ok(row)
    }

    fn write(&self, writer: &mut Writer) -> Result<(), Fault> {
        let mut ahead = Writer {
            out: &mut *writer.out,
            at: writer.at,
        };
        ahead.long(self.level)?;
        ahead.long(self.lowest)?;
        ahead.long(self.highest)?;
        writer.at = ahead.at;
        Ok(())
    }
}

impl Measured for RampLimits {
    fn length(&self) -> usize {
        RampLimits::WIDTH as usize
    }
}

impl Row for RampLimits {
    ghost blank = { blank_limits };

    ghost is_blank = { is_blank_limits };

    ghost blanks = { limits_blank };

    ghost blanked = { refl };

    fn blank() -> RampLimits {
        RampLimits::default()
    }
}

impl OfWidth for RampLimits {
    ghost WIDTH = { 12 };

    const WIDTH: u8 = 12;

    ghost wide = { λ v. refl };

    ghost narrow = { lit≤ tt };
}
