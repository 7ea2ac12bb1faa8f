// Quantities and prices with two decimals, and bytes in hexadecimal.
ghost use Rattle.std.specs.Prelude.{Some};
ghost use Rattle.words.specs.Text.{with_point, dollars, hex_digits, hex_text};

use std::fmt;

// Hundredths, shown as a number with two decimals.
#[derive(Clone, Copy)]
struct Hundredths(u64);

impl fmt::Display for Hundredths {
    ghost output = { λ h. Some (with_point h.0) };

    fn fmt<W: fmt::Write>(&self, f: &mut fmt::Formatter<W>) -> fmt::Result {
        let whole = self.0 / 100;
        let rest = self.0 % 100;
        write!(f, "{whole}.{rest:02}")
    }
}

// Hundredths of a MW, shown in MW.
#[derive(Clone, Copy)]
pub struct Mw(pub u32);

impl fmt::Display for Mw {
    ghost output = { λ q. Some (with_point q.0) };

    fn fmt<W: fmt::Write>(&self, f: &mut fmt::Formatter<W>) -> fmt::Result {
        let quantity = Hundredths(self.0.into());
        write!(f, "{quantity}")
    }
}

// Cents, shown in dollars.
#[derive(Clone, Copy)]
pub struct Cents(pub i64);

impl fmt::Display for Cents {
    ghost output = { λ c. Some (dollars c.0) };

    fn fmt<W: fmt::Write>(&self, f: &mut fmt::Formatter<W>) -> fmt::Result {
        let sign = if self.0 < 0 { "-" } else { "" };
        let dollars = Hundredths(self.0.unsigned_abs());
        write!(f, "{sign}${dollars}")
    }
}

// A byte in hexadecimal.
#[derive(Clone, Copy)]
struct HexByte(u8);

impl fmt::Display for HexByte {
    ghost output = { λ b. Some (hex_digits b.0) };

    fn fmt<W: fmt::Write>(&self, f: &mut fmt::Formatter<W>) -> fmt::Result {
        let byte = self.0;
        write!(f, "{byte:02X}")
    }
}

// Bytes in hexadecimal, a space between them.
#[derive(Clone, Copy)]
pub struct Hex<'a>(pub &'a [u8]);

impl fmt::Display for Hex<'_> {
    ghost output = { λ h. Some (hex_text h.0.now) };

    fn fmt<W: fmt::Write>(&self, f: &mut fmt::Formatter<W>) -> fmt::Result {
        for (i, byte) in self.0.iter().enumerate() {
            if i > 0 {
                f.write_str(" ")?;
            }
            HexByte(*byte).fmt(f)?;
        }
        Ok(())
    }
}
