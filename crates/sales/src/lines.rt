// What is sold on a leg, as a line: `0: 1 to 2, 100 to 200, sold 2 2 0 of 5 3 2`.
ghost use Rattle.std.specs.Prelude.{◌≡◌, ◌<◌, length, Some};
ghost use Rattle.store.specs.Whole.{Sound, house};
ghost use Rattle.sales.specs.Lines.{LineTold, sold_line};

use questions::ask_leg;
use std::alloc::{AllocError, Global};
use std::fmt;
use store::Memory;
use text::answers::write_spaced;

// A leg by its number: from where to where, when it leaves and arrives, for each class what is taken
// in it and the cheaper ones, and the limits.
#[derive(Clone, Copy)]
pub struct SoldLine<'a> {
    pub number: usize,
    pub from: u32,
    pub to: u32,
    pub leaves: u32,
    pub arrives: u32,
    pub sold: &'a [u64],
    pub limits: &'a [u32],
}

impl fmt::Display for SoldLine<'_> {
    ghost output = { λ x. Some (sold_line x.number x.from x.to x.leaves x.arrives x.sold.now x.limits.now) };

    fn fmt<W: fmt::Write>(&self, f: &mut fmt::Formatter<W>) -> fmt::Result {
        let SoldLine {
            number,
            from,
            to,
            leaves,
            arrives,
            sold,
            limits,
        } = *self;
        write!(f, "{number}: {from} to {to}, {leaves} to {arrives}, sold")?;
        write_spaced(f, sold)?;
        write!(f, " of")?;
        write_spaced(f, limits)
    }
}

// The line of leg i of a house in memory.
pub fn leg_line(heap: Global, m: &Memory, i: usize) -> Result<String, AllocError>
    requires sound { Sound m.now }
    requires there { i < length (house m.now).legs }
    ensures { LineTold result (house m.now) i }
{
    let leg = m.leg(i);
    let mut sold = [0; 26];
    let listed = ask_leg(m, i as u32, &mut sold).listed;
    let classes = leg.classes as usize;
    let line = SoldLine {
        number: i,
        from: leg.from,
        to: leg.to,
        leaves: leg.leaves,
        arrives: leg.arrives,
        sold: &sold[..listed],
        limits: &leg.limits[..classes],
    };
    format!(in heap; "{line}")
}
