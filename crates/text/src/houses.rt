// The line that opens a house, `house GAP HOLD LEGS FARES BOOKINGS`: the least time between two
// legs, how long a hold lasts, and how many legs, fares and bookings there may be.
ghost use Rattle.std.specs.Prelude.{length, Some};
ghost use Rattle.text.specs.HouseLines.{HouseRead, HouseTold, OpensBack, house_in, house_line, numbers_of};

use crate::answers::write_spaced;
use limits::Limits;
use scan::{Unfit, read_numbers, read_word, skip_spaces};
use std::fmt;

// The line that opens a house with these limits.
#[derive(Clone, Copy)]
pub struct HouseLine(pub Limits);

// The limits of the house that a line opens; or how many bytes are left from the first that doesn't
// fit on.
fn find_house(line: &[u8]) -> Result<Limits, Unfit>
    ensures { HouseRead result (house_in line.now) }
{
    let first = read_word(line);
    if first.value != "house".as_bytes() {
        return Err(Unfit {
            left: skip_spaces(line).len(),
        });
    }
    let read = read_numbers(first.rest, 5)?;
    let over = skip_spaces(read.rest);
    if !over.is_empty() {
        return Err(Unfit { left: over.len() });
    }
    let [gap, hold, legs, fares, bookings] = read.value;
    Ok(Limits {
        gap,
        hold,
        legs,
        fares,
        bookings,
    })
}

// The limits of the house that a line opens; or the place of the first byte from which on it opens
// none.
pub fn read_house(line: &[u8]) -> Result<Limits, usize>
    ensures { HouseTold result (length line.now) (house_in line.now) }
{
    find_house(line).map_err(|unfit| unfit.place(line))
}

impl fmt::Display for HouseLine {
    ghost output = { λ h. Some (house_line (numbers_of h.0)) };

    fn fmt<W: fmt::Write>(&self, f: &mut fmt::Formatter<W>) -> fmt::Result {
        let Limits {
            gap,
            hold,
            legs,
            fares,
            bookings,
        } = self.0;
        f.write_str("house")?;
        write_spaced(f, &[gap, hold, legs, fares, bookings])
    }
}

// Reading the line that is printed for a house gives it back: a theorem.
pub fn opens_back()
    ensures { OpensBack }
{}
