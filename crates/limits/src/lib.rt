// Limits of a house, and the memory that they ask for. Whoever opens a house asks `Limits::misfit`
// first, with the sizes of the slices that it would lend: it tells limits that are out of range, or
// the first slice that is too small, before any slice is lent, so nothing is written. specs/Opening.antt
// has what is asked for, and the order in which misfits are told.
#![tactic(auto)]

ghost use Rattle.std.specs.Prelude.{◌≡◌, ◌+◌, ◌*◌, ◌≤◌};
ghost use Rattle.limits.specs.Opening.{asks, in_range, misfit_of};

// With what a house is opened: the least time between two legs, how long a hold lasts, and how many
// legs, fares and bookings there may be.
#[derive(Clone, Copy)]
pub struct Limits {
    pub gap: u32,
    pub hold: u32,
    pub legs: u32,
    pub fares: u32,
    pub bookings: u32,
}

// How long lent slices are: words of legs, fares and bookings, and sums.
#[derive(Clone, Copy)]
pub struct Sizes {
    pub legs: usize,
    pub fares: usize,
    pub bookings: usize,
    pub sums: usize,
}

// Why a house can't be opened: limits out of range, or too small a slice, and which.
#[derive(Clone, Copy, PartialEq, Debug)]
pub enum Misfit {
    Range,
    Legs,
    Fares,
    Bookings,
    Sums,
}

impl Limits {
    // How much memory is asked for: no more than 512 bytes for each leg, and 96 for each fare and
    // booking, of four bytes a word and eight a sum.
    pub fn asks(&self) -> Sizes
        ensures asked { result ≡ asks self.now }
        ensures legs { result.legs * 4 ≤ self.now.legs * 512 }
        ensures fares { result.fares * 4 ≤ self.now.fares * 96 }
        ensures bookings { result.bookings * 4 + result.sums * 8 ≤ self.now.bookings * 96 }
    {
        Sizes {
            legs: self.legs as usize * 128,
            fares: self.fares as usize * 24,
            bookings: self.bookings as usize * 22,
            sums: self.bookings as usize,
        }
    }

    // Can a house be opened with these limits at all?
    fn are_fine(&self) -> bool
        ensures { result ≡ in_range self.now }
    {
        (self.gap <= 65_536 && (1 <= self.hold && self.hold <= 65_536))
            && (self.legs <= 65_536 && (self.fares <= 65_536 && self.bookings <= 1_000_000))
    }

    // The first thing that is wrong with these limits, or with memory of these sizes for them; `None`
    // if a house can be opened.
    pub fn misfit(&self, have: &Sizes) -> Option<Misfit>
        ensures { result ≡ misfit_of self.now have.now }
    {
        let asked = self.asks();
        if !self.are_fine() {
            Some(Misfit::Range)
        } else if have.legs < asked.legs {
            Some(Misfit::Legs)
        } else if have.fares < asked.fares {
            Some(Misfit::Fares)
        } else if have.bookings < asked.bookings {
            Some(Misfit::Bookings)
        } else if have.sums < asked.sums {
            Some(Misfit::Sums)
        } else {
            None
        }
    }
}
