// Checks of what a call brings: its numbers' ranges, its list, read out of the part of the bytes in
// which it stands, and a journey's legs against the memory. Each is a test of the meaning.
#![tactic(auto)]

ghost use Rattle.std.specs.Prelude.{◌≡◌, ℕ, ◌<◌, ◌≤◌, length, slice_index};
ghost use Rattle.meaning.specs.Lines.{follows};
ghost use Rattle.meaning.specs.Calls.{all_there, all_to, falling, no_twice};
ghost use Rattle.store.specs.Whole.{house};
ghost use Rattle.records.specs.Words.{leg_of};
ghost use Rattle.checks.specs.Ranges.{fare_fits, schedule_fits, schedule_of, seats_fit};
ghost use Rattle.checks.specs.Lists.{LimitsRead, ListRead, leg_there, legs_join};

mod lists;

pub use lists::Listed;
use records::{Fare, Leg};
use store::Memory;

// Between which places a leg goes, and when it leaves and arrives.
#[derive(Clone, Copy)]
pub struct Schedule {
    pub from: u32,
    pub to: u32,
    pub leaves: u32,
    pub arrives: u32,
}

// So many seats in a class.
#[derive(Clone, Copy)]
pub struct Seats {
    pub class: u32,
    pub count: u32,
}

// The legs of a journey: one to eight.
pub type Journey = Listed<8>;

// The limits of a leg: one to twenty-six.
pub type LimitRow = Listed<26>;

impl Schedule {
    // The schedule of a leg.
    pub fn of(leg: &Leg) -> Schedule
        ensures { result ≡ schedule_of leg.now }
    {
        Schedule {
            from: leg.from,
            to: leg.to,
            leaves: leg.leaves,
            arrives: leg.arrives,
        }
    }

    // Are its places and ticks in range.
    pub fn is_in_range(&self) -> bool
        ensures { result ≡ schedule_fits self.now }
    {
        (self.from < 65_536 && self.to < 65_536)
            && (self.leaves < self.arrives && self.arrives < 16_777_216)
    }

    // The leg of this schedule with just these limits, one for each of its classes.
    pub fn with(&self, limits: &[u32]) -> Leg
        requires { length limits.now ≤ 26 }
        ensures { result ≡ leg_of self.now.from self.now.to self.now.leaves self.now.arrives limits.now }
    {
        Leg::new(self.from, self.to, self.leaves, self.arrives, limits)
    }
}

impl Seats {
    // Are their class and their number in range.
    pub fn are_in_range(&self) -> bool
        ensures { result ≡ seats_fit self.now.class self.now.count }
    {
        self.class < 26 && (1 <= self.count && self.count <= 9)
    }
}

// Are a fare's numbers in range.
pub fn fare_in_range(fare: &Fare) -> bool
    ensures { result ≡ fare_fits fare.now }
{
    (fare.origin < 65_536 && fare.goal < 65_536)
        && ((fare.class < 26 && (1 <= fare.most && fare.most <= 8)) && fare.price <= 100_000_000)
}

// The journey that a part lists; none where it has no legs or more than eight.
pub fn read_journey(part: &[u8]) -> Option<Journey>
    ensures { ListRead 8 part.now result }
{
    Listed::read(part)
}

// The limits that a part lists; none where they are none, more than 26, rise, or are above 1,000.
pub fn read_limits(part: &[u8]) -> Option<LimitRow>
    ensures { LimitsRead part.now result }
{
    Listed::read(part).filter(|limits: &LimitRow| {
        are_falling(limits.as_slice()) && are_small(limits.as_slice())
    })
}

// Do limits never rise.
pub fn are_falling(limits: &[u32]) -> bool
    ensures { result ≡ falling limits.now }
{
    limits.is_sorted_by(|dearer, cheaper| cheaper <= dearer)
}

// Is none of them above 1,000.
pub fn are_small(limits: &[u32]) -> bool
    ensures { result ≡ all_to 1000 limits.now }
{
    limits.iter().all(|limit| *limit <= 1000)
}

// Is leg i there, with the class.
fn is_there(m: &Memory, class: u32, i: u32) -> bool
    ensures { result ≡ leg_there (house m.now).legs class i }
{
    (i as usize) < m.leg_count() && class < m.leg(i as usize).classes
}

// Are all these legs there, each with the class.
pub fn are_there(m: &Memory, class: u32, journey: &[u32]) -> bool
    ensures { result ≡ all_there (house m.now).legs class journey.now }
{
    journey.iter().all(|i| is_there(m, class, *i))
}

// Does leg j begin where leg i ended, and leave late enough after it.
fn joins(m: &Memory, i: u32, j: u32) -> bool
    requires first { i < length (house m.now).legs }
    requires next { j < length (house m.now).legs }
    ensures { result ≡ legs_join (house m.now).legs (house m.now).gap i j }
{
    let a = m.leg(i as usize);
    let b = m.leg(j as usize);
    a.to == b.from && a.arrives + m.limits().gap <= b.leaves
}

// Does each leg begin where the one before ended, and leave late enough.
pub fn connect(m: &Memory, journey: &[u32]) -> bool
    requires there { (x : ℕ) → x < length journey.now → slice_index journey.now x < length (house m.now).legs }
    ensures { result ≡ follows (house m.now).legs (house m.now).gap journey.now }
{
    journey.windows(2).all(|pair| joins(m, pair[0], pair[1]))
}

// Is no leg there twice.
pub fn are_apart(journey: &[u32]) -> bool
    ensures { result ≡ no_twice journey.now }
{
    match journey.split_first() {
        Some((i, others)) => !others.contains(i) && are_apart(others),
        None => true,
    }
}
