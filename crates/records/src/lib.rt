// Legs, fares and bookings as structs by value, in lent words: a leg has 128 words, a fare 24, a
// booking 22 and a sum of 64 bits beside them. A record is loaded from its place and stored back;
// specs/Words.antt says what the words of a place are, and specs/Means.antt which leg, fare or
// booking of the meaning that is. Words that no record uses yet are spare, and stay as they are.
// Loading and storing touch a fixed number of words, and no place but the one that is named.
#![tactic(auto)]

ghost use Rattle.std.specs.Prelude.{◌≡◌, ℕ, ◌+◌, ◌*◌, ◌<◌, ◌≤◌, min, length, ◌≢◌, slice_index};
ghost use Rattle.records.specs.Standings.{StandsSo, number_of};
ghost use Rattle.records.specs.Words.{booking_in, booking_of, booking_read, fare_in, leg_in, leg_of, leg_read, part};

// Words of a leg: 31 for the leg itself, 26 counts of what is taken, 71 spare.
pub const LEG_WORDS: usize = 128;

// Words of a fare: 5 in use, 19 spare.
pub const FARE_WORDS: usize = 24;

// Words of a booking beside its sum: 13 in use, 9 spare.
pub const BOOKING_WORDS: usize = 22;

// A leg, with a limit for each of its classes, the dearest first.
#[derive(Clone, Copy)]
pub struct Leg {
    pub from: u32,
    pub to: u32,
    pub leaves: u32,
    pub arrives: u32,
    pub classes: u32,
    pub limits: [u32; 26],
}

// A fare for at most so many legs in a class, from an origin to a goal.
#[derive(Clone, Copy)]
pub struct Fare {
    pub origin: u32,
    pub goal: u32,
    pub class: u32,
    pub most: u32,
    pub price: u32,
}

// How a booking stands. The word that is kept of it is its number, from 0 for one that waits to 3 for
// one that is gone.
#[derive(Clone, Copy, Debug, PartialEq, Eq, PartialOrd, Ord)]
pub enum Standing {
    Waits,
    Held,
    Paid,
    Gone,
}

// A word that is the number of no standing.
#[derive(Clone, Copy, Debug, PartialEq, Eq)]
pub struct UnknownStanding(pub u32);

impl Standing {
    // The word that is kept of it.
    pub fn number(self) -> u32
        ensures { result ≡ number_of self }
    {
        self as u32
    }
}

impl TryFrom<u32> for Standing {
    type Error = UnknownStanding;

    ghost try_from_gives = { StandsSo };

    // The standing of which a word is kept.
    fn try_from(word: u32) -> Result<Standing, UnknownStanding> {
        match word {
            0 => Ok(Standing::Waits),
            1 => Ok(Standing::Held),
            2 => Ok(Standing::Paid),
            3 => Ok(Standing::Gone),
            _ => Err(UnknownStanding(word)),
        }
    }
}

// A booking of some legs: the word of how it stands, until when, and what was paid.
#[derive(Clone, Copy)]
pub struct Booking {
    pub class: u32,
    pub seats: u32,
    pub stands: u32,
    pub until: u32,
    pub count: u32,
    pub legs: [u32; 8],
    pub paid: u64,
}

impl Leg {
    // A leg with just these limits, one for each of its classes.
    pub fn new(from: u32, to: u32, leaves: u32, arrives: u32, limits: &[u32]) -> Leg
        requires { length limits.now ≤ 26 }
        ensures { result ≡ leg_of from to leaves arrives limits.now }
    {
        let mut all = [0; 26];
        all[0..limits.len()].copy_from_slice(limits);
        Leg {
            from,
            to,
            leaves,
            arrives,
            classes: limits.len() as u32,
            limits: all,
        }
    }
}

impl Booking {
    // A booking of just these legs, which waits, and for which nothing was paid.
    pub fn new(class: u32, seats: u32, legs: &[u32]) -> Booking
        requires { length legs.now ≤ 8 }
        ensures { result ≡ booking_of class seats legs.now }
    {
        let mut all = [0; 8];
        all[0..legs.len()].copy_from_slice(legs);
        Booking {
            class,
            seats,
            stands: Standing::Waits.number(),
            until: 0,
            count: legs.len() as u32,
            legs: all,
            paid: 0,
        }
    }

    // How it stands. A word that is the number of no standing, which no sound memory has, says that it
    // is gone.
    pub fn standing(&self) -> Standing
        ensures { number_of result ≡ min self.now.stands 3 }
    {
        Standing::try_from(self.stands).unwrap_or(Standing::Gone)
    }
}

// A leg of its own 31 words.
pub fn read_leg(w: &[u32]) -> Leg
    requires { length w.now ≡ 31 }
    ensures { result ≡ leg_read w.now }
{
    let mut limits = [0; 26];
    limits.copy_from_slice(&w[5..31]);
    Leg {
        from: w[0],
        to: w[1],
        leaves: w[2],
        arrives: w[3],
        classes: w[4],
        limits,
    }
}

// Leg i.
pub fn load_leg(legs: &[u32], i: usize) -> Leg
    requires { i * 128 + 128 ≤ length legs.now }
    ensures { result ≡ leg_in legs.now i }
{
    read_leg(&legs[i * LEG_WORDS..i * LEG_WORDS + 31])
}

// Writes a leg into its own 31 words.
fn write_leg(w: &mut [u32], g: &Leg)
    requires { length w.old ≡ 31 }
    ensures { leg_read w.new ≡ g.now }
{
    let head = [g.from, g.to, g.leaves, g.arrives, g.classes];
    w[0..5].copy_from_slice(&head);
    w[5..31].copy_from_slice(&g.limits);
}

// Makes this leg i. No other leg changes, and none of the words behind a leg's own: the counts of
// what is taken, leg i's too, and the spare ones.
pub fn store_leg(legs: &mut [u32], i: usize, g: &Leg)
    requires { i * 128 + 128 ≤ length legs.old }
    ensures this { leg_in legs.new i ≡ g.now }
    ensures others { (j : ℕ) → (j ≢ i) → leg_in legs.new j ≡ leg_in legs.old j }
    ensures beside { (j c : ℕ) → 31 + c < 128 → slice_index legs.new (j * 128 + 31 + c) ≡ slice_index legs.old (j * 128 + 31 + c) }
{
    write_leg(&mut legs[i * LEG_WORDS..i * LEG_WORDS + 31], g);
}

// Fare k.
pub fn load_fare(fares: &[u32], k: usize) -> Fare
    requires { k * 24 + 24 ≤ length fares.now }
    ensures { result ≡ fare_in fares.now k }
{
    let w = &fares[k * FARE_WORDS..k * FARE_WORDS + 5];
    Fare {
        origin: w[0],
        goal: w[1],
        class: w[2],
        most: w[3],
        price: w[4],
    }
}

// Makes this fare k. No other fare changes, and no spare word.
pub fn store_fare(fares: &mut [u32], k: usize, f: &Fare)
    requires { k * 24 + 24 ≤ length fares.old }
    ensures this { fare_in fares.new k ≡ f.now }
    ensures others { (j : ℕ) → (j ≢ k) → fare_in fares.new j ≡ fare_in fares.old j }
    ensures spare { (j c : ℕ) → 5 + c < 24 → slice_index fares.new (j * 24 + 5 + c) ≡ slice_index fares.old (j * 24 + 5 + c) }
{
    let words = [f.origin, f.goal, f.class, f.most, f.price];
    fares[k * FARE_WORDS..k * FARE_WORDS + 5].copy_from_slice(&words);
}

// A booking of its own 13 words and its sum.
pub fn read_booking(w: &[u32], paid: u64) -> Booking
    requires { length w.now ≡ 13 }
    ensures { result ≡ booking_read w.now paid }
{
    let mut legs = [0; 8];
    legs.copy_from_slice(&w[5..13]);
    Booking {
        class: w[0],
        seats: w[1],
        stands: w[2],
        until: w[3],
        count: w[4],
        legs,
        paid,
    }
}

// Booking k, of its words and its sum.
pub fn load_booking(bookings: &[u32], sums: &[u64], k: usize) -> Booking
    requires words { k * 22 + 22 ≤ length bookings.now }
    requires sum { k < length sums.now }
    ensures { result ≡ booking_in bookings.now sums.now k }
{
    read_booking(
        &bookings[k * BOOKING_WORDS..k * BOOKING_WORDS + 13],
        sums[k],
    )
}

// Writes a booking into its own 13 words; its sum is kept elsewhere.
fn write_booking(w: &mut [u32], b: &Booking)
    requires { length w.old ≡ 13 }
    ensures { booking_read w.new b.now.paid ≡ b.now }
{
    let l = b.legs;
    let words = [
        b.class, b.seats, b.stands, b.until, b.count, l[0], l[1], l[2], l[3], l[4], l[5], l[6],
        l[7],
    ];
    w[0..13].copy_from_slice(&words);
}

// Makes this booking k, but for its sum, which the caller keeps. No other booking changes, and no
// spare word.
pub fn store_booking(bookings: &mut [u32], k: usize, b: &Booking)
    requires { k * 22 + 22 ≤ length bookings.old }
    ensures this { booking_read (part 22 13 bookings.new k) b.now.paid ≡ b.now }
    ensures others { (j : ℕ) → (j ≢ k) → part 22 13 bookings.new j ≡ part 22 13 bookings.old j }
    ensures spare { (j c : ℕ) → 13 + c < 22 → slice_index bookings.new (j * 22 + 13 + c) ≡ slice_index bookings.old (j * 22 + 13 + c) }
{
    write_booking(&mut bookings[k * BOOKING_WORDS..k * BOOKING_WORDS + 13], b);
}
