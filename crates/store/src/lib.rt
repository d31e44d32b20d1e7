// The house in lent memory: legs, fares and bookings, and what is taken on each leg. `Memory` is the
// four lent slices, how many records there are in them, the tick it is now, and the limits with
// which the house was opened. specs/Whole.antt says which house of the meaning that is (`house`).
// Every memory is sound, by a ghost field: each record is in range, and what is kept as taken on a leg
// in a class is just what going through all bookings would give (`SoundWords`, of specs/Words.antt). So
// no clause has to say it. Every function says what the house is after it, so that no layer above
// speaks of words.
//
// Nothing here goes through all bookings: adding and reading touch a fixed number of words, and a
// change of how a booking stands at most 8 legs times 26 classes.
#![tactic(auto)]

ghost use Rattle.std.specs.Prelude.{◌≡◌, ℕ, ◌+◌, ◌*◌, ◌<◌, ◌≤◌, true, false, length, ◌≢◌, slice_index_or};
ghost use Rattle.meaning.specs.Lines.{leg, Fare as MeantFare};
ghost use Rattle.meaning.specs.House.{stand, taken};
ghost use Rattle.meaning.specs.Calls.{all_to, falling, the_booking};
ghost use Rattle.records.specs.Means.{booking_means, fare_means, leg_means};
ghost use Rattle.records.specs.Standings.{number_of};
ghost use Rattle.records.specs.Words.{booking_in};
ghost use Rattle.counts.specs.Counts.{CanGive, CanTake, Ready, Recounted, counted};
ghost use Rattle.store.specs.Range.{FineBooking, FineFare, FineLeg};
ghost use Rattle.store.specs.Words.{SoundWords};

pub mod opening;

use counts::{clear_counts, is_counted, load_count, recount};
use limits::Limits;
pub use opening::open;
use records::{
    Booking, Fare, Leg, Standing, load_booking, load_fare, load_leg, store_booking, store_fare,
    store_leg,
};

// A house in lent memory.
#[derive(Drop)]
pub struct Memory<'a> {
    legs: &'a mut [u32],
    fares: &'a mut [u32],
    bookings: &'a mut [u32],
    sums: &'a mut [u64],
    opened: usize,
    filed: usize,
    booked: usize,
    clock: u32,
    limits: Limits,
    pub ghost sound: { SoundWords record {
      legs = legs.now;
      fares = fares.now;
      bookings = bookings.now;
      sums = sums.now;
      opened = opened;
      filed = filed;
      booked = booked;
      clock = clock;
      limits = limits;
    } },
}

// Makes this booking k, with its sum, and brings what is taken on its legs along, where it was or was
// not counted before.
fn put_booking(
    legs: &mut [u32],
    bookings: &mut [u32],
    sums: &mut [u64],
    k: usize,
    b: &Booking,
    was: bool,
)
    requires words { k * 22 + 22 ≤ length bookings.old }
    requires sum { k < length sums.old }
    requires ready { Ready legs.old b.now }
    requires few { was ≡ false → CanTake legs.old b.now }
    requires taken { was ≡ true → CanGive legs.old b.now }
    ensures counts { Recounted legs.old legs.new b.now was (counted b.now.stands) }
    ensures this { booking_in bookings.new sums.new k ≡ b.now }
    ensures others { (j : ℕ) → (j ≢ k) → booking_in bookings.new sums.new j ≡ booking_in bookings.old sums.old j }
{
    recount(legs, b, was, is_counted(b.stands));
    store_booking(bookings, k, b);
    sums[k] = b.paid;
}

// One booking more, behind those that are there.
fn add_booking(
    legs: &mut [u32],
    bookings: &mut [u32],
    sums: &mut [u64],
    booked: &mut usize,
    b: &Booking,
)
    requires words { booked.old * 22 + 22 ≤ length bookings.old }
    requires sum { booked.old < length sums.old }
    requires ready { Ready legs.old b.now }
    requires few { CanTake legs.old b.now }
    ensures counts { Recounted legs.old legs.new b.now false (counted b.now.stands) }
    ensures this { booking_in bookings.new sums.new booked.old ≡ b.now }
    ensures others { (j : ℕ) → (j ≢ booked.old) → booking_in bookings.new sums.new j ≡ booking_in bookings.old sums.old j }
    ensures one { booked.new ≡ booked.old + 1 }
{
    put_booking(legs, bookings, sums, *booked, b, false);
    *booked += 1;
}

impl Memory<'_> {
    ghost use Rattle.store.specs.Whole.{Lent, at_tick, house, plus_booking, plus_fare, plus_leg, set_booking, set_limits, settled};

    // How many legs there are.
    pub fn leg_count(&self) -> usize
        ensures { result ≡ length (house self.now).legs }
    {
        self.opened
    }

    // How many fares there are.
    pub fn fare_count(&self) -> usize
        ensures { result ≡ length (house self.now).fares }
    {
        self.filed
    }

    // How many bookings there are.
    pub fn booking_count(&self) -> usize
        ensures { result ≡ length (house self.now).bookings }
    {
        self.booked
    }

    // The tick it is now.
    pub fn clock(&self) -> u32
        ensures { result ≡ (house self.now).now }
    {
        self.clock
    }

    // The limits with which the house was opened.
    pub fn limits(&self) -> Limits
        ensures { result ≡ self.now.limits }
    {
        self.limits
    }

    // Leg i.
    pub fn leg(&self, i: usize) -> Leg
        requires there { i < length (house self.now).legs }
        ensures means { leg_means result ≡ leg (house self.now).legs i }
        ensures classes { result.classes ≡ length (leg (house self.now).legs i).limits }
        ensures fine { FineLeg result }
        ensures whole { length result.limits ≡ 26 }
    {
        load_leg(self.legs, i)
    }

    // Fare k.
    pub fn fare(&self, k: usize) -> Fare
        requires there { k < length (house self.now).fares }
        ensures means { (d : MeantFare) → fare_means result ≡ slice_index_or (house self.now).fares k d }
        ensures fine { FineFare result }
    {
        load_fare(self.fares, k)
    }

    // Booking k.
    pub fn booking(&self, k: usize) -> Booking
        requires there { k < length (house self.now).bookings }
        ensures means { booking_means result ≡ the_booking (house self.now) k }
        ensures fine { FineBooking (length (house self.now).legs) result }
        ensures whole { length result.legs ≡ 8 }
    {
        load_booking(self.bookings, self.sums, k)
    }

    // What is taken on leg i in a class and the cheaper ones: one word is read. It is few enough that
    // a booking's seats can be added.
    pub fn taken(&self, i: usize, class: usize) -> u32
        requires there { i < length (house self.now).legs }
        requires class { class < 26 }
        ensures is { result ≡ taken (house self.now).bookings i class }
        ensures few { result ≤ 9000000 }
    {
        load_count(self.legs, i, class)
    }

    // One leg more, at the end, on which nothing is taken.
    pub fn push_leg(&mut self, g: &Leg)
        requires space { length (house self.old).legs < self.old.limits.legs }
        requires fine { FineLeg g.now }
        ensures house { house self.new ≡ plus_leg (house self.old) (leg_means g.now) }
        ensures lent { Lent self.old self.new }
    {
        let i = self.opened;
        store_leg(self.legs, i, g);
        clear_counts(self.legs, i);
        self.opened = i + 1;
    }

    // One fare more, at the end.
    pub fn push_fare(&mut self, f: &Fare)
        requires space { length (house self.old).fares < self.old.limits.fares }
        requires fine { FineFare f.now }
        ensures house { house self.new ≡ plus_fare (house self.old) (fare_means f.now) }
        ensures lent { Lent self.old self.new }
    {
        let k = self.filed;
        store_fare(self.fares, k, f);
        self.filed = k + 1;
    }

    // One booking more, at the end, however it stands; what is taken on its legs follows.
    pub fn push_booking(&mut self, b: &Booking)
        requires space { length (house self.old).bookings < self.old.limits.bookings }
        requires fine { FineBooking (length (house self.old).legs) b.now }
        ensures house { house self.new ≡ plus_booking (house self.old) (booking_means b.now) }
        ensures lent { Lent self.old self.new }
    {
        add_booking(self.legs, self.bookings, self.sums, &mut self.booked, b);
    }

    // Other limits for leg i, as many as it has. What is taken stays.
    pub fn set_limits(&mut self, i: usize, limits: &[u32])
        requires there { i < length (house self.old).legs }
        requires classes { length limits.now ≡ length (leg (house self.old).legs i).limits }
        requires falling { falling limits.now ≡ true }
        requires small { all_to 1000 limits.now ≡ true }
        ensures house { house self.new ≡ set_limits (house self.old) i limits.now }
        ensures lent { Lent self.old self.new }
    {
        let mut g = self.leg(i);
        g.limits[0..limits.len()].copy_from_slice(limits);
        store_leg(self.legs, i, &g);
    }

    // How booking k stands from now on, until when, and what was paid; what is taken on its legs
    // follows.
    pub fn settle(&mut self, k: usize, stands: Standing, until: u32, paid: u64)
        requires there { k < length (house self.old).bookings }
        ensures house { house self.new ≡ set_booking (house self.old) k (settled (the_booking (house self.old) k) (number_of stands) until paid) }
        ensures lent { Lent self.old self.new }
    {
        let mut b = self.booking(k);
        let was = is_counted(b.stands);
        b.stands = stands.number();
        b.until = until;
        b.paid = paid;
        put_booking(self.legs, self.bookings, self.sums, k, &b, was);
    }

    // How booking k stands from now on, and until when; what was paid stays.
    pub fn set_stand(&mut self, k: usize, stands: Standing, until: u32)
        requires there { k < length (house self.old).bookings }
        ensures house { house self.new ≡ set_booking (house self.old) k (stand (the_booking (house self.old) k) (number_of stands) until) }
        ensures lent { Lent self.old self.new }
    {
        let b = self.booking(k);
        self.settle(k, stands, until, b.paid);
    }

    // The tick it is from now on. Nothing else changes: who runs out is for the layers above.
    pub fn set_clock(&mut self, tick: u32)
        requires range { tick < 16777216 }
        ensures house { house self.new ≡ at_tick (house self.old) tick }
        ensures lent { Lent self.old self.new }
    {
        self.clock = tick;
    }
}
