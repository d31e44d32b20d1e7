// Is a leg or a booking that was read of a page in range: what the calls that open legs and book
// would have let through, and how a booking can stand. specs/Asked.antt has the tests that are not those
// of a call.
#![tactic(auto)]

ghost use Rattle.std.specs.Prelude.{◌≡◌, ◌<◌, ◌≤◌, ◌↔◌, true, false, IsTrue, EachIndex, length, take, slice_index};
ghost use Rattle.meaning.specs.Calls.{good_fields, opens};
ghost use Rattle.records.specs.Means.{booking_means};
ghost use Rattle.journal_rows.specs.Layout.{FineBooking};
ghost use Rattle.journal_ranges.specs.Asked.{asks_fit, stands_fit};

use checks::{Schedule, Seats, are_apart, are_falling, are_small};
use records::{Booking, Leg};

// Is a leg in range, as the call that opens it has to be.
pub fn leg_in_range(leg: &Leg) -> bool
    requires { (leg.now.classes ≤ 26) × (length leg.now.limits ≡ 26) }
    ensures { result ≡ good_fields (opens leg.now.from leg.now.to leg.now.leaves leg.now.arrives (take leg.now.classes leg.now.limits)) }
{
    if !Schedule::of(leg).is_in_range() {
        return false;
    }
    if leg.classes < 1 {
        return false;
    }
    let limits = &leg.limits[0..leg.classes as usize];
    if !are_falling(limits) {
        return false;
    }
    are_small(limits)
}

// Are all these legs among the first so many.
fn are_below(legs: &[u32], count: usize) -> bool
    ensures { IsTrue result ↔ EachIndex legs.now (λ k. slice_index legs.now k < count) }
{
    legs.iter().all(|leg| (*leg as usize) < count)
}

// Are a booking's class, seats and number of legs in range.
fn asks_in_range(b: &Booking) -> bool
    ensures { result ≡ asks_fit b.now }
{
    let seats = Seats {
        class: b.class,
        count: b.seats,
    };
    seats.are_in_range() && (1 <= b.count && b.count <= 8)
}

// Can a booking stand so, until then, and with so much paid.
fn stands_in_range(b: &Booking) -> bool
    ensures { result ≡ stands_fit b.now }
{
    b.stands <= 3 && (b.until < 16_842_752 && b.paid <= 7_200_000_000)
}

// Is a booking in range, in a house of so many legs.
pub fn booking_in_range(b: &Booking, legs: usize) -> bool
    requires { length b.now.legs ≡ 8 }
    ensures yes { result ≡ true → FineBooking legs (booking_means b.now) }
    ensures few { result ≡ true → b.now.count ≤ 8 }
    ensures no { result ≡ false → b.now.count ≤ 8 → FineBooking legs (booking_means b.now) → ⊥ }
{
    if !asks_in_range(b) {
        return false;
    }
    if !stands_in_range(b) {
        return false;
    }
    let journey = &b.legs[0..b.count as usize];
    if !are_below(journey, legs) {
        return false;
    }
    are_apart(journey)
}
