// What is free, and who is served, from the counts that memory keeps. There is room for a booking if
// on each of its legs, in its class and each dearer one, what is taken and its seats together are at
// most the limit. Of those who wait, by number, the first for whom there is room is held, and so
// again, until there is room for none. Each answer is the meaning's own: `room`, `most`, `serve_one`
// and `serve`.
//
// Room and what is free look at no booking: one count is read for each leg and class that is asked
// about. `serve_newest` looks at one booking, the last. Only `first_fit`, and so `serve`, goes
// through all bookings.
#![tactic(auto)]

ghost use Rattle.std.specs.Prelude.{◌≡◌, ℕ, ◌+◌, ◌<◌, ◌==◌, min, [], ◌∷◌, length, slice_index};
ghost use Rattle.meaning.specs.Lines.{pick};
ghost use Rattle.meaning.specs.House.{room};
ghost use Rattle.meaning.specs.Calls.{most, the_booking};
ghost use Rattle.seating.specs.Serving.{Found, Newcomer, NoneCould, OneServing, all_served, could, last, newest_held};
ghost use Rattle.store.specs.Whole.{Lent, house};

use records::{Booking, Leg, Standing};
use store::Memory;

// As many seats are told as free, at most.
const MOST: u32 = 1_000;

// How many classes have a limit that a seat in this class counts against: from the dearest to this
// one, as far as the leg has them.
fn classes_to(g: &Leg, class: u32) -> usize
    ensures { result ≡ min (class + 1) g.now.classes }
{
    (class as usize + 1).min(g.classes as usize)
}

// Is there room for so many seats in a class on leg i?
pub fn has_room_on(memory: &Memory, i: usize, class: u32, seats: u32) -> bool
    requires there { i < length (house memory.now).legs }
    ensures { result ≡ room (house memory.now).legs (house memory.now).bookings (i ∷ []) class seats }
{
    let g = memory.leg(i);
    for c in 0..classes_to(&g, class) {
        if memory.taken(i, c) as u64 + seats as u64 > g.limits[c] as u64 {
            return false;
        }
    }
    true
}

// Is there room for so many seats in a class on each of these legs?
pub fn has_room(memory: &Memory, legs: &[u32], class: u32, seats: u32) -> bool
    requires there { (x : ℕ) → x < length legs.now → slice_index legs.now x < length (house memory.now).legs }
    ensures { result ≡ room (house memory.now).legs (house memory.now).bookings legs.now class seats }
{
    for i in legs {
        if !has_room_on(memory, *i as usize, class, seats) {
            return false;
        }
    }
    true
}

// How many seats are free on leg i in a class, up to 1,000: the least that any limit from the dearest
// class to this one leaves. Where more is taken than a limit that was lowered, none is.
pub fn free_seats(memory: &Memory, i: usize, class: u32) -> u32
    requires there { i < length (house memory.now).legs }
    ensures { result ≡ most 1000 (house memory.now).legs (house memory.now).bookings i class }
{
    let g = memory.leg(i);
    let mut free = MOST;
    for c in 0..classes_to(&g, class) {
        free = free.min(g.limits[c].saturating_sub(memory.taken(i, c)));
    }
    free
}

// Does a booking wait?
fn is_waiting(b: &Booking) -> bool
    ensures { result ≡ (b.now.stands == 0) }
{
    matches!(b.standing(), Standing::Waits)
}

// The first of those who wait, by number, for whom there is room: the one that a serving would hold.
// A limit without room for a booking, on any of its legs, in any of its classes, leaves for the next
// booking.
pub fn first_fit(memory: &Memory) -> Option<usize>
    ensures first { Found (house memory.now) result }
    ensures serves { OneServing (house memory.now) result }
{
    'bookings: for k in 0..memory.booking_count() {
        let b = memory.booking(k);
        if !is_waiting(&b) {
            continue;
        }
        for x in 0..b.count as usize {
            let i = b.legs[x] as usize;
            let g = memory.leg(i);
            for c in 0..classes_to(&g, b.class) {
                if memory.taken(i, c) + b.seats > g.limits[c] {
                    continue 'bookings;
                }
            }
        }
        return Some(k);
    }
    None
}

// Whoever waits is served, until there is room for none that waits; each who is served is held until
// this tick.
pub fn serve(memory: &mut Memory, until: u32)
    ensures house { house memory.new ≡ all_served (house memory.old) until }
    ensures idle { NoneCould (house memory.new) }
    ensures lent { Lent memory.old memory.new }
{
    while let Some(k) = first_fit(memory) {
        memory.set_stand(k, Standing::Held, until);
    }
}

// The same where only the booking that came last can be served, since nobody waited for what was free
// before: it is held if there is room for it, and nothing else changes. Tells whether it is.
pub fn serve_newest(memory: &mut Memory, until: u32) -> bool
    requires newest { Newcomer (house memory.old) }
    ensures house { house memory.new ≡ all_served (house memory.old) until }
    ensures idle { NoneCould (house memory.new) }
    ensures room { result ≡ could (house memory.old) (last (house memory.old)) }
    ensures stands { (the_booking (house memory.new) (last (house memory.old))).stands ≡ pick result 1 0 }
    ensures only { house memory.new ≡ newest_held (house memory.old) until result }
    ensures lent { Lent memory.old memory.new }
{
    let k = memory.booking_count() - 1;
    let b = memory.booking(k);
    let fits = has_room(memory, &b.legs[0..b.count as usize], b.class, b.seats);
    if fits {
        memory.set_stand(k, Standing::Held, until);
    }
    fits
}
