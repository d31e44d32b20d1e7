// How many seats are taken on each leg, for each class: 26 counts in the words behind the leg's own,
// each of what is held or paid in its class and the cheaper ones. A booking that comes to be held
// or is gone is brought along on each of its legs, in its class and each dearer one, which touches
// at most 8 legs times 26 classes; nothing goes through all bookings. That the counts are then what
// going through all of them would give is shown one layer up, where the bookings are.
#![tactic(auto)]

ghost use Rattle.std.specs.Prelude.{◌≡◌, ℕ, ◌+◌, ◌*◌, ◌^◌, ◌<◌, ◌≤◌, true, false, length};
ghost use Rattle.records.specs.Words.{leg_in};
ghost use Rattle.counts.specs.Counts.{CanGive, CanTake, Ready, Recounted, Shared, count_in, counted};

use records::{Booking, LEG_WORDS, Standing};

// What is taken on leg i in a class and the cheaper ones.
pub fn load_count(legs: &[u32], i: usize, class: usize) -> u32
    requires leg { i * 128 + 128 ≤ length legs.now }
    requires class { class < 26 }
    ensures { result ≡ count_in legs.now i class }
{
    legs[i * LEG_WORDS + 31 + class]
}

// Nothing is taken on leg i. No leg changes, no other leg's counts, and no spare word.
pub fn clear_counts(legs: &mut [u32], i: usize)
    requires { i * 128 + 128 ≤ length legs.old }
    ensures nothing { (c : ℕ) → c < 26 → count_in legs.new i c ≡ 0 }
    ensures others { (j c : ℕ) → c < 97 → (j ≡ i → 26 ≤ c) → count_in legs.new j c ≡ count_in legs.old j c }
    ensures legs { (j : ℕ) → leg_in legs.new j ≡ leg_in legs.old j }
{
    legs[i * LEG_WORDS + 31..i * LEG_WORDS + 57].copy_from_slice(&[0; 26]);
}

// Seats taken on leg i in a class: they count in it and in each dearer one.
fn take_on(legs: &mut [u32], i: usize, class: usize, seats: u32)
    requires leg { i * 128 + 128 ≤ length legs.old }
    requires class { class < 26 }
    requires few { (c : ℕ) → c ≤ class → count_in legs.old i c + seats < 2 ^ 32 }
    ensures { Shared legs.old legs.new i (class + 1) seats }
{
    for c in 0..class + 1 {
        let at = i * LEG_WORDS + 31 + c;
        legs[at] = legs[at] + seats;
    }
}

// Seats given back on leg i in a class.
fn give_on(legs: &mut [u32], i: usize, class: usize, seats: u32)
    requires leg { i * 128 + 128 ≤ length legs.old }
    requires class { class < 26 }
    requires taken { (c : ℕ) → c ≤ class → seats ≤ count_in legs.old i c }
    ensures { Shared legs.new legs.old i (class + 1) seats }
{
    for d in 0..class + 1 {
        let at = i * LEG_WORDS + 31 + d;
        legs[at] = legs[at] - seats;
    }
}

// Takes the seats of a booking on each of its legs.
fn take_all(legs: &mut [u32], b: &Booking)
    requires ready { Ready legs.old b.now }
    requires few { CanTake legs.old b.now }
    ensures { Recounted legs.old legs.new b.now false true }
{
    for x in 0..b.count as usize {
        take_on(legs, b.legs[x] as usize, b.class as usize, b.seats);
    }
}

// Gives the seats of a booking back on each of its legs.
fn give_all(legs: &mut [u32], b: &Booking)
    requires ready { Ready legs.old b.now }
    requires taken { CanGive legs.old b.now }
    ensures { Recounted legs.old legs.new b.now true false }
{
    for y in 0..b.count as usize {
        give_on(legs, b.legs[y] as usize, b.class as usize, b.seats);
    }
}

// Is a booking with this word of how it stands counted as taken? It is if it is held or paid.
pub fn is_counted(stands: u32) -> bool
    ensures { result ≡ counted stands }
{
    matches!(
        Standing::try_from(stands),
        Ok(Standing::Held | Standing::Paid)
    )
}

// Brings the counts along where a booking was or was not counted, and now is or is not.
pub fn recount(legs: &mut [u32], b: &Booking, was: bool, is: bool)
    requires ready { Ready legs.old b.now }
    requires few { was ≡ false → CanTake legs.old b.now }
    requires taken { was ≡ true → CanGive legs.old b.now }
    ensures { Recounted legs.old legs.new b.now was is }
{
    match (was, is) {
        (false, true) => take_all(legs, b),
        (true, false) => give_all(legs, b),
        _ => {}
    }
}
