// Legs, fares and bookings as words of a page, and words of a page as numbers: what a page of a
// checkpoint is filled with, and read of. `journal_rows/specs/Bytes.antt` says which words a record has.
#![tactic(auto)]

ghost use Rattle.std.specs.Prelude.{◌≡◌, ◌+◌, ◌*◌, ◌≤◌, length, take, drop};
ghost use Rattle.wire.specs.Bytes.{numbers_in, row_of};
ghost use Rattle.records.specs.Means.{booking_means, fare_means, leg_means};
ghost use Rattle.journal_rows.specs.Bytes.{booking_row, fare_row, leg_row};

use journal_rows::word;
use records::{Booking, Fare, Leg};
use wire::put_numbers;

// One more than the largest number of a word.
pub const BASE: u64 = 4_294_967_296;

// Writes words into a part of a page that has just their length, the lowest byte of each first.
pub fn put_words(part: &mut [u8], words: &[u32])
    requires { length part.old ≡ 4 * length words.now }
    ensures { part.new ≡ row_of 4 words.now }
{
    put_numbers(part, 0, words);
}

// Numbers of a page from a place on, as many as there are places for.
pub fn words_at(page: &[u8; 512], at: usize, out: &mut [u32])
    requires { at + length out.old ≤ 128 }
    ensures { out.new ≡ take (length out.old) (drop at (numbers_in page.now)) }
{
    for (i, place) in out.iter_mut().enumerate() {
        *place = word(page, at + i);
    }
}

// The words of a leg: where its limits end, zeros follow, whatever stands in its array.
pub fn leg_words(g: &Leg) -> [u32; 31]
    requires { g.now.classes ≤ 26 }
    ensures words { result ≡ leg_row (leg_means g.now) }
    ensures long { length result ≡ 31 }
{
    let n = g.classes as usize;
    let mut words = [0; 31];
    words[0..5].copy_from_slice(&[g.from, g.to, g.leaves, g.arrives, g.classes]);
    words[5..5 + n].copy_from_slice(&g.limits[0..n]);
    words
}

// The words of a fare.
pub fn fare_words(f: &Fare) -> [u32; 5]
    ensures words { result ≡ fare_row (fare_means f.now) }
    ensures long { length result ≡ 5 }
{
    [f.origin, f.goal, f.class, f.most, f.price]
}

// The words of a booking: where its legs end, zeros follow, and then what was paid, its low half
// first.
pub fn booking_words(b: &Booking) -> [u32; 15]
    requires { b.now.count ≤ 8 }
    ensures words { result ≡ booking_row (booking_means b.now) }
    ensures long { length result ≡ 15 }
{
    let n = b.count as usize;
    let mut words = [0; 15];
    words[0..5].copy_from_slice(&[b.class, b.seats, b.stands, b.until, b.count]);
    words[5..5 + n].copy_from_slice(&b.legs[0..n]);
    words[13..15].copy_from_slice(&[(b.paid % BASE) as u32, (b.paid / BASE) as u32]);
    words
}
