// The questions: what is free, what a journey costs, how a booking stands, what is taken on a leg.
// They change nothing. The checks stand in the order of the list of refusals, each handing its value
// on or returning the refusal; the first that applies decides.
#![tactic(auto)]

ghost use Rattle.std.specs.Prelude.{◌≡◌, ◌<◌, ◌≤◌, [], length, take, drop};
ghost use Rattle.meaning.specs.Calls.{booking, free, leg_is, price_of};
ghost use Rattle.protocol.specs.Forms.{answer_of};
ghost use Rattle.store.specs.Whole.{house};
ghost use Rattle.wire.specs.Bytes.{numbers_in};
ghost use Rattle.checks.specs.Meant.{Meant};

use checks::{are_apart, are_there, connect, read_journey};
use pricing::price;
use protocol::{Answer, Refusal};
use seating::free_seats;
use store::Memory;

// The most classes that a leg can have.
const CLASSES: u32 = 26;

// An answer, and how many numbers of the list beside it are its own.
// Kept: (a) the list of an answer stands beside it in lent memory, so only its length comes with it.
#[derive(Clone, Copy)]
pub struct Reply {
    pub answer: Answer,
    pub listed: usize,
}

// How a booking stands, until when, and what was paid.
pub fn ask_booking(m: &Memory, number: u32) -> Answer
    ensures { Meant m.now.limits (house m.now) (booking number) (answer_of result []) (house m.now) }
{
    let k = number as usize;
    if k >= m.booking_count() {
        return Refusal::NoBooking.at(0);
    }
    let b = m.booking(k);
    Answer::Stands {
        stands: u64::from(b.stands),
        until: u64::from(b.until),
        paid: b.paid,
    }
}

// How many seats are free on a leg in a class.
pub fn ask_free(m: &Memory, leg: u32, class: u32) -> Answer
    ensures { Meant m.now.limits (house m.now) (free leg class) (answer_of result []) (house m.now) }
{
    if class >= CLASSES {
        return Refusal::OutOfRange.at(0);
    }
    let i = leg as usize;
    if i >= m.leg_count() {
        return Refusal::NoLeg.at(0);
    }
    let g = m.leg(i);
    if class >= g.classes {
        return Refusal::NoLeg.at(0);
    }
    Answer::Number {
        value: u64::from(free_seats(m, i, class)),
    }
}

// What a seat in a class costs on these legs.
fn price_on(m: &Memory, class: u32, legs: &[u32]) -> Answer
    requires class { class < 26 }
    requires some { 1 ≤ length legs.now }
    requires few { length legs.now ≤ 8 }
    ensures { Meant m.now.limits (house m.now) (price_of class legs.now) (answer_of result []) (house m.now) }
{
    if !are_there(m, class, legs) {
        return Refusal::NoLeg.at(1);
    }
    if !connect(m, legs) {
        return Refusal::NoJourney.at(1);
    }
    if !are_apart(legs) {
        return Refusal::NoJourney.at(1);
    }
    let Some(cents) = price(m, class, legs) else {
        return Refusal::NoFare.at(1);
    };
    Answer::Number { value: cents }
}

// What a seat in a class costs on the journey that a part lists.
pub fn ask_price(m: &Memory, class: u32, part: &[u8]) -> Answer
    ensures { Meant m.now.limits (house m.now) (price_of class (numbers_in part.now)) (answer_of result []) (house m.now) }
{
    if class >= CLASSES {
        return Refusal::OutOfRange.at(0);
    }
    let Some(journey) = read_journey(part) else {
        return Refusal::OutOfRange.at(0);
    };
    price_on(m, class, journey.as_slice())
}

// What is taken on a leg: for each of its classes, in it and the cheaper ones, at the front of the
// lent numbers. What stands behind them stays.
pub fn ask_leg(m: &Memory, leg: u32, sold: &mut [u64; 26]) -> Reply
    ensures meant { Meant m.now.limits (house m.now) (leg_is leg) (answer_of result.answer (take result.listed sold.new)) (house m.now) }
    ensures listed { result.listed ≤ 26 }
    ensures behind { drop result.listed sold.new ≡ drop result.listed sold.old }
{
    let i = leg as usize;
    if i >= m.leg_count() {
        return Reply {
            answer: Refusal::NoLeg.at(0),
            listed: 0,
        };
    }
    let classes = m.leg(i).classes as usize;
    for (class, count) in sold[..classes].iter_mut().enumerate() {
        *count = u64::from(m.taken(i, class));
    }
    Reply {
        answer: Answer::Sold,
        listed: classes,
    }
}
