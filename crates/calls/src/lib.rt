// Each call on memory, at each stage of the house. The checks stand in the order of the list of
// refusals, each handing its value on or returning the refusal; the first that applies decides, and
// nothing is changed then. `Meant`, of the crate `checks`, is what it means that a call is done as the
// meaning says.
#![tactic(auto)]

ghost use Rattle.std.specs.Prelude.{◌≡◌, ℕ, ◌≤◌, Bool, true, [], take, drop};
ghost use Rattle.meaning.specs.Calls.{books, cancels, files, limits_to, opens, pays, ran, ticks};
ghost use Rattle.meaning.specs.Promise.{thin};
ghost use Rattle.meaning.specs.Statements.{Reached};
ghost use Rattle.protocol.specs.Forms.{answer_of, call_of};
ghost use Rattle.store.specs.Whole.{Lent, house};
ghost use Rattle.wire.specs.Bytes.{numbers_in};
ghost use Rattle.wire.specs.Rows.{decoded};
ghost use Rattle.checks.specs.Meant.{Meant};
ghost use Rattle.calls.specs.Ranges.{Asks, NextNumber};
ghost use Rattle.calls.specs.Stage.{Answered, Done, Idle, Promised, calls_of, stage_at};

use checks::{
    Schedule, Seats, are_apart, are_there, connect, fare_in_range, read_journey, read_limits,
};
use pricing::price;
use protocol::{Answer, Call, Refusal};
use questions::{Reply, ask_booking, ask_free, ask_leg, ask_price};
use records::{Booking, Fare};
use seating::serve_newest;
use store::Memory;
use wire::decode;

// The number of one record more; none where the limit is reached.
fn next_number(count: usize, most: u32) -> Option<usize>
    ensures { NextNumber count most result }
{
    (count < most as usize).then_some(count)
}

// Opens a leg of a schedule, with the limits that a part lists.
pub fn open_leg(m: &mut Memory, schedule: &Schedule, part: &[u8]) -> Answer
    ensures meant { Meant m.old.limits (house m.old) (opens schedule.now.from schedule.now.to schedule.now.leaves schedule.now.arrives (numbers_in part.now)) (answer_of result []) (house m.new) }
    ensures lent { Lent m.old m.new }
{
    if !schedule.is_in_range() {
        return Refusal::OutOfRange.at(0);
    }
    let Some(limits) = read_limits(part) else {
        return Refusal::OutOfRange.at(0);
    };
    if schedule.leaves <= m.clock() {
        return Refusal::NoJourney.at(2);
    }
    let Some(number) = next_number(m.leg_count(), m.limits().legs) else {
        return Refusal::LimitReached.at(0);
    };
    m.push_leg(&schedule.with(limits.as_slice()));
    Answer::Number {
        value: number as u64,
    }
}

// Files a fare.
pub fn file_fare(m: &mut Memory, fare: &Fare) -> Answer
    ensures meant { Meant m.old.limits (house m.old) (files fare.now.origin fare.now.goal fare.now.class fare.now.most fare.now.price) (answer_of result []) (house m.new) }
    ensures lent { Lent m.old m.new }
{
    if !fare_in_range(fare) {
        return Refusal::OutOfRange.at(0);
    }
    let Some(number) = next_number(m.fare_count(), m.limits().fares) else {
        return Refusal::LimitReached.at(0);
    };
    m.push_fare(fare);
    Answer::Number {
        value: number as u64,
    }
}

// Books so many seats in a class on these legs. Nobody waits for what is free, so the new booking is
// the only one that can be served now.
fn book_on(m: &mut Memory, seats: Seats, legs: &[u32]) -> Answer
    requires idle { Idle m.old }
    requires asks { Asks seats.class seats.count legs.now }
    ensures meant { Meant m.old.limits (house m.old) (books seats.class seats.count legs.now) (answer_of result []) (house m.new) }
    ensures lent { Lent m.old m.new }
{
    if !are_there(m, seats.class, legs) {
        return Refusal::NoLeg.at(2);
    }
    if !connect(m, legs) {
        return Refusal::NoJourney.at(2);
    }
    if !are_apart(legs) {
        return Refusal::NoJourney.at(2);
    }
    if m.leg(legs[0] as usize).leaves <= m.clock() {
        return Refusal::NoJourney.at(2);
    }
    let Some(_price) = price(m, seats.class, legs) else {
        return Refusal::NoFare.at(2);
    };
    let Some(number) = next_number(m.booking_count(), m.limits().bookings) else {
        return Refusal::LimitReached.at(0);
    };
    let until = m.clock() + m.limits().hold;
    m.push_booking(&Booking::new(seats.class, seats.count, legs));
    let stands = u64::from(serve_newest(m, until));
    Answer::Booked {
        booking: number as u64,
        stands,
    }
}

// Books so many seats in a class on the journey that a part lists.
pub fn book(m: &mut Memory, seats: Seats, part: &[u8]) -> Answer
    requires idle { Idle m.old }
    ensures meant { Meant m.old.limits (house m.old) (books seats.class seats.count (numbers_in part.now)) (answer_of result []) (house m.new) }
    ensures lent { Lent m.old m.new }
{
    if !seats.are_in_range() {
        return Refusal::OutOfRange.at(0);
    }
    let Some(journey) = read_journey(part) else {
        return Refusal::OutOfRange.at(0);
    };
    book_on(m, seats, journey.as_slice())
}

// A stage of the house: which calls can be done, by their numbers, and how the four are answered that
// the first stage can't do yet. All other calls are done alike at every stage.
pub trait Stage {
    ghost can: { ℕ → Bool };

    // Pays a booking.
    fn pay(m: &mut Memory, booking: u32) -> Answer
        ensures { Answered can m.old m.new (pays booking) result [] };

    // Cancels a booking.
    fn cancel(m: &mut Memory, booking: u32) -> Answer
        ensures { Answered can m.old m.new (cancels booking) result [] };

    // Gives a leg the limits that a part lists.
    fn change_limits(m: &mut Memory, leg: u32, part: &[u8]) -> Answer
        ensures { Answered can m.old m.new (limits_to leg (numbers_in part.now)) result [] };

    // Lets so many ticks go by.
    fn pass_time(m: &mut Memory, count: u32) -> Answer
        ensures { Answered can m.old m.new (ticks count) result [] };

    // What can be done at the first stage can be done at each.
    ghost first: { (k : ℕ) → thin k ≡ true → can k ≡ true };
}

// The stage that opens legs, files fares, books and asks. The other calls are refused by 2.
pub struct FirstStage;

impl Stage for FirstStage {
    ghost can = { thin };

    fn pay(_m: &mut Memory, _booking: u32) -> Answer {
        Refusal::OutOfRange.at(0)
    }

    fn cancel(_m: &mut Memory, _booking: u32) -> Answer {
        Refusal::OutOfRange.at(0)
    }

    fn change_limits(_m: &mut Memory, _leg: u32, _part: &[u8]) -> Answer {
        Refusal::OutOfRange.at(0)
    }

    fn pass_time(_m: &mut Memory, _count: u32) -> Answer {
        Refusal::OutOfRange.at(0)
    }

    ghost first = { λ k e. e };
}

// Does a call: answers it, and leaves the house as the meaning says of a stage. Nobody waits for what
// is free then, if nobody did before, and the house is one that calls lead to, if it was one.
pub fn perform<S: Stage>(m: &mut Memory, call: Call, part: &[u8], sold: &mut [u64; 26]) -> Reply
    requires idle { Idle m.old }
    ensures done { Done S.can m.old m.new (call_of call (numbers_in part.now)) result.answer (take result.listed sold.new) }
    ensures listed { result.listed ≤ 26 }
    ensures behind { drop result.listed sold.new ≡ drop result.listed sold.old }
{
    let answer = match call {
        Call::Open {
            from,
            to,
            leaves,
            arrives,
        } => {
            let schedule = Schedule {
                from,
                to,
                leaves,
                arrives,
            };
            open_leg(m, &schedule, part)
        }
        Call::File {
            origin,
            goal,
            class,
            most_legs,
            price,
        } => {
            let fare = Fare {
                origin,
                goal,
                class,
                most: most_legs,
                price,
            };
            file_fare(m, &fare)
        }
        Call::Book { class, seats } => {
            let seats = Seats {
                class,
                count: seats,
            };
            book(m, seats, part)
        }
        Call::Free { leg, class } => ask_free(m, leg, class),
        Call::Price { class } => ask_price(m, class, part),
        Call::Booking { booking } => ask_booking(m, booking),
        Call::Leg { leg } => return ask_leg(m, leg, sold),
        Call::Pay { booking } => S::pay(m, booking),
        Call::Cancel { booking } => S::cancel(m, booking),
        Call::Limits { leg } => S::change_limits(m, leg, part),
        Call::Ticks { count } => S::pass_time(m, count),
    };
    Reply { answer, listed: 0 }
}

// Does the call that a row of bytes is. Bytes that are no call are refused by 1, where they cease to
// be one.
pub fn answer_row<S: Stage>(m: &mut Memory, bytes: &[u8], sold: &mut [u64; 26]) -> Reply
    requires idle { Idle m.old }
    ensures done { Done S.can m.old m.new (decoded bytes.now) result.answer (take result.listed sold.new) }
    ensures listed { result.listed ≤ 26 }
    ensures behind { drop result.listed sold.new ≡ drop result.listed sold.old }
{
    let row = match decode(bytes) {
        Ok(row) => row,
        Err(place) => {
            return Reply {
                answer: Refusal::NoCall.at(place as u64),
                listed: 0,
            };
        }
    };
    perform::<S>(m, row.call, row.list, sold)
}

// Does the calls of a list of rows, one after the other. Whatever they are and in whatever order they
// come, memory means the house that the meaning's run of them leads to, and all that is promised of
// such a house holds of it.
pub fn run_rows<S: Stage>(m: &mut Memory, rows: &[&[u8]])
    requires reached { Reached (stage_at S.can m.old) (house m.old) }
    ensures ran { house m.new ≡ ran (stage_at S.can m.old) (house m.old) (calls_of rows.now) }
    ensures promised { Promised (stage_at S.can m.new) (house m.new) }
    ensures lent { Lent m.old m.new }
{
    let mut sold = [0; 26];
    for row in rows {
        let _ = answer_row::<S>(m, row, &mut sold);
    }
}
