// The calls that change what is there: a payment, a cancellation, other limits, and time that goes
// by. The checks stand in the order of the list of refusals, each handing its value on or returning
// the refusal; the first that applies decides, and nothing is changed then. `Meant`, of the crate
// `checks`, is what it means that a call is done as the meaning says.
//
// A payment looks at one booking and the fares. Time goes through all bookings once, and serving
// whoever waits goes through them once for each that is served, and once more.
#![tactic(auto)]

ghost use Rattle.std.specs.Prelude.{◌≡◌, ◌<◌, [], length};
ghost use Rattle.meaning.specs.House.{over};
ghost use Rattle.meaning.specs.Calls.{cancels, limits_to, pays, the_booking, ticks};
ghost use Rattle.protocol.specs.Forms.{answer_of};
ghost use Rattle.store.specs.Whole.{Lent, house};
ghost use Rattle.wire.specs.Bytes.{numbers_in};
ghost use Rattle.checks.specs.Meant.{Meant};
ghost use Rattle.changes.specs.Steps.{ended, gone_at, then_served, ticks_fit};

use checks::read_limits;
use pricing::price;
use protocol::{Answer, Refusal};
use records::Standing;
use seating::serve;
use store::Memory;

// How a booking stands that is held.
const HELD: u32 = 1;

// How a booking stands that is paid.
const PAID: u32 = 2;

// How a booking stands that is gone.
const GONE: u32 = 3;

// The tick that never comes.
const END: u32 = 16_777_216;

// A booking that is held is paid, at the price of this moment for each of its seats; where there is
// none, the meaning has 0. Nobody is served: a payment frees nothing.
pub fn pay(m: &mut Memory, booking: u32) -> Answer
    ensures meant { Meant m.old.limits (house m.old) (pays booking) (answer_of result []) (house m.new) }
    ensures lent { Lent m.old m.new }
{
    let k = booking as usize;
    if k >= m.booking_count() {
        return Refusal::NoBooking.at(0);
    }
    let b = m.booking(k);
    if b.stands != HELD {
        return Refusal::StandsOtherwise.at(0);
    }
    let seat = price(m, b.class, &b.legs[0..b.count as usize]).unwrap_or(0);
    let sum = u64::from(b.seats) * seat;
    m.settle(k, Standing::Paid, 0, sum);
    Answer::Number { value: sum }
}

// Whoever waits is served, each held until now and the time that a hold lasts.
fn serve_now(m: &mut Memory)
    ensures house { house m.new ≡ then_served (house m.old) }
    ensures lent { Lent m.old m.new }
{
    let until = m.clock() + m.limits().hold;
    serve(m, until);
}

// A booking that isn't gone is gone, and whoever waits is served.
pub fn cancel(m: &mut Memory, booking: u32) -> Answer
    ensures meant { Meant m.old.limits (house m.old) (cancels booking) (answer_of result []) (house m.new) }
    ensures lent { Lent m.old m.new }
{
    let k = booking as usize;
    if k >= m.booking_count() {
        return Refusal::NoBooking.at(0);
    }
    if m.booking(k).stands >= GONE {
        return Refusal::StandsOtherwise.at(0);
    }
    m.set_stand(k, Standing::Gone, 0);
    serve_now(m);
    Answer::Number {
        value: u64::from(booking),
    }
}

// From now on a leg has the limits that a part lists, as many as it had, and whoever waits is
// served. What is taken stays.
pub fn change_limits(m: &mut Memory, leg: u32, part: &[u8]) -> Answer
    ensures meant { Meant m.old.limits (house m.old) (limits_to leg (numbers_in part.now)) (answer_of result []) (house m.new) }
    ensures lent { Lent m.old m.new }
{
    let Some(limits) = read_limits(part) else {
        return Refusal::OutOfRange.at(0);
    };
    let i = leg as usize;
    if i >= m.leg_count() {
        return Refusal::NoLeg.at(0);
    }
    if m.leg(i).classes as usize != limits.len() {
        return Refusal::NoLeg.at(0);
    }
    m.set_limits(i, limits.as_slice());
    serve_now(m);
    Answer::Number {
        value: u64::from(leg),
    }
}

// Is over at a tick what stands so, until a tick, for a journey whose first leg leaves then: a hold
// whose time has come, or what waits or is held for a journey that has begun.
fn has_ended(stands: u32, until: u32, leaves: u32, tick: u32) -> bool
    ensures { result ≡ ended stands until leaves tick }
{
    (stands == HELD && until <= tick) || (stands < PAID && leaves <= tick)
}

// Is booking k over at a tick. What is paid or gone never is.
fn is_over(m: &Memory, k: usize, tick: u32) -> bool
    requires there { k < length (house m.now).bookings }
    ensures { result ≡ over tick (house m.now).legs (the_booking (house m.now) k) }
{
    let b = m.booking(k);
    if b.stands >= PAID {
        return false;
    }
    let first = m.leg(b.legs[0] as usize);
    has_ended(b.stands, b.until, first.leaves, tick)
}

// Each booking that is over at a tick is gone.
fn run_out(m: &mut Memory, tick: u32)
    ensures house { house m.new ≡ gone_at tick (house m.old) }
    ensures lent { Lent m.old m.new }
{
    // Kept: (a) bookings are in lent words, so they are gone through by number.
    for k in 0..m.booking_count() {
        if is_over(m, k, tick) {
            m.set_stand(k, Standing::Gone, 0);
        }
    }
}

// Is a number of ticks in range.
fn ticks_in_range(count: u32) -> bool
    ensures { result ≡ ticks_fit count }
{
    1 <= count && count <= 65_536
}

// So many ticks go by: what is over then is gone, and whoever waits is served.
pub fn pass_time(m: &mut Memory, count: u32) -> Answer
    ensures meant { Meant m.old.limits (house m.old) (ticks count) (answer_of result []) (house m.new) }
    ensures lent { Lent m.old m.new }
{
    if !ticks_in_range(count) {
        return Refusal::OutOfRange.at(0);
    }
    let tick = m.clock() + count;
    if tick >= END {
        return Refusal::LimitReached.at(0);
    }
    m.set_clock(tick);
    run_out(m, tick);
    serve_now(m);
    Answer::Number {
        value: u64::from(tick),
    }
}
