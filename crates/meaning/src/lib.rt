// What the house means (specs/), and what is promised of it: each statement is the contract of a
// function here, so that this crate is built only once all of them are proved. The functions do
// nothing when called.
//
// | Statement      | says                                                      | proved in            |
// |----------------|-----------------------------------------------------------|----------------------|
// | sold_once      | no more is taken than the limit, or than was before       | proofs/Sold.antt     |
// | nobody_waits   | there is room for none that waits                         | proofs/Waits.antt    |
// | in_time        | no hold outlives its time or its journey's beginning      | proofs/Time.antt     |
// | paid_stays     | what was paid stays paid until it is cancelled            | proofs/Paid.antt     |
// | first_served   | of two that wait for the same, the earlier is held first  | proofs/First.antt    |
// | cheapest       | a price is the cheapest over all ways to cut a journey    | proofs/Cheap.antt    |
// | free_is_free   | so many seats as are said to be free are held at once     | proofs/Free.antt     |
// | untouched      | a leg's count changes only by bookings of that leg        | proofs/Count.antt    |
// | turned_away    | a refused call changes nothing                            | proofs/Turned.antt   |
// | newcomer_waits | a newcomer isn't held while one waits for the same        | proofs/Newcomer.antt |
// | example_holds  | the worked example is answered as worked out by hand      | proofs/Sample.antt   |
#![tactic(auto)]

ghost use Rattle.meaning.specs.Example.{ExampleHolds};
ghost use Rattle.meaning.specs.Statements.{Cheapest, FirstServed, FreeIsFree, InTime, NewcomerWaits, NobodyWaits, PaidStays, SoldOnce, TurnedAway, Untouched};

// A seat is sold once.
pub fn sold_once()
    ensures { SoldOnce }
{}

// Nobody waits for what is free.
pub fn nobody_waits()
    ensures { NobodyWaits }
{}

// No hold outlives its time or the beginning of its journey.
pub fn in_time()
    ensures { InTime }
{}

// What was paid stays paid until it is cancelled.
pub fn paid_stays()
    ensures { PaidStays }
{}

// First come, first served.
pub fn first_served()
    ensures { FirstServed }
{}

// A price is the cheapest over all ways to cut a journey into fares.
pub fn cheapest()
    ensures { Cheapest }
{}

// What is said to be free can be had.
pub fn free_is_free()
    ensures { FreeIsFree }
{}

// What is taken on a leg changes only by bookings of that leg.
pub fn untouched()
    ensures { Untouched }
{}

// A call that is refused changes nothing.
pub fn turned_away()
    ensures { TurnedAway }
{}

// A newcomer does not overtake whoever waits for the same.
pub fn newcomer_waits()
    ensures { NewcomerWaits }
{}

// The worked example.
pub fn example_holds()
    ensures { ExampleHolds }
{}
