// The worked example's legs, fares and bookings, walked through the store step by step, with counts
// that were worked out by hand from the rules; and that what is stored is loaded again, as contracts.
#![tactic(auto)]

ghost use Rattle.std.specs.Prelude.{◌≡◌, ◌+◌, ◌*◌, ◌<◌, ◌≤◌, true, length, ◌≢◌};
ghost use Rattle.meaning.specs.Calls.{all_to, falling};
ghost use Rattle.records.specs.Words.{booking_of, leg_in, leg_of};
ghost use Rattle.store.specs.Range.{FineBooking, FineFare, FineLeg};

use records::{
    Booking, Fare, Leg, load_booking, load_fare, load_leg, store_booking, store_fare, store_leg,
};

// A leg that is stored is loaded again.
pub fn leg_again(legs: &mut [u32], i: usize, g: &Leg) -> Leg
    requires { i * 128 + 128 ≤ length legs.old }
    ensures { result ≡ g.now }
{
    store_leg(legs, i, g);
    load_leg(legs, i)
}

// Another leg is then loaded as it was before.
pub fn other_leg(legs: &mut [u32], i: usize, g: &Leg, j: usize) -> (Leg, Leg)
    requires there { i * 128 + 128 ≤ length legs.old }
    requires other { j * 128 + 128 ≤ length legs.old }
    requires apart { j ≢ i }
    ensures before { result.0 ≡ leg_in legs.old j }
    ensures same { result.0 ≡ result.1 }
    ensures stored { leg_in legs.new i ≡ g.now }
{
    let before = load_leg(legs, j);
    store_leg(legs, i, g);
    (before, load_leg(legs, j))
}

// A fare that is stored is loaded again.
pub fn fare_again(fares: &mut [u32], k: usize, f: &Fare) -> Fare
    requires { k * 24 + 24 ≤ length fares.old }
    ensures { result ≡ f.now }
{
    store_fare(fares, k, f);
    load_fare(fares, k)
}

// A booking that is stored is loaded again, with its sum.
pub fn booking_again(bookings: &mut [u32], sums: &mut [u64], k: usize, b: &Booking) -> Booking
    requires words { k * 22 + 22 ≤ length bookings.old }
    requires sum { k < length sums.old }
    ensures { result ≡ b.now }
{
    store_booking(bookings, k, b);
    sums[k] = b.paid;
    load_booking(bookings, sums, k)
}

#[cfg(test)]
mod tests {
    use limits::{Limits, Misfit, Sizes};
    use records::{Booking, Fare, Leg, Standing, load_fare, store_fare};
    use std::process::Abort;
    use std::test::Fail;
    use store::{Memory, open};

    // A leg with these limits, where there may be one more.
    fn add_leg(
        rt: &impl Abort,
        m: &mut Memory,
        leaves: u32,
        arrives: u32,
        from: u32,
        limits: &[u32],
    ) -> Result<(), Fail>
        requires place { from < 65535 }
        requires fine { FineLeg (leg_of from (from + 1) leaves arrives limits.now) }
    {
        assert!(rt; m.leg_count() < m.limits().legs as usize);
        m.push_leg(&Leg::new(from, from + 1, leaves, arrives, limits));
        Ok(())
    }

    // A booking of one or both of two legs, that waits, where there may be one more.
    fn add_booking(
        rt: &impl Abort,
        m: &mut Memory,
        class: u32,
        seats: u32,
        legs: &[u32],
    ) -> Result<(), Fail>
        requires fine { FineBooking 2 (booking_of class seats legs.now) }
    {
        assert!(rt; m.leg_count() == 2);
        assert!(rt; m.booking_count() < m.limits().bookings as usize);
        m.push_booking(&Booking::new(class, seats, legs));
        Ok(())
    }

    // Booking k stands otherwise.
    fn stand(
        rt: &impl Abort,
        m: &mut Memory,
        k: usize,
        stands: Standing,
        until: u32,
    ) -> Result<(), Fail> {
        assert!(rt; k < m.booking_count());
        m.set_stand(k, stands, until);
        Ok(())
    }

    // What is taken on leg i, from class 0 on, is just this.
    fn taken_is(rt: &impl Abort, m: &Memory, i: usize, expected: &[u32]) {
        assert!(rt; i < m.leg_count());
        assert!(rt; expected.len() <= 26);
        for c in 0..expected.len() {
            assert_eq!(rt; m.taken(i, c), expected[c]);
        }
    }

    // Leg 0 from 1 to 2 with limits 5, 3 and 2, leg 1 from 2 to 3 with limits 5 and 4; and bookings
    // that wait: two seats in class 1 on both legs, two in class 1 on leg 0, three in class 0 on both.
    fn fill(rt: &impl Abort, m: &mut Memory) -> Result<(), Fail> {
        add_leg(rt, m, 100, 200, 1, &[5, 3, 2])?;
        add_leg(rt, m, 230, 300, 2, &[5, 4])?;
        add_booking(rt, m, 1, 2, &[0, 1])?;
        add_booking(rt, m, 1, 2, &[0])?;
        add_booking(rt, m, 0, 3, &[0, 1])
    }

    // A fare whose numbers are in range, where there may be one more.
    fn add_fare(rt: &impl Abort, m: &mut Memory, f: &Fare)
        requires fine { FineFare f.now }
    {
        assert!(rt; m.fare_count() < m.limits().fares as usize);
        m.push_fare(f);
    }

    // Leg i has just these limits.
    fn limits_are(rt: &impl Abort, m: &Memory, i: usize, expected: &[u32]) -> Result<(), Fail> {
        assert!(rt; i < m.leg_count());
        assert!(rt; expected.len() <= 26);
        let g = m.leg(i);
        assert_eq!(rt; g.classes as usize, expected.len());
        for c in 0..expected.len() {
            assert_eq!(rt; g.limits[c], expected[c]);
        }
        Ok(())
    }

    // Leg i has these limits from now on, as many as it had.
    fn limit(rt: &impl Abort, m: &mut Memory, i: usize, limits: &[u32]) -> Result<(), Fail>
        requires falling { falling limits.now ≡ true }
        requires small { all_to 1000 limits.now ≡ true }
    {
        assert!(rt; i < m.leg_count());
        assert!(rt; m.leg(i).classes as usize == limits.len());
        m.set_limits(i, limits);
        Ok(())
    }

    // Booking k is paid.
    fn pay(rt: &impl Abort, m: &mut Memory, k: usize, sum: u64) -> Result<(), Fail> {
        assert!(rt; k < m.booking_count());
        m.settle(k, Standing::Paid, 0, sum);
        Ok(())
    }

    // Booking k stands so.
    fn stands_so(
        rt: &impl Abort,
        m: &Memory,
        k: usize,
        stands: u32,
        until: u32,
        paid: u64,
    ) -> Result<(), Fail> {
        assert!(rt; k < m.booking_count());
        let b = m.booking(k);
        assert_eq!(rt; b.stands, stands);
        assert_eq!(rt; b.until, until);
        assert_eq!(rt; b.paid, paid);
        Ok(())
    }

    // What is taken on both legs.
    fn both_are(rt: &impl Abort, m: &Memory, first: &[u32], second: &[u32]) -> Result<(), Fail> {
        taken_is(rt, m, 0, first);
        taken_is(rt, m, 1, second);
        Ok(())
    }

    // The first booking is held on both legs, and gone on both.
    #[test]
    fn a_hold_comes_and_goes(rt: HostRuntime) -> Result<(), Fail> {
        let mut legs = [0; 256];
        let mut fares = [0; 24];
        let mut bookings = [0; 66];
        let mut sums = [0; 3];
        let limits = Limits {
            gap: 10,
            hold: 20,
            legs: 2,
            fares: 1,
            bookings: 3,
        };
        let mut m = open(limits, &mut legs, &mut fares, &mut bookings, &mut sums);
        fill(&rt, &mut m)?;
        both_are(&rt, &m, &[0, 0, 0], &[0, 0])?;
        stand(&rt, &mut m, 0, Standing::Held, 20)?;
        both_are(&rt, &m, &[2, 2, 0], &[2, 2])?;
        stand(&rt, &mut m, 0, Standing::Gone, 0)?;
        both_are(&rt, &m, &[0, 0, 0], &[0, 0])
    }

    // The worked example from its first booking to its last. Booking 2, in class 0, counts in class 0
    // alone; a payment leaves the counts as they are, and so do other limits.
    fn go_on(rt: &impl Abort, m: &mut Memory) -> Result<(), Fail> {
        stand(rt, m, 0, Standing::Held, 20)?;
        stand(rt, m, 2, Standing::Held, 20)?;
        both_are(rt, m, &[5, 2, 0], &[5, 2])?;
        pay(rt, m, 0, 160)?;
        both_are(rt, m, &[5, 2, 0], &[5, 2])?;
        m.set_clock(20);
        stand(rt, m, 2, Standing::Gone, 0)?;
        both_are(rt, m, &[2, 2, 0], &[2, 2])?;
        stand(rt, m, 0, Standing::Gone, 0)?;
        stand(rt, m, 1, Standing::Held, 40)?;
        both_are(rt, m, &[2, 2, 0], &[0, 0])?;
        limit(rt, m, 0, &[1, 1, 1])?;
        limits_are(rt, m, 0, &[1, 1, 1])?;
        limits_are(rt, m, 1, &[5, 4])?;
        both_are(rt, m, &[2, 2, 0], &[0, 0])?;
        stands_so(rt, m, 0, 3, 0, 160)?;
        stands_so(rt, m, 1, 1, 40, 0)
    }

    #[test]
    fn the_worked_example(rt: HostRuntime) -> Result<(), Fail> {
        let mut legs = [7; 256];
        let mut fares = [7; 24];
        let mut bookings = [7; 66];
        let mut sums = [7; 3];
        let limits = Limits {
            gap: 10,
            hold: 20,
            legs: 2,
            fares: 1,
            bookings: 3,
        };
        let mut m = open(limits, &mut legs, &mut fares, &mut bookings, &mut sums);
        fill(&rt, &mut m)?;
        go_on(&rt, &mut m)
    }

    // What is asked for, and what is told where a slice is one too short or a limit out of range.
    #[test]
    fn misfits_are_told(rt: HostRuntime) {
        let limits = Limits {
            gap: 10,
            hold: 20,
            legs: 2,
            fares: 1,
            bookings: 3,
        };
        let asked = limits.asks();
        assert_eq!(rt; (asked.legs, asked.fares), (256, 24));
        assert_eq!(rt; (asked.bookings, asked.sums), (66, 3));
        assert_eq!(rt; limits.misfit(&asked), None);
        assert_eq!(rt;
            limits.misfit(&Sizes { legs: 255, ..asked }),
            Some(Misfit::Legs)
        );
        assert_eq!(rt;
            limits.misfit(&Sizes { fares: 23, ..asked }),
            Some(Misfit::Fares)
        );
        assert_eq!(rt;
            limits.misfit(&Sizes {
                bookings: 65,
                ..asked
            },),
            Some(Misfit::Bookings)
        );
        assert_eq!(rt;
            limits.misfit(&Sizes { sums: 2, ..asked }),
            Some(Misfit::Sums)
        );
        assert_eq!(rt;
            Limits { hold: 0, ..limits }.misfit(&asked),
            Some(Misfit::Range)
        );
        assert_eq!(rt;
            Limits {
                gap: 65_537,
                ..limits
            }
            .misfit(&asked),
            Some(Misfit::Range)
        );
    }

    // A fare is filed once, since the limits allow one, and asked for by its number.
    #[test]
    fn a_fare_is_filed(rt: HostRuntime) {
        let mut legs = [0; 256];
        let mut fares = [0; 24];
        let mut bookings = [0; 66];
        let mut sums = [0; 3];
        let limits = Limits {
            gap: 10,
            hold: 20,
            legs: 2,
            fares: 1,
            bookings: 3,
        };
        let mut m = open(limits, &mut legs, &mut fares, &mut bookings, &mut sums);
        let f = Fare {
            origin: 1,
            goal: 3,
            class: 1,
            most: 2,
            price: 80,
        };
        add_fare(&rt, &mut m, &f);
        assert!(rt; m.fare_count() == 1);
        let g = m.fare(0);
        assert_eq!(rt; (g.origin, g.goal, g.class), (1, 3, 1));
        assert_eq!(rt; (g.most, g.price), (2, 80));
        assert_eq!(rt; m.leg_count(), 0);
        assert_eq!(rt; m.clock(), 0);
    }

    // A record that is stored between two others leaves both, and is loaded again.
    #[test]
    fn neighbours_stay(rt: HostRuntime) {
        let mut fares = [7; 72];
        let f = Fare {
            origin: 1,
            goal: 3,
            class: 0,
            most: 2,
            price: 200,
        };
        store_fare(&mut fares, 1, &f);
        assert_eq!(rt; load_fare(&fares, 0).price, 7);
        assert_eq!(rt; load_fare(&fares, 1).price, 200);
        assert_eq!(rt; load_fare(&fares, 2).origin, 7);
        assert_eq!(rt; fares[28], 200);
        assert_eq!(rt; fares[29], 7);
    }
}
