// What is free, and who is served, on three small legs, with answers worked out by hand from the rules.
#![tactic(auto)]

ghost use Rattle.std.specs.Prelude.{◌≡◌, ◌+◌, ◌<◌, true, OnOk};
ghost use Rattle.meaning.specs.Calls.{all_to, falling};
ghost use Rattle.records.specs.Words.{leg_of};
ghost use Rattle.seating.specs.Serving.{NoneCould};
ghost use Rattle.seating_tests.specs.Bookable.{Bookable};
ghost use Rattle.store.specs.Range.{FineLeg};
ghost use Rattle.store.specs.Whole.{house};

#[cfg(test)]
mod tests {
    use limits::Limits;
    use records::{Booking, Leg, Standing};
    use seating::{first_fit, free_seats, has_room, serve, serve_newest};
    use std::process::Abort;
    use std::test::Fail;
    use store::{Memory, open};

    // With what every test opens its house.
    const LIMITS: Limits = Limits {
        gap: 10,
        hold: 20,
        legs: 3,
        fares: 0,
        bookings: 4,
    };

    // A leg from a place to the next one, where there may be one more.
    fn add_leg(
        rt: &impl Abort,
        m: &mut Memory,
        from: u32,
        leaves: u32,
        limits: &[u32],
    ) -> Result<(), Fail>
        requires range { from + leaves < 65535 }
        requires fine { FineLeg (leg_of from (from + 1) leaves (leaves + 50) limits.now) }
    {
        assert!(rt; m.leg_count() < m.limits().legs as usize);
        m.push_leg(&Leg::new(from, from + 1, leaves, leaves + 50, limits));
        Ok(())
    }

    // Leg 0 with limits 5, 3 and 2, leg 1 with limits 5 and 4, leg 2 with 1,000 and 1,000.
    fn fill(rt: &impl Abort, m: &mut Memory) -> Result<(), Fail> {
        add_leg(rt, m, 1, 100, &[5, 3, 2])?;
        add_leg(rt, m, 2, 200, &[5, 4])?;
        add_leg(rt, m, 3, 300, &[1_000, 1_000])
    }

    // May so many seats be booked in a class on leg i: there are such a leg and such seats, and there may
    // be one booking more.
    fn may_book(rt: &impl Abort, m: &Memory, class: u32, seats: u32, i: u32) -> Result<(), Fail>
        ensures { OnOk result (Bookable (house m.now) m.now.limits.bookings class seats i) }
    {
        assert!(rt; (i as usize) < m.leg_count());
        assert!(rt; class < 26);
        assert!(rt; 1 <= seats && seats <= 9);
        assert!(rt; m.booking_count() < m.limits().bookings as usize);
        Ok(())
    }

    // A booking of leg i that waits; nobody is served yet.
    fn wait_for(
        rt: &impl Abort,
        m: &mut Memory,
        class: u32,
        seats: u32,
        i: u32,
    ) -> Result<(), Fail> {
        may_book(rt, m, class, seats, i)?;
        m.push_booking(&Booking::new(class, seats, &[i]));
        Ok(())
    }

    // A booking of leg i, which is served if it can be. Tells whether it is held.
    fn book(rt: &impl Abort, m: &mut Memory, class: u32, seats: u32, i: u32) -> Result<bool, Fail>
        requires idle { NoneCould (house m.old) }
        ensures idle { NoneCould (house m.new) }
    {
        may_book(rt, m, class, seats, i)?;
        m.push_booking(&Booking::new(class, seats, &[i]));
        Ok(serve_newest(m, 20))
    }

    // The same for a booking of legs 0 and 1.
    fn book_both(rt: &impl Abort, m: &mut Memory, class: u32, seats: u32) -> Result<bool, Fail>
        requires idle { NoneCould (house m.old) }
        ensures idle { NoneCould (house m.new) }
    {
        may_book(rt, m, class, seats, 1)?;
        m.push_booking(&Booking::new(class, seats, &[0, 1]));
        Ok(serve_newest(m, 20))
    }

    // Booking k is paid, or gone; whoever waits is not served yet.
    fn stand(rt: &impl Abort, m: &mut Memory, k: usize, stands: Standing) {
        assert!(rt; k < m.booking_count());
        m.set_stand(k, stands, 0);
    }

    // Leg i has these limits from now on, as many as it had.
    fn limit(rt: &impl Abort, m: &mut Memory, i: usize, limits: &[u32]) -> Result<(), Fail>
        requires falling { falling limits.now ≡ true }
        requires small { all_to 1000 limits.now ≡ true }
    {
        assert!(rt; i < m.leg_count());
        assert!(rt; m.leg(i).classes as usize == limits.len());
        m.set_limits(i, limits);
        Ok(())
    }

    // Leg 0 has limits of 1 from now on.
    fn lower(rt: &impl Abort, m: &mut Memory) -> Result<(), Fail> {
        limit(rt, m, 0, &[1, 1, 1])
    }

    // Room for so many seats in a class on leg i is just this.
    fn room_is(rt: &impl Abort, m: &Memory, i: u32, class: u32, seats: u32, expected: bool) {
        assert!(rt; (i as usize) < m.leg_count());
        assert_eq!(rt; has_room(m, &[i], class, seats), expected);
    }

    // What is free on leg i, from class 0 on, is just this.
    fn free_is(rt: &impl Abort, m: &Memory, i: usize, expected: &[u32]) {
        assert!(rt; i < m.leg_count());
        assert!(rt; expected.len() <= 26);
        for c in 0..expected.len() {
            assert_eq!(rt; free_seats(m, i, c as u32), expected[c]);
        }
    }

    // How the bookings stand, from number 0 on, is just this.
    fn stand_so(rt: &impl Abort, m: &Memory, expected: &[u32]) {
        assert!(rt; m.booking_count() == expected.len());
        for k in 0..expected.len() {
            assert_eq!(rt; m.booking(k).stands, expected[k]);
        }
    }

    // Two seats of leg 0 in class 1 are held: of limits 5, 3 and 2 are left 3, 1 and 2, and in class 2
    // no more than class 1 leaves.
    fn the_first_bookings(rt: &impl Abort, m: &mut Memory) -> Result<(), Fail> {
        serve(m, 20);
        assert!(rt; book_both(rt, m, 1, 2)?);
        free_is(rt, m, 0, &[3, 1, 1]);
        free_is(rt, m, 1, &[3, 2]);
        assert!(rt; !book(rt, m, 1, 2, 0)?);
        assert!(rt; book_both(rt, m, 0, 3)?);
        stand_so(rt, m, &[1, 0, 1]);
        free_is(rt, m, 0, &[0, 0, 0]);
        free_is(rt, m, 1, &[0, 0]);
        Ok(())
    }

    // Booking 0 is gone, so booking 1 is held, until tick 40.
    fn one_is_gone(rt: &impl Abort, m: &mut Memory) {
        assert_eq!(rt; first_fit(m), None);
        stand(rt, m, 0, Standing::Gone);
        assert_eq!(rt; first_fit(m), Some(1));
        serve(m, 40);
        assert_eq!(rt; first_fit(m), None);
        stand_so(rt, m, &[3, 1, 1]);
        assert!(rt; m.booking_count() == 3);
        assert_eq!(rt; m.booking(1).until, 40);
        assert_eq!(rt; m.booking(2).until, 20);
        free_is(rt, m, 0, &[0, 0, 0]);
        free_is(rt, m, 1, &[2, 2]);
    }

    #[test]
    fn the_worked_example(rt: HostRuntime) -> Result<(), Fail> {
        let mut legs = [0; 384];
        let mut fares = [0; 0];
        let mut bookings = [0; 88];
        let mut sums = [0; 4];
        let mut m = open(LIMITS, &mut legs, &mut fares, &mut bookings, &mut sums);
        fill(&rt, &mut m)?;
        the_first_bookings(&rt, &mut m)?;
        one_is_gone(&rt, &mut m);
        Ok(())
    }

    // Class 0 is sold out, so there is no room in class 2, whose own limit nobody has touched.
    #[test]
    fn a_dearer_limit(rt: HostRuntime) -> Result<(), Fail> {
        let mut legs = [0; 384];
        let mut fares = [0; 0];
        let mut bookings = [0; 88];
        let mut sums = [0; 4];
        let mut m = open(LIMITS, &mut legs, &mut fares, &mut bookings, &mut sums);
        fill(&rt, &mut m)?;
        serve(&mut m, 20);
        assert!(rt; book(&rt, &mut m, 0, 5, 0)?);
        free_is(&rt, &m, 0, &[0, 0, 0]);
        room_is(&rt, &m, 0, 2, 1, false);
        assert!(rt; !book(&rt, &mut m, 2, 1, 0)?);
        stand_so(&rt, &m, &[1, 0]);
        free_is(&rt, &m, 1, &[5, 4]);
        Ok(())
    }

    // Limits of 1,000, the largest that there are.
    #[test]
    fn a_thousand_are_free(rt: HostRuntime) -> Result<(), Fail> {
        let mut legs = [0; 384];
        let mut fares = [0; 0];
        let mut bookings = [0; 88];
        let mut sums = [0; 4];
        let mut m = open(LIMITS, &mut legs, &mut fares, &mut bookings, &mut sums);
        fill(&rt, &mut m)?;
        serve(&mut m, 20);
        free_is(&rt, &m, 2, &[1_000, 1_000]);
        room_is(&rt, &m, 2, 1, 1_000, true);
        room_is(&rt, &m, 2, 1, 1_001, false);
        room_is(&rt, &m, 2, 1, 4_294_967_295, false);
        assert!(rt; book(&rt, &mut m, 1, 1, 2)?);
        free_is(&rt, &m, 2, &[999, 999]);
        Ok(())
    }

    // Two seats are held where a limit then says 1: they stay, and nothing is free, not even no seat.
    #[test]
    fn a_lowered_limit(rt: HostRuntime) -> Result<(), Fail> {
        let mut legs = [0; 384];
        let mut fares = [0; 0];
        let mut bookings = [0; 88];
        let mut sums = [0; 4];
        let mut m = open(LIMITS, &mut legs, &mut fares, &mut bookings, &mut sums);
        fill(&rt, &mut m)?;
        serve(&mut m, 20);
        assert!(rt; book(&rt, &mut m, 1, 2, 0)?);
        lower(&rt, &mut m)?;
        serve(&mut m, 30);
        stand_so(&rt, &m, &[1]);
        free_is(&rt, &m, 0, &[0, 0, 0]);
        room_is(&rt, &m, 0, 0, 0, false);
        Ok(())
    }

    // Of 4, 3 and 1 seats that wait for 5, in this order, the first is held, then the third, for whom
    // there is still room; 5 seats in class 1 of leg 1, whose limit is 4, wait on.
    fn first_of_four(rt: &impl Abort, m: &mut Memory) -> Result<(), Fail> {
        wait_for(rt, m, 0, 4, 0)?;
        wait_for(rt, m, 0, 3, 0)?;
        wait_for(rt, m, 0, 1, 0)?;
        wait_for(rt, m, 1, 5, 1)?;
        assert_eq!(rt; first_fit(m), Some(0));
        serve(m, 20);
        stand_so(rt, m, &[1, 0, 1, 0]);
        Ok(())
    }

    // What is paid or gone is not served again, and what is paid leaves no room.
    #[test]
    fn by_number(rt: HostRuntime) -> Result<(), Fail> {
        let mut legs = [0; 384];
        let mut fares = [0; 0];
        let mut bookings = [0; 88];
        let mut sums = [0; 4];
        let mut m = open(LIMITS, &mut legs, &mut fares, &mut bookings, &mut sums);
        fill(&rt, &mut m)?;
        first_of_four(&rt, &mut m)?;
        stand(&rt, &mut m, 0, Standing::Paid);
        stand(&rt, &mut m, 2, Standing::Gone);
        assert_eq!(rt; first_fit(&m), None);
        stand(&rt, &mut m, 0, Standing::Gone);
        assert_eq!(rt; first_fit(&m), Some(1));
        serve(&mut m, 20);
        stand_so(&rt, &m, &[3, 1, 3, 0]);
        Ok(())
    }

    // Leg 1 has no room, so a booking of both legs waits, and one of leg 0 alone is held.
    #[test]
    fn a_full_second_leg(rt: HostRuntime) -> Result<(), Fail> {
        let mut legs = [0; 384];
        let mut fares = [0; 0];
        let mut bookings = [0; 88];
        let mut sums = [0; 4];
        let mut m = open(LIMITS, &mut legs, &mut fares, &mut bookings, &mut sums);
        fill(&rt, &mut m)?;
        serve(&mut m, 20);
        assert!(rt; book(&rt, &mut m, 1, 4, 1)?);
        assert!(rt; !book_both(&rt, &mut m, 1, 1)?);
        assert!(rt; book(&rt, &mut m, 1, 1, 0)?);
        assert_eq!(rt; first_fit(&m), None);
        stand_so(&rt, &m, &[1, 0, 1]);
        Ok(())
    }
}
