// Journeys whose price was worked out by hand from the rules: each test files some fares, and asks
// for the price of a journey. Places are 10 to 18, and legs 0 to 7 go one after the other from 10 to
// 18; leg 8 goes back from 12 to 10, and leg 9 straight from 10 to 12. A fare is written as origin,
// goal, class, legs at most, price.
#![tactic(auto)]

#[cfg(test)]
mod tests {
    use limits::Limits;
    use pricing::price;
    use records::{Fare, Leg};
    use std::process::Abort;
    use std::test::Fail;
    use store::{Memory, open};

    // A leg between two places. Its times and limits have no part in a price.
    fn add_leg(rt: &impl Abort, m: &mut Memory, from: u32, to: u32) -> Result<(), Fail> {
        assert!(rt; m.leg_count() < m.limits().legs as usize);
        assert!(rt; from < 65_536);
        assert!(rt; to < 65_536);
        m.push_leg(&Leg::new(from, to, 100, 200, &[9]));
        Ok(())
    }

    // The ten legs.
    fn add_legs(rt: &impl Abort, m: &mut Memory) -> Result<(), Fail> {
        for i in 0..8 {
            add_leg(rt, m, 10 + i, 11 + i)?;
        }
        add_leg(rt, m, 12, 10)?;
        add_leg(rt, m, 10, 12)
    }

    // Some fares.
    fn file(
        rt: &impl Abort,
        m: &mut Memory,
        fares: &[(u32, u32, u32, u32, u32)],
    ) -> Result<(), Fail> {
        for &(origin, goal, class, most, price) in fares {
            assert!(rt; m.fare_count() < m.limits().fares as usize);
            assert!(rt; origin < 65_536);
            assert!(rt; goal < 65_536);
            assert!(rt; class < 26);
            assert!(rt; 1 <= most && most <= 8);
            assert!(rt; price <= 100_000_000);
            m.push_fare(&Fare {
                origin,
                goal,
                class,
                most,
                price,
            });
        }
        Ok(())
    }

    // The price of a journey, once its legs are seen to be there.
    fn ask(rt: &impl Abort, m: &Memory, class: u32, journey: &[u32]) -> Result<Option<u64>, Fail> {
        assert!(rt; journey.len() <= 8);
        let legs = m.leg_count();
        assert!(rt; journey.iter().all(|i| (*i as usize) < legs));
        Ok(price(m, class, journey))
    }

    // The price of a journey in a house with just these fares is as expected.
    fn costs(
        rt: &impl Abort,
        fares: &[(u32, u32, u32, u32, u32)],
        class: u32,
        journey: &[u32],
        expected: Option<u64>,
    ) -> Result<(), Fail> {
        let mut leg_words = [0; 1280];
        let mut fare_words = [0; 480];
        let mut booking_words = [0; 22];
        let mut sums = [0; 1];
        let limits = Limits {
            gap: 10,
            hold: 20,
            legs: 10,
            fares: 20,
            bookings: 1,
        };
        let mut m = open(
            limits,
            &mut leg_words,
            &mut fare_words,
            &mut booking_words,
            &mut sums,
        );
        add_legs(rt, &mut m)?;
        file(rt, &mut m, fares)?;
        assert_eq!(rt; ask(rt, &m, class, journey)?, expected);
        Ok(())
    }

    // 1. Leg by leg 50 + 40 = 90; one fare for both legs costs 80.
    // 2. The other way round: the fare for both costs 95, leg by leg still 90.
    #[test]
    fn one_fare_or_two(rt: HostRuntime) -> Result<(), Fail> {
        let fares = [
            (10, 11, 1, 1, 50),
            (11, 12, 1, 1, 40),
            (10, 12, 1, 2, 80),
            (10, 11, 2, 1, 50),
            (11, 12, 2, 1, 40),
            (10, 12, 2, 2, 95),
        ];
        costs(&rt, &fares, 1, &[0, 1], Some(80))?;
        costs(&rt, &fares, 2, &[0, 1], Some(90))
    }

    // 3. Leg by leg 30 + 30 + 30 = 90; the first two as one 55 + 30 = 85; the last two as one
    // 30 + 45 = 75.
    #[test]
    fn the_later_pair_is_cheaper(rt: HostRuntime) -> Result<(), Fail> {
        let fares = [
            (10, 11, 1, 1, 30),
            (11, 12, 1, 1, 30),
            (12, 13, 1, 1, 30),
            (10, 12, 1, 2, 55),
            (11, 13, 1, 2, 45),
        ];
        costs(&rt, &fares, 1, &[0, 1, 2], Some(75))
    }

    // 4. The longest piece first 100 + 100 = 200; the shortest first 20 + 50 = 70.
    #[test]
    fn the_longest_first_is_dearer(rt: HostRuntime) -> Result<(), Fail> {
        let fares = [
            (10, 13, 1, 3, 100),
            (13, 14, 1, 1, 100),
            (10, 11, 1, 1, 20),
            (11, 14, 1, 3, 50),
        ];
        costs(&rt, &fares, 1, &[0, 1, 2, 3], Some(70))
    }

    // 5. Leg by leg 50 + 40 = 90; a fare for up to eight legs is good for these two, 60.
    // 6. The same from the middle, 12 to 14: leg by leg 8 + 4 = 12, a fare for up to three 11.
    // 7. Straight from 10 to 12 on leg 9: the fare for one leg costs 99, and the one for up to eight is
    // good for one, 60.
    #[test]
    fn a_fare_for_more_legs_is_good_for_fewer(rt: HostRuntime) -> Result<(), Fail> {
        let fares = [
            (10, 11, 1, 1, 50),
            (11, 12, 1, 1, 40),
            (10, 12, 1, 8, 60),
            (12, 13, 1, 1, 8),
            (13, 14, 1, 1, 4),
            (12, 14, 1, 3, 11),
            (10, 12, 1, 1, 99),
        ];
        costs(&rt, &fares, 1, &[0, 1], Some(60))?;
        costs(&rt, &fares, 1, &[2, 3], Some(11))?;
        costs(&rt, &fares, 1, &[9], Some(60))
    }

    // 8. Five legs at 20 make 100. In two pieces: two and three legs 30 + 50 = 80, three and two
    // 40 + 35 = 75. In more: 30 + 20 + 35 = 85, 40 + 20 + 20 = 80, 30 + 20 + 20 + 20 = 90,
    // 20 + 20 + 50 = 90, 20 + 20 + 20 + 35 = 95.
    #[test]
    fn three_and_two(rt: HostRuntime) -> Result<(), Fail> {
        let fares = [
            (10, 11, 1, 1, 20),
            (11, 12, 1, 1, 20),
            (12, 13, 1, 1, 20),
            (13, 14, 1, 1, 20),
            (14, 15, 1, 1, 20),
            (10, 12, 1, 2, 30),
            (12, 15, 1, 3, 50),
            (10, 13, 1, 3, 40),
            (13, 15, 1, 2, 35),
        ];
        costs(&rt, &fares, 1, &[0, 1, 2, 3, 4], Some(75))
    }

    // 9. Six legs in threes 40 + 40 = 80; in twos 25 + 25 + 25 = 75.
    // 10. In threes 35 + 35 = 70; in twos still 75. No other pieces fit together: a piece of two ends
    // at 12, 14 or 16, one of three at 13 or 16.
    #[test]
    fn in_twos_or_in_threes(rt: HostRuntime) -> Result<(), Fail> {
        let fares = [
            (10, 12, 1, 2, 25),
            (12, 14, 1, 2, 25),
            (14, 16, 1, 2, 25),
            (10, 13, 1, 3, 40),
            (13, 16, 1, 3, 40),
            (10, 12, 2, 2, 25),
            (12, 14, 2, 2, 25),
            (14, 16, 2, 2, 25),
            (10, 13, 2, 3, 35),
            (13, 16, 2, 3, 35),
        ];
        costs(&rt, &fares, 1, &[0, 1, 2, 3, 4, 5], Some(75))?;
        costs(&rt, &fares, 2, &[0, 1, 2, 3, 4, 5], Some(70))
    }

    // 11. The first two legs cost 1 as one piece, but there is no fare from 12 on; so it is
    // 40 + 45 = 85.
    #[test]
    fn a_cheap_beginning_leads_nowhere(rt: HostRuntime) -> Result<(), Fail> {
        let fares = [(10, 12, 1, 2, 1), (10, 11, 1, 1, 40), (11, 13, 1, 2, 45)];
        costs(&rt, &fares, 1, &[0, 1, 2], Some(85))
    }

    // 12. There and back, over legs 0, 1 and 8: 80 + 45 = 125; one fare from 10 to 10 costs 120.
    #[test]
    fn there_and_back(rt: HostRuntime) -> Result<(), Fail> {
        let fares = [(10, 12, 1, 2, 80), (12, 10, 1, 1, 45), (10, 10, 1, 3, 120)];
        costs(&rt, &fares, 1, &[0, 1, 8], Some(120))?;
        costs(&rt, &fares, 1, &[0, 1], Some(80))?;
        costs(&rt, &fares, 1, &[8], Some(45))
    }

    // 13. The fare for all four legs costs 1, but is for three at most. So 60 + 20 = 80 or
    // 25 + 30 = 55.
    #[test]
    fn too_many_legs_and_another_cut(rt: HostRuntime) -> Result<(), Fail> {
        let fares = [
            (10, 14, 1, 3, 1),
            (10, 13, 1, 3, 60),
            (13, 14, 1, 1, 20),
            (10, 11, 1, 1, 25),
            (11, 14, 1, 3, 30),
        ];
        costs(&rt, &fares, 1, &[0, 1, 2, 3], Some(55))
    }

    // 14. Eight legs. Each for itself 8 x 10 = 80, all as one 50, halves 35 + 37 = 72, two, four and
    // two 15 + 20 + 12 = 47. The cheapest up to each place, from 10 to 18: 0, 10, 15 (one piece of two),
    // 25, 35, 45, 35 (15 + 20), 45, and 47 (35 + 12).
    // The same legs without their last: 45.
    #[test]
    fn eight_legs(rt: HostRuntime) -> Result<(), Fail> {
        let fares = [
            (10, 11, 1, 1, 10),
            (11, 12, 1, 1, 10),
            (12, 13, 1, 1, 10),
            (13, 14, 1, 1, 10),
            (14, 15, 1, 1, 10),
            (15, 16, 1, 1, 10),
            (16, 17, 1, 1, 10),
            (17, 18, 1, 1, 10),
            (10, 18, 1, 8, 50),
            (10, 14, 1, 4, 35),
            (14, 18, 1, 4, 37),
            (10, 12, 1, 2, 15),
            (12, 16, 1, 4, 20),
            (16, 18, 1, 2, 12),
        ];
        costs(&rt, &fares, 1, &[0, 1, 2, 3, 4, 5, 6, 7], Some(47))?;
        costs(&rt, &fares, 1, &[0, 1, 2, 3, 4, 5, 6], Some(45))
    }

    // Both legs as one for 90, or 50 + 40; three legs for 30 each, or 60 + 30, 30 + 60 and 90; two
    // fares of one price for one leg.
    #[test]
    fn ties(rt: HostRuntime) -> Result<(), Fail> {
        let fares = [
            (10, 11, 1, 1, 50),
            (11, 12, 1, 1, 40),
            (10, 12, 1, 2, 90),
            (10, 11, 2, 1, 30),
            (11, 12, 2, 1, 30),
            (12, 13, 2, 1, 30),
            (10, 12, 2, 2, 60),
            (11, 13, 2, 2, 60),
            (10, 13, 2, 3, 90),
            (10, 11, 3, 1, 7),
            (10, 11, 3, 2, 7),
        ];
        costs(&rt, &fares, 1, &[0, 1], Some(90))?;
        costs(&rt, &fares, 2, &[0, 1, 2], Some(90))?;
        costs(&rt, &fares, 3, &[0], Some(7))
    }

    // Of three fares for a leg the cheapest, wherever it stands among them.
    #[test]
    fn any_of_three(rt: HostRuntime) -> Result<(), Fail> {
        let fares = [
            (10, 11, 1, 1, 60),
            (10, 11, 1, 1, 70),
            (10, 11, 1, 1, 65),
            (11, 12, 1, 1, 70),
            (11, 12, 1, 1, 60),
            (11, 12, 1, 1, 65),
            (12, 13, 1, 1, 70),
            (12, 13, 1, 1, 65),
            (12, 13, 1, 1, 60),
        ];
        costs(&rt, &fares, 1, &[0], Some(60))?;
        costs(&rt, &fares, 1, &[1], Some(60))?;
        costs(&rt, &fares, 1, &[2], Some(60))?;
        costs(&rt, &fares, 1, &[0, 1, 2], Some(180))
    }

    // A fare from 10 to 12 for 10 is for one leg only: straight on leg 9 it is taken, over legs 0 and 1
    // it is not, so 50 + 40 = 90, or 70 where a fare allows two. One for seven legs is not for eight.
    #[test]
    fn a_fare_over_too_many_legs_is_not_taken(rt: HostRuntime) -> Result<(), Fail> {
        let fares = [
            (10, 11, 1, 1, 50),
            (11, 12, 1, 1, 40),
            (10, 12, 1, 1, 10),
            (10, 12, 2, 1, 10),
            (10, 12, 2, 2, 70),
            (10, 18, 3, 7, 1),
        ];
        costs(&rt, &fares, 1, &[0, 1], Some(90))?;
        costs(&rt, &fares, 1, &[9], Some(10))?;
        costs(&rt, &fares, 2, &[0, 1], Some(70))?;
        costs(&rt, &fares, 3, &[0, 1, 2, 3, 4, 5, 6, 7], None)
    }

    // Leg by leg 50 + 40 = 90 in class 1. Cheaper ones are for class 2, or end at 13, or begin at 9, or
    // go the other way.
    #[test]
    fn a_fare_for_something_else_is_not_taken(rt: HostRuntime) -> Result<(), Fail> {
        let fares = [
            (10, 11, 1, 1, 50),
            (11, 12, 1, 1, 40),
            (10, 12, 2, 2, 10),
            (10, 13, 1, 2, 10),
            (9, 12, 1, 2, 10),
            (12, 10, 1, 2, 10),
        ];
        costs(&rt, &fares, 1, &[0, 1], Some(90))?;
        costs(&rt, &fares, 2, &[0, 1], Some(10))?;
        costs(&rt, &fares, 2, &[0], None)?;
        costs(&rt, &fares, 0, &[0, 1], None)
    }

    // No fares; none for one of the legs; none for part of what one fare is for. A fare that costs
    // nothing is a fare.
    #[test]
    fn no_fare(rt: HostRuntime) -> Result<(), Fail> {
        costs(&rt, &[], 1, &[0], None)?;
        let fares = [
            (10, 11, 1, 1, 50),
            (10, 18, 2, 8, 100_000_000),
            (10, 11, 3, 1, 0),
            (11, 12, 3, 1, 0),
        ];
        costs(&rt, &fares, 1, &[0, 1], None)?;
        costs(&rt, &fares, 1, &[0], Some(50))?;
        costs(&rt, &fares, 2, &[0, 1, 2, 3, 4, 5, 6, 7], Some(100_000_000))?;
        costs(&rt, &fares, 2, &[0, 1, 2, 3, 4, 5, 6], None)?;
        costs(&rt, &fares, 3, &[0, 1], Some(0))
    }

    // The largest price that there is: eight legs, 100,000,000 each.
    #[test]
    fn the_largest_price(rt: HostRuntime) -> Result<(), Fail> {
        let fares = [
            (10, 11, 1, 1, 100_000_000),
            (11, 12, 1, 1, 100_000_000),
            (12, 13, 1, 1, 100_000_000),
            (13, 14, 1, 1, 100_000_000),
            (14, 15, 1, 1, 100_000_000),
            (15, 16, 1, 1, 100_000_000),
            (16, 17, 1, 1, 100_000_000),
            (17, 18, 1, 1, 100_000_000),
        ];
        costs(&rt, &fares, 1, &[0, 1, 2, 3, 4, 5, 6, 7], Some(800_000_000))
    }
}
