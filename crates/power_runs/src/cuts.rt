// Power fails in every act of a list of calls in turn, by each of several tears; and three times in a
// row.
use anyhow::anyhow;
use flash::Power;
use power_bench::{Bench, NEVER};
use power_stories::Story;

// What power leaves of the pages of the act in which it fails: 0 as before, 1 done, 2 spoilt. A write
// has one page, and looks at the first number alone: two tears of the six leave it written.
const TEARS: [[u8; 16]; 6] = [
    [0; 16],
    [1; 16],
    [2; 16],
    [0, 1, 2, 0, 1, 2, 0, 1, 2, 0, 1, 2, 0, 1, 2, 0],
    [1, 2, 0, 1, 2, 0, 1, 2, 0, 1, 2, 0, 1, 2, 0, 1],
    [2, 0, 1, 2, 0, 1, 2, 0, 1, 2, 0, 1, 2, 0, 1, 2],
];

// More acts than any list has.
const MANY: u64 = 1_000_000;

// In which act of its life power fails for the second time.
const SECOND: [u64; 6] = [1, 2, 3, 5, 8, 13];

// What was tried: the acts of the list, the runs, in how many of them the call under way was there, and
// how many answers were compared.
#[derive(Clone, Copy)]
pub struct Tally {
    pub acts: u64,
    pub runs: u64,
    pub later: u64,
    pub compared: u64,
}

// A tear by its number, going round.
fn tear_of(number: u64) -> [u8; 16] {
    TEARS[(number % 6) as usize]
}

// How many acts the calls behind the first so many have, on the chip as it is. They are played, and
// answered as by a house that never fails.
fn count_acts(
    rt: &HostRuntime,
    bench: &mut Bench,
    story: &Story,
    known: usize,
) -> anyhow::Result<u64> {
    let power = Power {
        acts: MANY,
        tear: [0; 16],
    };
    let life = bench.live(rt.alloc(), power, story.rest(known))?;
    let Ok(()) = life.ending else {
        return Err(anyhow!("the list is not played to its end"));
    };
    story.compare_given(rt, power, known, life.said.as_slice())?;
    let _ = story.ask(rt, bench, power, story.len())?;
    Ok(MANY.saturating_sub(life.left))
}

// Cuts the calls behind the first so many, which are on the chip, in each of their acts, by each tear.
pub fn cut_everywhere(
    rt: &HostRuntime,
    bench: &mut Bench,
    story: &Story,
    known: usize,
    start: &[u8],
) -> anyhow::Result<Tally> {
    let acts = count_acts(rt, bench, story, known)?;
    let mut tally = Tally {
        acts,
        runs: 0,
        later: 0,
        compared: 0,
    };
    for acts in 1..=acts {
        for tear in TEARS {
            bench.set_pages(start)?;
            let power = Power { acts, tear };
            let outcome = story.fail(rt, bench, known, power)?;
            if !outcome.failed {
                return Err(anyhow!("power did not fail"));
            }
            tally.runs = tally.runs.saturating_add(1);
            tally.later = tally.later.saturating_add(u64::from(outcome.later));
            tally.compared = tally.compared.saturating_add(outcome.compared);
        }
    }
    Ok(tally)
}

// Power fails three times, each time in the act of this number of a life; then the list is played to
// its end.
fn fail_thrice(
    rt: &HostRuntime,
    bench: &mut Bench,
    story: &Story,
    acts: [u64; 3],
) -> anyhow::Result<()> {
    let mut known = 0;
    let mut sum = 0u64;
    for act in acts {
        sum = sum.saturating_add(act);
        let power = Power {
            acts: act,
            tear: tear_of(sum),
        };
        known = story.fail(rt, bench, known, power)?.known;
    }
    let end = story.fail(rt, bench, known, NEVER)?;
    if end.failed || end.known != story.len() {
        return Err(anyhow!("the list is not played to its end"));
    }
    Ok(())
}

// Cuts the list in each of its acts, and each time twice more in the lives that follow. Gives how many
// runs there were.
pub fn cut_again(
    rt: &HostRuntime,
    bench: &mut Bench,
    story: &Story,
    start: &[u8],
    acts: u64,
) -> anyhow::Result<u64> {
    let mut runs = 0u64;
    for first in 1..=acts {
        for second in SECOND {
            bench.set_pages(start)?;
            let third = (first - 1) % 13 + 1;
            fail_thrice(rt, bench, story, [first, second, third])?;
            runs = runs.saturating_add(1);
        }
    }
    Ok(runs)
}
