// Plays lists of calls on a chip in lent memory, with power failing in every single act of them in
// turn, by each of six tears. After each failure the house is started anew on the same pages, and all
// questions are asked: the answers are those of a house that has no chip and never fails, after just
// the calls that were answered, or these and the one under way. The answers that were given before
// power failed are the first ones of a run that never failed. numbers.md, beside this folder, works out
// every number that is printed.
#![tactic(auto)]

mod cuts;

use anyhow::anyhow;
use cuts::{Tally, cut_again, cut_everywhere};
use flash::Power;
use limits::Limits;
use power_bench::{Bench, NEVER};
use power_lists::{FIRST_STAGE, LARGER, QUESTIONS, WORKED_EXAMPLE, with_bookings, with_questions};
use power_others::mishaps::play_mishaps;
use power_others::{
    log_begins, rubbish, try_garbled, try_other_limits, try_other_pages, try_out_of_range,
};
use power_stories::{Story, line_of};
use scan::read_line;

// A house whose log is always one block long.
const SMALL: Limits = Limits {
    gap: 10,
    hold: 20,
    legs: 2,
    fares: 4,
    bookings: 48,
};

// A house whose checkpoint is longer than a block, and so is its log.
const LARGE: Limits = Limits {
    gap: 10,
    hold: 20,
    legs: 2,
    fares: 4,
    bookings: 160,
};

// The house of the worked example, with no more room than it asks for.
const EXAMPLE: Limits = Limits {
    gap: 10,
    hold: 20,
    legs: 2,
    fares: 4,
    bookings: 4,
};

// A copy of the chip.
fn copy_of(rt: &HostRuntime, bench: &Bench) -> anyhow::Result<Vec<u8>> {
    let mut pages = Vec::new(rt.alloc());
    pages.extend_from_slice(bench.pages())?;
    Ok(pages)
}

// Prints what was tried.
fn print_tally(rt: &HostRuntime, chip: &str, tally: Tally) -> anyhow::Result<()> {
    let Tally {
        acts,
        runs,
        later,
        compared,
    } = tally;
    println!(rt; "{chip}: {acts} acts, {runs} runs, {compared} answers compared")?;
    println!(rt; "{chip}: the call under way was there in {later} runs")?;
    Ok(())
}

// Plays the next call, on a chip that has the first so many, and is answered as it should be.
fn play_next(
    rt: &HostRuntime,
    bench: &mut Bench,
    story: &Story,
    known: usize,
) -> anyhow::Result<()> {
    let line = read_line(story.rest(known)).value;
    let life = bench.live(rt.alloc(), NEVER, line)?;
    let Ok(()) = life.ending else {
        return Err(anyhow!("a call is not played"));
    };
    story.compare_given(rt, NEVER, known, life.said.as_slice())
}

// Wears the ring: each of the next so many calls is tried sixteen times before, and power spoils its
// page in the log each time; so the call itself is a checkpoint.
fn wear(
    rt: &HostRuntime,
    bench: &mut Bench,
    story: &Story,
    known: usize,
    count: usize,
) -> anyhow::Result<()> {
    for place in known..known.saturating_add(count) {
        for torn in 0..16 {
            let power = Power {
                acts: if torn == 0 { 2 } else { 1 },
                tear: [2; 16],
            };
            let outcome = story.fail(rt, bench, place, power)?;
            if !outcome.failed || outcome.known != place {
                return Err(anyhow!("a call whose page is spoilt is there"));
            }
        }
        play_next(rt, bench, story, place)?;
    }
    Ok(())
}

// The rest of the small house's part: chips that are refused, and lines that are.
fn try_others(
    rt: &HostRuntime,
    bench: &mut Bench,
    story: &Story,
    blank: &[u8],
    whole: &[u8],
) -> anyhow::Result<()> {
    let houses = try_other_limits(rt, bench, whole)?;
    println!(rt; "refused: the chip by {houses} other houses")?;
    let first = try_other_pages(rt, bench, blank, &[(0, 1), (32, 1)])?;
    println!(rt; "refused: {first} blank chips with other bytes where a slot begins")?;
    let edits = [(48, 0), (48, 2), (48, 1), (55, 1), (114, 1)];
    let pages = try_other_pages(rt, bench, whole, &edits)?;
    println!(rt; "refused: {pages} chips with another page in the checkpoint or the log")?;
    bench.set_pages(whole)?;
    let garbled = try_garbled(rt, bench, story)?;
    println!(rt; "refused: {garbled} lines that are no calls, each at its place")?;
    let wrong = try_out_of_range(rt, bench, story)?;
    println!(rt; "refused: {wrong} calls that are out of range")?;
    Ok(())
}

// The small house: on a blank chip, on one with other bytes everywhere, and with power failing three
// times in a row.
fn run_small(rt: &HostRuntime) -> anyhow::Result<()> {
    let heap = rt.alloc();
    let mut bench = Bench::new(heap, SMALL)?;
    let calls = with_bookings(heap, FIRST_STAGE, 3, 49)?;
    let asked = with_questions(heap, QUESTIONS, 48)?;
    let story = Story::new(heap, &mut bench, calls, asked)?;
    for one in story.given().iter().take(18) {
        let line = line_of(one);
        println!(rt; "{line}")?;
    }
    let blank = copy_of(rt, &bench)?;
    let tally = cut_everywhere(rt, &mut bench, &story, 0, blank.as_slice())?;
    print_tally(rt, "a blank chip", tally)?;
    let full = rubbish(heap, blank.len(), 32)?;
    bench.set_pages(full.as_slice())?;
    let tally = cut_everywhere(rt, &mut bench, &story, 0, full.as_slice())?;
    print_tally(rt, "a chip of rubbish", tally)?;
    let runs = cut_again(rt, &mut bench, &story, full.as_slice(), tally.acts)?;
    println!(rt; "three failures in a row: {runs} runs")?;
    let place = log_begins(bench.pages(), 2);
    println!(rt; "the last log begins at place {place}")?;
    let whole = copy_of(rt, &bench)?;
    try_others(rt, &mut bench, &story, blank.as_slice(), whole.as_slice())
}

// The whole worked example, with payment, time, cancellation and other limits; and how houses went
// wrong.
fn run_example(rt: &HostRuntime) -> anyhow::Result<()> {
    let heap = rt.alloc();
    let mut bench = Bench::new(heap, EXAMPLE)?;
    let calls = with_bookings(heap, WORKED_EXAMPLE, 4, 4)?;
    let asked = with_questions(heap, QUESTIONS, 4)?;
    let story = Story::new(heap, &mut bench, calls, asked)?;
    for one in story.given().iter().skip(14).take(10) {
        let line = line_of(one);
        println!(rt; "{line}")?;
    }
    let blank = copy_of(rt, &bench)?;
    let tally = cut_everywhere(rt, &mut bench, &story, 0, blank.as_slice())?;
    print_tally(rt, "the whole worked example", tally)?;
    play_mishaps(rt, &mut bench, blank.as_slice())
}

// The large house, on a chip whose ring was worn until the log is near its end.
fn run_large(rt: &HostRuntime) -> anyhow::Result<()> {
    let heap = rt.alloc();
    let mut bench = Bench::new(heap, LARGE)?;
    let calls = with_bookings(heap, LARGER, 0, 160)?;
    let asked = with_questions(heap, QUESTIONS, 160)?;
    let story = Story::new(heap, &mut bench, calls, asked)?;
    play_next(rt, &mut bench, &story, 0)?;
    wear(rt, &mut bench, &story, 1, 22)?;
    for known in 23..120 {
        play_next(rt, &mut bench, &story, known)?;
    }
    let worn = copy_of(rt, &bench)?;
    let tally = cut_everywhere(rt, &mut bench, &story, 120, worn.as_slice())?;
    print_tally(rt, "a worn chip", tally)?;
    let end = story.fail(rt, &mut bench, 166, NEVER)?;
    let place = log_begins(bench.pages(), 0);
    println!(rt; "the last log begins at place {place}")?;
    if end.failed {
        return Err(anyhow!("power failed"));
    }
    Ok(())
}

// Both houses.
fn run_all(rt: &HostRuntime) -> anyhow::Result<()> {
    run_small(rt)?;
    run_large(rt)?;
    run_example(rt)?;
    println!(rt; "all as they should be")?;
    Ok(())
}

fn main(rt: HostRuntime) -> anyhow::Result<()> {
    run_all(&rt)
}
