// Chips that are no chip of the house, and lines that are no calls.
#![tactic(auto)]

ghost use Rattle.std.specs.Prelude.{◌≡◌, ◌+◌, ◌*◌, ◌<◌, IfOk, length, slice_index};
ghost use Rattle.power_others.specs.Rubbish.{IsRubbish, Marked};

pub mod mishaps;

use anyhow::anyhow;
use limits::Limits;
use player::Unfinished;
use power_bench::{Bench, NEVER, ROW, fill_page};
use power_stories::{Story, skip_lines};
use protocol::Refusal;
use std::alloc::{AllocError, Global};

// Lines that are no calls, each with the first of its bytes that doesn't fit: an unknown word; the same
// behind two spaces; a line that is too short, so its length; a number too many; a letter for a number;
// another word before the list; a number above 32 bits; a letter in a list.
const GARBLED: [(&str, u64); 8] = [
    ("pray 0\n", 0),
    ("  pray 0\n", 2),
    ("free 0\n", 6),
    ("free 0 1 2\n", 9),
    ("free 0 x\n", 7),
    ("book 1 2 at 0\n", 9),
    ("leg 4294967296\n", 4),
    ("open 1 2 100 200 limits 5 3 z\n", 28),
];

// Calls whose numbers are out of range: limits that rise, no ticks, too many, a class that none has. Each
// is refused at 0.
const OUT_OF_RANGE: [(&str, u64); 4] = [
    ("limits 0 to 1 2 1\n", 0),
    ("ticks 0\n", 0),
    ("ticks 65537\n", 0),
    ("free 0 26\n", 0),
];

// Limits of other houses, for which the same memory and chip are large enough.
const OTHERS: [Limits; 5] = [
    Limits {
        gap: 11,
        hold: 20,
        legs: 2,
        fares: 4,
        bookings: 48,
    },
    Limits {
        gap: 10,
        hold: 21,
        legs: 2,
        fares: 4,
        bookings: 48,
    },
    Limits {
        gap: 10,
        hold: 20,
        legs: 1,
        fares: 4,
        bookings: 48,
    },
    Limits {
        gap: 10,
        hold: 20,
        legs: 2,
        fares: 3,
        bookings: 48,
    },
    Limits {
        gap: 10,
        hold: 20,
        legs: 2,
        fares: 4,
        bookings: 47,
    },
];

// Says of each page that it is written.
fn mark_written(pages: &mut [u8])
    ensures { Marked pages.old pages.new }
{
    for (i, place) in pages.iter_mut().enumerate() {
        if i % ROW == 0 {
            *place = 1;
        }
    }
}

// A chip of so many bytes on which each page but the first ones of the slots has other bytes: it counts
// as never used.
pub fn rubbish(heap: Global, bytes: usize, second: usize) -> Result<Vec<u8>, AllocError>
    ensures { IfOk result (λ v. IsRubbish bytes second v.items) }
{
    let mut rows = vec![in heap; 7u8; bytes]?;
    let pages = rows.as_mut_slice();
    mark_written(pages);
    fill_page(pages, 0, 0, 0);
    fill_page(pages, second, 2, 0);
    Ok(rows)
}

// Where the log of the slot begins whose first block this is: byte 44 of its commit record, with the
// byte before the page that says how it is; the place is below 65,536.
pub fn log_begins(pages: &[u8], block: usize) -> u64
    ensures { block < 65536 → result ≡ slice_index pages.now (block * 8208 + 45) + 256 * slice_index pages.now (block * 8208 + 46) }
{
    let at = block.saturating_mul(16 * ROW).saturating_add(45);
    let low = pages.get(at).copied().unwrap_or(0);
    let high = pages.get(at.saturating_add(1)).copied().unwrap_or(0);
    u64::from(low) + 256 * u64::from(high)
}

// Is the chip refused, with no answer, and left as it was?
fn expect_refused(rt: &HostRuntime, bench: &mut Bench) -> anyhow::Result<()> {
    let mut before = Vec::new(rt.alloc());
    before.extend_from_slice(bench.pages())?;
    let life = bench.live(rt.alloc(), NEVER, "leg 0\n".as_bytes())?;
    let Err(Unfinished::Refused) = life.ending else {
        return Err(anyhow!("a chip of no house is taken"));
    };
    if !life.said.is_empty() || before.as_slice() != bench.pages() {
        return Err(anyhow!("a chip that is refused is used"));
    }
    Ok(())
}

// Opens a chip with the limits of other houses. Gives how many there are.
pub fn try_other_limits(rt: &HostRuntime, bench: &mut Bench, whole: &[u8]) -> anyhow::Result<usize>
    ensures { IfOk result (λ n. n ≡ 5) }
{
    let own = bench.limits;
    bench.set_pages(whole)?;
    for limits in OTHERS {
        bench.limits = limits;
        expect_refused(rt, bench)?;
    }
    bench.limits = own;
    Ok(OTHERS.len())
}

// Puts other pages on a chip, each of which can't come next. Gives how many.
pub fn try_other_pages(
    rt: &HostRuntime,
    bench: &mut Bench,
    start: &[u8],
    edits: &[(usize, u8)],
) -> anyhow::Result<usize>
    ensures { IfOk result (λ n. n ≡ length edits.now) }
{
    for edit in edits {
        let (page, state) = *edit;
        bench.set_pages(start)?;
        bench.put_page(page, state, 7);
        expect_refused(rt, bench)?;
    }
    Ok(edits.len())
}

// Plays lines that are refused for this, each at its place, on a chip that has the whole list. They
// change nothing.
fn try_lines(
    rt: &HostRuntime,
    bench: &mut Bench,
    story: &Story,
    refusal: Refusal,
    lines: &[(&str, u64)],
) -> anyhow::Result<usize>
    ensures { IfOk result (λ n. n ≡ length lines.now) }
{
    let mut text = String::new(rt.alloc());
    for (line, _) in lines {
        text.push_str(line)?;
    }
    let life = bench.live(rt.alloc(), NEVER, text.as_str().as_bytes())?;
    for (one, (_, place)) in life.said.as_slice().iter().zip(lines.iter()) {
        if one.answer != refusal.at(*place) {
            return Err(anyhow!("a line is refused otherwise"));
        }
    }
    let count = life.said.len();
    if count != lines.len() || !skip_lines(text.as_str().as_bytes(), count).is_empty() {
        return Err(anyhow!("a line has no answer"));
    }
    if story.ask(rt, bench, NEVER, story.len())? {
        return Err(anyhow!("a refused line changed the house"));
    }
    Ok(count)
}

// Plays lines that are no calls. Gives how many.
pub fn try_garbled(rt: &HostRuntime, bench: &mut Bench, story: &Story) -> anyhow::Result<usize>
    ensures { IfOk result (λ n. n ≡ 8) }
{
    try_lines(rt, bench, story, Refusal::NoCall, &GARBLED)
}

// Plays calls that are out of range. Gives how many.
pub fn try_out_of_range(rt: &HostRuntime, bench: &mut Bench, story: &Story) -> anyhow::Result<usize>
    ensures { IfOk result (λ n. n ≡ 4) }
{
    try_lines(rt, bench, story, Refusal::OutOfRange, &OUT_OF_RANGE)
}
