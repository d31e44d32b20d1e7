// Memory and a chip that are made once, and lent anew for each life of a house: from one start to the
// end of its calls, or to the failure of power.
#![tactic(auto)]

ghost use Rattle.std.specs.Prelude.{◌≡◌, ◌≢◌, ◌≤◌, ◌*◌, IfOk, OnOk, OnErr, length, replicate};
ghost use Rattle.power_bench.specs.Benches.{Lived, WithPage, pages_of};
ghost use Rattle.meaning.specs.Promise.{room_for};
ghost use Rattle.store.specs.Whole.{Sound};
ghost use Rattle.every_call.specs.Stage.{Idle};
ghost use Rattle.journal_steps.specs.Steps.{chip_limits};

use anyhow::anyhow;
use call_files::read_row;
use calls::answer_row;
use chips::{MemoryChip, Said};
use every_call::EveryCall;
use flash::Power;
use limits::{Limits, Sizes};
use player::{Unfinished, run};
use scan::Lines;
use std::alloc::{AllocError, Global};
use store::{Memory, open};
use text::NoCall;
use wire::MAX_CALL;

// The bytes of a block in memory: sixteen pages of 513.
pub const BLOCK: usize = 8208;

// Power that never fails.
pub const NEVER: Power = Power {
    acts: 0,
    tear: [0; 16],
};

// The bytes of a page in memory, with the one that says how it is.
pub const ROW: usize = 513;

// Memory for a house of these limits, and the pages of its chip.
#[derive(Drop)]
pub struct Bench {
    legs: Vec<u32>,
    fares: Vec<u32>,
    bookings: Vec<u32>,
    sums: Vec<u64>,
    pages: Vec<u8>,
    pub limits: Limits,
}

// How a life ended, the answers that were given in it, and how many acts were left to the failure.
#[derive(Drop)]
pub struct Life {
    pub ending: Result<(), Unfinished>,
    pub said: Vec<Said>,
    pub left: u64,
}

// How many blocks the chip of a house of these limits has.
pub fn block_count(limits: &Limits) -> usize
    ensures count { result ≡ room_for (chip_limits limits.now) }
    ensures small { result ≤ 1610612752 }
{
    (limits.legs as usize + limits.fares as usize + limits.bookings as usize) / 8 + 16
}

// What a house in memory answers to a line.
fn answer_line(heap: Global, m: &mut Memory, line: &[u8]) -> anyhow::Result<Said>
    requires sound { Sound m.old }
    requires idle { Idle m.old }
    ensures sound { Sound m.new }
    ensures idle { Idle m.new }
{
    let mut bytes = [0; MAX_CALL];
    let row = match read_row(heap, line, &mut bytes) {
        Ok(row) => row,
        Err(NoCall::Unreadable { .. }) => return Err(anyhow!("a line that is no call")),
        Err(NoCall::NoMemory) => return Err(anyhow!("no memory to read a line")),
    };
    let mut sold = [0; 26];
    let reply = answer_row::<EveryCall>(m, row, &mut sold);
    Said::new(reply.answer, &sold[..reply.listed]).ok_or_else(|| anyhow!(
        "a list that is longer than any answer's"
    ))
}

// Plays at most so many lines on a house in memory, and records the answers.
fn play(
    heap: Global,
    m: &mut Memory,
    text: &[u8],
    most: usize,
    said: &mut Vec<Said>,
) -> anyhow::Result<()>
    requires sound { Sound m.old }
    requires idle { Idle m.old }
    ensures sound { Sound m.new }
    ensures idle { Idle m.new }
{
    for line in Lines::new(text).take(most) {
        let one = answer_line(heap, m, line)?;
        said.push(one)?;
    }
    Ok(())
}

// Fills a page: how it is, and each of its bytes.
pub fn fill_page(pages: &mut [u8], page: usize, state: u8, byte: u8)
    ensures { WithPage page state byte pages.old pages.new }
{
    for (i, place) in pages.iter_mut().enumerate() {
        if i / ROW == page {
            *place = if i % ROW == 0 { state } else { byte };
        }
    }
}

impl Bench {
    // Memory for a house of these limits, and a blank chip.
    pub fn new(heap: Global, limits: Limits) -> Result<Bench, AllocError>
        ensures blank { IfOk result (λ b. pages_of b ≡ replicate (room_for (chip_limits limits) * 8208) 0) }
        ensures limits { IfOk result (λ b. b.limits ≡ limits) }
    {
        let asked = limits.asks();
        Ok(Bench {
            legs: vec![in heap; 0u32; asked.legs]?,
            fares: vec![in heap; 0u32; asked.fares]?,
            bookings: vec![in heap; 0u32; asked.bookings]?,
            sums: vec![in heap; 0u64; asked.sums]?,
            pages: vec![in heap; 0u8; block_count(&limits) * BLOCK]?,
            limits,
        })
    }

    // The bytes of the chip.
    pub fn pages(&self) -> &[u8]
        ensures { result.now ≡ pages_of self.now }
    {
        self.pages.as_slice()
    }

    // Fills a page of the chip: how it is, and each of its bytes.
    pub fn put_page(&mut self, page: usize, state: u8, byte: u8)
        ensures pages { WithPage page state byte (pages_of self.old) (pages_of self.new) }
        ensures limits { self.new.limits ≡ self.old.limits }
    {
        fill_page(self.pages.as_mut_slice(), page, state, byte);
    }

    // Makes the chip a copy of another of its size.
    pub fn set_pages(&mut self, from: &[u8]) -> anyhow::Result<()>
        ensures copied { OnOk result (pages_of self.new ≡ from.now) }
        ensures refused { OnErr result ((length (pages_of self.old) ≢ length from.now) × (pages_of self.new ≡ pages_of self.old)) }
        ensures limits { self.new.limits ≡ self.old.limits }
    {
        let pages = self.pages.as_mut_slice();
        if pages.len() != from.len() {
            return Err(anyhow!("a chip of another size"));
        }
        pages.copy_from_slice(from);
        Ok(())
    }

    // One life: a new house in memory takes up the chip, and plays a text.
    pub fn live(&mut self, heap: Global, power: Power, text: &[u8]) -> anyhow::Result<Life>
        ensures { IfOk result (λ life. Lived self.old.limits (pages_of self.old) text.now life) }
    {
        let limits = self.limits;
        let legs = self.legs.as_mut_slice();
        let fares = self.fares.as_mut_slice();
        let bookings = self.bookings.as_mut_slice();
        let sums = self.sums.as_mut_slice();
        let pages = self.pages.as_mut_slice();
        let sizes = Sizes {
            legs: legs.len(),
            fares: fares.len(),
            bookings: bookings.len(),
            sums: sums.len(),
        };
        let None = limits.misfit(&sizes) else {
            return Err(anyhow!("memory is too small"));
        };
        if pages.len() / BLOCK < block_count(&limits) {
            return Err(anyhow!("the chip is too small"));
        }
        let mut m = open(limits, legs, fares, bookings, sums);
        let mut device = MemoryChip::new(pages, power, heap);
        let ending = run(heap, &mut device, &mut m, text);
        let mut said = Vec::new(heap);
        said.extend_from_slice(device.said())?;
        let left = device.power().acts;
        Ok(Life { ending, said, left })
    }

    // What a house in memory that has no chip answers to each line of a text, after the first so many
    // lines of another.
    pub fn recall(
        &mut self,
        heap: Global,
        before: &[u8],
        count: usize,
        text: &[u8],
    ) -> anyhow::Result<Vec<Said>> {
        let limits = self.limits;
        let legs = self.legs.as_mut_slice();
        let fares = self.fares.as_mut_slice();
        let bookings = self.bookings.as_mut_slice();
        let sums = self.sums.as_mut_slice();
        let sizes = Sizes {
            legs: legs.len(),
            fares: fares.len(),
            bookings: bookings.len(),
            sums: sums.len(),
        };
        let None = limits.misfit(&sizes) else {
            return Err(anyhow!("memory is too small"));
        };
        let mut m = open(limits, legs, fares, bookings, sums);
        let mut said = Vec::new(heap);
        play(heap, &mut m, before, count, &mut said)?;
        said.clear();
        play(heap, &mut m, text, usize::MAX, &mut said)?;
        Ok(said)
    }
}
