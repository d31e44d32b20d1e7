// The journal of a house, one act at a time. `Journal` is what is kept of it beside the house: which
// slot is in use, of which turn, how many pages its checkpoint has, and where in the ring the log
// begins and how long it is. `Work` is what is still to be done for the call under way, a small state
// that says which act comes next. specs/Steps.antt ties both to the definitions of the crate
// `journal`: `plan` is the list of acts that are owed, and each step gives its head and leaves its tail.
#![tactic(auto)]

ghost use Rattle.std.specs.Prelude.{◌≡◌, ℕ, ◌+◌, ◌*◌, ◌<◌, ◌≤◌, Bool};
ghost use Rattle.journal_rows.specs.Layout.{most_pages, ring_blocks};
ghost use Rattle.journal_steps.specs.Steps.{ActFits, Advanced, Fits, Gives, Unused, WorkFits, chip_limits, log_has_room, log_place};

use journal::{Slot, Turn, block_after, goes_round, longest_log};
use journal_rows::Layout;

// Pages of a block.
const BLOCK: u32 = 16;

// What is kept of a journal beside the house itself.
#[derive(Clone, Copy)]
pub struct Journal {
    // Is there a commit record yet? If not, the first change writes a checkpoint into the first slot.
    // Kept: the first checkpoint counts on from the other fields too, so an Option would repeat them.
    pub committed: bool,
    // The slot in use.
    pub slot: Slot,
    pub turn: Turn,
    // Pages of the checkpoint beside its commit record.
    pub pages: u32,
    // The page of the ring at which the log begins, and how many pages it has.
    pub begins: u32,
    pub used: u32,
}

// What is still to be done for a call.
#[derive(Clone, Copy)]
pub enum Work {
    // Nothing.
    Resting,
    // The answer is to be given.
    Answering,
    // The call is to be written at this place of the ring; the block ahead may have to be erased first.
    Logging { place: u32 },
    // The same, and the block ahead is erased.
    LoggingNow { place: u32 },
    // A checkpoint on a chip that was never used: the ring's first block is to be erased.
    Opening,
    // And its second.
    OpeningMore,
    // A checkpoint: the block of its commit record is to be erased.
    Erasing,
    // So many of its pages are written; the block of the next one may have to be erased first.
    Filling { page: u32 },
    // The same, and the block is erased.
    FillingNow { page: u32 },
}

// The act that comes next; pages and blocks are those of the chip.
#[derive(Clone, Copy)]
pub enum Act {
    Rest,
    Say,
    Erase { block: u32 },
    WriteCall { page: u32 },
    WriteCheckpoint { page: u32, number: u32 },
    WriteCommit { page: u32 },
}

// An act, and what is to be done after it.
#[derive(Clone, Copy)]
pub struct Next {
    pub act: Act,
    pub work: Work,
}

// The call is written at a place of the ring.
fn write_call(layout: &Layout, place: u32) -> Next
    requires { place < 16 * ring_blocks (chip_limits layout.now.limits) }
    ensures { (j : Journal) (n : ℕ) → Gives layout.now.limits j n (Work.LoggingNow place) result.act result.work × WorkFits layout.now.limits n result.work × ((w : Work) → ActFits layout.now.limits n w result.act) }
{
    Next {
        act: Act::WriteCall {
            page: BLOCK * (2 * layout.slot_blocks()) + place,
        },
        work: Work::Answering,
    }
}

// Before a page of the log that begins a block, the block after it is erased.
fn log_ahead(layout: &Layout, place: u32) -> Next
    requires { place < 16 * ring_blocks (chip_limits layout.now.limits) }
    ensures { (j : Journal) (n : ℕ) → Gives layout.now.limits j n (Work.Logging place) result.act result.work × WorkFits layout.now.limits n result.work × ((w : Work) → ActFits layout.now.limits n w result.act) }
{
    if place % BLOCK != 0 {
        return write_call(layout, place);
    }
    Next {
        act: Act::Erase {
            block: block_after(layout.slot_blocks(), layout.ring_blocks(), place),
        },
        work: Work::LoggingNow { place },
    }
}

impl Journal {
    // The journal of a chip that was never used.
    pub fn unused() -> Journal
        ensures { Unused result }
    {
        Journal {
            committed: false,
            slot: Slot::Second,
            turn: Turn::Three,
            pages: 0,
            begins: 0,
            used: 0,
        }
    }

    // The place of the ring at which the log ends: that of its next page.
    fn place(&self, layout: &Layout) -> u32
        requires { Fits layout.now.limits self.now }
        ensures place { result ≡ log_place layout.now.limits self.now }
        ensures within { result < 16 * ring_blocks (chip_limits layout.now.limits) }
    {
        goes_round(BLOCK * layout.ring_blocks(), self.begins + self.used)
    }

    // Is there room for one more page in the log?
    fn has_room(&self) -> bool
        requires { self.now.pages < 4000000 }
        ensures { result ≡ log_has_room self.now }
    {
        self.committed && self.used < longest_log(self.pages)
    }

    // A call changed the house, of which a checkpoint would have so many pages now: the log has one
    // page more, or where it has no room a checkpoint begins, into the other slot, and a new log where
    // the old one ends. Gives the work that is to be done for it.
    pub fn advance(&mut self, layout: &Layout, pages: u32) -> Work
        requires fits { Fits layout.now.limits self.old }
        requires pages { pages ≤ most_pages (chip_limits layout.now.limits) }
        ensures advanced { Advanced layout.now.limits pages self.old self.new result }
        ensures fits { Fits layout.now.limits self.new }
        ensures work { WorkFits layout.now.limits pages result }
    {
        let place = self.place(layout);
        if self.has_room() {
            self.used += 1;
            return Work::Logging { place };
        }
        let work = if self.committed {
            Work::Erasing
        } else {
            Work::Opening
        };
        self.committed = true;
        self.slot = self.slot.other();
        self.turn = self.turn.next();
        self.pages = pages;
        self.begins = place;
        self.used = 0;
        work
    }

    // A page of the checkpoint is written into its slot.
    fn write_page(&self, layout: &Layout, number: u32) -> Next
        requires { number < most_pages (chip_limits layout.now.limits) }
        ensures gives { (n : ℕ) → number < n → Gives layout.now.limits self.now n (Work.FillingNow number) result.act result.work }
        ensures work { (n : ℕ) → number < n → WorkFits layout.now.limits n result.work × ((w : Work) → ActFits layout.now.limits n w result.act) }
    {
        Next {
            act: Act::WriteCheckpoint {
                page: BLOCK * (layout.first_block(self.slot) + 1) + number,
                number,
            },
            work: Work::Filling { page: number + 1 },
        }
    }

    // Before a page of the checkpoint that begins a block, that block is erased; behind the last page
    // comes the commit record.
    fn fill_ahead(&self, layout: &Layout, pages: u32, number: u32) -> Next
        requires { (number ≤ pages) × (pages ≤ most_pages (chip_limits layout.now.limits)) }
        ensures gives { Gives layout.now.limits self.now pages (Work.Filling number) result.act result.work }
        ensures work { WorkFits layout.now.limits pages result.work }
        ensures act { (w : Work) → ActFits layout.now.limits pages w result.act }
    {
        if number == pages {
            return Next {
                act: Act::WriteCommit {
                    page: BLOCK * layout.first_block(self.slot),
                },
                work: Work::Answering,
            };
        }
        if number % BLOCK != 0 {
            return self.write_page(layout, number);
        }
        Next {
            act: Act::Erase {
                block: layout.first_block(self.slot) + 1 + number / BLOCK,
            },
            work: Work::FillingNow { page: number },
        }
    }

    // The act that comes next for some work, and what is left after it, where the checkpoint of the
    // house has so many pages.
    pub fn next(&self, layout: &Layout, pages: u32, work: Work) -> Next
        requires pages { pages ≤ most_pages (chip_limits layout.now.limits) }
        requires work { WorkFits layout.now.limits pages work }
        ensures gives { Gives layout.now.limits self.now pages work result.act result.work }
        ensures work { WorkFits layout.now.limits pages result.work }
        ensures act { ActFits layout.now.limits pages work result.act }
    {
        match work {
            Work::Resting => Next {
                act: Act::Rest,
                work: Work::Resting,
            },
            Work::Answering => Next {
                act: Act::Say,
                work: Work::Resting,
            },
            Work::Logging { place } => log_ahead(layout, place),
            Work::LoggingNow { place } => write_call(layout, place),
            Work::Opening => Next {
                act: Act::Erase {
                    block: 2 * layout.slot_blocks(),
                },
                work: Work::OpeningMore,
            },
            Work::OpeningMore => Next {
                act: Act::Erase {
                    block: 2 * layout.slot_blocks() + 1,
                },
                work: Work::Erasing,
            },
            Work::Erasing => Next {
                act: Act::Erase {
                    block: layout.first_block(self.slot),
                },
                work: Work::Filling { page: 0 },
            },
            Work::Filling { page } => self.fill_ahead(layout, pages, page),
            Work::FillingNow { page } => self.write_page(layout, page),
        }
    }
}
