// A start of the house from a chip, one page at a time: the commit records of both slots, the pages of
// the checkpoint of the slot in use, and the pages of its log. `Stage` says how far a start has come,
// `Stage::wants` which page is asked for next, and `Stage::take` takes that page in. What can't be a
// house's chip is refused; no chip that reads as a house is.
#![tactic(auto)]

ghost use Rattle.std.specs.Prelude.{◌≡◌, ℕ, ◌<◌, ◌≤◌, Bool};
ghost use Rattle.meaning.specs.Calls.{Limits as MeantLimits, new_house};
ghost use Rattle.meaning.specs.House.{House};
ghost use Rattle.limits.specs.Opening.{limits_mean};
ghost use Rattle.store.specs.Whole.{Lent, Sound, house};
ghost use Rattle.flash.specs.Pages.{page_told};
ghost use Rattle.every_call.specs.Stage.{stage};
ghost use Rattle.journal_rows.specs.Layout.{opened, pages};
ghost use Rattle.journal_load.specs.Pages.{Within, commit_told, head_of};
ghost use Rattle.journal_steps.specs.Steps.{journal_of};
ghost use Rattle.journal_start.specs.Stages.{At, CommitGot, Next, Past, Ranges, SlotFrom, StageFits, Taken, checkpoint_on, found_log, log_on, reading_of, ring_pages, slot_told, wanted};
ghost use Rattle.journal_start.specs.Starting.{AcceptsHouses, chosen_slot};

use calls::answer_row;
use every_call::EveryCall;
use flash::PageRead;
use journal::{Slot, goes_round};
use journal_load::{CommitRecord, call_in, load_checkpoint, read_commit};
use journal_records::WrongPage;
use journal_rows::{Layout, checkpoint_pages};
use journal_steps::Journal;
use seating::first_fit;
use store::Memory;

// A start that takes page after page, and refuses only a page that can't come next on a house's
// chip, refuses no chip that reads as a house, and comes to the program's start.
pub fn accepts_houses()
    ensures { AcceptsHouses }
{}

// The slot in use, with its commit record.
#[derive(Clone, Copy)]
pub struct InUse {
    pub slot: Slot,
    pub commit: CommitRecord,
}

// How far a start has come: nothing is read; the commit record of the first slot is; so many pages of
// the checkpoint of the slot in use are; so many pages of its log are; all is, and this is the journal.
#[derive(Clone, Copy)]
pub enum Stage {
    Unread,
    OneCommit { first: Option<CommitRecord> },
    Reading { in_use: InUse, page: u32 },
    Replaying { in_use: InUse, page: u32 },
    Ready { journal: Journal },
}

impl Stage {
    // The page that is asked for next, of a chip that is shared out so; none when all is read.
    pub fn wants(&self, layout: &Layout) -> Option<u32>
        requires { Ranges layout.now.limits self.now }
        ensures { (can : ℕ → Bool) (h : House) → result ≡ wanted (limits_mean can layout.now.limits) (reading_of (limits_mean can layout.now.limits) self.now h) }
    {
        match *self {
            Stage::Unread => Some(0),
            Stage::OneCommit { first: _first } => Some(16 * layout.slot_blocks()),
            Stage::Reading { in_use, page } => {
                Some(16 * (layout.first_block(in_use.slot) + 1) + page)
            }
            Stage::Replaying { in_use, page } => {
                let ring = 16 * layout.ring_blocks();
                let place = goes_round(ring, in_use.commit.begins + page);
                Some(16 * (2 * layout.slot_blocks()) + place)
            }
            Stage::Ready { journal: _journal } => None,
        }
    }
}

// The commit record of a slot's first page, if it has one; or that page has other bytes.
fn commit_in(layout: &Layout, page: PageRead) -> Result<Option<CommitRecord>, WrongPage>
    ensures { CommitGot layout.now.limits (page_told page.entry) result }
{
    match page {
        PageRead::Written(bytes) => {
            let Some(commit) = read_commit(layout, bytes) else {
                return Err(WrongPage);
            };
            Ok(Some(commit))
        }
        _ => Ok(None),
    }
}

// The slot in use, by the commit records of both: the one there is, or of two that of the later turn.
fn choose(first: Option<CommitRecord>, second: Option<CommitRecord>) -> Option<InUse>
    ensures chosen { slot_told result ≡ chosen_slot (commit_told first) (commit_told second) }
    ensures from { SlotFrom first second result }
{
    match (first, second) {
        (None, None) => None,
        (Some(commit), None) => Some(InUse {
            slot: Slot::First,
            commit,
        }),
        (None, Some(commit)) => Some(InUse {
            slot: Slot::Second,
            commit,
        }),
        (Some(one), Some(two)) => {
            if two.turn.is_after(one.turn) {
                Some(InUse {
                    slot: Slot::Second,
                    commit: two,
                })
            } else {
                Some(InUse {
                    slot: Slot::First,
                    commit: one,
                })
            }
        }
    }
}

// How many pages the checkpoint with this commit record has.
fn pages_of(commit: &CommitRecord) -> u32
    requires { (commit.now.legs ≤ 65536) × (commit.now.fares ≤ 65536) × (commit.now.bookings ≤ 1000000) }
    ensures pages { result ≡ pages (head_of commit.now) }
    ensures few { result < 145000 }
{
    checkpoint_pages(commit.legs, commit.fares, commit.bookings)
}

// The journal when so many pages of the log of the slot in use are read, and no more are there.
fn found_in(in_use: InUse, used: u32) -> Journal
    requires { (in_use.commit.legs ≤ 65536) × (in_use.commit.fares ≤ 65536) × (in_use.commit.bookings ≤ 1000000) }
    ensures { (l : MeantLimits) (h : House) → journal_of l result h ≡ found_log l in_use used h }
{
    Journal {
        committed: true,
        slot: in_use.slot,
        turn: in_use.commit.turn,
        pages: pages_of(&in_use.commit),
        begins: in_use.commit.begins,
        used,
    }
}

// How far a start has come when so many pages of the log are read: a log ends with the ring, if not
// before.
fn replay_on(layout: &Layout, in_use: InUse, page: u32) -> Stage
    requires within { Within layout.now.limits in_use.commit }
    requires page { page ≤ ring_pages layout.now.limits }
    ensures reading { (can : ℕ → Bool) (h : House) → reading_of (limits_mean can layout.now.limits) result h ≡ log_on (limits_mean can layout.now.limits) in_use page h }
    ensures ranges { Ranges layout.now.limits result }
    ensures past { Past result }
{
    if page < 16 * layout.ring_blocks() {
        Stage::Replaying { in_use, page }
    } else {
        Stage::Ready {
            journal: found_in(in_use, page),
        }
    }
}

// Takes the commit record of the first slot.
fn take_first(m: &Memory, page: PageRead) -> Result<Stage, WrongPage>
    requires sound { Sound m.now }
    requires fits { StageFits m.now Stage.Unread }
    ensures { Next m.now m.now Stage.Unread (page_told page.entry) result }
{
    let layout = Layout::new(m.limits());
    let first = commit_in(&layout, page)?;
    Ok(Stage::OneCommit { first })
}

// Begins to read the checkpoint of the slot in use. Memory is that of a new house, and its clock is
// set to that of the commit record.
fn begin(m: &mut Memory, in_use: InUse) -> Stage
    requires sound { Sound m.old }
    requires new { house m.old ≡ new_house (stage m.old) }
    requires within { Within m.old.limits in_use.commit }
    ensures at { At m.old m.new result (checkpoint_on (stage m.old) in_use 0 (opened (stage m.old) (head_of in_use.commit))) }
    ensures sound { Sound m.new }
    ensures lent { Lent m.old m.new }
{
    m.set_clock(in_use.commit.clock);
    if 0 < pages_of(&in_use.commit) {
        Stage::Reading { in_use, page: 0 }
    } else {
        replay_on(&Layout::new(m.limits()), in_use, 0)
    }
}

// Takes the commit record of the second slot, by which the slot in use is known.
fn take_second(
    m: &mut Memory,
    first: Option<CommitRecord>,
    page: PageRead,
) -> Result<Stage, WrongPage>
    requires sound { Sound m.old }
    requires fits { StageFits m.old (Stage.OneCommit first) }
    ensures next { Next m.old m.new (Stage.OneCommit first) (page_told page.entry) result }
    ensures sound { Sound m.new }
    ensures lent { Lent m.old m.new }
{
    let layout = Layout::new(m.limits());
    let second = commit_in(&layout, page)?;
    let Some(in_use) = choose(first, second) else {
        return Ok(Stage::Ready {
            journal: Journal::unused(),
        });
    };
    Ok(begin(m, in_use))
}

// Takes page n of the checkpoint of the slot in use. With the last of them the house is whole, and
// nobody in it may wait for what is free.
fn take_kept(m: &mut Memory, in_use: InUse, n: u32, page: PageRead) -> Result<Stage, WrongPage>
    requires sound { Sound m.old }
    requires fits { StageFits m.old (Stage.Reading in_use n) }
    ensures next { Next m.old m.new (Stage.Reading in_use n) (page_told page.entry) result }
    ensures sound { Sound m.new }
    ensures lent { Lent m.old m.new }
{
    let PageRead::Written(bytes) = page else {
        return Err(WrongPage);
    };
    load_checkpoint(m, &in_use.commit, n as usize, bytes)?;
    if n + 1 < pages_of(&in_use.commit) {
        return Ok(Stage::Reading {
            in_use,
            page: n + 1,
        });
    }
    let None = first_fit(m) else {
        return Err(WrongPage);
    };
    Ok(replay_on(&Layout::new(m.limits()), in_use, 0))
}

// Takes page n of the log: a blank one ends it, a spoilt one is passed over, and the call of any other
// is done.
fn take_logged(m: &mut Memory, in_use: InUse, n: u32, page: PageRead) -> Result<Stage, WrongPage>
    requires sound { Sound m.old }
    requires fits { StageFits m.old (Stage.Replaying in_use n) }
    ensures next { Next m.old m.new (Stage.Replaying in_use n) (page_told page.entry) result }
    ensures sound { Sound m.new }
    ensures lent { Lent m.old m.new }
{
    let layout = Layout::new(m.limits());
    match page {
        PageRead::Blank => Ok(Stage::Ready {
            journal: found_in(in_use, n),
        }),
        PageRead::Spoilt => Ok(replay_on(&layout, in_use, n + 1)),
        PageRead::Written(bytes) => {
            let Some(part) = call_in(bytes) else {
                return Err(WrongPage);
            };
            let mut sold = [0; 26];
            let _ = answer_row::<EveryCall>(m, part, &mut sold);
            Ok(replay_on(&layout, in_use, n + 1))
        }
    }
}

// The stage after this one, with the page that it asks for.
fn stage_after(stage: Stage, m: &mut Memory, page: PageRead) -> Result<Stage, WrongPage>
    requires sound { Sound m.old }
    requires fits { StageFits m.old stage }
    ensures next { Next m.old m.new stage (page_told page.entry) result }
    ensures sound { Sound m.new }
    ensures lent { Lent m.old m.new }
{
    match stage {
        Stage::Unread => take_first(m, page),
        Stage::OneCommit { first } => take_second(m, first, page),
        Stage::Reading { in_use, page: n } => take_kept(m, in_use, n, page),
        Stage::Replaying { in_use, page: n } => take_logged(m, in_use, n, page),
        Stage::Ready { journal } => Ok(Stage::Ready { journal }),
    }
}

impl Stage {
    // Takes the page that is asked for next, or it can't come next on a house's chip. The chip is then
    // refused, and the house in memory is to be given up.
    pub fn take(&mut self, m: &mut Memory, page: PageRead) -> Result<(), WrongPage>
        requires sound { Sound m.old }
        requires fits { StageFits m.old self.old }
        ensures taken { Taken m.old m.new self.old self.new (page_told page.entry) result }
        ensures sound { Sound m.new }
        ensures lent { Lent m.old m.new }
    {
        *self = stage_after(*self, m, page)?;
        Ok(())
    }
}
