// Pages of the journal read into memory: the commit record of a slot, the pages of its checkpoint, and
// the calls of the log. Each page is 512 bytes, by the layout of the crate `journal_rows`; what can't
// be a page of a house's chip is refused. specs/Pages.antt says what a page brings.
#![tactic(auto)]

ghost use Rattle.std.specs.Prelude.{◌≡◌, ℕ, ◌+◌, ◌<◌, ◌≤◌, Bool, ◌&&◌, length, ◌==◌, OnOk, OnErr, slice_index};
ghost use Rattle.limits.specs.Opening.{limits_mean};
ghost use Rattle.wire.specs.Bytes.{numbers_in};
ghost use Rattle.store.specs.Whole.{Lent, Sound, house};
ghost use Rattle.journal_rows.specs.Layout.{pages};
ghost use Rattle.journal_rows.specs.Bytes.{in_limits, of_limits, page_bytes};
ghost use Rattle.journal_rows.specs.Kinds.{kind_number};
ghost use Rattle.journal_rows.specs.Sorts.{NoneSo, with_first};
ghost use Rattle.journal_load.specs.Pages.{CallPart, IsWithin, Loaded, Loads, NoPage, Within, commit_told, head_of};

use journal::Turn;
use journal_records::{Record, WrongPage};
use journal_rows::{BOOKINGS_A_PAGE, FARES_A_PAGE, LEGS_A_PAGE, Layout, PageKind, word};
use records::{Booking, Fare, Leg};
use store::Memory;

// No call that is taken has more bytes: those of a page behind its first two numbers.
const MOST_OF_CALL: usize = 504;

// What a commit record says.
#[derive(Clone, Copy, PartialEq, Eq, Debug)]
pub struct CommitRecord {
    pub turn: Turn,
    pub clock: u32,
    pub legs: u32,
    pub fares: u32,
    pub bookings: u32,
    pub begins: u32,
}

// Does a page begin as the commit record of a house does that was opened with these limits.
fn is_of(layout: &Layout, page: &[u8; 512]) -> bool
    ensures { (can : ℕ → Bool) → result ≡ of_limits (limits_mean can layout.now.limits) (numbers_in page.now) }
{
    let limits = layout.limits;
    let kind = word(page, 0);
    let gap = word(page, 2);
    let hold = word(page, 3);
    let legs = word(page, 4);
    let fares = word(page, 5);
    let bookings = word(page, 6);
    (kind == u32::from(PageKind::Commit) && (gap == limits.gap && hold == limits.hold))
        && (legs == limits.legs && (fares == limits.fares && bookings == limits.bookings))
}

// Is what a commit record says within these limits.
fn is_within(layout: &Layout, page: &[u8; 512]) -> bool
    ensures { (can : ℕ → Bool) → result ≡ in_limits (limits_mean can layout.now.limits) (numbers_in page.now) }
{
    let limits = layout.limits;
    let clock = word(page, 7);
    let legs = word(page, 8);
    let fares = word(page, 9);
    let bookings = word(page, 10);
    let begins = word(page, 11);
    let ring = 16 * layout.ring_blocks();
    (clock < 16_777_216 && legs <= limits.legs)
        && ((fares <= limits.fares && bookings <= limits.bookings) && begins < ring)
}

// The commit record that a page is, of a house opened with these limits; none if it is none.
pub fn read_commit(layout: &Layout, page: &[u8; 512]) -> Option<CommitRecord>
    ensures told { (can : ℕ → Bool) → commit_told result ≡ page_bytes.uncommit (limits_mean can layout.now.limits) page.now }
    ensures within { IsWithin layout.now.limits result }
{
    if !is_of(layout, page) {
        return None;
    }
    if !is_within(layout, page) {
        return None;
    }
    let turn = Turn::try_from(word(page, 1)).ok()?;
    Some(CommitRecord {
        turn,
        clock: word(page, 7),
        legs: word(page, 8),
        fares: word(page, 9),
        bookings: word(page, 10),
        begins: word(page, 11),
    })
}

// The bytes of the call that a page of the log holds; none if it holds no call.
pub fn call_in(page: &[u8; 512]) -> Option<&[u8]>
    ensures { CallPart page.now result }
{
    if word(page, 0) != u32::from(PageKind::Call) {
        return None;
    }
    let count = word(page, 1) as usize;
    if count > MOST_OF_CALL {
        return None;
    }
    Some(&page[8..8 + count])
}

// Is a page of this kind, with so many records.
fn is_page(page: &[u8; 512], kind: PageKind, count: usize) -> bool
    ensures { result ≡ (slice_index (numbers_in page.now) 0 == kind_number kind && slice_index (numbers_in page.now) 1 == count) }
{
    let its_kind = word(page, 0);
    let its_count = word(page, 1) as usize;
    its_kind == u32::from(kind) && its_count == count
}

// Reads a page of so many records into memory, behind those that are there; or it can't be such a page.
fn load<R: Record>(m: &mut Memory, page: &[u8; 512], count: usize) -> Result<(), WrongPage>
    requires sound { Sound m.old }
    requires few { count ≤ R.A_PAGE }
    requires space { length (R.sort.its (house m.old)) + count ≤ R.sort.most m.old.limits }
    ensures loads { OnOk result (Loads page.now (house m.old) (house m.new)) }
    ensures came { OnOk result (house m.new ≡ with_first R.sort page.now (house m.old) count) }
    ensures refused { OnErr result (NoneSo R.sort page.now (house m.old) count) }
    ensures sound { Sound m.new }
    ensures lent { Lent m.old m.new }
{
    if !is_page(page, R::KIND, count) {
        return Err(WrongPage);
    }
    for k in 0..count {
        let record = R::read(page, k, m)?;
        record.push(m);
    }
    Ok(())
}

// Reads page n of the checkpoint with this commit record, behind those before it; or it can't be
// that page. What was read of it before is then in memory, which is to be given up.
pub fn load_checkpoint(
    m: &mut Memory,
    commit: &CommitRecord,
    n: usize,
    page: &[u8; 512],
) -> Result<(), WrongPage>
    requires sound { Sound m.old }
    requires within { Within m.old.limits commit.now }
    requires number { n < pages (head_of commit.now) }
    requires before { Loaded (head_of commit.now) n (house m.old) }
    ensures loads { OnOk result (Loads page.now (house m.old) (house m.new)) }
    ensures loaded { OnOk result (Loaded (head_of commit.now) (n + 1) (house m.new)) }
    ensures refused { OnErr result (NoPage commit.now n page.now) }
    ensures sound { Sound m.new }
    ensures lent { Lent m.old m.new }
{
    let legs = commit.legs as usize;
    let fares = commit.fares as usize;
    let bookings = commit.bookings as usize;
    let leg_pages = (legs + 3) / LEGS_A_PAGE;
    let fare_pages = (fares + 24) / FARES_A_PAGE;
    if n < leg_pages {
        let count = LEGS_A_PAGE.min(legs - n * LEGS_A_PAGE);
        return load::<Leg>(m, page, count);
    }
    let behind_legs = n - leg_pages;
    if behind_legs < fare_pages {
        let count = FARES_A_PAGE.min(fares - behind_legs * FARES_A_PAGE);
        return load::<Fare>(m, page, count);
    }
    let behind_fares = behind_legs - fare_pages;
    let count = BOOKINGS_A_PAGE.min(bookings - behind_fares * BOOKINGS_A_PAGE);
    load::<Booking>(m, page, count)
}
