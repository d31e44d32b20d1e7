// The pages of the journal, filled from the house in lent memory: a commit record, a page of a
// checkpoint, and the page of a call. A page is 512 bytes that the caller lends; whatever it held
// before is gone, and every byte that isn't needed is 0. Which bytes a page has is said where the
// pages are defined: `row`, `call_page` and `page_bytes` of the crate journal_rows.
#![tactic(auto)]

ghost use Rattle.std.specs.Prelude.{◌≡◌, ℕ, ◌<◌, ◌≤◌, Bool, [], ◌∷◌, length};
ghost use Rattle.wire.specs.Bytes.{row_of};
ghost use Rattle.limits.specs.Opening.{limits_mean};
ghost use Rattle.store.specs.Whole.{Sound, house};
ghost use Rattle.journal.specs.Codes.{turn_of};
ghost use Rattle.journal_rows.specs.Layout.{checkpoint_page, head, pages};
ghost use Rattle.journal_rows.specs.Bytes.{call_page, filled, page_bytes, row};
ghost use Rattle.journal_rows.specs.Kinds.{kind_number};
ghost use Rattle.journal_rows.specs.Sorts.{page_of};

use journal::Turn;
use journal_records::Record;
use journal_rows::{BOOKINGS_A_PAGE, FARES_A_PAGE, LEGS_A_PAGE, PageKind};
use journal_words::put_words;
use records::{Booking, Fare, Leg};
use store::Memory;

// Bytes of what every page begins with.
const HEAD_BYTES: usize = 8;

// Begins a page with its kind and one number more: a turn, or how much follows. All behind them is 0.
fn begin(page: &mut [u8; 512], kind: PageKind, number: u32)
    ensures { page.new ≡ filled (row_of 4 (kind_number kind ∷ (number ∷ []))) }
{
    *page = [0; 512];
    put_words(&mut page[0..HEAD_BYTES], &[u32::from(kind), number]);
}

// The page of a call, by its own bytes.
pub fn fill_call(call: &[u8], page: &mut [u8; 512])
    requires { length call.now ≤ 504 }
    ensures { page.new ≡ call_page call.now }
{
    begin(page, PageKind::Call, call.len() as u32);
    page[HEAD_BYTES..HEAD_BYTES + call.len()].copy_from_slice(call);
}

// The commit record of the house in memory.
pub fn fill_commit(m: &Memory, turn: Turn, begins: u32, page: &mut [u8; 512])
    requires { Sound m.now }
    ensures { (can : ℕ → Bool) → page.new ≡ page_bytes.commit (limits_mean can m.now.limits) (turn_of turn) (head (house m.now)) begins }
{
    let limits = m.limits();
    let words = [
        limits.gap,
        limits.hold,
        limits.legs,
        limits.fares,
        limits.bookings,
        m.clock(),
        m.leg_count() as u32,
        m.fare_count() as u32,
        m.booking_count() as u32,
        begins,
    ];
    begin(page, PageKind::Commit, u32::from(turn));
    put_words(&mut page[HEAD_BYTES..HEAD_BYTES + 40], &words);
}

// A page of records, from the first of them on as many as it has room for.
fn fill<R: Record>(m: &Memory, first: usize, page: &mut [u8; 512])
    requires sound { Sound m.now }
    requires there { first ≤ length (R.sort.its (house m.now)) }
    ensures { page.new ≡ row (page_of R.sort (house m.now) first) }
{
    let count = R::A_PAGE.min(R::count(m) - first);
    begin(page, R::KIND, count as u32);
    for i in 0..count {
        let at = HEAD_BYTES + i * (4 * R::WORDS);
        let record = R::at(m, first + i);
        record.put(&mut page[at..at + 4 * R::WORDS]);
    }
}

// Page j of the checkpoint of the house in memory: legs come first, then fares, then bookings.
pub fn fill_checkpoint(m: &Memory, j: usize, page: &mut [u8; 512])
    requires sound { Sound m.now }
    requires there { j < pages (head (house m.now)) }
    ensures { page.new ≡ row (checkpoint_page (house m.now) j) }
{
    let leg_pages = m.leg_count().div_ceil(LEGS_A_PAGE);
    if j < leg_pages {
        fill::<Leg>(m, j * LEGS_A_PAGE, page);
        return;
    }
    let k = j - leg_pages;
    let fare_pages = m.fare_count().div_ceil(FARES_A_PAGE);
    if k < fare_pages {
        fill::<Fare>(m, k * FARES_A_PAGE, page);
    } else {
        fill::<Booking>(m, (k - fare_pages) * BOOKINGS_A_PAGE, page);
    }
}
