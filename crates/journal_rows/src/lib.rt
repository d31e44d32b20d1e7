// How the chip of a house is shared out: two slots for checkpoints and a ring for the log, by the
// limits with which the house was opened. specs/Layout.antt says what the pages of the journal say,
// specs/Bytes.antt with which bytes; crate journal_house what is proved of the house that is kept so.
#![tactic(auto)]

ghost use Rattle.std.specs.Prelude.{◌≡◌, ℕ, ◌+◌, ◌*◌, ◌<◌, ◌≤◌, Bool, slice_index};
ghost use Rattle.meaning.specs.Promise.{room_for};
ghost use Rattle.limits.specs.Opening.{InRange, limits_mean};
ghost use Rattle.wire.specs.Bytes.{numbers_in};
ghost use Rattle.journal.specs.Slots.{first};
ghost use Rattle.journal.specs.Codes.{is_second};
ghost use Rattle.journal_rows.specs.Layout.{IsReadBack, booking_pages, fare_pages, leg_pages, ring_blocks, slot_blocks};
ghost use Rattle.journal_rows.specs.Bytes.{page_bytes};
ghost use Rattle.journal_rows.specs.Kinds.{kind_number};
ghost use Rattle.journal_rows.specs.Sorts.{SortsLawful};

use journal::Slot;
use limits::Limits;
use wire::leg_at;

// What a page is, as its first number says.
#[derive(Clone, Copy, PartialEq, Eq, Debug)]
pub enum PageKind {
    Commit = 1,
    Legs = 2,
    Fares = 3,
    Bookings = 4,
    Call = 5,
}

impl From<PageKind> for u32 {
    ghost from_gives = { λ kind number. number ≡ kind_number kind };

    fn from(kind: PageKind) -> u32 {
        kind as u32
    }
}

// Number i of the 128 that a page has.
pub fn word(page: &[u8; 512], i: usize) -> u32
    requires { i < 128 }
    ensures { result ≡ slice_index (numbers_in page.now) i }
{
    let Some(number) = leg_at(page, i) else {
        unreachable()
    };
    number
}

// Records to a page of a checkpoint.
pub const LEGS_A_PAGE: usize = 4;

pub const FARES_A_PAGE: usize = 25;

pub const BOOKINGS_A_PAGE: usize = 8;

// How many pages a checkpoint of so many legs, fares and bookings has.
pub fn checkpoint_pages(legs: u32, fares: u32, bookings: u32) -> u32
    requires { (legs ≤ 65536) × (fares ≤ 65536) × (bookings ≤ 1000000) }
    ensures pages { result ≡ leg_pages legs + (fare_pages fares + booking_pages bookings) }
    ensures few { result < 145000 }
{
    (legs + 3) / 4 + ((fares + 24) / 25 + (bookings + 7) / 8)
}

// How the chip of a house is shared out, by the limits with which the house was opened.
#[derive(Clone, Copy)]
pub struct Layout {
    pub limits: Limits,
    pub ghost in_range: { InRange limits },
}

impl Layout {
    // The layout for limits with which a house can be opened.
    pub fn new(limits: Limits) -> Layout
        requires { InRange limits }
        ensures { result.limits ≡ limits }
    {
        Layout { limits }
    }

    // How many blocks of the chip the house asks for.
    pub fn blocks(&self) -> u32
        ensures { (can : ℕ → Bool) → result ≡ room_for (limits_mean can self.now.limits) }
    {
        (self.limits.legs + self.limits.fares + self.limits.bookings) / 8 + 16
    }

    // How many blocks a slot has: one for its commit record, and those of the largest checkpoint.
    pub fn slot_blocks(&self) -> u32
        ensures blocks { (can : ℕ → Bool) → result ≡ slot_blocks (limits_mean can self.now.limits) }
        ensures few { result < 200000 }
    {
        let most = checkpoint_pages(self.limits.legs, self.limits.fares, self.limits.bookings);
        1 + (most + 15) / 16
    }

    // The first block of a slot, that of its commit record.
    pub fn first_block(&self, slot: Slot) -> u32
        ensures block { (can : ℕ → Bool) → result ≡ first (slot_blocks (limits_mean can self.now.limits)) (is_second slot) }
        ensures few { result < 200000 }
    {
        match slot {
            Slot::First => 0,
            Slot::Second => self.slot_blocks(),
        }
    }

    // How many blocks the ring has: all but those of the slots.
    pub fn ring_blocks(&self) -> u32
        ensures blocks { (can : ℕ → Bool) → result ≡ ring_blocks (limits_mean can self.now.limits) }
        ensures few { result < 200000 }
    {
        self.blocks() - 2 * self.slot_blocks()
    }
}

// What is written into a page is read back from it, and fills it: some legs, fares or bookings of a
// house, a call that was taken, and a commit record, of every house that can be reached. The theorem
// does nothing when called.
pub fn rows_read_back()
    ensures { IsReadBack page_bytes }
{}

// Legs, fares and bookings are records of the same kind of sort: a page of any of them is filled and
// read in the same way. The theorem does nothing when called.
pub fn sorts_are_lawful()
    ensures { SortsLawful }
{}
