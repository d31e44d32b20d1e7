// Which limits a commit record names, and whether they are those of a chip's house.
ghost use Rattle.std.specs.Prelude.{◌≡◌, ◌<◌, ◌||◌, ◌==◌, slice_index};
ghost use Rattle.wire.specs.Bytes.{numbers_in};
ghost use Rattle.sales.specs.Finding.{fits_chip, limits_named, served};

use journal_rows::{Layout, PageKind, word};
use limits::Limits;

// The limits that a page names, if it is a commit record.
pub fn commit_limits(page: &[u8; 512]) -> Option<Limits>
    ensures { result ≡ limits_named (numbers_in page.now) }
{
    if word(page, 0) != u32::from(PageKind::Commit) {
        return None;
    }
    Some(Limits {
        gap: word(page, 2),
        hold: word(page, 3),
        legs: word(page, 4),
        fares: word(page, 5),
        bookings: word(page, 6),
    })
}

// Are these limits in range, and no more than the program lends memory for.
fn are_served(limits: &Limits) -> bool
    ensures { result ≡ served limits.now }
{
    (limits.gap <= 65_536 && (1 <= limits.hold && limits.hold <= 65_536))
        && (limits.legs <= 32 && (limits.fares <= 32 && limits.bookings <= 128))
}

// Does a slot begin with this block, by how many blocks a slot has.
fn begins_slot(block: u32, slot: u32) -> bool
    ensures { result ≡ (block == 0 || block == slot) }
{
    block == 0 || block == slot
}

// Are these limits of a house that the program can serve, whose chip has so many blocks, and in which
// a commit record can stand in this block.
pub fn fits(limits: &Limits, block: u32, blocks: u32) -> bool
    ensures { result ≡ fits_chip limits.now block blocks }
{
    if !are_served(limits) {
        return false;
    }
    let layout = Layout::new(*limits);
    if layout.blocks() != blocks {
        return false;
    }
    begins_slot(block, layout.slot_blocks())
}
