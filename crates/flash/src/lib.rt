// A chip of pages in lent memory, and power that may fail in the middle of an act. Each page has 513
// bytes: one that says how it is, 0 blank, 1 written, 2 spoilt, and the page's 512. A block is sixteen
// pages. This is the chip that the programs and the tests run on: it does what the definition of the
// chip says, and where power fails it leaves what the definition allows, by numbers that are lent.
#![tactic(auto)]

ghost use Rattle.std.specs.Prelude.{◌≡◌, ◌+◌, ◌*◌, ◌≤◌, ◌∷◌, length, is_ok, is_err, slice_index};
ghost use Rattle.meaning.specs.Chip.{write, wipe};
ghost use Rattle.meaning.specs.Lines.{pick};
ghost use Rattle.flash.specs.Pages.{Acted, ChipIs, RowPut, Spent, chip_in, erase_leaves, left_by, number_of, page_erased, page_told, state_of, write_leaves};

// The bytes of a page, and with the one that says how it is.
pub const PAGE: usize = 512;

const ROW: usize = 513;

// How a page is, with the number of it that stands on the chip.
#[derive(Clone, Copy, PartialEq, Eq, Debug)]
pub enum PageState {
    Blank = 0,
    Written = 1,
    Spoilt = 2,
}

impl From<u8> for PageState {
    ghost from_gives = { λ n s. s ≡ state_of n };

    // A number that is neither of a blank page nor of a written one is of a spoilt one.
    fn from(number: u8) -> PageState {
        match number {
            0 => PageState::Blank,
            1 => PageState::Written,
            _ => PageState::Spoilt,
        }
    }
}

impl From<PageState> for u8 {
    ghost from_gives = { λ s n. n ≡ number_of s };

    // The number that stands on the chip.
    fn from(state: PageState) -> u8 {
        state as u8
    }
}

// What reading a page tells.
#[derive(Clone, Copy)]
pub enum PageRead<'a> {
    Blank,
    Written(&'a [u8; 512]),
    Spoilt,
}

// What an act leaves of a page: as it was before, as the act makes it, or spoilt.
#[derive(Clone, Copy, PartialEq, Eq, Debug)]
pub enum Left {
    AsBefore,
    Done,
    Spoilt,
}

impl From<u8> for Left {
    ghost from_gives = { λ n l. l ≡ left_by n };

    // By the number of a tear.
    fn from(number: u8) -> Left {
        match number {
            0 => Left::AsBefore,
            1 => Left::Done,
            _ => Left::Spoilt,
        }
    }
}

// Power failed in an act.
#[derive(Clone, Copy, PartialEq, Eq, Debug)]
pub struct PowerFailed;

// When power fails, counted in acts (0 is never), and what it leaves of each page of the act.
//
// Kept: 0 for never, and numbers in the tear, are how the programs' words and lists say them.
#[derive(Clone, Copy)]
pub struct Power {
    pub acts: u64,
    pub tear: [u8; 16],
}

// Reads a page.
pub fn read_page(pages: &[u8], k: usize) -> PageRead<'_>
    requires { k * 513 + 513 ≤ length pages.now }
    ensures { page_told result ≡ chip_in pages.now k }
{
    let at = k * ROW;
    match PageState::from(pages[at]) {
        PageState::Blank => PageRead::Blank,
        PageState::Written => {
            let Some((bytes, _)) = pages[at + 1..].split_first_chunk() else {
                unreachable!()
            };
            PageRead::Written(bytes)
        }
        PageState::Spoilt => PageRead::Spoilt,
    }
}

// Fills the bytes of one page.
fn fill_row(row: &mut [u8], state: PageState, bytes: &[u8; 512])
    requires { length row.old ≡ 513 }
    ensures { row.new ≡ number_of state ∷ bytes.now }
{
    row[0] = u8::from(state);
    row[1..ROW].copy_from_slice(bytes);
}

// Puts another page in the place of page k.
fn put_page(pages: &mut [u8], k: usize, state: PageState, bytes: &[u8; 512])
    requires { k * 513 + 513 ≤ length pages.old }
    ensures { RowPut k (number_of state ∷ bytes.now) pages.old pages.new }
{
    let at = k * ROW;
    fill_row(&mut pages[at..at + ROW], state, bytes);
}

// Spoils page k.
fn spoil(pages: &mut [u8], k: usize)
    requires { k * 513 + 513 ≤ length pages.old }
    ensures { ChipIs (page_erased (chip_in pages.old) k Left.Spoilt) pages.old pages.new }
{
    put_page(pages, k, PageState::Spoilt, &[0; PAGE]);
}

// Writes a page, or what is left of that: a page that is not blank is spoilt.
#[tactic(auto, unfolding(meaning::specs::Chip::written_on))]
fn write_as(pages: &mut [u8], k: usize, bytes: &[u8; 512], left: Left)
    requires { k * 513 + 513 ≤ length pages.old }
    ensures { ChipIs (write_leaves (chip_in pages.old) k bytes.now left) pages.old pages.new }
{
    match left {
        Left::AsBefore => {}
        Left::Done => match read_page(pages, k) {
            PageRead::Blank => put_page(pages, k, PageState::Written, bytes),
            _ => spoil(pages, k),
        },
        Left::Spoilt => spoil(pages, k),
    }
}

// Makes a page blank, or what is left of that.
fn erase_as(pages: &mut [u8], k: usize, left: Left)
    requires { k * 513 + 513 ≤ length pages.old }
    ensures { ChipIs (page_erased (chip_in pages.old) k left) pages.old pages.new }
{
    match left {
        Left::AsBefore => {}
        Left::Done => put_page(pages, k, PageState::Blank, &[0; PAGE]),
        Left::Spoilt => spoil(pages, k),
    }
}

impl Power {
    // One act more: power fails in it if it is the last that was left.
    pub fn spend(&mut self) -> Result<(), PowerFailed>
        ensures { Spent self.old self.new (is_err result) }
    {
        let last = self.acts == 1;
        self.acts = self.acts.saturating_sub(1);
        if last { Err(PowerFailed) } else { Ok(()) }
    }
}

// What an act leaves of a page: it is done where power held, else what the number of the tear says.
fn left_if(held: Result<(), PowerFailed>, number: u8) -> Left
    ensures { result ≡ pick (is_ok held) Left.Done (left_by number) }
{
    match held {
        Ok(()) => Left::Done,
        Err(PowerFailed) => Left::from(number),
    }
}

// Writes a page. Where power fails, the page is torn as the power says.
pub fn write_page(
    pages: &mut [u8],
    power: &mut Power,
    k: usize,
    bytes: &[u8; 512],
) -> Result<(), PowerFailed>
    requires { k * 513 + 513 ≤ length pages.old }
    ensures acted { Acted (write k bytes.now) pages.old pages.new (is_ok result) }
    ensures left { ChipIs (write_leaves (chip_in pages.old) k bytes.now (pick (is_ok result) Left.Done (left_by (slice_index power.old.tear 0)))) pages.old pages.new }
    ensures power { Spent power.old power.new (is_err result) }
{
    let held = power.spend();
    write_as(pages, k, bytes, left_if(held, power.tear[0]));
    held
}

// Erases a block. Where power fails, each page of it is torn as the power says.
pub fn erase_block(pages: &mut [u8], power: &mut Power, block: usize) -> Result<(), PowerFailed>
    requires { (block * 16 + 16) * 513 ≤ length pages.old }
    ensures acted { Acted (wipe block) pages.old pages.new (is_ok result) }
    ensures left { ChipIs (erase_leaves (chip_in pages.old) block (λ i. pick (is_ok result) Left.Done (left_by (slice_index power.old.tear i)))) pages.old pages.new }
    ensures power { Spent power.old power.new (is_err result) }
{
    let held = power.spend();
    for (i, number) in power.tear.iter().enumerate() {
        erase_as(pages, block * 16 + i, left_if(held, *number));
    }
    held
}
