// The device that the tests and the program run on: a chip in lent memory, with power that fails in an
// act that is counted down to, and the answers that were given, recorded. The bytes are those of the
// crate flash, 513 for a page and sixteen pages for a block.
#![tactic(auto)]

ghost use Rattle.std.specs.Prelude.{◌≡◌, ◌*◌, ◌<◌, ◌≤◌, false, [], length, is_ok, is_err, IsOk, vec_len, vec_capacity, ◌==◌, slice_index};
ghost use Rattle.journal.specs.Acts.{say, wipe, write};
ghost use Rattle.meaning.specs.Lines.{pick};
ghost use Rattle.protocol.specs.Forms.{answer_of};
ghost use Rattle.flash.specs.Pages.{Spent, chip_in, erase_leaves, left_by, write_leaves};
ghost use Rattle.driver.specs.Played.{Acted};
ghost use Rattle.chips.specs.Recorded.{Counted, blocks_in, chip_of, told_by};

mod said;

use driver::Device;
use flash::{Left, PageRead, PageState, Power, PowerFailed, erase_block, read_page, write_page};
use protocol::Answer;
pub use said::Said;
use std::alloc::Global;

// A chip in lent memory, when power fails, and the answers that were given.
#[derive(Drop)]
pub struct MemoryChip<'a> {
    pages: &'a mut [u8],
    power: Power,
    said: Vec<Said>,
}

impl<'a> MemoryChip<'a> {
    // The chip that lent bytes are. No answer was given yet.
    pub fn new(pages: &'a mut [u8], power: Power, heap: Global) -> MemoryChip<'a>
        ensures chip { chip_of result ≡ chip_in pages.old }
        ensures bytes { result.pages.now ≡ pages.old }
        ensures lent { result.pages.ghost_name ≡ pages.entry.ghost_name }
        ensures power { result.power ≡ power }
        ensures told { told_by result ≡ [] }
    {
        MemoryChip {
            pages,
            power,
            said: Vec::new(heap),
        }
    }

    // The answers that were given, the first one first.
    pub fn said(&self) -> &[Said]
        ensures { result.now ≡ self.now.said.items }
    {
        self.said.as_slice()
    }

    // When power fails, counted from now.
    pub fn power(&self) -> Power
        ensures { result ≡ self.now.power }
    {
        self.power
    }

    // Writes a page. Where power fails, the page is torn as the power says.
    pub fn write_page(&mut self, page: u32, bytes: &[u8; 512]) -> Result<(), PowerFailed>
        requires { page < 16 * blocks_in self.old }
        ensures acted { Acted (chip_of self.old) (told_by self.old) (write page bytes.now) (chip_of self.new) (told_by self.new) (is_ok result) }
        ensures size { blocks_in self.new ≡ blocks_in self.old }
        ensures left { chip_of self.new ≡ write_leaves (chip_of self.old) page bytes.now (pick (is_ok result) Left.Done (left_by (slice_index self.old.power.tear 0))) }
        ensures power { Spent self.old.power self.new.power (is_err result) }
        ensures lent { self.new.pages.ghost_name ≡ self.old.pages.ghost_name }
    {
        let mut power = self.power;
        let held = write_page(self.pages, &mut power, page as usize, bytes);
        self.power = power;
        held
    }

    // Erases a block. Where power fails, each page of it is torn as the power says.
    pub fn erase_block(&mut self, block: u32) -> Result<(), PowerFailed>
        requires { block < blocks_in self.old }
        ensures acted { Acted (chip_of self.old) (told_by self.old) (wipe block) (chip_of self.new) (told_by self.new) (is_ok result) }
        ensures size { blocks_in self.new ≡ blocks_in self.old }
        ensures left { chip_of self.new ≡ erase_leaves (chip_of self.old) block (λ i. pick (is_ok result) Left.Done (left_by (slice_index self.old.power.tear i))) }
        ensures power { Spent self.old.power self.new.power (is_err result) }
        ensures lent { self.new.pages.ghost_name ≡ self.old.pages.ghost_name }
    {
        let mut power = self.power;
        let held = erase_block(self.pages, &mut power, block as usize);
        self.power = power;
        held
    }

    // Records an answer, unless power fails in the act. Where it can't be recorded, since there is no
    // memory for it or the list is longer than any answer's, that counts as power failing in the act.
    // With room for one more, and power that holds, a list of up to 26 numbers is recorded.
    pub fn record_answer(&mut self, answer: Answer, list: &[u64]) -> Result<(), PowerFailed>
        ensures acted { Acted (chip_of self.old) (told_by self.old) (say (answer_of answer list.now)) (chip_of self.new) (told_by self.new) (is_ok result) }
        ensures size { blocks_in self.new ≡ blocks_in self.old }
        ensures bytes { self.new.pages.now ≡ self.old.pages.now }
        ensures power { Counted self.old.power self.new.power (is_ok result) }
        ensures room { (self.old.power.acts == 1) ≡ false → length list.now ≤ 26 → vec_len self.old.said < vec_capacity self.old.said → IsOk result }
        ensures lent { self.new.pages.ghost_name ≡ self.old.pages.ghost_name }
    {
        self.power.spend()?;
        let said = Said::new(answer, list).ok_or(PowerFailed)?;
        self.said.push(said).map_err(|_| PowerFailed)?;
        Ok(())
    }
}

impl Device for MemoryChip<'_> {
    ghost chip = { λ c. chip_of c };

    ghost told = { λ c. told_by c };

    ghost blocks = { λ c. blocks_in c };

    // Reads a page: how it is, and where it is written its bytes, into the lent ones.
    fn read(&self, page: u32, bytes: &mut [u8; 512]) -> PageState {
        match read_page(self.pages, page as usize) {
            PageRead::Blank => PageState::Blank,
            PageRead::Written(found) => {
                *bytes = *found;
                PageState::Written
            }
            PageRead::Spoilt => PageState::Spoilt,
        }
    }

    // Writes a page.
    fn write(&mut self, page: u32, bytes: &[u8; 512]) -> Result<(), PowerFailed> {
        self.write_page(page, bytes)
    }

    // Erases a block.
    fn erase(&mut self, block: u32) -> Result<(), PowerFailed> {
        self.erase_block(block)
    }

    // Gives an answer: it is recorded.
    fn say(&mut self, answer: Answer, list: &[u64]) -> Result<(), PowerFailed> {
        self.record_answer(answer, list)
    }
}
