// The device that the program runs on: a chip that is kept in a file, page by page, and answers that
// are printed, each as a line. A mirror of the chip stands in lent memory (the crate chips); what the
// mirror holds, and which answers it recorded, is what the contracts of the device speak of. After
// each act the pages that it may have changed are stored in the file, each in its place.
//
// A page is stored so that whoever stops the program at any moment leaves no worse than a spoilt page:
// first the byte that says how it is becomes 2, spoilt; then come the page's bytes; then the byte that
// says how it is. Each of the three is on the file before the next is begun.
//
// Where the file can't be written, or an answer can't be printed, that is remembered, and counts as
// power failing in the act.
#![tactic(auto)]

ghost use Rattle.std.specs.Prelude.{◌≡◌, ◌*◌, ◌<◌, []};
ghost use Rattle.flash.specs.Pages.{chip_in};
ghost use Rattle.chips.specs.Recorded.{blocks_in, chip_of, told_by};

use chips::MemoryChip;
use driver::Device;
use flash::{PageState, Power, PowerFailed};
use protocol::Answer;
use std::alloc::Global;
use std::fs::File;
use std::io;
use std::io::{Seek, SeekFrom, Write};
use text::answers::AnswerLine;

// The bytes of a page in the file, with the one that says how it is.
const ROW: u64 = 513;

// Pages to a block.
const BLOCK: u32 = 16;

// What went wrong outside of the chip: the file could not be written, an answer could not be printed,
// or there was no memory to record one.
#[derive(Clone, Copy)]
pub enum Fault {
    File,
    Output,
    NoMemory,
}

// A chip in a file, its mirror in lent memory, and where answers are printed.
#[derive(Drop)]
pub struct FileChip<'a> {
    mirror: MemoryChip<'a>,
    file: File,
    rt: HostRuntime,
    failed: Option<Fault>,
}

// Puts bytes at a place of a file, and has them reach it.
fn put_at(file: &File, place: u64, bytes: &[u8]) -> io::Result<()> {
    let mut file = file;
    file.seek(SeekFrom::Start(place))?;
    file.write_all(bytes)?;
    file.sync_data()
}

impl<'a> FileChip<'a> {
    // The chip that a file is, which has just these bytes. No answer was given yet.
    pub fn new(rt: HostRuntime, file: File, pages: &'a mut [u8], power: Power) -> FileChip<'a>
        ensures chip { chip_of result.mirror ≡ chip_in pages.old }
        ensures bytes { result.mirror.pages.now ≡ pages.old }
        ensures lent { result.mirror.pages.ghost_name ≡ pages.entry.ghost_name }
        ensures told { told_by result.mirror ≡ [] }
    {
        let heap = rt.alloc();
        FileChip {
            mirror: MemoryChip::new(pages, power, heap),
            file,
            rt,
            failed: None,
        }
    }

    // What went wrong outside of the chip, if anything did.
    pub fn failed(&self) -> Option<Fault>
        ensures { result ≡ self.now.failed }
    {
        self.failed
    }

    // Stores a page of the mirror in the file.
    fn store_page(&self, page: u32) -> io::Result<()>
        requires { page < 16 * blocks_in self.now.mirror }
    {
        let place = u64::from(page) * ROW;
        let mut bytes = [0; 512];
        let state = self.mirror.read(page, &mut bytes);
        put_at(&self.file, place, &[u8::from(PageState::Spoilt)])?;
        put_at(&self.file, place + 1, &bytes)?;
        put_at(&self.file, place, &[u8::from(state)])
    }

    // Stores the pages of a block.
    fn store_block(&self, block: u32) -> io::Result<()>
        requires { block < blocks_in self.now.mirror }
    {
        let Some(first) = block.checked_mul(BLOCK) else {
            return Err(io::Error::from(io::ErrorKind::FileTooLarge));
        };
        for page in first..=first + (BLOCK - 1) {
            self.store_page(page)?;
        }
        Ok(())
    }

    // Prints an answer.
    fn print_answer(&self, answer: Answer, list: &[u64]) -> io::Result<()> {
        let line = AnswerLine { answer, list };
        println!(self.rt; "{line}")
    }
}

impl Device for FileChip<'_> {
    ghost chip = { λ c. chip_of c.mirror };

    ghost told = { λ c. told_by c.mirror };

    ghost blocks = { λ c. blocks_in c.mirror };

    // Reads a page, as the mirror has it.
    fn read(&self, page: u32, bytes: &mut [u8; 512]) -> PageState {
        self.mirror.read(page, bytes)
    }

    // Writes a page.
    fn write(&mut self, page: u32, bytes: &[u8; 512]) -> Result<(), PowerFailed> {
        let held = self.mirror.write_page(page, bytes);
        if self.store_page(page).is_err() {
            self.failed = Some(Fault::File);
            return Err(PowerFailed);
        }
        held
    }

    // Erases a block.
    fn erase(&mut self, block: u32) -> Result<(), PowerFailed> {
        let held = self.mirror.erase_block(block);
        if self.store_block(block).is_err() {
            self.failed = Some(Fault::File);
            return Err(PowerFailed);
        }
        held
    }

    // Gives an answer: it is printed, unless power fails in the act, and then recorded.
    fn say(&mut self, answer: Answer, list: &[u64]) -> Result<(), PowerFailed> {
        let fails = self.mirror.power().acts == 1;
        if !fails && self.print_answer(answer, list).is_err() {
            self.failed = Some(Fault::Output);
            return Err(PowerFailed);
        }
        let held = self.mirror.record_answer(answer, list);
        if !fails && held.is_err() {
            self.failed = Some(Fault::NoMemory);
        }
        held
    }
}
