// The program `sales PAGES`: reads the file that stands for the chip of a house, changes nothing, and
// prints a line for each leg, with what is sold on it. It knows the limits of the house from the chip:
// a commit record names them, and stands in the first page of a slot's first block.
#![tactic(auto)]

ghost use Rattle.std.specs.Prelude.{◌≡◌, ◌≤◌, true};
ghost use Rattle.meaning.specs.Promise.{room_for};
ghost use Rattle.store.specs.Whole.{Sound};
ghost use Rattle.journal_steps.specs.Steps.{chip_limits};
ghost use Rattle.chips.specs.Recorded.{blocks_in};
ghost use Rattle.sales.specs.Finding.{served};

mod finding;
mod lines;

use chips::MemoryChip;
use driver::{Device, take_up};
use finding::{commit_limits, fits};
use flash::{PageState, Power};
use limits::Limits;
use lines::leg_line;
use std::process::ExitCode;
use std::{env, fmt, fs, io};
use store::{Memory, open};

// The bytes of a block in the file: sixteen pages of 513 bytes each.
const BLOCK: usize = 8_208;

// The most blocks that are looked at: more than any house asks for that the program can serve.
const MOST_BLOCKS: usize = 65_536;

// What went wrong.
#[derive(Clone, Copy)]
enum Trouble<'a> {
    Usage,
    Unreadable(&'a str),
    NoHouse(&'a str),
    Unprinted,
    NoMemory,
}

impl fmt::Display for Trouble<'_> {
    fn fmt<W: fmt::Write>(&self, f: &mut fmt::Formatter<W>) -> fmt::Result {
        match *self {
            Trouble::Usage => write!(f, "usage: sales PAGES"),
            Trouble::Unreadable(path) => write!(f, "can't read {path}"),
            Trouble::NoHouse(path) => write!(f, "no chip of a house: {path}"),
            Trouble::Unprinted => write!(f, "can't print what is sold"),
            Trouble::NoMemory => write!(f, "out of memory"),
        }
    }
}

impl From<io::Error> for Trouble<'_> {
    // Of what goes wrong while a house is shown, only want of memory is not the output's fault.
    fn from(error: io::Error) -> Self {
        match error.kind() {
            io::ErrorKind::OutOfMemory => Trouble::NoMemory,
            _ => Trouble::Unprinted,
        }
    }
}

// What a chip shows: a house, whose legs were printed, nothing yet, or what is no house.
#[derive(Clone, Copy)]
enum Shown {
    House,
    Nothing,
    NoHouse,
}

// Prints a line for each leg of a house in memory.
fn show_legs(rt: &HostRuntime, m: &Memory) -> io::Result<()>
    requires { Sound m.now }
{
    // Kept: legs are in lent words, so they are gone through by number.
    for leg in 0..m.leg_count() {
        let line = leg_line(rt.alloc(), m, leg)?;
        println!(rt; "{line}")?;
    }
    Ok(())
}

// Takes up a chip as one of a house of these limits, in memory that is lent for it, and prints its
// legs. It may be no such chip.
fn show_house(rt: &HostRuntime, chip: &MemoryChip<'_>, limits: Limits) -> io::Result<Shown>
    requires served { served limits ≡ true }
    requires size { room_for (chip_limits limits) ≤ blocks_in chip.now }
{
    let mut leg_words = vec![in rt.alloc(); 0u32; 32 * 128]?;
    let mut fare_words = vec![in rt.alloc(); 0u32; 32 * 24]?;
    let mut booking_words = vec![in rt.alloc(); 0u32; 128 * 22]?;
    let mut all_sums = vec![in rt.alloc(); 0u64; 128]?;
    let legs = leg_words.as_mut_slice();
    let fares = fare_words.as_mut_slice();
    let bookings = booking_words.as_mut_slice();
    let sums = all_sums.as_mut_slice();
    let mut m = open(limits, legs, fares, bookings, sums);
    let mut page = [0; 512];
    let Some(_session) = take_up(chip, &mut m, &mut page) else {
        return Ok(Shown::NoHouse);
    };
    show_legs(rt, &m)?;
    Ok(Shown::House)
}

// Looks for a commit record, block by block, and shows the first house that the chip can be taken up
// as. A chip with none, whose first page has nothing on it, is one with no house yet.
fn show_chip(rt: &HostRuntime, chip: &MemoryChip<'_>, blocks: u32) -> io::Result<Shown>
    requires whole { blocks ≡ blocks_in chip.now }
    requires few { blocks ≤ 65536 }
{
    let mut shown = Shown::Nothing;
    let mut page = [0; 512];
    // Kept: a chip is asked for its pages by number.
    for block in 0..blocks {
        let PageState::Written = chip.read(block * 16, &mut page) else {
            continue;
        };
        match commit_limits(&page) {
            Some(limits) => {
                shown = Shown::NoHouse;
                if fits(&limits, block, blocks) {
                    if let Shown::House = show_house(rt, chip, limits)? {
                        return Ok(Shown::House);
                    }
                }
            }
            None => {
                if block == 0 {
                    shown = Shown::NoHouse;
                }
            }
        }
    }
    Ok(shown)
}

// Reads the file that a word names, and shows the chip that it stands for.
fn perform<'a>(rt: &HostRuntime, words: &'a [String]) -> Result<(), Trouble<'a>> {
    let [path] = words else {
        return Err(Trouble::Usage);
    };
    let path = path.as_str();
    let Ok(bytes) = fs::read(rt, path) else {
        return Err(Trouble::Unreadable(path));
    };
    let mut bytes = bytes;
    let blocks = bytes.len() / BLOCK;
    if blocks * BLOCK != bytes.len() || blocks > MOST_BLOCKS {
        return Err(Trouble::NoHouse(path));
    }
    let power = Power {
        acts: 0,
        tear: [0; 16],
    };
    let chip = MemoryChip::new(bytes.as_mut_slice(), power, rt.alloc());
    match show_chip(rt, &chip, blocks as u32)? {
        Shown::House | Shown::Nothing => Ok(()),
        Shown::NoHouse => Err(Trouble::NoHouse(path)),
    }
}

// The words behind the program's name.
// Kept: a word is the outside's, of which no contract can speak, so a function that all programs share
// would promise nothing.
fn words(rt: &HostRuntime) -> io::Result<Vec<String>> {
    let mut words = Vec::new(rt.alloc());
    for word in env::args(rt)?.skip(1) {
        words.push(word)?;
    }
    Ok(words)
}

fn main(rt: HostRuntime) -> ExitCode {
    let Ok(words) = words(&rt) else {
        let _ = eprintln!(rt; "sales: can't read the words of the call");
        return ExitCode::FAILURE;
    };
    match perform(&rt, words.as_slice()) {
        Ok(()) => ExitCode::SUCCESS,
        Err(trouble) => {
            let _ = eprintln!(rt; "sales: {trouble}");
            ExitCode::FAILURE
        }
    }
}
