// The program `house_on_chip PAGES ACTS CALLS [TEAR ...]`: keeps a house in the file PAGES, which
// stands for the chip, plays the calls of the file CALLS on it, and prints each answer as a line. It is
// thin: the crate `file_chip` is the chip in a file, and the crate `player` takes up the chip and plays
// the calls on it, in memory that is lent for one run.
#![tactic(auto)]

ghost use Rattle.std.specs.Prelude.{◌≡◌, ◌≤◌, true, length};
ghost use Rattle.meaning.specs.Promise.{room_for};
ghost use Rattle.journal_steps.specs.Steps.{chip_limits};
ghost use Rattle.call_files.specs.Opening.{memory_suffices, opening_refused, times_fit};

use arguments::{Arguments, Trouble, read_arguments};
use call_files::{chip_bytes, first_line, open_house, whole_chip};
use driver::Device;
use file_chip::{Fault, FileChip};
use flash::Power;
use limits::Limits;
use player::{Unfinished, run};
use protocol::{Answer, Unopened};
use std::alloc::{AllocError, Global};
use std::fs::File;
use std::process::ExitCode;
use std::{env, fs, io};
use store::open;
use text::answers::AnswerLine;

// The bytes of the file that stands for the chip; none where there is no such file.
fn read_pages(rt: &HostRuntime, path: &str) -> io::Result<Vec<u8>> {
    if fs::exists(rt, path)? {
        fs::read(rt, path)
    } else {
        Ok(Vec::new(rt.alloc()))
    }
}

// Opens the file that stands for the chip. One that is not there, or is empty, becomes as long as a
// blank chip, in one step.
fn open_pages(rt: &HostRuntime, path: &str, length: u64) -> io::Result<File> {
    let file = File::options()
        .read(true)
        .write(true)
        .create(true)
        .open(rt, path)?;
    if file.metadata()?.len() == 0 {
        file.set_len(length)?;
        file.sync_all()?;
    }
    Ok(file)
}

// Prints the answer to an opening that is refused, unless power fails in that act.
fn refuse_opening(rt: &HostRuntime, power: Power, answer: Answer) -> io::Result<()> {
    let mut power = power;
    if power.spend().is_err() {
        return Ok(());
    }
    let line = AnswerLine { answer, list: &[] };
    println!(rt; "{line}")
}

// Plays a text on a house that can be opened, in memory that is lent for it.
fn play_house<D: Device>(
    heap: Global,
    device: &mut D,
    limits: Limits,
    text: &[u8],
) -> Result<Result<(), Unfinished>, AllocError>
    requires memory { memory_suffices limits ≡ true }
    requires times { times_fit limits ≡ true }
    requires size { room_for (chip_limits limits) ≤ D.Device.blocks device.old }
{
    let mut leg_words = vec![in heap; 0u32; 32 * 128]?;
    let mut fare_words = vec![in heap; 0u32; 32 * 24]?;
    let mut booking_words = vec![in heap; 0u32; 128 * 22]?;
    let mut all_sums = vec![in heap; 0u64; 128]?;
    let legs = leg_words.as_mut_slice();
    let fares = fare_words.as_mut_slice();
    let bookings = booking_words.as_mut_slice();
    let sums = all_sums.as_mut_slice();
    let mut m = open(limits, legs, fares, bookings, sums);
    Ok(run(heap, device, &mut m, text))
}

// What is left to do when a run has ended: a chip that is no house's is refused, and what went wrong
// outside of the chip is told.
fn close<'a>(
    chip: &mut FileChip<'_>,
    ended: Result<(), Unfinished>,
    path: &'a str,
) -> Result<(), Trouble<'a>> {
    match ended {
        Ok(()) => return Ok(()),
        Err(Unfinished::NoMemory) => return Err(Trouble::NoMemory),
        Err(Unfinished::PowerFailed) => {}
        Err(Unfinished::Refused) => {
            let _ = chip.say(Answer::from(Unopened::Chip), &[]);
        }
    }
    match chip.failed() {
        None => Ok(()),
        Some(Fault::File) => Err(Trouble::Unwritable(path)),
        Some(Fault::Output) => Err(Trouble::Unprinted),
        Some(Fault::NoMemory) => Err(Trouble::NoMemory),
    }
}

// Plays the calls of a text on the chip that a file is, by the line that opened the house.
fn play<'a>(
    rt: &HostRuntime,
    arguments: Arguments<'a>,
    limits: Limits,
    text: &[u8],
    found: Vec<u8>,
) -> Result<(), Trouble<'a>>
    requires { opening_refused limits (length found.items) ≡ 0 }
{
    let Ok(pages) = whole_chip(rt.alloc(), found, &limits) else {
        return Err(Trouble::NoMemory);
    };
    let mut pages = pages;
    let Ok(file) = open_pages(rt, arguments.pages, chip_bytes(&limits)) else {
        return Err(Trouble::Unwritable(arguments.pages));
    };
    let Ok(outside) = rt.clone() else {
        return Err(Trouble::NoMemory);
    };
    let mut chip = FileChip::new(outside, file, pages.as_mut_slice(), arguments.power);
    match play_house(rt.alloc(), &mut chip, limits, text) {
        Ok(ended) => close(&mut chip, ended, arguments.pages),
        Err(_) => Err(Trouble::NoMemory),
    }
}

// Reads the files that the words name, and plays the calls: the first line opens the house.
fn perform<'a>(rt: &HostRuntime, words: &'a [String]) -> Result<(), Trouble<'a>> {
    let arguments = read_arguments(words)?;
    let Ok(found) = read_pages(rt, arguments.pages) else {
        return Err(Trouble::Unreadable(arguments.pages));
    };
    let Ok(text) = fs::read(rt, arguments.calls) else {
        return Err(Trouble::Unreadable(arguments.calls));
    };
    let first = first_line(text.as_slice());
    match open_house(first.value, found.len() as u64) {
        Ok(limits) => play(rt, arguments, limits, first.rest, found),
        Err(refusal) => match refuse_opening(rt, arguments.power, refusal) {
            Ok(()) => Ok(()),
            Err(_) => Err(Trouble::Unprinted),
        },
    }
}

// The words behind the program's name.
// Kept: a word is the outside's, of which no contract can speak, so a function that all programs share
// would promise nothing.
fn words(rt: &HostRuntime) -> io::Result<Vec<String>> {
    let mut words = Vec::new(rt.alloc());
    for word in env::args(rt)?.skip(1) {
        words.push(word)?;
    }
    Ok(words)
}

fn main(rt: HostRuntime) -> ExitCode {
    let Ok(words) = words(&rt) else {
        let _ = eprintln!(rt; "house: can't read the words of the call");
        return ExitCode::FAILURE;
    };
    match perform(&rt, words.as_slice()) {
        Ok(()) => ExitCode::SUCCESS,
        Err(trouble) => {
            let _ = eprintln!(rt; "house: {trouble}");
            ExitCode::FAILURE
        }
    }
}
