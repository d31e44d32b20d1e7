// The program `house PAGES ACTS CALLS [TEAR ...]`: plays the calls of a file on a house, and prints
// each answer as a line. It is thin: lines are read and printed by the crate `text`, and calls are done
// by the crate `calls`, on memory that is lent for one run. The pages are looked at, and left as they
// are: a house is not kept on them yet.
#![tactic(auto)]

ghost use Rattle.meaning.specs.Statements.{Reached};
ghost use Rattle.store.specs.Whole.{house};
ghost use Rattle.calls.specs.Stage.{stage};

mod answering;

use answering::answer_line;
use arguments::{Trouble, read_arguments};
use call_files::{first_line, is_passed_over, open_house};
use flash::{Power, PowerFailed};
use limits::{Limits, Sizes};
use protocol::{Answer, Unopened};
use scan::Lines;
use std::alloc::AllocError;
use std::process::ExitCode;
use std::{env, fs, io};
use store::{Memory, open};
use text::answers::AnswerLine;

// Why the calls are not played to their end: power failed in an act, or there is no memory, or an
// answer can't be printed.
#[derive(Clone, Copy)]
enum Stopped {
    PowerFailed,
    Outside,
}

impl From<PowerFailed> for Stopped {
    fn from(_failed: PowerFailed) -> Stopped {
        Stopped::PowerFailed
    }
}

impl From<AllocError> for Stopped {
    fn from(_error: AllocError) -> Stopped {
        Stopped::Outside
    }
}

impl From<io::Error> for Stopped {
    fn from(_error: io::Error) -> Stopped {
        Stopped::Outside
    }
}

// Prints an answer, unless it is the act in which power fails.
fn say(rt: &HostRuntime, power: &mut Power, answer: Answer, list: &[u64]) -> Result<(), Stopped> {
    power.spend()?;
    let line = AnswerLine { answer, list };
    println!(rt; "{line}")?;
    Ok(())
}

// How many bytes the file of the pages has; a file that is not there has none.
fn pages_length(rt: &HostRuntime, path: &str) -> io::Result<u64> {
    if fs::exists(rt, path)? {
        Ok(fs::metadata(rt, path)?.len())
    } else {
        Ok(0)
    }
}

// Plays the calls of a text on a house, until power fails.
fn play_calls(
    rt: &HostRuntime,
    m: &mut Memory,
    text: &[u8],
    power: &mut Power,
) -> Result<(), Stopped>
    requires { Reached (stage m.old) (house m.old) }
{
    let mut sold = [0; 26];
    for line in Lines::new(text) {
        if is_passed_over(line) {
            continue;
        }
        let reply = answer_line(rt.alloc(), m, line, &mut sold)?;
        let listed = reply.listed;
        say(rt, power, reply.answer, &sold[0..listed])?;
    }
    Ok(())
}

// Plays the calls of a text on a new house, in memory that is lent for it.
fn play_house(
    rt: &HostRuntime,
    limits: Limits,
    text: &[u8],
    power: &mut Power,
) -> Result<(), Stopped> {
    let mut leg_words = vec![in rt.alloc(); 0u32; 32 * 128]?;
    let mut fare_words = vec![in rt.alloc(); 0u32; 32 * 24]?;
    let mut booking_words = vec![in rt.alloc(); 0u32; 128 * 22]?;
    let mut all_sums = vec![in rt.alloc(); 0u64; 128]?;
    let legs = leg_words.as_mut_slice();
    let fares = fare_words.as_mut_slice();
    let bookings = booking_words.as_mut_slice();
    let sums = all_sums.as_mut_slice();
    let sizes = Sizes {
        legs: legs.len(),
        fares: fares.len(),
        bookings: bookings.len(),
        sums: sums.len(),
    };
    let None = limits.misfit(&sizes) else {
        return say(rt, power, Answer::from(Unopened::Memory), &[]);
    };
    let mut m = open(limits, legs, fares, bookings, sums);
    play_calls(rt, &mut m, text, power)
}

// Plays a file of calls: its first line opens the house, and where it has none it is too short at once.
fn play(rt: &HostRuntime, text: &[u8], bytes: u64, power: &mut Power) -> Result<(), Stopped> {
    let first = first_line(text);
    match open_house(first.value, bytes) {
        Ok(limits) => play_house(rt, limits, first.rest, power),
        Err(refusal) => say(rt, power, refusal, &[]),
    }
}

// Reads the files that the words name, and plays them.
fn perform<'a>(rt: &HostRuntime, words: &'a [String]) -> Result<(), Trouble<'a>> {
    let arguments = read_arguments(words)?;
    let Ok(bytes) = pages_length(rt, arguments.pages) else {
        return Err(Trouble::Unreadable(arguments.pages));
    };
    let Ok(text) = fs::read(rt, arguments.calls) else {
        return Err(Trouble::Unreadable(arguments.calls));
    };
    let mut power = arguments.power;
    match play(rt, text.as_slice(), bytes, &mut power) {
        Ok(()) | Err(Stopped::PowerFailed) => Ok(()),
        Err(Stopped::Outside) => Err(Trouble::Unprinted),
    }
}

// The words behind the program's name.
// Kept: a word is the outside's, of which no contract can speak, so a function that all programs share
// would promise nothing.
fn words(rt: &HostRuntime) -> io::Result<Vec<String>> {
    let mut words = Vec::new(rt.alloc());
    for word in env::args(rt)?.skip(1) {
        words.push(word)?;
    }
    Ok(words)
}

fn main(rt: HostRuntime) -> ExitCode {
    let Ok(words) = words(&rt) else {
        return ExitCode::FAILURE;
    };
    match perform(&rt, words.as_slice()) {
        Ok(()) => ExitCode::SUCCESS,
        Err(Trouble::Unprinted) => ExitCode::FAILURE,
        Err(trouble) => {
            let _ = eprintln!(rt; "house: {trouble}");
            ExitCode::FAILURE
        }
    }
}
