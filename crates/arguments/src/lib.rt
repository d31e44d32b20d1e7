// The words with which the programs `house` and `house_on_chip` are called, and what is wrong in a use
// of them.
#![tactic(auto)]

ghost use Rattle.std.specs.Prelude.{◌≡◌, map, string_bytes};
ghost use Rattle.arguments.specs.Words.{TearTold, Told, number_of};

use flash::Power;
use std::fmt;

// The most numbers that a tear has: one for each page of a block.
pub const MOST_TORN: usize = 16;

// What the words say: the files of the pages and of the calls, and when power fails.
#[derive(Clone, Copy)]
pub struct Arguments<'a> {
    pub pages: &'a str,
    pub calls: &'a str,
    pub power: Power,
}

// What went wrong: a wrong use of the program, or a file, the output or memory that fails it.
#[derive(Clone, Copy)]
pub enum Trouble<'a> {
    TooFew,
    NoNumber(&'a str),
    NoTear(&'a str),
    TooManyTears(&'a str),
    Unreadable(&'a str),
    Unwritable(&'a str),
    Unprinted,
    NoMemory,
}

impl fmt::Display for Trouble<'_> {
    fn fmt<W: fmt::Write>(&self, f: &mut fmt::Formatter<W>) -> fmt::Result {
        match *self {
            Trouble::TooFew => write!(f, "usage: house PAGES ACTS CALLS [TEAR ...]"),
            Trouble::NoNumber(word) => write!(f, "the number of acts is no number: {word}"),
            Trouble::NoTear(word) => write!(f, "a tear is 0, 1 or 2: {word}"),
            Trouble::TooManyTears(word) => write!(f, "a tear has at most 16 numbers: {word}"),
            Trouble::Unreadable(path) => write!(f, "can't read {path}"),
            Trouble::Unwritable(path) => write!(f, "can't write {path}"),
            Trouble::Unprinted => write!(f, "can't print the answers"),
            Trouble::NoMemory => write!(f, "out of memory"),
        }
    }
}

// The number that a word of a tear is.
#[tactic(auto, unfolding(crate::specs::Words::number_of))]
fn tear_number(word: &str) -> Option<u8>
    ensures { result ≡ number_of word.now }
{
    match word {
        "0" => Some(0),
        "1" => Some(1),
        "2" => Some(2),
        _ => None,
    }
}

// The tear that words are.
fn read_tear(words: &[String]) -> Result<[u8; 16], Trouble<'_>>
    ensures { TearTold (map string_bytes words.now) result }
{
    let mut tear = [0; MOST_TORN];
    let mut rest = words;
    for number in &mut tear {
        let Some((word, others)) = rest.split_first() else {
            break;
        };
        let word = word.as_str();
        let Some(how) = tear_number(word) else {
            return Err(Trouble::NoTear(word));
        };
        *number = how;
        rest = others;
    }
    match rest.first() {
        Some(word) => Err(Trouble::TooManyTears(word.as_str())),
        None => Ok(tear),
    }
}

// What the words behind the program's name say.
pub fn read_arguments(words: &[String]) -> Result<Arguments<'_>, Trouble<'_>>
    ensures { Told (map string_bytes words.now) result }
{
    let [pages, acts, calls, tears @ ..] = words else {
        return Err(Trouble::TooFew);
    };
    let Ok(count) = acts.as_str().parse::<u64>() else {
        return Err(Trouble::NoNumber(acts.as_str()));
    };
    let tear = read_tear(tears)?;
    Ok(Arguments {
        pages: pages.as_str(),
        calls: calls.as_str(),
        power: Power { acts: count, tear },
    })
}
