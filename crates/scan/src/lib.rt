// Words and numbers at the front of a line of bytes. A reader takes the front off the line and
// hands on what stands behind it, as a part of the caller's bytes; or it says how many bytes are
// left from the first that doesn't fit on, so that its place in the line is the line's length
// less that.
#![tactic(auto)]

ghost use Rattle.std.specs.Prelude.{◌≡◌, ◌-◌, ◌<◌, ◌≤◌, min, length, take, drop};
ghost use Rattle.scan.specs.Told.{ListTold, number_told, numbers_told};
ghost use Rattle.scan.specs.Words.{front, is_kind, line_of, list_in, next_word, number_in, numbers_in, past_line, past_word, value_on, word_in};

use std::alloc::{AllocFailed, Global};

// Kinds of bytes: a space, a byte of a word, which is any other, a decimal digit, and a byte of a
// line, which is any but the one that ends it.
#[derive(Clone, Copy)]
pub enum Kind {
    Space,
    Letter,
    Digit,
    InLine,
}

// What was taken off the front of some bytes, a word, a line or numbers, and what stands behind it.
#[derive(Clone, Copy)]
pub struct Front<'a, T> {
    pub value: T,
    pub rest: &'a [u8],
}

// Bytes that don't fit on: so many are left from the first of them.
#[derive(Clone, Copy)]
pub struct Unfit {
    pub left: usize,
}

// Why a list was not read: bytes that don't fit on, or there is no memory for it.
#[derive(Clone, Copy)]
pub enum Unread {
    Unfit(Unfit),
    NoMemory,
}

impl From<Unfit> for Unread {
    ghost use Rattle.scan.specs.declared.Unread.TheVariants as unread;

    ghost from_gives = { λ unfit r. r ≡ unread.Unfit unfit };

    fn from(unfit: Unfit) -> Unread {
        Unread::Unfit(unfit)
    }
}

impl<T: Drop> From<AllocFailed<T>> for Unread {
    ghost use Rattle.scan.specs.declared.Unread.TheVariants as unread;

    ghost from_gives = { λ _ r. r ≡ unread.NoMemory };

    fn from(_failed: AllocFailed<T>) -> Unread {
        Unread::NoMemory
    }
}

impl Unfit {
    // The place in a line of the first byte that doesn't fit on.
    pub fn place(self, line: &[u8]) -> usize
        ensures { result ≡ length line.now - self.left }
    {
        line.len().saturating_sub(self.left)
    }
}

impl Kind {
    // Is a byte of this kind.
    fn holds(self, byte: u8) -> bool
        ensures { result ≡ is_kind self byte }
    {
        match self {
            Kind::Space => byte == b' ',
            Kind::Letter => byte != b' ',
            Kind::Digit => matches!(byte, b'0'..=b'9'),
            Kind::InLine => byte != b'\n',
        }
    }
}

// How many bytes of a kind stand in front.
#[tactic(auto, unfolding(crate::specs::Words::front))]
fn count_front(kind: Kind, line: &[u8]) -> usize
    ensures front { result ≡ front kind line.now }
    ensures within { result ≤ length line.now }
{
    line.iter().take_while(|byte| kind.holds(**byte)).count()
}

// The bytes of a kind in front, and what stands behind them.
fn take_front(kind: Kind, line: &[u8]) -> Front<'_, &[u8]>
    ensures value { result.value.now ≡ take (front kind line.now) line.now }
    ensures rest { result.rest.now ≡ drop (front kind line.now) line.now }
{
    let (value, rest) = line.split_at(count_front(kind, line));
    Front { value, rest }
}

// The line from its next word on.
pub fn skip_spaces(line: &[u8]) -> &[u8]
    ensures { result.now ≡ next_word line.now }
{
    take_front(Kind::Space, line).rest
}

// One more than the largest number that four bytes hold.
const TOO_LARGE: u64 = 4_294_967_296;

// The number that digits write, or one that is too large where it is larger.
fn value_of(digits: &[u8]) -> u64
    ensures { result ≡ min (value_on 0 digits.now) 4294967296 }
{
    let value = digits.iter().fold(0u64, |value, digit| {
        value.min(TOO_LARGE) * 10 + u64::from(digit.saturating_sub(b'0'))
    });
    value.min(TOO_LARGE)
}

// The first line of a text, without the byte that ends it.
pub fn read_line(text: &[u8]) -> Front<'_, &[u8]>
    ensures line { result.value.now ≡ line_of text.now }
    ensures rest { result.rest.now ≡ past_line text.now }
    ensures shorter { 0 < length text.now → length result.rest.now < length text.now }
{
    let line = take_front(Kind::InLine, text);
    let rest = match line.rest {
        [_end, rest @ ..] => rest,
        [] => line.rest,
    };
    Front {
        value: line.value,
        rest,
    }
}

// The lines of a text that are left, one after the other, each without the byte that ends it. What
// stands behind the lines that were taken is there to be read in another way.
#[derive(Clone, Copy)]
pub struct Lines<'a> {
    pub rest: &'a [u8],
}

impl<'a> Lines<'a> {
    // The lines of a text.
    pub fn new(text: &'a [u8]) -> Lines<'a>
        ensures { result.rest.now ≡ text.now }
    {
        Lines { rest: text }
    }
}

impl<'a> Iterator for Lines<'a> {
    ghost use Rattle.std.specs.Iterator.{at_most};
    ghost use Rattle.scan.specs.Told.{TakesLine};

    type Item = &'a [u8];

    ghost next_gives = { TakesLine };

    ghost remaining = { λ s. at_most (length s.rest.now) };

    fn next(&mut self) -> Option<&'a [u8]> {
        if self.rest.is_empty() {
            return None;
        }
        let line = read_line(self.rest);
        self.rest = line.rest;
        Some(line.value)
    }
}

// The next number; or how many bytes are left from what doesn't fit on.
#[tactic(auto, using(crate::proofs::Fronts::taken_length))]
pub fn read_number(line: &[u8]) -> Result<Front<'_, u32>, Unfit>
    ensures { number_told result ≡ number_in line.now }
{
    let here = skip_spaces(line);
    let digits = take_front(Kind::Digit, here);
    if digits.value.is_empty() {
        return Err(Unfit { left: here.len() });
    }
    let Ok(value) = u32::try_from(value_of(digits.value)) else {
        return Err(Unfit { left: here.len() });
    };
    let rest = digits.rest;
    if !take_front(Kind::Letter, rest).value.is_empty() {
        return Err(Unfit { left: rest.len() });
    }
    Ok(Front { value, rest })
}

// The next word, empty where there is none.
pub fn read_word(line: &[u8]) -> Front<'_, &[u8]>
    ensures word { result.value.now ≡ word_in line.now }
    ensures rest { result.rest.now ≡ past_word line.now }
{
    take_front(Kind::Letter, skip_spaces(line))
}

// The next numbers, as many as asked for, but at most five. What stands beyond them means nothing.
// Kept: a call is made of five numbers, of which as many count as its verb asks for.
pub fn read_numbers(line: &[u8], count: usize) -> Result<Front<'_, [u32; 5]>, Unfit>
    ensures { numbers_told (min count 5) result ≡ numbers_in (min count 5) line.now }
{
    let most = count.min(5);
    let mut values = [0; 5];
    let mut rest = line;
    for value in &mut values[..most] {
        let next = read_number(rest)?;
        *value = next.value;
        rest = next.rest;
    }
    Ok(Front {
        value: values,
        rest,
    })
}

// The most numbers that a list has: as many as a byte can count.
pub const MOST_LISTED: usize = 255;

// All numbers up to the end of the line.
pub fn read_list(heap: Global, line: &[u8]) -> Result<Vec<u32>, Unread>
    ensures { ListTold result (list_in 255 line.now) }
{
    let mut list = Vec::new(heap);
    let mut rest = line;
    for _ in 0..MOST_LISTED {
        if skip_spaces(rest).is_empty() {
            return Ok(list);
        }
        let next = read_number(rest)?;
        list.push(next.value)?;
        rest = next.rest;
    }
    let over = skip_spaces(rest);
    if !over.is_empty() {
        return Err(Unread::Unfit(Unfit { left: over.len() }));
    }
    Ok(list)
}
