#![tactic(auto)]

ghost use Rattle.std.specs.Prelude.{◌≡◌, [], MatchOption, slice_index_or};
ghost use Rattle.protocol.specs.Verbs.{verb_number};
ghost use Rattle.scan.specs.Told.{ListTold};
ghost use Rattle.text.specs.CallLines.{ReadsBack, call_in, joint, line_call, listing_in, place_among, rest_in, verbs};
ghost use Rattle.text.specs.Places.{PlacesTold};
ghost use Rattle.text.specs.Told.{LineTold, RestTold};

use protocol::{Call, Verb};
use scan::{Unfit, Unread, read_list, read_numbers, read_word, skip_spaces};
use std::alloc::Global;

// A call, and the list beside it: limits or legs, empty where the call has none.
#[derive(Drop)]
pub struct CallLine {
    pub call: Call,
    pub list: Vec<u32>,
}

// Why a line is not read as a call: it is none from this byte on, or there is no memory for it.
#[derive(Clone, Copy)]
pub enum NoCall {
    Unreadable { place: usize },
    NoMemory,
}

pub mod answers;
pub mod calls;
pub mod houses;

// The word with which the line of a call begins.
fn word_of(verb: Verb) -> &'static str
    ensures { result.now ≡ slice_index_or verbs (verb_number verb) [] }
{
    match verb {
        Verb::Open => "open",
        Verb::File => "file",
        Verb::Book => "book",
        Verb::Pay => "pay",
        Verb::Cancel => "cancel",
        Verb::Limits => "limits",
        Verb::Ticks => "ticks",
        Verb::Free => "free",
        Verb::Price => "price",
        Verb::Booking => "booking",
        Verb::Leg => "leg",
    }
}

// The word before the list of a call.
fn list_word(verb: Verb) -> &'static str
    ensures { result.now ≡ joint (verb_number verb) }
{
    match verb {
        Verb::Open => "limits",
        Verb::Limits => "to",
        _ => "on",
    }
}

// The verb whose lines begin with a word.
fn find_verb(word: &[u8]) -> Option<Verb>
    ensures { MatchOption result (place_among word.now verbs ≡ 11) (λ v. place_among word.now verbs ≡ verb_number v) }
{
    Verb::ALL
        .iter()
        .copied()
        .find(|verb| word == word_of(*verb).as_bytes())
}

// The list of a call of this verb, up to the end of the line.
fn read_listing(heap: Global, verb: Verb, line: &[u8]) -> Result<Vec<u32>, Unread>
    ensures { ListTold result (listing_in (verb_number verb) line.now) }
{
    if verb.takes_list() {
        let next = read_word(line);
        if next.value == list_word(verb).as_bytes() {
            return read_list(heap, next.rest);
        }
    } else if skip_spaces(line).is_empty() {
        return Ok(Vec::new(heap));
    }
    Err(Unread::Unfit(Unfit {
        left: skip_spaces(line).len(),
    }))
}

// The call of this verb that a line is behind its first word.
fn read_rest(heap: Global, verb: Verb, line: &[u8]) -> Result<CallLine, Unread>
    ensures { RestTold result (rest_in (verb_number verb) line.now) }
{
    let fields = read_numbers(line, verb.field_count())?;
    let list = read_listing(heap, verb, fields.rest)?;
    let call = Call::with(verb, fields.value);
    Ok(CallLine { call, list })
}

// The call that a line is; or how many bytes are left from the first that doesn't fit on.
fn find_call(heap: Global, line: &[u8]) -> Result<CallLine, Unread>
    ensures { RestTold result (call_in line.now) }
{
    let first = read_word(line);
    let Some(verb) = find_verb(first.value) else {
        return Err(Unread::Unfit(Unfit {
            left: skip_spaces(line).len(),
        }));
    };
    read_rest(heap, verb, first.rest)
}

// The call that a line is; or the place of the first byte from which on it is none, which is the
// line's length where it is too short.
pub fn read_call(heap: Global, line: &[u8]) -> Result<CallLine, NoCall>
    ensures { LineTold result (line_call line.now) }
{
    find_call(heap, line).map_err(|unread| match unread {
        Unread::Unfit(unfit) => NoCall::Unreadable {
            place: unfit.place(line),
        },
        Unread::NoMemory => NoCall::NoMemory,
    })
}

// For every call that can be written in its fields, reading the line that is printed for it gives
// that call back: a theorem over the definitions that the contracts of reading and printing cite.
pub fn reads_back()
    ensures { ReadsBack }
{}

// An unknown word, a line that is too short or too long and a number that is too large are each
// refused at their place: a theorem over the same definitions.
pub fn places_told()
    ensures { PlacesTold }
{}
