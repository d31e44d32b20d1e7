// Calls as bytes. specs/Rows.antt says which bytes a call has, and which call a row of bytes is or
// at which place it ceases to be one; specs/Theorems.antt what follows from that.
#![tactic(auto)]

ghost use Rattle.std.specs.Prelude.{◌≡◌, ◌≤◌};
ghost use Rattle.protocol.specs.Forms.{call_of};
ghost use Rattle.protocol.specs.Verbs.{verb_number};
ghost use Rattle.wire.specs.Rows.{CallWritten, ListPart, Readable, call_told, decoded, extent, list_at};
ghost use Rattle.wire.specs.Theorems.{BytesComeBack, CallsComeBack, CallsFit, Misfits, MostBytes, NoneAlike};

mod reading;
mod writing;

use protocol::{Call, Verb};
pub use reading::{first_numbers, leg_at, leg_count};
pub use writing::{FixedWidth, put_numbers, put_row};

// The longest list of a call: its count is one byte.
pub const LONGEST_LIST: usize = 255;

// No call that can be written in its fields has more bytes.
pub const MAX_CALL: usize = 1038;

// A call as it was read: the list that stands beside it is the part of the caller's bytes in which
// its numbers are.
#[derive(Clone, Copy)]
pub struct Decoded<'a> {
    pub call: Call,
    pub list: &'a [u8],
}

// Where the list of a call of this verb begins: behind its numbers, and its count if it has a list.
fn list_place(verb: Verb) -> usize
    ensures place { result ≡ list_at (verb_number verb) }
    ensures few { result ≤ 22 }
{
    let end = 1 + 4 * verb.field_count();
    if verb.takes_list() { end + 1 } else { end }
}

// How many bytes a row of this verb should have, as its count says if it has a list.
fn whole_length(verb: Verb, bytes: &[u8]) -> usize
    ensures { result ≡ extent (verb_number verb) bytes.now }
{
    let place = list_place(verb);
    if !verb.takes_list() {
        return place;
    }
    let count = bytes.get(place - 1).copied().unwrap_or(0);
    place + 4 * usize::from(count)
}

// The call that a row of bytes is, with its list as a part of them, or the place of the first byte
// that doesn't fit.
pub fn decode(bytes: &[u8]) -> Result<Decoded<'_>, usize>
    ensures means { call_told result ≡ decoded bytes.now }
    ensures part { ListPart bytes.now result }
    ensures fits { Readable bytes.now result }
{
    let Some((number, behind)) = bytes.split_first() else {
        return Err(0);
    };
    let Ok(verb) = Verb::try_from(*number) else {
        return Err(0);
    };
    let length = whole_length(verb, bytes);
    if bytes.len() < length {
        return Err(bytes.len());
    }
    if bytes.len() > length {
        return Err(length);
    }
    let call = Call::with(verb, first_numbers(behind));
    let list = &bytes[list_place(verb)..];
    Ok(Decoded { call, list })
}

// Writes a call at the front of the caller's bytes and gives its length. Where its list is longer
// than a byte can count, or the bytes don't suffice, nothing is written.
pub fn encode_call(call: Call, list: &[u32], out: &mut [u8]) -> Option<usize>
    ensures { CallWritten (call_of call list.now) out.old out.new result }
{
    let verb = call.verb();
    let fields = call.fields();
    let fields = &fields[..verb.field_count()];
    if !verb.takes_list() {
        if out.len() < list_place(verb) {
            return None;
        }
        return Some(put_row(out, 0, verb.number(), fields));
    }
    if list.len() > LONGEST_LIST {
        return None;
    }
    if out.len() < list_place(verb) + 4 * list.len() {
        return None;
    }
    let end = put_row(out, 0, verb.number(), fields);
    Some(put_row(out, end, list.len() as u8, list))
}

// That number, and the theorem that it is the most.
pub fn most_call_bytes() -> usize
    ensures { (result ≡ 1038) × MostBytes result }
{
    MAX_CALL
}

// Decoding what was encoded gives the call, of every call that can be written in its fields; so no
// two calls have the same bytes. The theorems do nothing when called.
pub fn calls_come_back()
    ensures { CallsComeBack × NoneAlike }
{}

// Encoding what was decoded gives the bytes, of every row that is a call, and it is one that can be
// written in its fields.
pub fn bytes_come_back()
    ensures { BytesComeBack × CallsFit }
{}

// A row that is no call is refused at its first byte that doesn't fit: the bytes before it begin some
// call, and with it they begin none.
pub fn first_misfit()
    ensures { Misfits }
{}
