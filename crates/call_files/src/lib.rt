// Files of calls: which lines are passed over, the first of those that are left, by which a house is
// opened on the file that stands for its chip, and the bytes of the call that a line is.
// specs/Opening.antt says which house a first line opens, and which refusal it is answered by, and
// specs/Lines.antt what the lines of such a file are.
#![tactic(auto)]

ghost use Rattle.std.specs.Prelude.{◌≡◌, true, length};
ghost use Rattle.call_files.specs.Lines.{RowRead, first_in, passed_over};
ghost use Rattle.call_files.specs.Opening.{Checked, FirstLine, Whole, chip_bytes, chip_fits};

use limits::Limits;
use protocol::{Answer, Refusal, Unopened};
use scan::{Front, Lines};
use std::alloc::{AllocError, Global};
use text::houses::read_house;
use text::{NoCall, read_call};
use wire::{MAX_CALL, encode_call};

// Is a line passed over: an empty one, or one that begins with `#`.
pub fn is_passed_over(line: &[u8]) -> bool
    ensures { result ≡ passed_over line.now }
{
    match line {
        [] => true,
        [first, ..] => *first == b'#',
    }
}

// The first line of a text that is not passed over, and what stands behind it; nothing where there is
// no such line.
pub fn first_line(text: &[u8]) -> Front<'_, &[u8]>
    ensures { (result.value.now, result.rest.now) ≡ first_in (length text.now) text.now }
{
    let mut lines = Lines::new(text);
    while let Some(line) = lines.next() {
        if !is_passed_over(line) {
            return Front {
                value: line,
                rest: lines.rest,
            };
        }
    }
    Front {
        value: lines.rest,
        rest: lines.rest,
    }
}

// The bytes of the call that a line is, in the lent ones; or why it is none. A call that is read can
// always be written: its numbers have 32 bits, and its list at most 255 of them.
pub fn read_row<'a>(
    heap: Global,
    line: &[u8],
    row: &'a mut [u8; MAX_CALL],
) -> Result<&'a [u8], NoCall>
    ensures { RowRead line.now result }
{
    let read = read_call(heap, line)?;
    let Some(length) = encode_call(read.call, read.list.as_slice(), row) else {
        unreachable()
    };
    Ok(&row[..length])
}

// How many bytes the file has that stands for the chip of a house: 513 for each of sixteen pages of
// the blocks that the limits ask for.
pub fn chip_bytes(limits: &Limits) -> u64
    ensures { result ≡ chip_bytes limits.now }
{
    let records = u64::from(limits.legs) + u64::from(limits.fares) + u64::from(limits.bookings);
    (records / 8 + 16) * 16 * 513
}

// Can a house of these limits be opened on a file of so many bytes that stands for its chip; if not,
// for what it can't, by what is looked at first.
pub fn check_opening(limits: &Limits, bytes: u64) -> Result<(), Unopened>
    ensures { Checked result limits.now bytes }
{
    if limits.legs > 32 || limits.fares > 32 || limits.bookings > 128 {
        return Err(Unopened::Memory);
    }
    if bytes != 0 && bytes != chip_bytes(limits) {
        return Err(Unopened::Chip);
    }
    if limits.gap > 65_536 || limits.hold == 0 || limits.hold > 65_536 {
        return Err(Unopened::Range);
    }
    Ok(())
}

// The limits of the house that a line opens, on a file of so many bytes; or the refusal that is
// answered.
pub fn open_house(line: &[u8], bytes: u64) -> Result<Limits, Answer>
    ensures { FirstLine result line.now bytes }
{
    let limits = match read_house(line) {
        Ok(limits) => limits,
        Err(place) => return Err(Refusal::NoCall.at(place as u64)),
    };
    check_opening(&limits, bytes)?;
    Ok(limits)
}

// The bytes of the chip, where those are found that are in its file: an empty file is a blank chip.
pub fn whole_chip(heap: Global, found: Vec<u8>, limits: &Limits) -> Result<Vec<u8>, AllocError>
    requires { chip_fits limits.now (length found.items) ≡ true }
    ensures { Whole result found.items limits.now }
{
    if found.is_empty() {
        vec![in heap; 0; chip_bytes(limits) as usize]
    } else {
        Ok(found)
    }
}
