// Plays a file of calls on a device: the chip is taken up, and then line after line is read, done, and
// answered, until the text ends or power fails. `run` is the call that the program makes, and its
// contract is the main promise: whatever the text, and in whichever act power fails and however it
// tears that act, the answers that were given are the house's, and the chip that is left reads as the
// calls that were answered, or these and the one under way.
#![tactic(auto)]

ghost use Rattle.std.specs.Prelude.{◌≡◌, ◌<◌, ◌≤◌, true, length};
ghost use Rattle.meaning.specs.Calls.{new_house};
ghost use Rattle.meaning.specs.Promise.{all_readable, room_for};
ghost use Rattle.store.specs.Whole.{Lent, Sound, house};
ghost use Rattle.every_call.specs.Stage.{stage};
ghost use Rattle.journal_steps.specs.Steps.{chip_limits};
ghost use Rattle.session.specs.Acts.{Ready, at_rest};
ghost use Rattle.text.specs.CallLines.{line_call};
ghost use Rattle.player.specs.Texts.{PlaysLine, RunEnded, StatementsHold, TextPlayed, ended_by, text_calls};
ghost use Rattle.player.specs.declared.LineFault.TheVariants as line;

use call_files::{is_passed_over, read_row};
use driver::{Buffers, Device, play_row, play_unread, take_up};
use flash::PowerFailed;
use scan::Lines;
use session::Session;
use std::alloc::Global;
use store::Memory;
use text::NoCall;
use wire::MAX_CALL;

// Why a line was not played to its end: power failed in one of its acts; or there was no memory to read
// the line, and nothing was done.
#[derive(Clone, Copy, PartialEq, Eq, Debug)]
pub enum LineFault {
    PowerFailed,
    NoMemory,
}

impl From<PowerFailed> for LineFault {
    ghost from_gives = { λ _ fault. fault ≡ line.PowerFailed };

    // Power failed in an act of the line.
    fn from(_failed: PowerFailed) -> LineFault {
        LineFault::PowerFailed
    }
}

// Why a run ended before its text did: the chip was refused, power failed, or there was no memory to
// read a line.
#[derive(Clone, Copy, PartialEq, Eq, Debug)]
pub enum Unfinished {
    Refused,
    PowerFailed,
    NoMemory,
}

impl From<LineFault> for Unfinished {
    ghost from_gives = { λ fault why. why ≡ ended_by fault };

    // A line was not played to its end.
    fn from(fault: LineFault) -> Unfinished {
        match fault {
            LineFault::PowerFailed => Unfinished::PowerFailed,
            LineFault::NoMemory => Unfinished::NoMemory,
        }
    }
}

// Plays a line: the call that it is, or what can't be read.
fn play_line<D: Device>(
    heap: Global,
    device: &mut D,
    session: &mut Session,
    m: &mut Memory,
    buffers: &mut Buffers,
    line: &[u8],
) -> Result<(), LineFault>
    requires ready { Ready session.old m.old }
    requires rests { at_rest session.old ≡ true }
    requires size { room_for (chip_limits m.old.limits) ≤ D.Device.blocks device.old }
    ensures played { PlaysLine session.old session.new m.old m.new (line_call line.now) (D.Device.chip device.old) (D.Device.told device.old) (D.Device.chip device.new) (D.Device.told device.new) result }
    ensures size { D.Device.blocks device.new ≡ D.Device.blocks device.old }
{
    let mut row = [0; MAX_CALL];
    match read_row(heap, line, &mut row) {
        Ok(row) => Ok(play_row(device, session, m, buffers, row)?),
        Err(NoCall::Unreadable { place }) => {
            Ok(play_unread(device, session, m, buffers, place as u64)?)
        }
        Err(NoCall::NoMemory) => Err(LineFault::NoMemory),
    }
}

// Plays the lines of a text, one after the other, until it ends or power fails.
pub fn play_text<D: Device>(
    heap: Global,
    device: &mut D,
    session: &mut Session,
    m: &mut Memory,
    text: &[u8],
) -> Result<(), LineFault>
    requires ready { Ready session.old m.old }
    requires rests { at_rest session.old ≡ true }
    requires size { room_for (chip_limits m.old.limits) ≤ D.Device.blocks device.old }
    ensures played { TextPlayed session.old m.old (text_calls text.now) (D.Device.chip device.old) (D.Device.told device.old) (D.Device.chip device.new) (D.Device.told device.new) result }
    ensures lent { Lent m.old m.new }
{
    let mut buffers = Buffers::new();
    let mut lines = Lines::new(text);
    while let Some(line) = lines.next() {
        if is_passed_over(line) {
            continue;
        }
        play_line(heap, device, session, m, &mut buffers, line)?;
    }
    Ok(())
}

// Each statement about the house holds of every house that a chip reads as, whatever calls led to it.
pub fn statements_hold()
    ensures { StatementsHold }
{}

// Takes up the chip of a device into memory that means a new house, and plays a text on it. Every line
// of a text below 4 GiB is a call that the promise speaks of.
pub fn run<D: Device>(
    heap: Global,
    device: &mut D,
    m: &mut Memory,
    text: &[u8],
) -> Result<(), Unfinished>
    requires sound { Sound m.old }
    requires fresh { house m.old ≡ new_house (stage m.old) }
    requires size { room_for (chip_limits m.old.limits) ≤ D.Device.blocks device.old }
    ensures promise { RunEnded (stage m.old) (text_calls text.now) (D.Device.chip device.old) (D.Device.told device.old) (D.Device.chip device.new) (D.Device.told device.new) result }
    ensures readable { length text.now < 4294967296 → all_readable (text_calls text.now) ≡ true }
    ensures lent { Lent m.old m.new }
{
    let mut page = [0; 512];
    let Some(mut session) = take_up(device, m, &mut page) else {
        return Err(Unfinished::Refused);
    };
    Ok(play_text(heap, device, &mut session, m, text)?)
}
