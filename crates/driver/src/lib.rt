// The driver: does on a device what a session asks for, act by act, until the call's answer is given
// or power fails. A device is a chip, and whoever hears the answers; `Device` says by ghost members
// what the chip holds and which answers were given. What is proved here is proved of every device.
#![tactic(auto)]

ghost use Rattle.std.specs.Prelude.{◌≡◌, ℕ, ◌*◌, ◌<◌, ◌≤◌, true, false, is_ok, List, replicate};
ghost use Rattle.meaning.specs.Calls.{Answer as Given, garbled, new_house};
ghost use Rattle.meaning.specs.Chip.{Chip};
ghost use Rattle.journal.specs.Acts.{write, wipe, say};
ghost use Rattle.meaning.specs.Promise.{room_for};
ghost use Rattle.protocol.specs.Forms.{answer_of};
ghost use Rattle.store.specs.Whole.{Lent, Sound, house};
ghost use Rattle.wire.specs.Rows.{decoded};
ghost use Rattle.every_call.specs.Stage.{stage};
ghost use Rattle.journal_start.specs.Stages.{StageFits, Taken};
ghost use Rattle.journal_steps.specs.Steps.{chip_limits};
ghost use Rattle.session.specs.Acts.{Ready, at_rest, pending};
ghost use Rattle.driver.specs.Played.{Acted, CallPlayed, Finished, Kept, OneAct, TakenUp, page_of};

use flash::{PageRead, PageState, PowerFailed};
use journal_records::WrongPage;
use journal_rows::Layout;
use journal_start::Stage;
use protocol::Answer;
use session::{Effect, Session};
use store::Memory;

// A chip, and whoever hears the answers. Where power fails in an act, the act is torn, and nothing more
// may be done.
pub trait Device {
    // what the chip holds
    ghost chip: { Self → Chip };

    // the answers that were given, the first one first
    ghost told: { Self → List Given };

    // how many blocks the chip has
    ghost blocks: { Self → ℕ };

    // Reads a page: how it is, and where it is written its bytes, into the lent ones.
    fn read(&self, page: u32, bytes: &mut [u8; 512]) -> PageState
        requires { page < 16 * blocks self.now }
        ensures { page_of result bytes.new ≡ chip self.now page };

    // Writes a page.
    fn write(&mut self, page: u32, bytes: &[u8; 512]) -> Result<(), PowerFailed>
        requires { page < 16 * blocks self.old }
        ensures acted { Acted (chip self.old) (told self.old) (write page bytes.now) (chip self.new) (told self.new) (is_ok result) }
        ensures size { blocks self.new ≡ blocks self.old };

    // Erases a block.
    fn erase(&mut self, block: u32) -> Result<(), PowerFailed>
        requires { block < blocks self.old }
        ensures acted { Acted (chip self.old) (told self.old) (wipe block) (chip self.new) (told self.new) (is_ok result) }
        ensures size { blocks self.new ≡ blocks self.old };

    // Gives an answer, with the list beside it.
    fn say(&mut self, answer: Answer, list: &[u64]) -> Result<(), PowerFailed>
        ensures acted { Acted (chip self.old) (told self.old) (say (answer_of answer list.now)) (chip self.new) (told self.new) (is_ok result) }
        ensures size { blocks self.new ≡ blocks self.old };
}

// Room for what a session has written: the bytes of a page, and those of an answer.
//
// Kept: a device, a session and its memory stay parameters of their own beside it. Every clause speaks
// of each of the three, before and after; in one struct each would only be named by a field more.
#[derive(Drop)]
pub struct Buffers {
    pub page: [u8; 512],
    pub out: [u8; 256],
}

impl Buffers {
    // Room in which nothing stands yet.
    pub fn new() -> Buffers
        ensures { (result.page ≡ replicate 512 0) × (result.out ≡ replicate 256 0) }
    {
        Buffers {
            page: [0; 512],
            out: [0; 256],
        }
    }
}

// Does the next act of a session on a device.
fn act<D: Device>(
    device: &mut D,
    session: &mut Session,
    m: &Memory,
    buffers: &mut Buffers,
) -> Result<(), PowerFailed>
    requires ready { Ready session.old m.now }
    requires owed { at_rest session.old ≡ false }
    requires size { room_for (chip_limits m.now.limits) ≤ D.Device.blocks device.old }
    ensures done { OneAct (D.Device.chip device.old) (D.Device.told device.old) (pending session.old m.now) (pending session.new m.now) (D.Device.chip device.new) (D.Device.told device.new) (is_ok result) }
    ensures kept { Kept session.old session.new m.now }
    ensures size { D.Device.blocks device.new ≡ D.Device.blocks device.old }
{
    match session.step(m, &mut buffers.page, &mut buffers.out) {
        Effect::Rest => unreachable(),
        Effect::Write { page } => device.write(page, &buffers.page),
        Effect::Erase { block } => device.erase(block),
        Effect::Say { length: _length } => device.say(session.answer(), session.listed()),
    }
}

// Does all that a session still owes, until nothing is left or power fails.
pub fn finish<D: Device>(
    device: &mut D,
    session: &mut Session,
    m: &Memory,
    buffers: &mut Buffers,
) -> Result<(), PowerFailed>
    requires ready { Ready session.old m.now }
    requires size { room_for (chip_limits m.now.limits) ≤ D.Device.blocks device.old }
    ensures done { Finished (D.Device.chip device.old) (D.Device.told device.old) (pending session.old m.now) (D.Device.chip device.new) (D.Device.told device.new) (is_ok result) }
    ensures kept { Kept session.old session.new m.now }
    ensures rests { is_ok result ≡ true → at_rest session.new ≡ true }
    ensures size { D.Device.blocks device.new ≡ D.Device.blocks device.old }
{
    while !session.is_resting() {
        act(device, session, m, buffers)?;
    }
    Ok(())
}

// Plays the call that a row of bytes is, on a session at rest: it is begun, and all that it owes is
// done.
pub fn play_row<D: Device>(
    device: &mut D,
    session: &mut Session,
    m: &mut Memory,
    buffers: &mut Buffers,
    row: &[u8],
) -> Result<(), PowerFailed>
    requires ready { Ready session.old m.old }
    requires rests { at_rest session.old ≡ true }
    requires size { room_for (chip_limits m.old.limits) ≤ D.Device.blocks device.old }
    ensures played { CallPlayed session.old session.new m.old m.new (decoded row.now) (D.Device.chip device.old) (D.Device.told device.old) (D.Device.chip device.new) (D.Device.told device.new) (is_ok result) }
    ensures size { D.Device.blocks device.new ≡ D.Device.blocks device.old }
{
    let begun = session.begin(m, row);
    if !begun {
        unreachable()
    }
    finish(device, session, m, buffers)
}

// Plays what can't be read as a call, from this place on: it is refused there.
pub fn play_unread<D: Device>(
    device: &mut D,
    session: &mut Session,
    m: &Memory,
    buffers: &mut Buffers,
    place: u64,
) -> Result<(), PowerFailed>
    requires ready { Ready session.old m.now }
    requires rests { at_rest session.old ≡ true }
    requires size { room_for (chip_limits m.now.limits) ≤ D.Device.blocks device.old }
    ensures played { CallPlayed session.old session.new m.now m.now (garbled place) (D.Device.chip device.old) (D.Device.told device.old) (D.Device.chip device.new) (D.Device.told device.new) (is_ok result) }
    ensures size { D.Device.blocks device.new ≡ D.Device.blocks device.old }
{
    let begun = session.refuse(m, place);
    if !begun {
        unreachable()
    }
    finish(device, session, m, buffers)
}

// Hands the page that was read to a start.
fn take_page(
    stage: &mut Stage,
    m: &mut Memory,
    state: PageState,
    bytes: &[u8; 512],
) -> Result<(), WrongPage>
    requires sound { Sound m.old }
    requires fits { StageFits m.old stage.old }
    ensures taken { Taken m.old m.new stage.old stage.new (page_of state bytes.now) result }
    ensures sound { Sound m.new }
    ensures lent { Lent m.old m.new }
{
    let page = match state {
        PageState::Blank => PageRead::Blank,
        PageState::Written => PageRead::Written(bytes),
        PageState::Spoilt => PageRead::Spoilt,
    };
    stage.take(m, page)
}

// Takes up a chip: reads its house into memory that means a new one, and gives the session that goes on
// from there; none where the chip is no house's of these limits.
pub fn take_up<D: Device>(device: &D, m: &mut Memory, page: &mut [u8; 512]) -> Option<Session>
    requires sound { Sound m.old }
    requires fresh { house m.old ≡ new_house (stage m.old) }
    requires size { room_for (chip_limits m.old.limits) ≤ D.Device.blocks device.now }
    ensures taken { TakenUp (D.Device.chip device.now) m.new result }
    ensures lent { Lent m.old m.new }
{
    let layout = Layout::new(m.limits());
    let mut start = Stage::Unread;
    while let Some(number) = start.wants(&layout) {
        let state = device.read(number, page);
        let Ok(()) = take_page(&mut start, m, state, page) else {
            return None;
        };
    }
    let Stage::Ready { journal } = start else {
        unreachable()
    };
    Some(Session::new(journal))
}
