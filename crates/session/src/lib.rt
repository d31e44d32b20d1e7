// The session: a call's bytes in, acts out, one at a time. It does no input or output of its own. Given
// a call, `begin` does it on memory and knows its answer; then each `step` says what is to be done
// next, write this page, erase that block, give the answer, until nothing is left. The answer comes
// last, when what the call takes is on the chip. specs/Acts.antt says which acts are still owed, and
// ties them to the program of the main promise: a call makes them what the program does for it, and
// each step gives the first of them and leaves the others.
#![tactic(auto)]

ghost use Rattle.std.specs.Prelude.{◌≡◌, ℕ, ◌+◌, ◌*◌, ◌<◌, ◌≤◌, Bool, true, false, length, take, None};
ghost use Rattle.meaning.specs.Calls.{garbled};
ghost use Rattle.meaning.specs.Promise.{room_for};
ghost use Rattle.limits.specs.Opening.{Enough};
ghost use Rattle.protocol.specs.Forms.{answer_of};
ghost use Rattle.store.specs.Whole.{Sound, house};
ghost use Rattle.wire.specs.Bytes.{Bytes};
ghost use Rattle.wire.specs.Rows.{decoded};
ghost use Rattle.every_call.specs.Stage.{stage};
ghost use Rattle.journal_rows.specs.Layout.{changes, head, most_pages, pages};
ghost use Rattle.journal_steps.specs.Steps.{Fits, chip_limits};
ghost use Rattle.session.specs.Opening.{NeverThree, memory_fits, opening_place};
ghost use Rattle.session.specs.Acts.{Begun, Changed, Ready, Stepped, Woken, at_rest};

use calls::answer_row;
use every_call::EveryCall;
use journal_fill::{fill_call, fill_checkpoint, fill_commit};
use journal_rows::{Layout, checkpoint_pages};
use journal_steps::{Act, Journal, Work};
use limits::{Limits, Sizes};
use protocol::Answer;
use store::Memory;
use wire_answers::encode_answer;

// A session, beside the memory of its house: the journal, what is still to be done for the call under
// way, that call (none that changes the house has more than 128 bytes), and its answer with the list
// beside it.
#[derive(Clone, Copy)]
pub struct Session {
    journal: Journal,
    work: Work,
    call: [u8; 128],
    length: usize,
    answer: Answer,
    sold: [u64; 26],
    listed: usize,
}

// What is to be done next: a page to be written, whose bytes stand in the lent page; a block to be
// erased; an answer to be given, so many of the lent bytes; or nothing.
#[derive(Clone, Copy)]
pub enum Effect {
    Rest,
    Write { page: u32 },
    Erase { block: u32 },
    Say { length: usize },
}

// Did a call change the house, by its bytes and its answer: it isn't refused, and it is no question.
fn is_change(answer: Answer, row: &[u8]) -> bool
    ensures changed { Changed answer (decoded row.now) result }
    ensures bytes { Bytes row.now }
{
    match answer {
        Answer::Refused {
            refusal: _refusal,
            place: _place,
        } => false,
        _ => !row.is_empty() && row[0] <= 6,
    }
}

// Keeps the bytes of a call.
fn keep_call(call: &mut [u8; 128], row: &[u8])
    requires { length row.now ≤ 128 }
    ensures { take (length row.now) call.new ≡ row.now }
{
    call[0..row.len()].copy_from_slice(row);
}

// How many pages a checkpoint of the house has.
fn pages_now(m: &Memory) -> u32
    requires { Sound m.now }
    ensures pages { result ≡ pages (head (house m.now)) }
    ensures few { (result ≤ most_pages (chip_limits m.now.limits)) × (result < 145000) }
{
    checkpoint_pages(
        m.leg_count() as u32,
        m.fare_count() as u32,
        m.booking_count() as u32,
    )
}

// Does memory of these sizes suffice for a house of these limits?
fn memory_suffices(limits: &Limits, have: &Sizes) -> bool
    ensures { result ≡ memory_fits limits.now have.now }
{
    let asked = limits.asks();
    (asked.legs <= have.legs && asked.fares <= have.fares)
        && (asked.bookings <= have.bookings && asked.sums <= have.sums)
}

// Can a house be opened with these limits, on memory of these sizes and a chip of so many blocks? If
// not, the place of the refusal, by what is looked at first: 0 memory, 1 the chip, 2 what is out of
// range. That the chip is a house's of these limits, or a new one, is told when it is taken up.
pub fn opening_refusal(limits: &Limits, have: &Sizes, blocks: u32) -> Option<u64>
    ensures refusal { result ≡ opening_place limits.now have.now blocks }
    ensures enough { result ≡ None → Enough limits.now have.now × (room_for (chip_limits limits.now) ≤ blocks) }
{
    if !memory_suffices(limits, have) {
        return Some(0);
    }
    let records = u64::from(limits.legs) + u64::from(limits.fares) + u64::from(limits.bookings);
    if u64::from(blocks) < records / 8 + 16 {
        return Some(1);
    }
    match limits.misfit(have) {
        None => None,
        Some(_misfit) => Some(2),
    }
}

// After opening, refusal 3 never comes.
pub fn three_never_comes()
    ensures { NeverThree }
{}

impl Session {
    // A session over memory, with the journal of the chip from which its house was read. The call that
    // it keeps before the first one is a question, which is never written.
    pub fn new(journal: Journal) -> Session
        ensures { Woken journal result }
    {
        let mut call = [0; 128];
        call[0] = 9;
        Session {
            journal,
            work: Work::Resting,
            call,
            length: 5,
            answer: Answer::Sold,
            sold: [0; 26],
            listed: 0,
        }
    }

    // Is nothing left to be done?
    pub fn is_resting(&self) -> bool
        ensures { result ≡ at_rest self.now }
    {
        match self.work {
            Work::Resting => true,
            _ => false,
        }
    }

    // Begins a call, by its bytes: it is done on memory, and its answer is known, to be given when all
    // that it takes is on the chip. Where another call is still under way nothing happens, and the
    // answer is false.
    pub fn begin(&mut self, m: &mut Memory, row: &[u8]) -> bool
        requires { Ready self.old m.old }
        ensures { Begun self.old self.new m.old m.new (decoded row.now) result }
    {
        if !self.is_resting() {
            return false;
        }
        let reply = answer_row::<EveryCall>(m, row, &mut self.sold);
        self.answer = reply.answer;
        self.listed = reply.listed;
        if !is_change(reply.answer, row) {
            self.work = Work::Answering;
            return true;
        }
        keep_call(&mut self.call, row);
        self.length = row.len();
        let layout = Layout::new(m.limits());
        self.work = self.journal.advance(&layout, pages_now(m));
        true
    }

    // Begins what can't be read as a call at all, as a line of text that ceases to be one at this place:
    // it is refused by 1, there. Where another call is still under way nothing happens, and the answer
    // is false.
    pub fn refuse(&mut self, m: &Memory, place: u64) -> bool
        requires { Ready self.old m.now }
        ensures { Begun self.old self.new m.now m.now (garbled place) result }
    {
        if !self.is_resting() {
            return false;
        }
        self.answer = Answer::Refused { refusal: 1, place };
        self.listed = 0;
        self.work = Work::Answering;
        true
    }

    // The answer of the call under way.
    pub fn answer(&self) -> Answer
        ensures { result ≡ self.now.answer }
    {
        self.answer
    }

    // The list beside it.
    pub fn listed(&self) -> &[u64]
        requires { self.now.listed ≤ 26 }
        ensures { result.now ≡ take self.now.listed self.now.sold }
    {
        &self.sold[0..self.listed]
    }

    // What is to be done next. The bytes of a page that is to be written are put into the lent page,
    // and those of the answer at the front of the lent 256.
    pub fn step(&mut self, m: &Memory, page: &mut [u8; 512], out: &mut [u8; 256]) -> Effect
        requires { Ready self.old m.now }
        ensures { Stepped self.old self.new m.now page.old page.new out.old out.new result }
    {
        let layout = Layout::new(m.limits());
        let next = self.journal.next(&layout, pages_now(m), self.work);
        self.work = next.work;
        match next.act {
            Act::Rest => Effect::Rest,
            Act::Say => {
                let Some(length) = encode_answer(self.answer, &self.sold[0..self.listed], out)
                else {
                    unreachable()
                };
                Effect::Say { length }
            }
            Act::Erase { block } => Effect::Erase { block },
            Act::WriteCall { page: place } => {
                fill_call(&self.call[0..self.length], page);
                Effect::Write { page: place }
            }
            Act::WriteCheckpoint {
                page: place,
                number,
            } => {
                fill_checkpoint(m, number as usize, page);
                Effect::Write { page: place }
            }
            Act::WriteCommit { page: place } => {
                fill_commit(m, self.journal.turn, self.journal.begins, page);
                Effect::Write { page: place }
            }
        }
    }
}
