// What the line of a call is answered.
ghost use Rattle.meaning.specs.Statements.{Reached};
ghost use Rattle.store.specs.Whole.{house};
ghost use Rattle.calls.specs.Stage.{stage};
ghost use Rattle.house.specs.Answering.{LineDone, LineRefused};

use call_files::read_row;
use calls::{FirstStage, answer_row};
use protocol::Refusal;
use questions::Reply;
use std::alloc::{AllocError, Global};
use store::Memory;
use text::NoCall;
use wire::MAX_CALL;

// The answer to a line that is no call: where it ceases to be one.
fn refuse_line(unread: NoCall) -> Result<Reply, AllocError>
    ensures { LineRefused unread result }
{
    match unread {
        NoCall::Unreadable { place } => Ok(Reply {
            answer: Refusal::NoCall.at(place as u64),
            listed: 0,
        }),
        NoCall::NoMemory => Err(AllocError),
    }
}

// The answer to a line: the call that it is, written as bytes, is done on memory.
pub fn answer_line(
    heap: Global,
    m: &mut Memory,
    line: &[u8],
    sold: &mut [u64; 26],
) -> Result<Reply, AllocError>
    requires { Reached (stage m.old) (house m.old) }
    ensures { LineDone m.old m.new line.now sold.new result }
{
    let mut row = [0; MAX_CALL];
    match read_row(heap, line, &mut row) {
        Ok(row) => Ok(answer_row::<FirstStage>(m, row, sold)),
        Err(unread) => refuse_line(unread),
    }
}
