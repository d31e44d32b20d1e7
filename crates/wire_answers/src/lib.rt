// Answers as bytes, into the 256 that a caller lends. specs/Answers.antt says which bytes an answer
// has.
#![tactic(auto)]

ghost use Rattle.std.specs.Prelude.{◌≡◌};
ghost use Rattle.protocol.specs.Forms.{answer_of};
ghost use Rattle.wire_answers.specs.Answers.{AnswerWritten, MostBytes};

use protocol::Answer;
use wire::put_row;

// The longest list of an answer: a number for each class that a leg can have.
pub const MOST_CLASSES: usize = 26;

// No answer has more bytes.
pub const MAX_ANSWER: usize = 210;

// That number, and the theorem that it is the most; so the longest answer fits 256 bytes.
pub fn most_answer_bytes() -> usize
    ensures { (result ≡ 210) × MostBytes result }
{
    MAX_ANSWER
}

// Writes an answer at the front of the caller's bytes and gives its length. Where its list is longer
// than a leg has classes nothing is written.
pub fn encode_answer(answer: Answer, list: &[u64], out: &mut [u8; 256]) -> Option<usize>
    ensures { AnswerWritten (answer_of answer list.now) out.old out.new result }
{
    match answer {
        Answer::Refused { refusal, place } => Some(put_row(out, 0, 0, &[refusal, place])),
        Answer::Number { value } => Some(put_row(out, 0, 1, &[value])),
        Answer::Booked { booking, stands } => Some(put_row(out, 0, 2, &[booking, stands])),
        Answer::Stands {
            stands,
            until,
            paid,
        } => Some(put_row(out, 0, 3, &[stands, until, paid])),
        Answer::Sold => {
            if list.len() > MOST_CLASSES {
                return None;
            }
            out[0] = 4;
            Some(put_row(out, 1, list.len() as u8, list))
        }
    }
}
