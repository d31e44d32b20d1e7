// An answer that was given, as it is recorded.
ghost use Rattle.std.specs.Prelude.{◌≡◌, ◌<◌, length, MatchOption};
ghost use Rattle.protocol.specs.Forms.{answer_of};
ghost use Rattle.chips.specs.Recorded.{list_of, said_means};

use protocol::Answer;

// The longest list that can stand beside an answer: a number for each class.
const LONGEST: usize = 26;

// An answer that was given, with the list beside it: the first so many of the numbers.
#[derive(Clone, Copy, PartialEq)]
pub struct Said {
    pub answer: Answer,
    pub sold: [u64; 26],
    pub listed: usize,
}

impl Said {
    // An answer with this list, if that is no longer than any answer's.
    pub fn new(answer: Answer, list: &[u64]) -> Option<Said>
        ensures { MatchOption result (26 < length list.now) (λ s. said_means s ≡ answer_of answer list.now) }
    {
        if list.len() > LONGEST {
            return None;
        }
        let mut sold = [0; LONGEST];
        sold[..list.len()].copy_from_slice(list);
        Some(Said {
            answer,
            sold,
            listed: list.len(),
        })
    }

    // The list beside the answer.
    pub fn list(&self) -> &[u64]
        ensures { result.now ≡ list_of self.now }
    {
        &self.sold[..self.listed.min(LONGEST)]
    }
}
