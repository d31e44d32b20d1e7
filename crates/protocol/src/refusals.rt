// Why a call is refused, and why a house can't be opened: kinds with numbers, which stand in the
// answer.
ghost use Rattle.std.specs.Prelude.{◌≡◌};
ghost use Rattle.protocol.specs.Refusals.{refusal_number, unopened_place};

use crate::Answer;

// Why a call is refused. Each refusal's number is its place here, counted from 1.
#[derive(Clone, Copy, PartialEq, Debug)]
pub enum Refusal {
    // The bytes or the line are no call.
    NoCall = 1,
    // A number is out of its range, or the call can't be done at this stage.
    OutOfRange,
    // The house can't be opened: memory or the chip don't suffice, or hold something else.
    CannotOpen,
    // A leg is not there, lacks the class, or has another number of limits.
    NoLeg,
    // Legs don't follow each other, one comes twice, or the first has left.
    NoJourney,
    // No fares pay for the journey.
    NoFare,
    // A booking is not there.
    NoBooking,
    // A booking stands otherwise: what isn't held can't be paid, what is gone can't be cancelled.
    StandsOtherwise,
    // A limit of the house, or the last tick, is reached.
    LimitReached,
}

impl Refusal {
    // The refusal's number.
    pub fn number(self) -> u64
        ensures { result ≡ refusal_number self }
    {
        self as u64
    }

    // The answer to a call that is refused so, with the place in the call that it is about.
    pub fn at(self, place: u64) -> Answer
        ensures { result ≡ Answer.Refused (refusal_number self) place }
    {
        Answer::Refused {
            refusal: self.number(),
            place,
        }
    }
}

// Why a house can't be opened, in the order in which it is looked at. Each one's place in the answer is
// its place here, counted from 0.
#[derive(Clone, Copy, PartialEq, Debug)]
pub enum Unopened {
    // Memory is too small.
    Memory,
    // The chip is too small, or neither blank nor a chip of such a house.
    Chip,
    // Something else is out of range.
    Range,
}

impl Unopened {
    // The place of its refusal.
    pub fn place(self) -> u64
        ensures { result ≡ unopened_place self }
    {
        self as u64
    }
}

impl From<Unopened> for Answer {
    ghost use Rattle.protocol.specs.declared.Answer.TheVariants as answers;

    ghost from_gives = { λ why answer. answer ≡ answers.Refused 3 (unopened_place why) };

    fn from(why: Unopened) -> Answer {
        Refusal::CannotOpen.at(why.place())
    }
}
