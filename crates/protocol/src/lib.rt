// Calls and answers as values: what comes in and goes out once bytes or a line are read. A call and
// an answer are enums with their numbers in their cases; a list, of limits, legs or counts, stands
// beside. specs/Forms.antt says which call or answer of the meaning each one is, and in which order
// the numbers of a call come, for whoever writes them as bytes or as text.
#![tactic(auto)]

ghost use Rattle.std.specs.Prelude.{◌≡◌};
ghost use Rattle.protocol.specs.Forms.{NothingLost, PutTogether, TakenApart};
ghost use Rattle.protocol.specs.Verbs.{verb_number, verb_of};

mod refusals;
mod verbs;

pub use refusals::{Refusal, Unopened};
pub use verbs::{NoVerb, Verb};

// A call. Limits stand beside `Open` and `Limits`, legs beside `Book` and `Price`.
#[derive(Clone, Copy, PartialEq)]
pub enum Call {
    Open {
        from: u32,
        to: u32,
        leaves: u32,
        arrives: u32,
    },
    File {
        origin: u32,
        goal: u32,
        class: u32,
        most_legs: u32,
        price: u32,
    },
    Book {
        class: u32,
        seats: u32,
    },
    Pay {
        booking: u32,
    },
    Cancel {
        booking: u32,
    },
    Limits {
        leg: u32,
    },
    Ticks {
        count: u32,
    },
    Free {
        leg: u32,
        class: u32,
    },
    Price {
        class: u32,
    },
    Booking {
        booking: u32,
    },
    Leg {
        leg: u32,
    },
}

// An answer. Beside `Sold` stands what is taken in each class and the cheaper ones.
#[derive(Clone, Copy, PartialEq)]
pub enum Answer {
    Refused { refusal: u64, place: u64 },
    Number { value: u64 },
    Booked { booking: u64, stands: u64 },
    Stands { stands: u64, until: u64, paid: u64 },
    Sold,
}

impl Call {
    // What the call does.
    pub fn verb(self) -> Verb
        ensures { result ≡ verb_of self }
    {
        match self {
            Call::Open { .. } => Verb::Open,
            Call::File { .. } => Verb::File,
            Call::Book { .. } => Verb::Book,
            Call::Pay { .. } => Verb::Pay,
            Call::Cancel { .. } => Verb::Cancel,
            Call::Limits { .. } => Verb::Limits,
            Call::Ticks { .. } => Verb::Ticks,
            Call::Free { .. } => Verb::Free,
            Call::Price { .. } => Verb::Price,
            Call::Booking { .. } => Verb::Booking,
            Call::Leg { .. } => Verb::Leg,
        }
    }

    // Its numbers in order; what is beyond their count is 0.
    #[tactic(auto, using(crate::proofs::Apart::apart))]
    pub fn fields(self) -> [u32; 5]
        ensures { TakenApart self (verb_number (verb_of self)) result }
    {
        match self {
            Call::Open {
                from,
                to,
                leaves,
                arrives,
            } => [from, to, leaves, arrives, 0],
            Call::File {
                origin,
                goal,
                class,
                most_legs,
                price,
            } => [origin, goal, class, most_legs, price],
            Call::Book { class, seats } => [class, seats, 0, 0, 0],
            Call::Free { leg, class } => [leg, class, 0, 0, 0],
            Call::Pay { booking } | Call::Cancel { booking } | Call::Booking { booking } => {
                [booking, 0, 0, 0, 0]
            }
            Call::Limits { leg } | Call::Leg { leg } => [leg, 0, 0, 0, 0],
            Call::Ticks { count } => [count, 0, 0, 0, 0],
            Call::Price { class } => [class, 0, 0, 0, 0],
        }
    }

    // The call of a verb, with these numbers.
    pub fn with(verb: Verb, fields: [u32; 5]) -> Call
        ensures { PutTogether verb fields result }
    {
        let [a, b, c, d, e] = fields;
        match verb {
            Verb::Open => Call::Open {
                from: a,
                to: b,
                leaves: c,
                arrives: d,
            },
            Verb::File => Call::File {
                origin: a,
                goal: b,
                class: c,
                most_legs: d,
                price: e,
            },
            Verb::Book => Call::Book { class: a, seats: b },
            Verb::Pay => Call::Pay { booking: a },
            Verb::Cancel => Call::Cancel { booking: a },
            Verb::Limits => Call::Limits { leg: a },
            Verb::Ticks => Call::Ticks { count: a },
            Verb::Free => Call::Free { leg: a, class: b },
            Verb::Price => Call::Price { class: a },
            Verb::Booking => Call::Booking { booking: a },
            Verb::Leg => Call::Leg { leg: a },
        }
    }
}

// A call's number, numbers and list give it back: a theorem, for every form that writes them.
pub fn nothing_lost()
    ensures { NothingLost }
{}
