// What a call does, its verb: a kind with a number, by which bytes, limits and the journal name it.
ghost use Rattle.std.specs.Prelude.{◌≡◌, ◌≤◌};
ghost use Rattle.protocol.specs.Forms.{field_count, has_list};
ghost use Rattle.protocol.specs.Verbs.{Named, verb_number};

// What a call does. Each verb's number is its place here, counted from 0.
#[derive(Clone, Copy, PartialEq, Debug)]
pub enum Verb {
    Open,
    File,
    Book,
    Pay,
    Cancel,
    Limits,
    Ticks,
    Free,
    Price,
    Booking,
    Leg,
}

// A number that is no verb's.
#[derive(Clone, Copy, PartialEq, Debug)]
pub struct NoVerb(pub u8);

impl TryFrom<u8> for Verb {
    type Error = NoVerb;

    ghost try_from_gives = { Named };

    fn try_from(number: u8) -> Result<Verb, NoVerb> {
        match number {
            0 => Ok(Verb::Open),
            1 => Ok(Verb::File),
            2 => Ok(Verb::Book),
            3 => Ok(Verb::Pay),
            4 => Ok(Verb::Cancel),
            5 => Ok(Verb::Limits),
            6 => Ok(Verb::Ticks),
            7 => Ok(Verb::Free),
            8 => Ok(Verb::Price),
            9 => Ok(Verb::Booking),
            10 => Ok(Verb::Leg),
            _ => Err(NoVerb(number)),
        }
    }
}

impl Verb {
    // Every verb, in the order of their numbers.
    pub const ALL: [Verb; 11] = [
        Verb::Open,
        Verb::File,
        Verb::Book,
        Verb::Pay,
        Verb::Cancel,
        Verb::Limits,
        Verb::Ticks,
        Verb::Free,
        Verb::Price,
        Verb::Booking,
        Verb::Leg,
    ];

    // The verb's number.
    pub fn number(self) -> u8
        ensures { result ≡ verb_number self }
    {
        self as u8
    }

    // How many numbers a call of this verb has before its list.
    pub fn field_count(self) -> usize
        ensures counted { result ≡ field_count (verb_number self) }
        ensures few { result ≤ 5 }
    {
        match self {
            Verb::Open => 4,
            Verb::File => 5,
            Verb::Book | Verb::Free => 2,
            Verb::Pay
            | Verb::Cancel
            | Verb::Limits
            | Verb::Ticks
            | Verb::Price
            | Verb::Booking
            | Verb::Leg => 1,
        }
    }

    // Does a call of this verb end in a list.
    pub fn takes_list(self) -> bool
        ensures { result ≡ has_list (verb_number self) }
    {
        match self {
            Verb::Open | Verb::Book | Verb::Limits | Verb::Price => true,
            _ => false,
        }
    }
}
