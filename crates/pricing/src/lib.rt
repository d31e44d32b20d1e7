// The cheapest price of a journey in a class. A journey is cut into pieces, one after the other, each
// with a fare from where its first leg begins to where its last one ends, in this class, and not
// over more legs than the fare allows; the price is the least sum over all ways to cut it. The
// meaning's `cost` says the same of a house's fares and legs, and the answer here is that number.
//
// Work: a journey of n legs has its first piece cut off in n ways, and each leaves fewer legs to be
// cut in turn, so at most 2^n - 1 pieces are looked up, 255 for 8 legs. Behind a piece for which there
// is no fare nothing is looked up. Looking one up goes through all fares.
#![tactic(auto)]

ghost use Rattle.std.specs.Prelude.{◌≡◌, ℕ, suc, ◌+◌, ◌*◌, ◌<◌, ◌≤◌, length, drop, slice_index};
ghost use Rattle.meaning.specs.Lines.{pick, cheaper, piece, cost_in, cost};
ghost use Rattle.pricing.specs.Prices.{BestWay, There, coded, fits, stretch};
ghost use Rattle.store.specs.Whole.{house};

use records::Fare;
use store::Memory;

// What a fare has to be for: from a place to a place in a class, over so many legs.
#[derive(Clone, Copy)]
struct Stretch {
    from: u32,
    to: u32,
    class: u32,
    legs: u32,
}

// Is a fare for this stretch.
fn is_for(f: &Fare, s: &Stretch) -> bool
    ensures { result ≡ fits f.now s.now }
{
    f.origin == s.from && f.goal == s.to && f.class == s.class && s.legs <= f.most
}

// The cheaper of two prices.
fn cheaper_of(a: Option<u64>, b: Option<u64>) -> Option<u64>
    ensures { coded result ≡ cheaper (coded a) (coded b) }
{
    match (a, b) {
        (Some(x), Some(y)) => Some(x.min(y)),
        _ => a.or(b),
    }
}

// The stretch that some legs are as one piece.
fn stretch_of(m: &Memory, class: u32, part: &[u32]) -> Stretch
    requires some { 0 < length part.now }
    requires few { length part.now ≤ 8 }
    requires there { There (house m.now).legs part.now }
    ensures { result ≡ stretch (house m.now).legs class (slice_index part.now 0) (drop 1 part.now) }
{
    Stretch {
        from: m.leg(part[0] as usize).from,
        to: m.leg(part[part.len() - 1] as usize).to,
        class,
        legs: part.len() as u32,
    }
}

// The cheapest fare for some legs as one piece, of all fares.
fn piece_price(m: &Memory, class: u32, part: &[u32]) -> Option<u64>
    requires some { 0 < length part.now }
    requires few { length part.now ≤ 8 }
    requires there { There (house m.now).legs part.now }
    ensures value { coded result ≡ piece (house m.now).fares (house m.now).legs class (slice_index part.now 0) (drop 1 part.now) }
    ensures bound { coded result ≤ 100000001 }
{
    let asked = stretch_of(m, class, part);
    (0..m.fare_count())
        .map(|k| m.fare(k))
        .filter(|fare| is_for(fare, &asked))
        .map(|fare| u64::from(fare.price))
        .min()
}

// The cheapest over all ways to cut a journey: over each first piece, of one leg and so many more,
// with the cheapest for the legs left behind it, which are fewer. No legs cost nothing. Each piece
// costs at most 100,000,000, so the sums are far from running over.
fn cheapest(m: &Memory, class: u32, journey: &[u32]) -> Option<u64>
    requires few { length journey.now ≤ 8 }
    requires there { There (house m.now).legs journey.now }
    ensures value { (n : ℕ) → length journey.now ≤ n → coded result ≡ cost_in n (house m.now).fares (house m.now).legs class journey.now }
    ensures bound { coded result ≤ length journey.now * 100000000 + 1 }
{
    if journey.is_empty() {
        return Some(0);
    }
    // Kept: (a) the cheapest price is a recursion over the legs that each first piece leaves.
    let mut best = None;
    for more in 0..journey.len() {
        let (part, left) = journey.split_at(1 + more);
        let Some(here) = piece_price(m, class, part) else {
            continue;
        };
        let Some(then) = cheapest(m, class, left) else {
            continue;
        };
        best = cheaper_of(best, Some(here + then));
    }
    best
}

// The price of a seat on a journey in a class, if there is a way to cut it into pieces that have
// fares: the meaning's `cost`. In the words of those who pay: some way costs just that, and none
// costs less. It is at most 800,000,000. That there are at most 8 legs, and all of them there, is for
// the layer above, which refuses other journeys first.
pub fn price(m: &Memory, class: u32, journey: &[u32]) -> Option<u64>
    requires few { length journey.now ≤ 8 }
    requires there { There (house m.now).legs journey.now }
    ensures value { coded result ≡ cost (house m.now).fares (house m.now).legs class journey.now }
    ensures best { BestWay (house m.now).fares (house m.now).legs class journey.now result }
    ensures bound { coded result ≤ 800000001 }
{
    cheapest(m, class, journey)
}
