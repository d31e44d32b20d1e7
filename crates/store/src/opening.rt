// A new house in lent memory.
ghost use Rattle.std.specs.Prelude.{◌≡◌, ℕ, Bool, None};
ghost use Rattle.meaning.specs.Calls.{new_house};
ghost use Rattle.limits.specs.Opening.{lengths, limits_mean, misfit_of};
ghost use Rattle.store.specs.Whole.{house};

use crate::Memory;
use limits::Limits;

// A new house in lent memory, for limits and slices that fit (`Limits::misfit` tells). Nothing is
// written: what the slices held is never read again.
pub fn open<'a>(
    limits: Limits,
    legs: &'a mut [u32],
    fares: &'a mut [u32],
    bookings: &'a mut [u32],
    sums: &'a mut [u64],
) -> Memory<'a>
    requires { misfit_of limits (lengths legs.old fares.old bookings.old sums.old) ≡ None }
    ensures house { (can : ℕ → Bool) → house result ≡ new_house (limits_mean can limits) }
    ensures limits { result.limits ≡ limits }
    ensures legs { (result.legs.now ≡ legs.old) × (result.legs.ghost_name ≡ legs.entry.ghost_name) }
    ensures fares { (result.fares.now ≡ fares.old) × (result.fares.ghost_name ≡ fares.entry.ghost_name) }
    ensures bookings { (result.bookings.now ≡ bookings.old) × (result.bookings.ghost_name ≡ bookings.entry.ghost_name) }
    ensures sums { (result.sums.now ≡ sums.old) × (result.sums.ghost_name ≡ sums.entry.ghost_name) }
{
    Memory {
        legs,
        fares,
        bookings,
        sums,
        opened: 0,
        filed: 0,
        booked: 0,
        clock: 0,
        limits,
    }
}
