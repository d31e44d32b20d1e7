// The stage of the whole house, at which every call is done: those of the first stage as the crate
// `calls` does them, and a payment, a cancellation, other limits and time that goes by as the crate
// `changes` does them.
#![tactic(auto)]

ghost use Rattle.std.specs.Prelude.{refl};
ghost use Rattle.every_call.specs.Stage.{stage_calls};

use calls::Stage;
use protocol::Answer;
use store::Memory;

// The stage that does all calls.
pub struct EveryCall;

impl Stage for EveryCall {
    ghost can = { stage_calls };

    fn pay(m: &mut Memory, booking: u32) -> Answer {
        changes::pay(m, booking)
    }

    fn cancel(m: &mut Memory, booking: u32) -> Answer {
        changes::cancel(m, booking)
    }

    fn change_limits(m: &mut Memory, leg: u32, part: &[u8]) -> Answer {
        changes::change_limits(m, leg, part)
    }

    fn pass_time(m: &mut Memory, count: u32) -> Answer {
        changes::pass_time(m, count)
    }

    ghost first = { λ k e. refl };
}
