// One call after another.
ghost use Rattle.std.specs.Prelude.{◌≡◌, map, IfOk};
ghost use Rattle.replay.specs.Calls.{answer_of, call_of};
ghost use Rattle.replay.specs.Accepted.{is_accepted, accepted_among};
ghost use Rattle.replay.specs.Replays.{Replayed};

use crate::calls::{Answer, Call, Reply};
use crate::session::Session;
use isa::InstructionSet;
use std::alloc::{AllocError, Global};

/// What was counted over a list of calls.
#[derive(Clone, Copy)]
pub struct Counts {
    /// uses and branches granted
    pub accepted: u128,
    /// veneers
    pub made: u128,
    /// uses patched by an island
    pub patched: u128,
    /// uses cut with their branch
    pub removed: u128,
}

/// A buffer after a list of calls.
pub struct Replay<S> {
    pub session: Session<S>,
    /// what each call answered
    pub answers: Vec<Answer>,
    pub counts: Counts,
}

// Whether an answer means one more use.
fn adds_use(call: Call, answer: Answer) -> bool
    ensures { result ≡ is_accepted (call_of call.entry) (answer_of answer) }
{
    matches!(
        (call, answer),
        (
            Call::UseLabelAtOffset { .. }
                | Call::AddUncondBranch { .. }
                | Call::AddCondBranch { .. },
            Ok(Reply::Number(_))
        )
    )
}

// How many calls had a use accepted.
fn count_accepted(calls: &[Call], answers: &[Answer]) -> usize
    ensures { result ≡ accepted_among calls.now answers.now }
{
    calls
        .iter()
        .zip(answers.iter())
        .filter(|(call, answer)| adds_use(**call, **answer))
        .count()
}

/// Makes a list of calls on a new buffer.
pub fn replay_calls<S: InstructionSet + Drop>(
    heap: Global,
    set: S,
    calls: &[Call],
) -> Result<Replay<S>, AllocError>
    ensures { IfOk result (λ p. Replayed (S.meaning set) (map call_of calls.now) p × (p.session.buffer.set ≡ set)) }
{
    let mut answers = Vec::with_capacity(heap, calls.len())?;
    let mut session = Session::new(heap, set)?;
    for call in calls {
        answers.push_reserved(session.make(*call));
    }
    let accepted = count_accepted(calls, &answers) as u128;
    let removed = accepted - u128::from(session.buffer.waiting_len());
    Ok(Replay {
        session,
        answers,
        counts: Counts {
            accepted,
            made: 0,
            patched: 0,
            removed,
        },
    })
}
