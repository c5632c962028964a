//! Work on queues for which room was made.
ghost use Rattle.std.specs.Prelude.{◌≡◌, ◌+◌, ◌≤◌, ◌<◌, ◌∷◌, [], ◌++◌};
ghost use Rattle.std.specs.VecDeque.{deque_len, deque_capacity};

use crate::output::Output;
use std::collections::VecDeque;

/// Puts an output at the end.
pub fn tell(outputs: &mut VecDeque<Output>, output: Output)
    requires { deque_len outputs.old < deque_capacity outputs.old }
    ensures items { outputs.new.items ≡ outputs.old.items ++ output ∷ [] }
    ensures len { deque_len outputs.new ≡ deque_len outputs.old + 1 }
    ensures capacity { deque_capacity outputs.old ≤ deque_capacity outputs.new }
{
    if outputs.push_back(output).is_err() {
        unreachable!();
    }
}
