//! Work on queues for which room was made.
ghost use Rattle.std.specs.Prelude.{◌≡◌, ◌+◌, ◌≤◌, ◌<◌, ◌∷◌, [], ◌++◌};
ghost use Rattle.std.specs.VecDeque.{deque_len, deque_capacity};

use std::collections::VecDeque;

/// Puts a value at the end.
pub fn enqueue<T: Drop>(queue: &mut VecDeque<T>, value: T)
    requires { deque_len queue.old < deque_capacity queue.old }
    ensures items { queue.new.items ≡ queue.old.items ++ value ∷ [] }
    ensures len { deque_len queue.new ≡ deque_len queue.old + 1 }
    ensures capacity { deque_capacity queue.old ≤ deque_capacity queue.new }
{
    if queue.push_back(value).is_err() {
        unreachable!();
    }
}

/// Puts all values of another queue at the end.
pub fn append_all<T: Drop>(queue: &mut VecDeque<T>, mut more: VecDeque<T>)
    requires { deque_len queue.old + deque_len more ≤ deque_capacity queue.old }
    ensures items { queue.new.items ≡ queue.old.items ++ more.items }
    ensures len { deque_len queue.new ≡ deque_len queue.old + deque_len more }
{
    if queue.append(&mut more).is_err() {
        unreachable!();
    }
}
