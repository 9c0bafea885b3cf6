// Step 1 of document 01, "Judging one packet": sync. It answers the next place for an event, and by `Continue` that the packet is
// judged further.
ghost use Rattle.std.specs.Prelude.{◌≡◌, List, ℕ, ◌+◌, ◌≤◌, length};
ghost use Rattle.events.specs.Capacity.{least_capacity, number_capacity};
ghost use Rattle.calls.specs.Sync.{synced_of, in_sync, while_lost};
ghost use Rattle.arrays.specs.Lent.{sync_run, core_in};
ghost use Rattle.arrays.specs.inner.Kept.{SyncTold};
ghost use Rattle.steps.specs.inner.Judging.{CaughtAs, goes_on, reached};

use arrays::WORDS;
use events::{NO_CAUSE, SYNC_BYTE_ERROR, SYNC_LOSS};
use std::ops::ControlFlow;

// Step 1 in sync.
fn judge_in_sync(
    words: &mut [u16; WORDS],
    right: bool,
    time: u64,
    pid: u16,
    numbers: &mut [u64],
    n: usize,
) -> ControlFlow<usize, usize>
    requires { (n + 2 ≤ least_capacity) × (number_capacity ≤ length numbers.old) }
    ensures { ((times : List ℕ) → CaughtAs (in_sync right (core_in times words.old)) time pid (core_in times words.new) (goes_on result) numbers.old n numbers.new (reached result))
        × SyncTold words.new }
{
    if right {
        arrays::set_sync(words, false, 0);
        return ControlFlow::Continue(n);
    }
    let next = events::put(numbers, n, time, SYNC_BYTE_ERROR, NO_CAUSE, pid);
    if arrays::sync_run(words) == 1 {
        arrays::set_sync(words, true, 0);
        arrays::drop_all(words);
        return ControlFlow::Break(events::put(numbers, next, time, SYNC_LOSS, NO_CAUSE, pid));
    }
    arrays::set_sync(words, false, 1);
    ControlFlow::Break(next)
}

// Step 1 while sync is lost: no events.
fn judge_lost(words: &mut [u16; WORDS], right: bool) -> bool
    requires { sync_run words.old ≤ 4 }
    ensures { ((times : List ℕ) → (core_in times words.new ≡ (while_lost right (core_in times words.old)).core) × (result ≡ (while_lost right (core_in times words.old)).further))
        × SyncTold words.new }
{
    if !right {
        arrays::set_sync(words, true, 0);
        return false;
    }
    let run = arrays::sync_run(words);
    if run == 4 {
        arrays::set_sync(words, false, 0);
        return true;
    }
    arrays::set_sync(words, true, run + 1);
    false
}

// Step 1.
pub(crate) fn judge_sync(
    words: &mut [u16; WORDS],
    right: bool,
    time: u64,
    pid: u16,
    numbers: &mut [u64],
    n: usize,
) -> ControlFlow<usize, usize>
    requires { (n + 2 ≤ least_capacity) × (number_capacity ≤ length numbers.old) × (sync_run words.old ≤ 4) }
    ensures { ((times : List ℕ) → CaughtAs (synced_of right (core_in times words.old)) time pid (core_in times words.new) (goes_on result) numbers.old n numbers.new (reached result))
        × SyncTold words.new }
{
    if arrays::sync_lost(words) {
        if judge_lost(words, right) {
            return ControlFlow::Continue(n);
        }
        return ControlFlow::Break(n);
    }
    judge_in_sync(words, right, time, pid, numbers, n)
}
