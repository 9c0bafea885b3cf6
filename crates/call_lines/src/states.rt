// States with one part changed.
ghost use Rattle.std.specs.Prelude.{◌<◌, ◌≡◌, replicate, set};
ghost use Rattle.calls.specs.Calls.{open_answer};
ghost use Rattle.calls.specs.Cores.{with_half};

use calls::State;
use watches::Entry;

// The state of an opening at a time.
pub fn fresh(time: u64) -> State
    ensures { result ≡ (open_answer time (replicate 8192 0)).state }
{
    let mut counters = [0u8; 8192];
    probe::open(time, &mut counters).state
}

pub fn with_latest(s: State, t: u64) -> State
    ensures { result ≡ record { latest = t; core = s.core } }
{
    State { latest: t, ..s }
}

pub fn with_since(mut s: State, k: usize, t: u64) -> State
    requires { k < 5 }
    ensures { result ≡ record { latest = s.latest; core = record { lost = s.core.lost; run = s.core.run; since = set s.core.since k t; count = s.core.count; entries = s.core.entries; half = s.core.half } } }
{
    s.core.since[k] = t;
    s
}

pub fn with_sync(mut s: State, lost: bool, run: u8) -> State
    ensures { result ≡ record { latest = s.latest; core = record { lost = lost; run = run; since = s.core.since; count = s.core.count; entries = s.core.entries; half = s.core.half } } }
{
    s.core.lost = lost;
    s.core.run = run;
    s
}

pub fn with_count(mut s: State, n: usize) -> State
    ensures { result ≡ record { latest = s.latest; core = record { lost = s.core.lost; run = s.core.run; since = s.core.since; count = n; entries = s.core.entries; half = s.core.half } } }
{
    s.core.count = n;
    s
}

pub fn with_entry(mut s: State, k: usize, number: u16, pid: u16, since: u64) -> State
    requires { k < 16 }
    ensures { result ≡ record { latest = s.latest; core = record { lost = s.core.lost; run = s.core.run; since = s.core.since; count = s.core.count; entries = set s.core.entries k (record { number = number; pid = pid; since = since }); half = s.core.half } } }
{
    s.core.entries[k] = Entry { number, pid, since };
    s
}

pub fn with_half(mut s: State, room: usize, n: u16) -> State
    requires { room < 21 }
    ensures { result ≡ record { latest = s.latest; core = with_half (set s.core.half room n) s.core } }
{
    s.core.half[room] = n;
    s
}

// Programmes 1 and 2, on the PIDs 0x1000 and 0x1001.
pub fn two_listed(s: State) -> State {
    with_count(
        with_entry(with_entry(s, 0, 1, 0x1000, 0), 1, 2, 0x1001, 0),
        2,
    )
}
