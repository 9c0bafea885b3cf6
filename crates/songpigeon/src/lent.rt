// The calls as a host makes them: on a state that is lent as two arrays, their events handed over as records. On a refusal
// nothing that was lent is written, the arrays neither.
ghost use Rattle.std.specs.Prelude.{◌≡◌, length};
ghost use Rattle.arrays.specs.Lent.{state_in};
ghost use Rattle.arrays.specs.Replies.{times_after, words_after};
ghost use Rattle.calls.specs.Calls.{packet_call, clock_call};
ghost use Rattle.songpigeon.specs.Lent.{OpenReplied, PacketReplied, ClockReplied};

use arrays::{Reply, TIMES, WORDS};
use calls::Answer;
use events::{Event, NUMBERS};
use sections::MEMORY;

// The arrays after an opening: its state, unless it was refused.
#[tactic(auto, unfolding(arrays::specs::Replies::times_after, arrays::specs::Replies::words_after))]
fn lay_answer(a: Answer, times: &mut [u64; TIMES], words: &mut [u16; WORDS])
    ensures { (times.new ≡ times_after a times.old) × (words.new ≡ words_after a words.old) }
{
    if a.refusal == 0 {
        arrays::lay_times(a.state, times);
        arrays::lay_words(a.state, words);
    }
}

// Opening: the arrays hold the state of an opening at `time`, and the counter table is 0 throughout. Refusals 2
// and 4.
pub fn songpigeon_open(
    times: &mut [u64; TIMES],
    words: &mut [u16; WORDS],
    time: u64,
    counters: &mut [u8],
) -> Reply
    ensures { OpenReplied time counters.old result times.old times.new words.old words.new counters.new }
{
    let a = engine::open_at(time, counters);
    lay_answer(a, times, words);
    Reply {
        refusal: a.refusal,
        n: a.n,
    }
}

// A packet call: the late events, then those of steps 1 to 5. Refusals 1 to 6.
pub fn songpigeon_packet(
    times: &mut [u64; TIMES],
    words: &mut [u16; WORDS],
    time: u64,
    packet: &[u8],
    counters: &mut [u8],
    memory: &mut [u8; MEMORY],
    numbers: &mut [u64; NUMBERS],
    events: &mut [Event],
) -> Reply
    ensures { PacketReplied (packet_call (state_in times.old words.old) time packet.now counters.old memory.old (length events.old))
        result times.old times.new words.old words.new counters.new memory.new numbers.old numbers.new events.old events.new }
{
    let out = engine::packet_in(
        times,
        words,
        time,
        packet,
        counters,
        memory,
        events.len(),
        numbers,
    );
    records::hand_over(numbers, out.n, events);
    out
}

// A clock call: the late events. Refusals 3 to 6. It stands beside `songpigeon_packet`, since C calls each by its name, and
// with parameters of its own.
pub fn songpigeon_clock(
    times: &mut [u64; TIMES],
    words: &mut [u16; WORDS],
    time: u64,
    memory: &[u8; MEMORY],
    numbers: &mut [u64; NUMBERS],
    events: &mut [Event],
) -> Reply
    ensures { ClockReplied (clock_call (state_in times.old words.old) time memory.now (length events.old))
        result times.old times.new words.old words.new numbers.old numbers.new events.old events.new }
{
    let out = engine::clock_in(times, words, time, memory, events.len(), numbers);
    records::hand_over(numbers, out.n, events);
    out
}
