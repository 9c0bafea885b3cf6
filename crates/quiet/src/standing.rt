// A state as it stands, in the lent arrays or by value: what the glance asks of it.
ghost use Rattle.std.specs.Prelude.{◌≡◌, ◌<◌, ◌≤◌, length, get_or};
ghost use Rattle.watches.specs.Tables.{no_entry, fixed_count};
ghost use Rattle.sections.specs.Rooms.{room_count};
ghost use Rattle.programmes.specs.Listing.{most_listed};
ghost use Rattle.calls.specs.declared.State.{State};
ghost use Rattle.arrays.specs.Lent.{state_in, core_time_count, core_word_count};
ghost use Rattle.arrays.specs.inner.Kept.{Typed};
ghost use Rattle.quiet.specs.inner.Places.{state_places};

use arrays::LATEST;
use calls::State;
use watches::Entry;

pub(crate) trait Standing {
    ghost state: { Self → State };

    fn latest(&self) -> u64
        ensures { result ≡ (state self.now).latest };

    fn lost(&self) -> bool
        ensures { result ≡ (state self.now).core.lost };

    fn run(&self) -> u8
        ensures { result ≡ (state self.now).core.run };

    fn count(&self) -> usize
        ensures { result ≡ (state self.now).core.count };

    fn gaps(&self) -> &[u64]
        ensures { (result.now ≡ (state self.now).core.since) × (length result.now ≡ fixed_count) };

    fn halves(&self) -> &[u16]
        ensures { (result.now ≡ (state self.now).core.half) × (length result.now ≡ room_count) };

    fn entry(&self, k: usize) -> Entry
        requires { k < most_listed }
        ensures { result ≡ get_or (state self.now).core.entries k no_entry };

    // A state has sixteen places.
    ghost places: { (x : Self) → length (state x).core.entries ≡ most_listed };
}

// The two lent arrays.
#[derive(Clone, Copy)]
pub(crate) struct View<'a> {
    pub times: &'a [u64],
    pub words: &'a [u16],
    ghost whole: { (core_time_count ≤ length times.now) × (core_word_count ≤ length words.now) },
}

#[tactic(auto, unfolding(arrays::specs::Lent::state_in))]
impl Standing for View<'_> {
    ghost state = { λ v. state_in v.times.now v.words.now };

    ghost places = { λ v. state_places v.times.now v.words.now };

    fn latest(&self) -> u64 {
        self.times[LATEST]
    }

    fn lost(&self) -> bool {
        arrays::sync_lost(self.words)
    }

    fn run(&self) -> u8 {
        arrays::sync_run(self.words)
    }

    fn count(&self) -> usize {
        arrays::count_in(self.words)
    }

    fn gaps(&self) -> &[u64] {
        arrays::gaps_of(self.times)
    }

    fn halves(&self) -> &[u16] {
        arrays::halves_of(self.words)
    }

    fn entry(&self, k: usize) -> Entry {
        arrays::entry_at(self.times, self.words, k)
    }
}

// A state by value.
#[derive(Clone, Copy)]
pub(crate) struct Value<'a> {
    pub state: &'a State,
    ghost typed: { Typed state.now },
}

impl Standing for Value<'_> {
    ghost state = { λ v. v.state.now };

    ghost places = { λ v. v.typed.places };

    fn latest(&self) -> u64 {
        self.state.latest
    }

    fn lost(&self) -> bool {
        self.state.core.lost
    }

    fn run(&self) -> u8 {
        self.state.core.run
    }

    fn count(&self) -> usize {
        self.state.core.count
    }

    fn gaps(&self) -> &[u64] {
        &self.state.core.since
    }

    fn halves(&self) -> &[u16] {
        &self.state.core.half
    }

    fn entry(&self, k: usize) -> Entry {
        self.state.core.entries[k]
    }
}
