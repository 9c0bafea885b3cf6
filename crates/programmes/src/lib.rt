// The programme list in a good PAT section, and where its half-built sections stand (document 01, "The
// programme list").

#![tactic(auto)]

ghost use Rattle.std.specs.Prelude.{◌≡◌, true, ◌||◌, not, [], ℕ, ◌+◌, ◌*◌, ◌<◌, ◌≤◌, leb, length};
ghost use Rattle.lists.specs.Places.{part};
ghost use Rattle.watches.specs.Tables.{fixed_count};
ghost use Rattle.sections.specs.Rooms.{room_count, room_of_place};
ghost use Rattle.programmes.specs.declared.Addition.TheVariants.{One};
ghost use Rattle.programmes.specs.Listing.{entry_for, is_number, pid_unusable, most_listed, entries_of, entered, none_listed, read_on, list_of};
ghost use Rattle.programmes.specs.inner.Reading.{four_number, pid_in, seen_in, with_addition};
ghost use Rattle.programmes.specs.Places.{half_at, every_place, moved_half, moved_halves, rooms_laid, moved_bytes};
ghost use Rattle.programmes.specs.inner.Moving.{listed_place, none_half, section_at, Placed, Stayed};

use sections::{MEMORY, ROOMS};
use watches::{Entry, FIXED, NO_ENTRY};

// The list of a good PAT section: how many programmes are listed, whether the list is bad, and sixteen
// entries by value, of which the first `count` are listed. An array with its count, since there is no heap.
#[derive(Clone, Copy)]
pub struct Listed {
    pub count: usize,
    pub bad: bool,
    pub entries: [Entry; MOST_LISTED],
}

// How many programmes are listed at most, the lowest PID that one may have, and the PID of null packets.
pub const MOST_LISTED: usize = 16;

pub const LOWEST_PID: u16 = 0x0020;

pub const NULL_PID: u16 = 0x1FFF;

// The entry of a pair: its whole old one where the pair was listed, else one whose gap begins at this arrival.
fn entry_for(t: u64, old: &[Entry], number: u16, pid: u16) -> Entry
    ensures { result ≡ entry_for t old.now number pid }
{
    old.iter()
        .find(|e| e.number == number && e.pid == pid)
        .copied()
        .unwrap_or(Entry {
            number,
            pid,
            since: t,
        })
}

// Whether a number is that of one of these entries. The nearest is looked at first, so a number that stands many times in a
// section is found at once each time, whatever stands before.
fn seen_before(before: &[[u8; 4]], number: u16) -> bool
    ensures { result ≡ is_number number (seen_in before.now) }
{
    before
        .iter()
        .rev()
        .any(|&[a, b, ..]| u16::from_be_bytes([a, b]) == number)
}

// Whether an entry of a programme other than 0 can be listed behind `count` others.
fn is_usable(before: &[[u8; 4]], number: u16, pid: u16, count: usize) -> bool
    ensures { result ≡ not (pid_unusable pid || (is_number number (seen_in before.now) || leb most_listed count)) }
{
    pid >= LOWEST_PID && pid != NULL_PID && count < MOST_LISTED && !seen_before(before, number)
}

// What an entry of a PAT adds to the list: nothing where it is of programme 0, a mark that the list is bad, or an entry.
#[derive(Clone, Copy)]
enum Addition {
    Nothing,
    Mark,
    One(Entry),
}

// What the entry of these four bytes adds behind `count` others; before are the entries before it, old is the list just
// replaced.
fn read_one(count: usize, t: u64, old: &[Entry], before: &[[u8; 4]], entry: [u8; 4]) -> Addition
    ensures adds { (l : Listed) → l.count ≡ count → entered t old.now (seen_in before.now) (four_number entry) (pid_in entry) l ≡ with_addition result l }
    ensures room { (entry : Entry) → result ≡ One entry → count < most_listed }
{
    let [a, b, c, d] = entry;
    let number = u16::from_be_bytes([a, b]);
    let pid = u16::from_be_bytes([c % 32, d]);
    if number == 0 {
        Addition::Nothing
    } else if is_usable(before, number, pid, count) {
        Addition::One(entry_for(t, old, number, pid))
    } else {
        Addition::Mark
    }
}

// The list of the entries in the bytes e, each judged by those before it; old is the list just replaced.
fn read_entries(t: u64, old: &[Entry], e: &[u8]) -> Listed
    ensures { (result ≡ read_on t old.now [] none_listed e.now) × (result.count ≤ most_listed) }
{
    let (entries, spare) = e.as_chunks::<4>();
    let mut l = Listed {
        count: 0,
        bad: false,
        entries: [NO_ENTRY; MOST_LISTED],
    };
    for (k, &entry) in entries.iter().enumerate() {
        match read_one(l.count, t, old, &entries[..k], entry) {
            Addition::Nothing => {}
            Addition::Mark => l.bad = true,
            Addition::One(entry) => {
                l.entries[l.count] = entry;
                l.count += 1;
            }
        }
    }
    if !spare.is_empty() {
        l.bad = true;
    }
    l
}

// The bytes of a section's entries; none where it is too short to have any.
#[tactic(auto, unfolding(lists::specs::Places::part))]
fn entries_of(s: &[u8]) -> &[u8]
    ensures { result.now ≡ entries_of s.now }
{
    if s.len() < 12 {
        &[]
    } else {
        &s[8..s.len() - 4]
    }
}

// The list of a good PAT section that arrives at t; old is the list just replaced. One call makes it: a list is large, and one of two
// would be moved three times.
#[tactic(auto, unfolding(crate::specs::Listing::list_of))]
pub fn read_list(t: u64, old: &[Entry], s: &[u8]) -> Listed
    ensures { (result ≡ list_of t old.now s.now) × (result.count ≤ most_listed) }
{
    read_entries(t, old, entries_of(s))
}

// The first place with a PID, if there is one.
fn place_of(entries: &[Entry], pid: u16) -> Option<usize>
    ensures { result ≡ listed_place pid entries.now }
{
    entries.iter().position(|e| e.pid == pid)
}

// The half-built length of the place k of the new list. Here and below a list is a slice of at most sixteen: no type says so, and an
// array with its count was no plainer.
fn moved_half(old: &[Entry], new: &[Entry], half: &[u16; ROOMS], k: usize) -> u16
    requires { (length old.now ≤ most_listed) × (length new.now ≤ most_listed) }
    ensures { result ≡ moved_half old.now new.now half.now k }
{
    if k >= new.len() || place_of(new, new[k].pid) != Some(k) {
        return 0;
    }
    match place_of(old, new[k].pid) {
        Some(place) => half[FIXED + place],
        None => 0,
    }
}

// Whether nothing is half-built in the rooms of the list, in which sections are mostly of one packet. All lengths are
// looked at: a loop without a way out is done many at a time. One line, as `none_half` of checks over all rooms: one function for
// both is no plainer. A part of the lent words, so a slice, whose length is a clause.
pub fn none_listed(half: &[u16]) -> bool
    requires { length half.now ≡ room_count }
    ensures { result ≡ none_half (part half.now fixed_count most_listed) }
{
    half[FIXED..FIXED + MOST_LISTED]
        .iter()
        .fold(true, |none, n| none & (*n == 0))
}

// All half-built lengths under the new list.
fn moved_halves(old: &[Entry], new: &[Entry], half: &[u16; ROOMS]) -> [u16; ROOMS]
    requires { (length old.now ≤ most_listed) × (length new.now ≤ most_listed) }
    ensures { result ≡ moved_halves old.now new.now half.now }
{
    let mut out = *half;
    for (k, n) in out[FIXED..].iter_mut().enumerate() {
        *n = moved_half(old, new, half, k);
    }
    out
}

// Whether no half-built byte moves: a `for` with a way out, since each place is looked up by its number.
fn stays(old: &[Entry], new: &[Entry], half: &[u16; ROOMS]) -> bool
    requires { length new.now ≤ most_listed }
    ensures { result ≡ true → Stayed old.now new.now half.now (length new.now) }
{
    for (k, e) in new.iter().enumerate() {
        if half[FIXED + k] != 0 && place_of(old, e.pid) != Some(k) {
            return false;
        }
    }
    true
}

// The half-built bytes of each place, taken from where its PID stood.
fn move_places(mem: &mut [u8; MEMORY], old: &[Entry], new: &[Entry], half: &[u16; ROOMS])
    requires listed { (length old.now ≤ most_listed) × (length new.now ≤ most_listed) }
    requires placed { Placed old.now new.now half.now }
    ensures { mem.new ≡ rooms_laid (section_at old.now new.now half.now mem.old) every_place mem.old }
{
    let saved = *mem;
    for (k, e) in new.iter().enumerate() {
        if let Some(place) = place_of(old, e.pid) {
            let to = sections::room_base(FIXED + k);
            let from = sections::room_base(FIXED + place);
            let n = usize::from(half[FIXED + k]);
            octets::copy(mem, to, &saved[from..from + n]);
        }
    }
}

// Half-built sections stay with their PIDs as a list is replaced: their bytes move, and their lengths are
// handed back.
pub fn move_sections(
    mem: &mut [u8; MEMORY],
    old: &[Entry],
    new: &[Entry],
    half: [u16; ROOMS],
) -> [u16; ROOMS]
    requires listed { (length old.now ≤ most_listed) × (length new.now ≤ most_listed) }
    requires by_index { (k : ℕ) → k < 16 → half_at half (room_of_place k) ≤ 1024 }
    ensures { (result ≡ moved_halves old.now new.now half) × (mem.new ≡ moved_bytes old.now new.now half mem.old) }
{
    let next = moved_halves(old, new, &half);
    if !stays(old, new, &next) {
        move_places(mem, old, new, &next);
    }
    next
}
