// Watches: the watched tables and the listed programmes (document 01, "Watches and lateness").

#![tactic(auto)]

ghost use Rattle.std.specs.Prelude.{◌≡◌, ◌&&◌, [], ◌∷◌, ℕ, ◌+◌, ◌<◌, ◌≤◌, leb, ltb, length, get_or};
ghost use Rattle.events.specs.Capacity.{least_capacity, number_capacity};
ghost use Rattle.events.specs.Events.{events_laid};
ghost use Rattle.watches.specs.Tables.{fixed_tables, fixed_count, table_of, latest_time};
ghost use Rattle.watches.specs.Late.{late_events, row_late, rows_late, table_rows, entry_row};

use events::{EIT_ERROR, LATE, NIT_ERROR, PAT_ERROR, PMT_ERROR, SDT_ERROR, TDT_ERROR};

// A listed programme: its number, its PMT PID, and the start of its present gap.
#[derive(Clone, Copy, PartialEq, Eq, Debug)]
pub struct Entry {
    pub number: u16,
    pub pid: u16,
    pub since: u64,
}

// No programme: what the places of a list hold behind the listed ones.
pub const NO_ENTRY: Entry = Entry {
    number: 0,
    pid: 0,
    since: 0,
};

// A watched table: its PID, its table_id, the limits of its watch in ticks, the lowest first, and the fault of its events.
#[derive(Clone, Copy, PartialEq, Eq, Debug)]
pub struct Table {
    pub pid: u16,
    pub id: u8,
    pub limits: [u64; 1],
    pub fault: u16,
}

// Times are 0 to 2^62.
pub const LATEST_TIME: u64 = 4_611_686_018_427_387_904;

// How many tables are watched on a PID of their own.
pub const FIXED: usize = 5;

pub const PAT_PID: u16 = 0x0000;

pub const PAT_LIMIT: u64 = 13_500_000;

pub const NIT_LIMIT: u64 = 270_000_000;

pub const SDT_LIMIT: u64 = 54_000_000;

pub const EIT_LIMIT: u64 = 54_000_000;

pub const TDT_LIMIT: u64 = 810_000_000;

pub const PMT_LIMIT: u64 = 13_500_000;

// The paper's table: PAT, NIT actual, SDT actual, EIT p/f actual and TDT, then the PMT of a listed programme, whose PID is
// its own.
const TABLES: [Table; FIXED + 1] = [
    Table {
        pid: PAT_PID,
        id: 0x00,
        limits: [PAT_LIMIT],
        fault: PAT_ERROR,
    },
    Table {
        pid: 0x0010,
        id: 0x40,
        limits: [NIT_LIMIT],
        fault: NIT_ERROR,
    },
    Table {
        pid: 0x0011,
        id: 0x42,
        limits: [SDT_LIMIT],
        fault: SDT_ERROR,
    },
    Table {
        pid: 0x0012,
        id: 0x4E,
        limits: [EIT_LIMIT],
        fault: EIT_ERROR,
    },
    Table {
        pid: 0x0014,
        id: 0x70,
        limits: [TDT_LIMIT],
        fault: TDT_ERROR,
    },
    Table {
        pid: 0x0000,
        id: 0x02,
        limits: [PMT_LIMIT],
        fault: PMT_ERROR,
    },
];

// The table of the fixed watch k, and that of the programmes past the fixed ones.
pub fn table_of(k: usize) -> Table
    ensures { result ≡ table_of k }
{
    TABLES[k.min(FIXED)]
}

// The late events of a watch whose gap began at since, one for each limit that falls due, laid from the place n on; the
// next place. List and place stay two parameters, as in the crates above: tried as one struct, and a `&mut` field got no
// proof. Time goes from p to t, two numbers and no Range, which is not Copy.
fn late_row(
    list: &mut [u64],
    n: usize,
    p: u64,
    t: u64,
    since: u64,
    limits: &[u64],
    fault: u16,
    id: u16,
) -> usize
    requires { (n + length limits.now ≤ least_capacity) × (number_capacity ≤ length list.old) × (since ≤ latest_time) × ((i : ℕ) → get_or limits.now i 0 ≤ latest_time) }
    ensures { (result ≡ n + length (late_events limits.now fault id p t since))
        × (list.new ≡ events_laid list.old n (late_events limits.now fault id p t since)) × (id < 65536) }
{
    let mut m = n;
    for &limit in limits {
        let stamp = since + limit;
        if (p..t).contains(&stamp) {
            m = events::put(list, m, stamp, fault, LATE, id);
        }
    }
    m
}

// The late events of the fixed watches, laid from the place n on; the next place. Their gap starts are a part of the lent times, so a
// slice, whose length is a clause.
pub fn late_tables(list: &mut [u64], n: usize, p: u64, t: u64, since: &[u64]) -> usize
    requires { (n + fixed_count ≤ least_capacity) × (number_capacity ≤ length list.old) × (length since.now ≡ fixed_count) × ((k : ℕ) → get_or since.now k 0 ≤ latest_time) }
    ensures { (result ≡ n + length (rows_late p t (table_rows fixed_tables since.now)))
        × (list.new ≡ events_laid list.old n (rows_late p t (table_rows fixed_tables since.now))) }
{
    let mut m = n;
    for (k, &start) in since.iter().enumerate() {
        let table = table_of(k);
        m = late_row(list, m, p, t, start, &table.limits, table.fault, table.pid);
    }
    m
}

// The late events of a listed programme, laid from the place n on; the next place. Their id is the programme number, of
// sixteen bits.
pub fn late_entry(list: &mut [u64], n: usize, p: u64, t: u64, e: Entry) -> usize
    requires { (n < least_capacity) × (number_capacity ≤ length list.old) × (e.since ≤ latest_time) }
    ensures { (result ≡ n + length (row_late p t (entry_row e))) × (list.new ≡ events_laid list.old n (row_late p t (entry_row e))) × (e.number < 65536) }
{
    let table = table_of(FIXED);
    late_row(list, n, p, t, e.since, &table.limits, table.fault, e.number)
}
