// Severity classes of A/78 for the gap between two sections of a table (document 01, "Severity by
// A/78"; A/78A, clauses 5 and 6).

#![tactic(auto)]

ghost use Rattle.std.specs.Prelude.{◌≡◌, ◌<◌};
ghost use Rattle.severity.specs.Severity.{row_for, set_for, worst_of, answer_for, severity_of};

// The answer: the refusal number (0: none), the classes as a set (TOA 16, POA 8, CM 4, QOS 2,
// TNC 1), how many they are, and the worst one. It is laid out for C, so no Result and no enum.
#[repr(C)]
#[derive(Clone, Copy, PartialEq, Eq, Debug)]
pub struct Verdict {
    pub refusal: u32,
    pub set: u32,
    pub number: u32,
    pub worst: u32,
}

// A row of the paper's table, in ticks of 27 MHz: TNC above, QOS with TNC above, absence above, and
// the set at absence.
#[derive(Clone, Copy)]
struct Row {
    tnc: u64,
    qos: u64,
    absence: u64,
    set: u32,
}

const UNLISTED_KIND: u32 = 7;

const QOS_TNC: u32 = 3;

const TNC: u32 = 1;

// Kinds 0 to 5: PAT, PMT, EIT-0, EIT-1, EIT-2 and EIT-3, STT.
const TABLE: [Row; 6] = [
    Row {
        tnc: 2_700_000,
        qos: 5_400_000,
        absence: 13_500_000,
        set: 31,
    },
    Row {
        tnc: 10_800_000,
        qos: 21_600_000,
        absence: 54_000_000,
        set: 15,
    },
    Row {
        tnc: 13_500_000,
        qos: 27_000_000,
        absence: 67_500_000,
        set: 15,
    },
    Row {
        tnc: 81_000_000,
        qos: 162_000_000,
        absence: 405_000_000,
        set: 7,
    },
    Row {
        tnc: 1_620_000_000,
        qos: 3_240_000_000,
        absence: 8_100_000_000,
        set: 7,
    },
    Row {
        tnc: 27_000_000,
        qos: 54_000_000,
        absence: 135_000_000,
        set: 7,
    },
];

// The classes of a gap.
fn set_for(r: Row, gap: u64) -> u32
    ensures { result ≡ set_for r gap }
{
    if r.absence < gap {
        r.set
    } else if r.qos < gap {
        QOS_TNC
    } else if r.tnc < gap {
        TNC
    } else {
        0
    }
}

// The worst class of a set: its highest one, which the leading zeros give.
#[tactic(auto, using(crate::proofs::Sets::worst_some))]
fn worst(set: u32) -> u32
    requires { set < 32 }
    ensures { result ≡ worst_of set }
{
    match set.leading_zeros() {
        32 => 0,
        zeros => 1 << (31 - zeros),
    }
}

#[tactic(auto, using(crate::proofs::Sets::ones_number))]
fn answer(set: u32) -> Verdict
    requires { set < 32 }
    ensures { result ≡ answer_for set }
{
    Verdict {
        refusal: 0,
        set,
        number: set.count_ones(),
        worst: worst(set),
    }
}

// How severe a gap of so many ticks is, for a kind of table. A kind that is not listed is refused
// with 7, and all else is 0.
#[tactic(auto, using(crate::proofs::Sets::set_lt), unfolding(crate::specs::Severity::severity_of))]
pub fn severity(kind: usize, gap: u64) -> Verdict
    ensures { result ≡ severity_of kind gap }
{
    let Some(row) = TABLE.get(kind) else {
        return Verdict {
            refusal: UNLISTED_KIND,
            set: 0,
            number: 0,
            worst: 0,
        };
    };
    answer(set_for(*row, gap))
}
