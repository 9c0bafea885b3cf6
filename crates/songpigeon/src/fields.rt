// Severity and test data sections for hosts.
ghost use Rattle.std.specs.Prelude.{◌≡◌, length};
ghost use Rattle.severity.specs.Severity.{severity_of};
ghost use Rattle.testdata.specs.Section.{indicator_of, field_values};
ghost use Rattle.testdata.specs.Reader.{read_told};
ghost use Rattle.testdata.specs.Writer.{written_says};
ghost use Rattle.songpigeon.specs.Fields.{field_bytes, fields_in, place_numbers, fields_after, places_after, write_reply, bytes_told, bytes_memory};

use crate::WriteReply;
use severity::Verdict;
use testdata::{Fields, Head, Part, Refusal, Syntax};

// Severity classes of a gap, by A/78.
pub fn songpigeon_severity(kind: usize, gap: u64) -> Verdict
    ensures { result ≡ severity_of kind gap }
{
    severity::severity(kind, gap)
}

// The fields that twelve bytes say.
#[tactic(auto, unfolding(crate::specs::Fields::fields_in))]
fn fields_in(b: &[u8; 12]) -> Fields
    ensures { result ≡ fields_in b.now }
{
    let [
        indicator,
        table_id,
        priority,
        head_reserved,
        user_defined,
        extension,
        reserved,
        version,
        current_next,
        number,
        last,
        reserved_loop,
    ] = *b;
    let head = Head {
        table_id,
        priority,
        reserved: head_reserved,
    };
    if indicator == 0 {
        return Fields::Plain(head);
    }
    Fields::Generic(
        head,
        Syntax {
            user_defined,
            extension,
            reserved,
            version,
            current_next,
            number,
            last,
            reserved_loop,
        },
    )
}

// Twelve bytes that say the fields.
fn field_bytes(f: Fields) -> [u8; 12]
    ensures { result ≡ field_bytes (indicator_of f) (field_values f) }
{
    match f {
        Fields::Plain(h) => [
            0, h.table_id, h.priority, h.reserved, 0, 0, 0, 0, 0, 0, 0, 0,
        ],
        Fields::Generic(h, x) => [
            1,
            h.table_id,
            h.priority,
            h.reserved,
            x.user_defined,
            x.extension,
            x.reserved,
            x.version,
            x.current_next,
            x.number,
            x.last,
            x.reserved_loop,
        ],
    }
}

// Where descriptors and test data stand. By `as`, since no `From` leads from usize to u64.
fn place_numbers(d: Part, t: Part) -> [u64; 4]
    ensures { result ≡ place_numbers d t }
{
    [d.at as u64, d.len as u64, t.at as u64, t.len as u64]
}

// Reads a test data section: its fields, a byte each, and the places of its descriptors and its data; 0, or
// the number of the refusal, and then nothing is written.
pub fn songpigeon_testdata_read(section: &[u8], fields: &mut [u8; 12], places: &mut [u64; 4]) -> u8
    ensures { (result ≡ (read_told section.now).number)
        × (fields.new ≡ fields_after (read_told section.now) fields.old)
        × (places.new ≡ places_after (read_told section.now) places.old) }
{
    match testdata::read(section) {
        Ok(found) => {
            *fields = field_bytes(found.fields);
            *places = place_numbers(found.descriptors, found.data);
            0
        }
        Err(e) => u8::from(e),
    }
}

// How a host is told of a writing.
impl From<Result<usize, Refusal>> for WriteReply {
    ghost from_gives = { λ written reply. reply ≡ write_reply (written_says written) };

    fn from(written: Result<usize, Refusal>) -> WriteReply {
        match written {
            Ok(length) => WriteReply { refusal: 0, length },
            Err(e) => WriteReply {
                refusal: u8::from(e),
                length: 0,
            },
        }
    }
}

// Writes a test data section of the fields, a byte each, the bytes of its descriptors and its data: its
// length, or the number of the refusal, 14, 13, 15 in this order, and then nothing is written. An indicator
// above 1 is a number too wide for its field: 13.
#[tactic(auto, unfolding(crate::specs::Fields::bytes_told, crate::specs::Fields::bytes_memory))]
pub fn songpigeon_testdata_write(
    fields: &[u8; 12],
    descriptors: &[u8],
    data: &[u8],
    place: &mut [u8],
) -> WriteReply
    ensures { (result ≡ write_reply (bytes_told fields.now descriptors.now «data».now (length place.old)))
        × (place.new ≡ bytes_memory fields.now descriptors.now «data».now place.old) }
{
    let written = if 1 < fields[0] {
        let row = testdata::row_of(descriptors);
        Err(if row.sizes {
            Refusal::RunsPast
        } else {
            Refusal::BadSize
        })
    } else {
        testdata::write(fields_in(fields), descriptors, data, place)
    };
    WriteReply::from(written)
}
