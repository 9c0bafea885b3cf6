// Descriptors of test data sections for hosts: what stands at a place among them, and writers of one.
ghost use Rattle.std.specs.Prelude.{◌≡◌, length};
ghost use Rattle.testdata.specs.Descriptors.{descriptor_told, tag_of, fixed_values};
ghost use Rattle.testdata.specs.Writer.{fixed_told, fixed_memory, other_told, other_memory};
ghost use Rattle.songpigeon.specs.Fields.{padded, write_reply};
ghost use Rattle.songpigeon.specs.Descriptors.{cursor_at, no_more_found, found_of, values_after};

use crate::{Found, WriteReply};
use testdata::{Cursor, Descriptor, ELEMENTARY_TAG, Fixed, GPS_TAG, PROGRAM_TAG, REDUCED_PCR_TAG};

// The kinds of `Found`, which C reads as numbers: no enum.
const NO_MORE: u8 = 0;

const OF_FIXED: u8 = 1;

const OF_OTHER: u8 = 2;

// The tag of a descriptor of fixed size (Table 4).
fn tag_of(d: Fixed) -> u8
    ensures { result ≡ tag_of d }
{
    match d {
        Fixed::ElementaryId { .. } => ELEMENTARY_TAG,
        Fixed::Gps { .. } => GPS_TAG,
        Fixed::ReducedPcr { .. } => REDUCED_PCR_TAG,
        Fixed::Program { .. } => PROGRAM_TAG,
    }
}

// Its numbers, in the order of its table.
fn values_of(d: Fixed) -> [u32; 5]
    ensures { result ≡ padded 5 (fixed_values d) }
{
    match d {
        Fixed::ElementaryId { id_type, pid } => [u32::from(id_type), u32::from(pid), 0, 0, 0],
        Fixed::Gps {
            north_south,
            latitude,
            east_west,
            longitude,
            elevation,
        } => [
            u32::from(north_south),
            latitude,
            u32::from(east_west),
            longitude,
            u32::from(elevation),
        ],
        Fixed::ReducedPcr { base } => [base, 0, 0, 0, 0],
        Fixed::Program {
            number,
            reserved,
            pid,
        } => [u32::from(number), u32::from(reserved), u32::from(pid), 0, 0],
    }
}

// What a host is told where no descriptor stands: a refusal, or 0, and the place itself.
fn no_more(refusal: u8, at: usize) -> Found
    ensures { result ≡ no_more_found refusal at }
{
    Found {
        refusal,
        kind: NO_MORE,
        tag: 0,
        at: 0,
        length: 0,
        next: at,
    }
}

// What stands at a place among descriptors that end at another. A descriptor of fixed size writes its numbers;
// else the lent ones stay. Refusals 13 and 14.
pub fn songpigeon_testdata_descriptor(
    bytes: &[u8],
    at: usize,
    end: usize,
    values: &mut [u32; 5],
) -> Found
    ensures { (result ≡ found_of at (descriptor_told bytes.now (cursor_at at end)))
        × (values.new ≡ values_after (descriptor_told bytes.now (cursor_at at end)) values.old) }
{
    match testdata::descriptor_at(bytes, Cursor { at, end }) {
        Ok(Some(step)) => match step.descriptor {
            Descriptor::Known(d) => {
                *values = values_of(d);
                Found {
                    refusal: 0,
                    kind: OF_FIXED,
                    tag: tag_of(d),
                    at: 0,
                    length: 0,
                    next: step.next.at,
                }
            }
            Descriptor::Other { tag, body } => Found {
                refusal: 0,
                kind: OF_OTHER,
                tag,
                at: body.at,
                length: body.len,
                next: step.next.at,
            },
        },
        Ok(None) => no_more(0, at),
        Err(e) => no_more(u8::from(e), at),
    }
}

// Writes an elementary_id_descriptor (Table 5): its length. Refusals 13, then 15, and then nothing is written. Four writers and
// one for other tags, not one over `Fixed`: C calls each by its name, with its numbers as parameters.
pub fn songpigeon_testdata_elementary_id(id_type: u8, pid: u16, place: &mut [u8]) -> WriteReply
    ensures { (result ≡ write_reply (fixed_told (Fixed.ElementaryId id_type pid) (length place.old)))
        × (place.new ≡ fixed_memory (Fixed.ElementaryId id_type pid) place.old) }
{
    WriteReply::from(testdata::write_fixed(Fixed::ElementaryId { id_type, pid }, place))
}

// Writes a GPS_descriptor (Table 14), likewise.
pub fn songpigeon_testdata_gps(
    north_south: u8,
    latitude: u32,
    east_west: u8,
    longitude: u32,
    elevation: u16,
    place: &mut [u8],
) -> WriteReply
    ensures { (result ≡ write_reply (fixed_told (Fixed.Gps north_south latitude east_west longitude elevation) (length place.old)))
        × (place.new ≡ fixed_memory (Fixed.Gps north_south latitude east_west longitude elevation) place.old) }
{
    WriteReply::from(testdata::write_fixed(
        Fixed::Gps {
            north_south,
            latitude,
            east_west,
            longitude,
            elevation,
        },
        place,
    ))
}

// Writes a reduced_PCR_descriptor (Table 15), likewise.
pub fn songpigeon_testdata_reduced_pcr(base: u32, place: &mut [u8]) -> WriteReply
    ensures { (result ≡ write_reply (fixed_told (Fixed.ReducedPcr base) (length place.old)))
        × (place.new ≡ fixed_memory (Fixed.ReducedPcr base) place.old) }
{
    WriteReply::from(testdata::write_fixed(Fixed::ReducedPcr { base }, place))
}

// Writes a program_descriptor (Table 16), likewise.
pub fn songpigeon_testdata_program(
    number: u16,
    reserved: u8,
    pid: u16,
    place: &mut [u8],
) -> WriteReply
    ensures { (result ≡ write_reply (fixed_told (Fixed.Program number reserved pid) (length place.old)))
        × (place.new ≡ fixed_memory (Fixed.Program number reserved pid) place.old) }
{
    WriteReply::from(testdata::write_fixed(
        Fixed::Program {
            number,
            reserved,
            pid,
        },
        place,
    ))
}

// Writes a descriptor of any tag with its body as it is: its length. Refusals 14, 13, 15 in this order, and then
// nothing is written.
pub fn songpigeon_testdata_other(tag: u8, body: &[u8], place: &mut [u8]) -> WriteReply
    ensures { (result ≡ write_reply (other_told tag body.now (length place.old)))
        × (place.new ≡ other_memory tag body.now place.old) }
{
    WriteReply::from(testdata::write_other(tag, body, place))
}
