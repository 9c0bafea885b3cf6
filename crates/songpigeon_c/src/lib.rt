// What a host links: the static library. Each export is the function of crate `songpigeon` that has its name, with C's calling
// convention, and promises the same.

#![tactic(auto)]

ghost use Rattle.std.specs.Prelude.{◌≡◌, length};
ghost use Rattle.severity.specs.Severity.{severity_of};
ghost use Rattle.arrays.specs.Lent.{state_in};
ghost use Rattle.calls.specs.Calls.{packet_call, clock_call};
ghost use Rattle.testdata.specs.Reader.{read_told};
ghost use Rattle.testdata.specs.Descriptors.{descriptor_told};
ghost use Rattle.testdata.specs.Writer.{fixed_told, fixed_memory, other_told, other_memory};
ghost use Rattle.songpigeon.specs.Version.{version};
ghost use Rattle.songpigeon.specs.Lent.{OpenReplied, PacketReplied, ClockReplied};
ghost use Rattle.songpigeon.specs.Fields.{fields_after, places_after, write_reply, bytes_told, bytes_memory};
ghost use Rattle.songpigeon.specs.Descriptors.{cursor_at, found_of, values_after};

use arrays::{Reply, TIMES, WORDS};
use events::{Event, NUMBERS};
use sections::MEMORY;
use severity::Verdict;
use songpigeon::{Found, WriteReply};
use testdata::Fixed;

// The version of this library, as the header has it.
#[unsafe(no_mangle)]
pub extern "C" fn songpigeon_version() -> u32
    ensures { result ≡ version }
{
    songpigeon::songpigeon_version()
}

// Opening: the arrays hold the state of an opening at `time`, and the counter table is 0 throughout. Refusals 2
// and 4.
#[unsafe(no_mangle)]
pub extern "C" fn songpigeon_open(
    times: &mut [u64; TIMES],
    words: &mut [u16; WORDS],
    time: u64,
    counters: &mut [u8],
) -> Reply
    ensures { OpenReplied time counters.old result times.old times.new words.old words.new counters.new }
{
    songpigeon::songpigeon_open(times, words, time, counters)
}

// A packet call: the late events, then those of steps 1 to 5. Refusals 1 to 6.
#[unsafe(no_mangle)]
pub extern "C" fn songpigeon_packet(
    times: &mut [u64; TIMES],
    words: &mut [u16; WORDS],
    time: u64,
    packet: &[u8],
    counters: &mut [u8],
    memory: &mut [u8; MEMORY],
    numbers: &mut [u64; NUMBERS],
    events: &mut [Event],
) -> Reply
    ensures { PacketReplied (packet_call (state_in times.old words.old) time packet.now counters.old memory.old (length events.old))
        result times.old times.new words.old words.new counters.new memory.new numbers.old numbers.new events.old events.new }
{
    songpigeon::songpigeon_packet(
        times, words, time, packet, counters, memory, numbers, events,
    )
}

// A clock call: the late events. Refusals 3 to 6.
#[unsafe(no_mangle)]
pub extern "C" fn songpigeon_clock(
    times: &mut [u64; TIMES],
    words: &mut [u16; WORDS],
    time: u64,
    memory: &[u8; MEMORY],
    numbers: &mut [u64; NUMBERS],
    events: &mut [Event],
) -> Reply
    ensures { ClockReplied (clock_call (state_in times.old words.old) time memory.now (length events.old))
        result times.old times.new words.old words.new numbers.old numbers.new events.old events.new }
{
    songpigeon::songpigeon_clock(times, words, time, memory, numbers, events)
}

// Severity classes of a gap, by A/78.
#[unsafe(no_mangle)]
pub extern "C" fn songpigeon_severity(kind: usize, gap: u64) -> Verdict
    ensures { result ≡ severity_of kind gap }
{
    songpigeon::songpigeon_severity(kind, gap)
}

// Reads a test data section: its fields, a byte each, and the places of its descriptors and its data; 0, or
// the number of the refusal, and then nothing is written.
#[unsafe(no_mangle)]
pub extern "C" fn songpigeon_testdata_read(
    section: &[u8],
    fields: &mut [u8; 12],
    places: &mut [u64; 4],
) -> u8
    ensures { (result ≡ (read_told section.now).number)
        × (fields.new ≡ fields_after (read_told section.now) fields.old)
        × (places.new ≡ places_after (read_told section.now) places.old) }
{
    songpigeon::songpigeon_testdata_read(section, fields, places)
}

// Writes a test data section of the fields, a byte each, the bytes of its descriptors and its data: its
// length, or the number of the refusal, 14, 13, 15 in this order, and then nothing is written. An indicator
// above 1 is a number too wide for its field: 13.
#[unsafe(no_mangle)]
pub extern "C" fn songpigeon_testdata_write(
    fields: &[u8; 12],
    descriptors: &[u8],
    data: &[u8],
    place: &mut [u8],
) -> WriteReply
    ensures { (result ≡ write_reply (bytes_told fields.now descriptors.now «data».now (length place.old)))
        × (place.new ≡ bytes_memory fields.now descriptors.now «data».now place.old) }
{
    songpigeon::songpigeon_testdata_write(fields, descriptors, data, place)
}

// What stands at a place among descriptors that end at another. A descriptor of fixed size writes its numbers;
// else the lent ones stay. Refusals 13 and 14.
#[unsafe(no_mangle)]
pub extern "C" fn songpigeon_testdata_descriptor(
    bytes: &[u8],
    at: usize,
    end: usize,
    values: &mut [u32; 5],
) -> Found
    ensures { (result ≡ found_of at (descriptor_told bytes.now (cursor_at at end)))
        × (values.new ≡ values_after (descriptor_told bytes.now (cursor_at at end)) values.old) }
{
    songpigeon::songpigeon_testdata_descriptor(bytes, at, end, values)
}

// Writes an elementary_id_descriptor (Table 5): its length. Refusals 13, then 15, and then nothing is written.
#[unsafe(no_mangle)]
pub extern "C" fn songpigeon_testdata_elementary_id(
    id_type: u8,
    pid: u16,
    place: &mut [u8],
) -> WriteReply
    ensures { (result ≡ write_reply (fixed_told (Fixed.ElementaryId id_type pid) (length place.old)))
        × (place.new ≡ fixed_memory (Fixed.ElementaryId id_type pid) place.old) }
{
    songpigeon::songpigeon_testdata_elementary_id(id_type, pid, place)
}

// Writes a GPS_descriptor (Table 14), likewise.
#[unsafe(no_mangle)]
pub extern "C" fn songpigeon_testdata_gps(
    north_south: u8,
    latitude: u32,
    east_west: u8,
    longitude: u32,
    elevation: u16,
    place: &mut [u8],
) -> WriteReply
    ensures { (result ≡ write_reply (fixed_told (Fixed.Gps north_south latitude east_west longitude elevation) (length place.old)))
        × (place.new ≡ fixed_memory (Fixed.Gps north_south latitude east_west longitude elevation) place.old) }
{
    songpigeon::songpigeon_testdata_gps(
        north_south,
        latitude,
        east_west,
        longitude,
        elevation,
        place,
    )
}

// Writes a reduced_PCR_descriptor (Table 15), likewise.
#[unsafe(no_mangle)]
pub extern "C" fn songpigeon_testdata_reduced_pcr(base: u32, place: &mut [u8]) -> WriteReply
    ensures { (result ≡ write_reply (fixed_told (Fixed.ReducedPcr base) (length place.old)))
        × (place.new ≡ fixed_memory (Fixed.ReducedPcr base) place.old) }
{
    songpigeon::songpigeon_testdata_reduced_pcr(base, place)
}

// Writes a program_descriptor (Table 16), likewise.
#[unsafe(no_mangle)]
pub extern "C" fn songpigeon_testdata_program(
    number: u16,
    reserved: u8,
    pid: u16,
    place: &mut [u8],
) -> WriteReply
    ensures { (result ≡ write_reply (fixed_told (Fixed.Program number reserved pid) (length place.old)))
        × (place.new ≡ fixed_memory (Fixed.Program number reserved pid) place.old) }
{
    songpigeon::songpigeon_testdata_program(number, reserved, pid, place)
}

// Writes a descriptor of any tag with its body as it is: its length. Refusals 14, 13, 15 in this order, and then
// nothing is written.
#[unsafe(no_mangle)]
pub extern "C" fn songpigeon_testdata_other(tag: u8, body: &[u8], place: &mut [u8]) -> WriteReply
    ensures { (result ≡ write_reply (other_told tag body.now (length place.old)))
        × (place.new ≡ other_memory tag body.now place.old) }
{
    songpigeon::songpigeon_testdata_other(tag, body, place)
}
