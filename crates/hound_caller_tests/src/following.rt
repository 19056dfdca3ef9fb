// Following a recording over a journal: as it is after each byte written, and while a length is written over another.
ghost use Rattle.hound.specs.{IsSoundFollower, IsSoundSpec};

use hound::{
    FollowStep, Follower, Journal, Recording, Report, SampleFormat, WavSpec, WavSpecEx, WavWriter,
};
use hound_callers::follow_meanwhile;
use std::alloc::Global;
use std::test::Fail;

const HEADER: usize = 44;

// Mono, 8000 Hz, 8 bits.
fn eight() -> WavSpecEx
    ensures { IsSoundSpec result }
{
    let spec = WavSpec {
        channels: 1,
        sample_rate: 8000,
        bits_per_sample: 8,
        sample_format: SampleFormat::Int,
    };
    WavSpecEx {
        spec,
        bytes_per_sample: 1,
    }
}

// 254 samples, a flush, four more, a flush: the lengths are fe and 0102 in hexadecimal, so that some bytes of one and
// some of the other count up to 01fe.
fn recorded(alloc: Global) -> Result<Journal, Fail> {
    let journal = Journal::new(alloc, Vec::new(alloc))?;
    let mut writer = WavWriter::new(journal, eight().spec)?;
    for _ in 0..254 {
        writer.write_sample(7i8)?;
    }
    writer.flush()?;
    for _ in 0..4 {
        writer.write_sample(9i8)?;
    }
    writer.flush()?;
    Ok(writer.drop_into())
}

// The number of the four bytes of the length.
fn length_of(bytes: &[u8]) -> u32 {
    let mut four = [0; 4];
    if HEADER <= bytes.len() {
        four.copy_from_slice(&bytes[HEADER - 4..HEADER]);
    }
    u32::from_le_bytes(four)
}

// The bytes from a place on, at most so many.
fn part(bytes: &[u8], place: u64, count: u32) -> &[u8] {
    let from = (place as usize).min(bytes.len());
    let rest = &bytes[from..];
    &rest[..rest.len().min(count as usize)]
}

// How a look at a file in memory ends.
fn look(follower: &mut Follower, bytes: &[u8]) -> &'static str
    requires { IsSoundFollower follower.old }
    ensures { IsSoundFollower follower.new }
{
    let mut read: &[u8] = &[];
    let mut report = Report::Pending;
    for _ in 0..100 {
        match follower.next(read, report) {
            Ok(FollowStep::Reads(place, count)) => {
                read = part(bytes, place, count);
                report = Report::Done;
            }
            Ok(FollowStep::Grew) => return "grew",
            Ok(FollowStep::NothingNew) => return "nothing new",
            Err(_) => return "an error",
        }
    }
    "no end"
}

#[test]
fn a_follower_counts_what_the_header_counts_after_each_byte(rt: HostRuntime) -> Result<(), Fail> {
    let alloc = rt.alloc();
    let journal = recorded(alloc)?;
    let mut follower = Follower::new();
    let mut wrong = 0u32;
    let mut greatest = 0;
    for k in 0..journal.taken() + 1 {
        let bytes = journal.bytes_after(alloc, k)?;
        let ended = look(&mut follower, &bytes);
        let expected = match k {
            0..HEADER => "nothing new",
            HEADER => "grew",
            _ if length_of(&bytes) > greatest => "grew",
            _ => "nothing new",
        };
        if HEADER < k {
            greatest = greatest.max(length_of(&bytes));
        }
        if ended != expected || follower.counted() != greatest {
            wrong = wrong.wrapping_add(1);
        }
    }
    let found = follower.recording();
    let is_found = match found {
        None => false,
        Some(found) => found.spec_ex.spec == eight().spec && found.data_start == HEADER as u64,
    };
    assert_eq!(rt; (wrong, follower.counted(), is_found), (0, 258, true));
    Ok(())
}

// The data length that four bytes say of which each is from a state of its own, the first byte from the first of them.
fn first_byte_first(alloc: Global, journal: &Journal, states: [usize; 4]) -> Result<u32, Fail> {
    let mut four = [0; 4];
    for i in 0..4usize {
        let bytes = journal.bytes_after(alloc, states[i].min(journal.taken()))?;
        four[i] = bytes.get(HEADER - 4 + i).copied().unwrap_or(0);
    }
    Ok(u32::from_le_bytes(four))
}

// How many of the bytes that a follower read aren't the accepted samples.
fn count_wrong(bytes: &[u8]) -> usize {
    bytes
        .iter()
        .enumerate()
        .filter(|(i, byte)| **byte != if *i < 254 { 0x87 } else { 0x89 })
        .count()
}

#[test]
fn a_follower_reads_no_sample_that_was_not_accepted(rt: HostRuntime) -> Result<(), Fail> {
    let alloc = rt.alloc();
    let journal = recorded(alloc)?;
    let recording = Recording {
        spec_ex: eight(),
        data_start: HEADER as u64,
        counted: 0,
        last: 0,
    };
    let last = journal.taken();
    let mut wrong = 0usize;
    let mut greatest = 0;
    let mut control = 0;
    // The last bytes written are the pad byte and the two sizes, once by the flush and once by the drop.
    for a in last.saturating_sub(20)..last + 1 {
        for b in a..(a + 6).min(last + 1) {
            for c in b..(b + 3).min(last + 1) {
                let d = (c + 2).min(last);
                let bytes = follow_meanwhile(alloc, &journal, recording, a, b, c, d, last)?;
                wrong = wrong.wrapping_add(count_wrong(&bytes));
                greatest = greatest.max(bytes.len());
                control = control.max(first_byte_first(alloc, &journal, [a, b, c, d])?);
            }
        }
    }
    assert_eq!(rt; (wrong, greatest, control), (0, 258, 0x1fe));
    Ok(())
}
