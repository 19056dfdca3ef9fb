// Calls whose allocations fail, each in turn: all memory is taken by blocks that stay untouched,
// except for one block, and freed before anything is compared.
use hound::{
    Begin, End, Error, Journal, Medium, Placed, SampleFormat, Step, Tape, WavReader, WavSpec,
    WavWriter, run_session,
};
use hound_test_helpers::{
    FOUR_SAMPLES, NO_MEMORY, empty_tape, integers, name_of_answer, path_of, sixteen, tape_of,
};
use std::alloc::Global;
use std::io::ErrorKind;
use std::path::Path;
use std::test::Fail;
use std::{fs, io};

// Takes the memory there is in blocks of at most this many bytes, and in ever smaller ones down to
// the least.
fn take_blocks(alloc: Global, most: usize, least: usize) -> Result<Vec<Vec<u8>>, Fail> {
    let mut blocks = Vec::with_capacity(alloc, 200_000)?;
    let mut size = most;
    for _ in 0..64 {
        for _ in 0..200_000 {
            let Ok(block) = Vec::with_capacity(alloc, size) else {
                break;
            };
            blocks.push(block)?;
        }
        if size <= least {
            break;
        }
        size /= 2;
    }
    Ok(blocks)
}

// Takes most memory, and leaves so little that `take_all_but` is quick.
fn take_most(alloc: Global) -> Result<Vec<Vec<u8>>, Fail> {
    take_blocks(alloc, 1 << 34, 1 << 26)
}

// Takes all memory except one block of this many bytes.
fn take_all_but(alloc: Global, room: usize) -> Result<Vec<Vec<u8>>, Fail> {
    let kept: Vec<u8> = Vec::with_capacity(alloc, room)?;
    let blocks = take_blocks(alloc, 1 << 34, 1)?;
    drop(kept);
    Ok(blocks)
}

// The header that is made with only this much memory.
fn header_with(alloc: Global, spec: WavSpec, room: usize) -> Result<hound::Result<Vec<u8>>, Fail> {
    let blocks = take_all_but(alloc, room)?;
    let header = spec.into_header_for_infinite_file(alloc);
    drop(blocks);
    Ok(header)
}

// With enough memory it is the header that is made with all of it.
#[test]
fn a_header_of_unknown_length(rt: HostRuntime) -> Result<(), Fail> {
    let alloc = rt.alloc();
    for (channels, room, name) in [
        (10, 0, "OutOfMemory"),
        (0, 0, "Unsupported"),
        (10, 68, "ok"),
    ] {
        let spec = integers(channels, 16000, 16, 2).spec;
        let header = header_with(alloc, spec, room)?;
        assert_eq!(rt;
            name_of_answer(&header),
            name,
            "{channels} channels with {room}"
        );
        if let Ok(header) = header {
            let whole = spec.into_header_for_infinite_file(alloc)?;
            assert_eq!(rt; header.as_slice(), whole.as_slice());
        }
    }
    Ok(())
}

// So much memory that a test needs no more.
const PLENTY: usize = 1 << 30;

// A call of a writer.
#[derive(Clone, Copy)]
enum Act {
    // A batch of this many samples is begun, and dropped.
    Begin(u32),
    // A batch of these samples.
    Batch([i16; 4]),
    Sample(i16),
    Block(&'static [i16]),
    Flush,
}

// The calls of a writer, each with its memory, its result and how many samples are then
// accepted.
struct Script {
    name: &'static str,
    acts: &'static [(usize, Act, &'static str, u32)],
    file: &'static [u8],
}

const SCRIPTS: [Script; 4] = [
    // A batch too long for a file is an error before memory is, and the one of 1000 takes the
    // 2000 bytes that there are.
    Script {
        name: "the first batch",
        acts: &[
            (0, Act::Begin(1), "OutOfMemory", 0),
            (0, Act::Begin(0), "ok", 0),
            (0, Act::Begin(2_147_483_630), "TooLong", 0),
            (2000, Act::Begin(1000), "ok", 0),
            (0, Act::Begin(2000), "OutOfMemory", 0),
            (PLENTY, Act::Sample(2), "ok", 1),
            (PLENTY, Act::Sample(-3), "ok", 2),
            (PLENTY, Act::Sample(5), "ok", 3),
            (PLENTY, Act::Sample(-7), "ok", 4),
        ],
        file: &FOUR_SAMPLES,
    },
    Script {
        name: "a batch uses memory that is kept",
        acts: &[
            (PLENTY, Act::Batch([2, 3, 4, 5]), "ok", 4),
            (0, Act::Begin(2), "ok", 4),
            (0, Act::Begin(100_000), "OutOfMemory", 4),
        ],
        file: b"RIFF\x2c\0\0\0WAVEfmt \x10\0\0\0\x01\0\x01\0\x44\xac\0\0\x88\x58\x01\0\x02\0\x10\0\
            data\x08\0\0\0\x02\0\x03\0\x04\0\x05\0",
    },
    // The samples are buffered, and written once there is memory.
    Script {
        name: "a writer over a tape that can't grow keeps its samples",
        acts: &[
            (0, Act::Sample(2), "ok", 1),
            (0, Act::Sample(-3), "ok", 2),
            (0, Act::Sample(5), "ok", 3),
            (0, Act::Sample(-7), "ok", 4),
            (0, Act::Flush, NO_MEMORY, 4),
            (PLENTY, Act::Flush, "ok", 4),
        ],
        file: &FOUR_SAMPLES,
    },
    Script {
        name: "a block takes no memory",
        acts: &[
            (0, Act::Block(&[2, -3]), "ok", 2),
            (0, Act::Block(&[]), "ok", 2),
            (0, Act::Flush, NO_MEMORY, 2),
            (0, Act::Block(&[5, -7]), "ok", 4),
            (PLENTY, Act::Flush, "ok", 4),
        ],
        file: &FOUR_SAMPLES,
    },
];

fn take(writer: &mut WavWriter<Tape>, alloc: Global, act: Act) -> hound::Result<()> {
    let spec = writer.spec();
    if spec.sample_format != SampleFormat::Int || spec.bits_per_sample != 16 {
        return Err(Error::InvalidSampleFormat);
    }
    match act {
        Act::Begin(count) => match writer.get_i16_writer(alloc, count)?.remaining() == count {
            true => Ok(()),
            false => Err(Error::UnfinishedSample),
        },
        Act::Batch(samples) => {
            let mut batch = writer.get_i16_writer(alloc, 4)?;
            for sample in samples {
                if batch.remaining() > 0 {
                    batch.write_sample(sample);
                }
            }
            if batch.remaining() != 0 {
                return Err(Error::UnfinishedSample);
            }
            batch.flush()
        }
        Act::Sample(sample) => writer.write_sample(sample),
        Act::Block(samples) => writer.write_samples(samples),
        Act::Flush => writer.flush(),
    }
}

impl Script {
    // Whether every call has its result.
    fn holds(&self, alloc: Global) -> Result<bool, Fail> {
        let mut writer = WavWriter::new(empty_tape(alloc), sixteen(1))?;
        for (room, next, name, len) in self.acts {
            let blocks = take_all_but(alloc, *room)?;
            let answer = take(&mut writer, alloc, *next);
            drop(blocks);
            if name_of_answer(&answer) != *name || writer.len() != *len {
                return Ok(false);
            }
        }
        Ok(writer.drop_into().bytes() == self.file)
    }
}

#[test]
fn a_writer_without_memory(rt: HostRuntime) -> Result<(), Fail> {
    for script in &SCRIPTS {
        assert!(rt; script.holds(rt.alloc())?, "{}", script.name);
    }
    Ok(())
}

#[test]
fn a_block_is_read_without_memory(rt: HostRuntime) -> Result<(), Fail> {
    let mut reader = WavReader::new(FOUR_SAMPLES.as_slice())?;
    let mut samples = [0i16; 5];
    let blocks = take_all_but(rt.alloc(), 0)?;
    let answer = reader.read_samples(&mut samples);
    drop(blocks);
    let is_read = matches!(answer, (4, Ok(())));
    assert!(rt; is_read && samples == [2, -3, 5, -7, 0]);
    Ok(())
}

#[test]
fn a_writer_begins_over_a_tape_that_cannot_grow(rt: HostRuntime) -> Result<(), Fail> {
    let alloc = rt.alloc();
    let blocks = take_all_but(alloc, 0)?;
    let rejected = WavWriter::new(empty_tape(alloc), sixteen(1));
    drop(blocks);
    assert_eq!(rt; name_of_answer(&rejected), NO_MEMORY);
    Ok(())
}

fn is_out_of_memory<T>(answer: &io::Result<T>) -> bool {
    matches!(answer, Err(e) if e.kind() == ErrorKind::OutOfMemory)
}

fn put_more<M: Medium>(medium: &mut M) -> io::Result<usize> {
    medium.put(&[7; 3000])
}

// Whether a tape that can't grow stays as it was, at its place.
fn tape_grows(alloc: Global, place: u32) -> Result<bool, Fail> {
    let mut tape = tape_of(alloc, &FOUR_SAMPLES)?;
    tape.go(place as u64)?;
    let blocks = take_all_but(alloc, 0)?;
    let answer = put_more(&mut tape);
    drop(blocks);
    let stays = tape.bytes() == FOUR_SAMPLES.as_slice();
    let count = put_more(&mut tape)?;
    Ok(
        is_out_of_memory(&answer)
            && stays
            && count == 3000
            && tape.bytes().len() == place as usize + 3000,
    )
}

// At its end and after a gap.
#[test]
fn a_tape_that_grows(rt: HostRuntime) -> Result<(), Fail> {
    for place in [52, 60] {
        assert!(rt; tape_grows(rt.alloc(), place)?, "{place}");
    }
    Ok(())
}

// All bytes of a journal.
fn bytes_of_now(journal: &Journal, alloc: Global) -> hound::Result<Vec<u8>> {
    journal.bytes_after(alloc, journal.taken())
}

// The names of the answers without memory: of a journal of the four samples, and of one of no bytes. Both with the
// same blocks taken: with further blocks taken in between, 52 bytes are at times not enough for the four samples.
fn begun_without_memory(alloc: Global) -> Result<(&'static str, &'static str), Fail> {
    let bytes = FOUR_SAMPLES.to_vec(alloc)?;
    let blocks = take_all_but(alloc, 0)?;
    let rejected = Journal::new(alloc, bytes);
    let empty = Journal::new(alloc, Vec::new(alloc));
    drop(blocks);
    Ok((name_of_answer(&rejected), name_of_answer(&empty)))
}

// A journal of the four samples that is made with only this much memory.
fn journal_with(alloc: Global, room: usize) -> Result<hound::Result<Journal>, Fail> {
    let bytes = FOUR_SAMPLES.to_vec(alloc)?;
    let blocks = take_all_but(alloc, room)?;
    let journal = Journal::new(alloc, bytes);
    drop(blocks);
    Ok(journal)
}

#[test]
fn a_journal_that_begins(rt: HostRuntime) -> Result<(), Fail> {
    let alloc = rt.alloc();
    assert_eq!(rt; begun_without_memory(alloc)?, ("OutOfMemory", "ok"));
    let journal = journal_with(alloc, 52)??;
    assert!(rt; bytes_of_now(&journal, alloc)?.as_slice() == FOUR_SAMPLES.as_slice());
    Ok(())
}

// Whether a journal of the four samples takes 3000 bytes more, if not with this much memory then
// with all; counts the errors.
fn journal_grows(alloc: Global, room: usize, rejections: &mut u32) -> Result<bool, Fail> {
    let mut journal = Journal::new(alloc, FOUR_SAMPLES.to_vec(alloc)?)?;
    journal.go(52)?;
    let blocks = take_all_but(alloc, room)?;
    let answer = put_more(&mut journal);
    drop(blocks);
    if answer.is_err() {
        *rejections = rejections.saturating_add(1);
        let stays = bytes_of_now(&journal, alloc)?.as_slice() == FOUR_SAMPLES.as_slice();
        if !is_out_of_memory(&answer) || journal.taken() != 0 || !stays {
            return Ok(false);
        }
        put_more(&mut journal)?;
    }
    Ok(journal.taken() == 3000 && bytes_of_now(&journal, alloc)?.len() == 3052)
}

// A journal's list of bytes written grows first, and then its contents.
#[test]
fn a_journal_that_grows(rt: HostRuntime) -> Result<(), Fail> {
    let _taken = take_most(rt.alloc())?;
    let mut rejections = 0u32;
    for room in [0, 16384, 32768, 49152, 50176, 65536] {
        let grows = journal_grows(rt.alloc(), room, &mut rejections)?;
        assert!(rt; grows, "room {room}");
    }
    assert!(rt; rejections == 5);
    Ok(())
}

// The beginning of a journal, which then takes 10000 bytes.
const BEGINNING: [u8; 2000] = [1; 2000];

// How often a state of the journal is complete, lacks memory, and is something else, each
// time with a kibibyte more.
fn moments_of(journal: &Journal, alloc: Global) -> Result<[u32; 3], Fail> {
    let whole = bytes_of_now(journal, alloc)?;
    let mut counts = [0u32; 3];
    for kibibytes in 0..48 {
        let blocks = take_all_but(alloc, kibibytes * 1024)?;
        let answer = bytes_of_now(journal, alloc);
        drop(blocks);
        let at = match answer {
            Ok(bytes) => if bytes == whole { 0 } else { 2 },
            Err(Error::OutOfMemory) => 1,
            Err(_) => 2,
        };
        counts[at] = counts[at].saturating_add(1);
    }
    Ok(counts)
}

// The bytes of a state are those of the beginning, whose list grows several times.
#[test]
fn a_moment_of_a_journal(rt: HostRuntime) -> Result<(), Fail> {
    let mut journal = Journal::new(rt.alloc(), BEGINNING.to_vec(rt.alloc())?)?;
    journal.go(2000)?;
    journal.put(&[7; 10_000])?;
    let _taken = take_most(rt.alloc())?;
    let counts = moments_of(&journal, rt.alloc())?;
    // Less than the 12000 bytes can't be enough, and four times as much is.
    assert!(rt;
        1 <= counts[0] && 12 <= counts[1] && counts[2] == 0,
        "{counts:?}"
    );
    Ok(())
}

// A batch of a session takes no memory: with none left it is written as any other step is.
#[test]
fn a_batch_of_a_session(rt: HostRuntime) -> Result<(), Fail> {
    let alloc = rt.alloc();
    let steps = [Step::Batch(&[2, -3]), Step::Whole(5), Step::Whole(-7)];
    let mut marks = [false, false, false];
    let begin = Begin::New(integers(1, 44100, 16, 2));
    let tape = tape_of(alloc, &[0; 52])?;
    let blocks = take_all_but(alloc, 0)?;
    let (tape, answer) = run_session(alloc, tape, begin, &steps, &mut marks, End::Finalize);
    drop(blocks);
    let is_so = answer.is_ok()
        && marks == [true, true, true]
        && tape.bytes() == FOUR_SAMPLES.as_slice();
    assert!(rt; is_so, "{marks:?}");
    Ok(())
}

// A call that opens a file.
#[derive(Clone, Copy, Debug)]
enum Opening {
    Open,
    Create,
    Append,
}

// The name of the call's answer with only this much memory.
fn open_without(
    rt: &HostRuntime,
    path: Path<'_>,
    opening: Opening,
    room: usize,
) -> Result<&'static str, Fail> {
    let alloc = rt.alloc();
    let blocks = take_all_but(alloc, room)?;
    let name = match opening {
        Opening::Open => name_of_answer(&WavReader::open(rt, alloc, path)),
        Opening::Create => name_of_answer(&WavWriter::create(rt, alloc, path, sixteen(1))),
        Opening::Append => name_of_answer(&WavWriter::append(rt, alloc, path)),
    };
    drop(blocks);
    Ok(name)
}

// Whether the call over the four samples lacks memory, and the file stays or is empty if it was to
// be created; with this buffer, whether it is done.
fn opens_as_said(
    rt: &HostRuntime,
    path: Path<'_>,
    opening: Opening,
    room: usize,
    buffer: usize,
) -> Result<bool, Fail> {
    fs::write(rt, path, FOUR_SAMPLES.as_slice())?;
    let name = open_without(rt, path, opening, room)?;
    let bytes = fs::read(rt, path)?;
    if room == buffer {
        return Ok(name == "ok");
    }
    let stays = bytes.as_slice() == FOUR_SAMPLES.as_slice();
    let is_made = matches!(opening, Opening::Create);
    Ok((name == "OutOfMemory" || name == NO_MEMORY) && (stays || is_made && bytes.is_empty()))
}

// Only the buffer is allocated.
#[test]
fn files_that_are_opened(rt: HostRuntime) -> Result<(), Fail> {
    let path = path_of(&rt, "hound_tests_memory")?;
    let _taken = take_most(rt.alloc())?;
    for (opening, buffer) in [
        (Opening::Open, 8192),
        (Opening::Create, 65536),
        (Opening::Append, 65536),
    ] {
        for room in [0, 16, 1024, buffer - 64, buffer] {
            let is_as_said = opens_as_said(&rt, path.as_path(), opening, room, buffer)?;
            assert!(rt; is_as_said, "{opening:?} with {room}");
        }
    }
    fs::remove_file(&rt, path.as_path())?;
    Ok(())
}
