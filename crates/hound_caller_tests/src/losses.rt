// Losses of power over a medium in memory. A machine that loses power is a medium whose calls all
// fail from then on; of what was written since the last flush any sector may be saved or lost.
use hound::{Begin, Durable, End, Journal, Medium, Step, Tape, WavReader, run_session};
use hound_callers::repair_recording;
use hound_test_helpers::integers;
use std::alloc::Global;
use std::test::Fail;

// The samples count up from 1, and a flush follows three of them.
const STEPS: [Step<'static>; 16] = [
    Step::Whole(1),
    Step::Whole(2),
    Step::Whole(3),
    Step::Flush,
    Step::Whole(4),
    Step::Whole(5),
    Step::Whole(6),
    Step::Flush,
    Step::Whole(7),
    Step::Whole(8),
    Step::Whole(9),
    Step::Flush,
    Step::Whole(10),
    Step::Whole(11),
    Step::Whole(12),
    Step::Flush,
];

const HEADER: usize = 44;

// How many samples are accepted by these marks, and how many of them were published.
fn counted(marks: &[bool]) -> (u32, u32) {
    let mut accepted = 0u32;
    let mut published = 0;
    for (i, mark) in marks.iter().enumerate() {
        if *mark && i % 4 == 3 {
            published = accepted;
        } else if *mark {
            accepted = accepted.wrapping_add(1);
        }
    }
    (accepted, published)
}

// The contents at each state since the last flush.
fn states_since_flush(alloc: Global, journal: &Journal) -> Result<Vec<Vec<u8>>, Fail> {
    let flushed = journal.flushed();
    let taken = journal.taken();
    let mut states = Vec::new(alloc);
    for k in 0..taken {
        if flushed <= k {
            states.push(journal.bytes_after(alloc, k)?)?;
        }
    }
    states.push(journal.bytes_after(alloc, taken)?)?;
    Ok(states)
}

// One of the states, by the next number of a sequence.
fn pick<'a>(states: &'a [Vec<u8>], seed: &mut u32) -> &'a [u8] {
    *seed = seed.wrapping_mul(1_664_525).wrapping_add(1_013_904_223);
    match states.get((*seed >> 16) as usize % states.len().max(1)) {
        Some(state) => state.as_slice(),
        None => &[],
    }
}

// Contents as long as one of the states, each sector of four bytes from one of them.
fn mixture(alloc: Global, states: &[Vec<u8>], seed: &mut u32) -> Result<Vec<u8>, Fail> {
    let length = pick(states, seed).len();
    let mut contents = Vec::new(alloc);
    let mut state = pick(states, seed);
    for i in 0..length {
        if i % 4 == 0 {
            state = pick(states, seed);
        }
        contents.push(state.get(i).copied().unwrap_or(0))?;
    }
    Ok(contents)
}

// How many of a reader's samples count up from 1, before the first that doesn't.
fn count_up(reader: WavReader<&[u8]>) -> u32 {
    let mut found = 0u32;
    for sample in reader.into_samples::<i32>() {
        match sample {
            Ok(sample) if i64::from(sample) == i64::from(found) + 1 => {
                found = found.wrapping_add(1);
            }
            _ => break,
        }
    }
    found
}

// Whether a reader finds the first samples, at least the published ones and no more than were
// accepted.
fn has_the_first(contents: &[u8], accepted: u32, published: u32) -> bool {
    let Ok(reader) = WavReader::new(contents) else {
        return false;
    };
    let length = reader.len();
    count_up(reader) == length && published <= length && length <= accepted
}

// Whether a reader finds the published samples first, once the contents are repaired.
fn has_published_once_repaired(contents: Vec<u8>, published: u32) -> bool {
    let Ok((tape, _)) = repair_recording(Tape::new(contents)) else {
        return false;
    };
    let bytes = tape.into_bytes();
    match WavReader::new(bytes.as_slice()) {
        Ok(reader) => published <= count_up(reader),
        Err(_) => false,
    }
}

// What a recorder leaves whose calls fail from this one on, and the marks of its steps.
fn recorded(alloc: Global, call: u64) -> Result<(Journal, [bool; 16]), Fail> {
    let mut journal = Journal::new(alloc, Vec::new(alloc))?;
    journal.fail(call, u64::MAX);
    let mut marks = [false; 16];
    let begin = Begin::New(integers(1, 44100, 16, 2));
    let medium = Durable::new(journal);
    let (medium, _) = run_session(alloc, medium, begin, &STEPS, &mut marks, End::Drop);
    Ok((medium.into_inner(), marks))
}

// How many losses of power are tried of what a recorder left.
const LOSSES: u32 = 50;

// How many of them are wrong, where so many samples were accepted and published.
fn wrong_losses(
    alloc: Global,
    journal: &Journal,
    (accepted, published): (u32, u32),
    seed: &mut u32,
) -> Result<u32, Fail> {
    let mut wrong = 0u32;
    let states = states_since_flush(alloc, journal)?;
    for _ in 0..LOSSES {
        let contents = mixture(alloc, &states, seed)?;
        let is_right = has_the_first(&contents, accepted, published);
        if !is_right || !has_published_once_repaired(contents, published) {
            wrong = wrong.wrapping_add(1);
        }
    }
    Ok(wrong)
}

#[test]
fn a_loss_of_power_loses_no_published_sample(rt: HostRuntime) -> Result<(), Fail> {
    let alloc = rt.alloc();
    let mut seed = 1;
    let mut losses = 0u32;
    let mut wrong = 0u32;
    let mut all = 0;
    for call in 1..100u64 {
        let (journal, marks) = recorded(alloc, call)?;
        if HEADER <= journal.flushed() {
            let counts = counted(&marks);
            all = counts.1;
            losses = losses.wrapping_add(LOSSES);
            wrong = wrong.wrapping_add(wrong_losses(alloc, &journal, counts, &mut seed)?);
        }
    }
    assert_eq!(rt; (wrong, all, 4000 < losses), (0, 12, true));
    Ok(())
}

// The disk may not have what a file held before it was appended to, though nothing was written since.
#[test]
fn a_durable_medium_flushes_also_where_nothing_was_written(rt: HostRuntime) -> Result<(), Fail> {
    let alloc = rt.alloc();
    let mut journal = Journal::new(alloc, Vec::new(alloc))?;
    journal.fail(2, 2);
    let mut durable = Durable::new(journal);
    let first = durable.flush().is_ok();
    let second = durable.flush().is_ok();
    let third = durable.flush().is_ok();
    assert_eq!(rt; (first, second, third), (true, false, true));
    Ok(())
}
