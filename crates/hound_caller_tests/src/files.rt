// Files on disk. What is done to a file is a row of a table (`ROWS`).
use hound::RepairState::{self, CutOff, HasChunksAfterData, Whole};
use hound::{
    Medium, SyncedFile, WavReader, WavSpecEx, WavWriter, find_damage_in_file, repair_file,
    repair_file_to_end,
};
use hound_callers::{record_and_read, samples_of};
use hound_commands::run_append;
use hound_test_helpers::{FOUR_SAMPLES, NO_SAMPLES, integers, name_of, path_of, sixteen};
use std::fs;
use std::io::ErrorKind;
use std::path::Path;
use std::test::Fail;

// What is done to a file, or checked of it.
#[derive(Clone, Copy)]
enum Deed {
    // It has these bytes from now on.
    Put(&'static [u8]),
    // A writer creates it, with this many channels, and is finalized after these samples.
    Create(u16, &'static [i16]),
    // A writer appends these samples and is finalized.
    Append(&'static [i16]),
    // A writer appends this sample and is dropped.
    AppendOne(i16),
    // A durable writer creates it, of one channel, and is finalized after these samples.
    CreateDurable(&'static [i16]),
    // A durable writer appends these samples, flushes and is dropped.
    AppendDurable(&'static [i16]),
    // It is looked at, and then repaired: both find this, so many frames, and bytes that are left over.
    Repair(RepairState, u32, u32),
    // It is repaired to its end, and has so many frames and bytes that are left over.
    RepairToEnd(u32, u32),
    // The first samples are read at a checkpoint, before the same writer appends the second.
    Checkpoint(&'static [i16], &'static [i16]),
    // The program's `append` over this input: its status and its line of errors.
    AppendText(&'static [u8], u8, &'static [u8]),
    // The README's example adds its samples up to this.
    Example(i64),
    HasBytes(&'static [u8]),
    HasSamples(&'static [i16]),
    // A reader goes from each of these samples to each other one.
    Seeks(&'static [i16]),
    // There is none from now on.
    Remove,
}

// Mono, 44100 Hz, 16 bits: 11, 13, 17, 19, 23, 29; the first three of these, and the first five.
const SIX_SAMPLES: &[u8] = b"RIFF\x30\0\0\0WAVEfmt \x10\0\0\0\x01\0\x01\0\x44\xac\0\0\
    \x88\x58\x01\0\x02\0\x10\0data\x0c\0\0\0\
    \x0b\0\x0d\0\x11\0\x13\0\x17\0\x1d\0";

const THREE_SAMPLES: &[u8] = b"RIFF\x2a\0\0\0WAVEfmt \x10\0\0\0\x01\0\x01\0\x44\xac\0\0\
    \x88\x58\x01\0\x02\0\x10\0data\x06\0\0\0\x0b\0\x0d\0\x11\0";

const FIVE_SAMPLES: &[u8] = b"RIFF\x2e\0\0\0WAVEfmt \x10\0\0\0\x01\0\x01\0\x44\xac\0\0\
    \x88\x58\x01\0\x02\0\x10\0data\x0a\0\0\0\x0b\0\x0d\0\x11\0\x13\0\x17\0";

// All six, cut off after half a sample more: its sizes say 0.
const UNFINISHED: &[u8] = b"RIFF\0\0\0\0WAVEfmt \x10\0\0\0\x01\0\x01\0\x44\xac\0\0\
    \x88\x58\x01\0\x02\0\x10\0data\0\0\0\0\
    \x0b\0\x0d\0\x11\0\x13\0\x17\0\x1d\0\x1f";

// Three, with a chunk after the data; and the same with its bytes taken for samples.
const WITH_LIST: &[u8] = b"RIFF\x34\0\0\0WAVEfmt \x10\0\0\0\x01\0\x01\0\x44\xac\0\0\
    \x88\x58\x01\0\x02\0\x10\0data\x06\0\0\0\x0b\0\x0d\0\x11\0LIST\x02\0\0\0hi";

const LIST_AS_SAMPLES: &[u8] = b"RIFF\x34\0\0\0WAVEfmt \x10\0\0\0\x01\0\x01\0\x44\xac\0\0\
    \x88\x58\x01\0\x02\0\x10\0data\x10\0\0\0\x0b\0\x0d\0\x11\0LIST\x02\0\0\0hi";

// The first thirty bytes of a file.
const BEGUN: &[u8] = b"RIFF\x2c\0\0\0WAVEfmt \x10\0\0\0\x01\0\x01\0\x44\xac\0\0\x88\x58";

// Two channels of 16 bits with a data length of 2.
const HALF_A_FRAME: &[u8] = b"RIFF\x28\0\0\0WAVEfmt \x10\0\0\0\x01\0\x02\0\x44\xac\0\0\
    \x10\xb1\x02\0\x04\0\x10\0data\x02\0\0\0\x02\0\xfd\xff";

// What is done to a file that isn't there at first, each with its result.
#[derive(Clone, Copy)]
struct Row {
    name: &'static str,
    deeds: &'static [(Deed, &'static str)],
}

const ROWS: &[Row] = &[
    Row {
        name: "a file is made, appended to and read",
        deeds: &[
            (Deed::Create(1, &[11, 13, 17]), "done"),
            (Deed::Append(&[19, 23]), "done"),
            (Deed::Append(&[]), "done"),
            (Deed::AppendOne(29), "done"),
            (Deed::HasSamples(&[11, 13, 17, 19, 23, 29]), "done"),
            (Deed::HasBytes(SIX_SAMPLES), "done"),
        ],
    },
    Row {
        name: "a durable file is made, appended to and read",
        deeds: &[
            (Deed::CreateDurable(&[11, 13, 17]), "done"),
            (Deed::AppendDurable(&[19, 23, 29]), "done"),
            (Deed::HasSamples(&[11, 13, 17, 19, 23, 29]), "done"),
            (Deed::HasBytes(SIX_SAMPLES), "done"),
            (Deed::CreateDurable(&[11, 13, 17]), "done"),
            (Deed::HasBytes(THREE_SAMPLES), "done"),
        ],
    },
    Row {
        name: "a file that was cut off is repaired",
        deeds: &[
            (Deed::Put(UNFINISHED), "done"),
            (Deed::Repair(CutOff, 6, 1), "done"),
            (Deed::Repair(Whole, 6, 1), "done"),
            (Deed::HasSamples(&[11, 13, 17, 19, 23, 29]), "done"),
            (Deed::Append(&[31]), "done"),
            (Deed::HasSamples(&[11, 13, 17, 19, 23, 29, 31]), "done"),
        ],
    },
    Row {
        name: "chunks after the data stay what they are, unless a file is repaired to its end",
        deeds: &[
            (Deed::Put(WITH_LIST), "done"),
            (Deed::Repair(HasChunksAfterData, 3, 0), "done"),
            (Deed::HasBytes(WITH_LIST), "done"),
            (Deed::RepairToEnd(8, 0), "done"),
            (Deed::HasBytes(LIST_AS_SAMPLES), "done"),
        ],
    },
    // The numbers from 0 to 4799, and -1, 1 and -1.
    Row {
        name: "the first example adds up",
        deeds: &[(Deed::Example(4799 * 4800 / 2 - 1), "done")],
    },
    Row {
        name: "a checkpoint is read while the writer lives",
        deeds: &[
            (Deed::Checkpoint(&[11, 13, 17], &[19, 23]), "done"),
            (Deed::HasSamples(&[11, 13, 17, 19, 23]), "done"),
        ],
    },
    Row {
        name: "a file of no samples is finalized, and an unwritable spec leaves an empty one",
        deeds: &[
            (Deed::Create(1, &[]), "done"),
            (Deed::HasBytes(&NO_SAMPLES), "done"),
            (Deed::Create(0, &[]), "Unsupported"),
            (Deed::HasBytes(&[]), "done"),
        ],
    },
    Row {
        name: "a seek in a file leads to its sample",
        deeds: &[
            (Deed::Put(&FOUR_SAMPLES), "done"),
            (Deed::Seeks(&[2, -3, 5, -7]), "done"),
        ],
    },
    Row {
        name: "a file that is missing stays so",
        deeds: &[
            (Deed::Append(&[]), "IoError"),
            (Deed::AppendDurable(&[]), "IoError"),
            (
                Deed::AppendText(b"19 23", 1, b"input or output failed\n"),
                "done",
            ),
            (Deed::Repair(Whole, 0, 0), "IoError"),
            (Deed::HasSamples(&[]), "IoError"),
            (Deed::Remove, "IoError"),
        ],
    },
    Row {
        name: "a file that is rejected stays",
        deeds: &[
            (Deed::Put(BEGUN), "done"),
            (Deed::Append(&[]), "IoError"),
            (Deed::Repair(Whole, 0, 0), "IoError"),
            (Deed::HasBytes(BEGUN), "done"),
            (Deed::Put(HALF_A_FRAME), "done"),
            (Deed::Append(&[]), "invalid data chunk length"),
            (Deed::AppendDurable(&[]), "invalid data chunk length"),
            (Deed::HasBytes(HALF_A_FRAME), "done"),
        ],
    },
    Row {
        name: "the program appends numbers, and rejects a bad one before it opens the file",
        deeds: &[
            (Deed::Put(THREE_SAMPLES), "done"),
            (Deed::AppendText(b"19 x", 1, b"bad number\n"), "done"),
            (Deed::HasBytes(THREE_SAMPLES), "done"),
            (Deed::AppendText(b"19 23", 0, b""), "done"),
            (Deed::HasBytes(FIVE_SAMPLES), "done"),
        ],
    },
];

// Whether a writer takes these samples by one call and is finalized.
fn finish<M: Medium>(writer: WavWriter<M>, samples: &[i16]) -> hound::Result<bool> {
    let mut writer = writer;
    writer.write_samples(samples)?;
    writer.finalize()?;
    Ok(true)
}

fn create(rt: &HostRuntime, path: Path<'_>, channels: u16, samples: &[i16]) -> hound::Result<bool> {
    let writer = WavWriter::create(rt, rt.alloc(), path, sixteen(channels))?;
    finish(writer, samples)
}

fn append(rt: &HostRuntime, path: Path<'_>, samples: &[i16]) -> hound::Result<bool> {
    let writer = WavWriter::append(rt, rt.alloc(), path)?;
    finish(writer, samples)
}

fn append_one(rt: &HostRuntime, path: Path<'_>, sample: i16) -> hound::Result<bool> {
    let mut writer = WavWriter::append(rt, rt.alloc(), path)?;
    writer.write_sample(sample)?;
    Ok(true)
}

fn create_durable(rt: &HostRuntime, path: Path<'_>, samples: &[i16]) -> hound::Result<bool> {
    let writer = WavWriter::create_durable(rt, rt.alloc(), path, sixteen(1))?;
    finish(writer, samples)
}

fn append_durable(rt: &HostRuntime, path: Path<'_>, samples: &[i16]) -> hound::Result<bool> {
    let mut writer = WavWriter::append_durable(rt, rt.alloc(), path)?;
    writer.write_samples(samples)?;
    writer.flush()?;
    Ok(true)
}

fn repair(
    rt: &HostRuntime,
    path: Path<'_>,
    wanted: (RepairState, u32, u32),
) -> hound::Result<bool> {
    let looked = find_damage_in_file(rt, rt.alloc(), path)?;
    let found = repair_file(rt, rt.alloc(), path)?;
    let is_same = (looked.state, looked.frames) == (found.state, found.frames);
    Ok(is_same && (found.state, found.frames, found.left_over) == wanted)
}

fn append_text(rt: &HostRuntime, path: Path<'_>, text: &[u8], status: u8, line: &[u8]) -> bool {
    let mut input = text;
    let mut errors = Vec::new(rt.alloc());
    let answer = run_append(rt, rt.alloc(), path, &mut input, &mut errors);
    answer == status && errors.as_slice() == line
}

fn has_samples(rt: &HostRuntime, path: Path<'_>, samples: &[i16]) -> hound::Result<bool> {
    let read: Vec<i16> = samples_of(rt.alloc(), WavReader::open(rt, rt.alloc(), path)?)?;
    Ok(read.as_slice() == samples)
}

fn checkpoint(
    rt: &HostRuntime,
    path: Path<'_>,
    first: &[i16],
    second: &[i16],
) -> hound::Result<bool> {
    let mut writer = WavWriter::create(rt, rt.alloc(), path, sixteen(1))?;
    writer.write_samples(first)?;
    writer.flush()?;
    let is_read = has_samples(rt, path, first)?;
    writer.write_samples(second)?;
    writer.finalize()?;
    Ok(is_read)
}

fn seeks(rt: &HostRuntime, path: Path<'_>, samples: &[i16]) -> hound::Result<bool> {
    let mut reader = WavReader::open(rt, rt.alloc(), path)?;
    for from in 0..reader.duration() {
        for to in 0..reader.duration() {
            for time in [from, to] {
                reader.seek(time)?;
                let sample = reader.samples::<i16>().next().transpose()?;
                if sample.as_ref() != samples.get(time as usize) {
                    return Ok(false);
                }
            }
        }
    }
    Ok(true)
}

fn repair_to_end(rt: &HostRuntime, path: Path<'_>, wanted: (u32, u32)) -> hound::Result<bool> {
    let found = repair_file_to_end(rt, rt.alloc(), path)?;
    Ok((found.frames, found.left_over) == wanted)
}

fn does(rt: &HostRuntime, path: Path<'_>, deed: Deed) -> hound::Result<bool> {
    match deed {
        Deed::Put(bytes) => {
            fs::write(rt, path, bytes)?;
            Ok(true)
        }
        Deed::Create(channels, samples) => create(rt, path, channels, samples),
        Deed::Append(samples) => append(rt, path, samples),
        Deed::AppendOne(sample) => append_one(rt, path, sample),
        Deed::CreateDurable(samples) => create_durable(rt, path, samples),
        Deed::AppendDurable(samples) => append_durable(rt, path, samples),
        Deed::Repair(state, frames, left_over) => repair(rt, path, (state, frames, left_over)),
        Deed::RepairToEnd(frames, left_over) => repair_to_end(rt, path, (frames, left_over)),
        Deed::Checkpoint(first, second) => checkpoint(rt, path, first, second),
        Deed::AppendText(text, status, line) => Ok(append_text(rt, path, text, status, line)),
        Deed::Example(sum) => Ok(record_and_read(rt, path, sixteen(1))? == sum),
        Deed::HasBytes(bytes) => Ok(fs::read(rt, path)?.as_slice() == bytes),
        Deed::HasSamples(samples) => has_samples(rt, path, samples),
        Deed::Seeks(samples) => seeks(rt, path, samples),
        Deed::Remove => {
            fs::remove_file(rt, path)?;
            Ok(true)
        }
    }
}

impl Row {
    // Whether each deed has its result; the file is removed after them.
    fn holds(&self, rt: &HostRuntime, path: Path<'_>) -> bool {
        let mut holds = true;
        for (deed, answer) in self.deeds {
            let found = match does(rt, path, *deed) {
                Ok(true) => "done",
                Ok(false) => "not so",
                Err(error) => name_of(&error),
            };
            holds = found == *answer && holds;
        }
        let _ = fs::remove_file(rt, path);
        holds
    }
}

#[test]
fn files_do_as_their_rows_say(rt: HostRuntime) -> Result<(), Fail> {
    let path = path_of(&rt, "hound_caller_tests")?;
    for row in ROWS {
        assert!(rt; row.holds(&rt, path.as_path()), "{}", row.name);
    }
    Ok(())
}

// The kind of the fault of two flushes, one after the other, of a device to which a byte was written.
fn faults_of(rt: &HostRuntime, device: &str) -> Result<[Option<ErrorKind>; 2], Fail> {
    let mut file = SyncedFile::new(rt.alloc(), fs::create(rt, Path::new(device))?)?;
    file.put(&[0])?;
    let first = file.flush().err().map(|fault| fault.kind());
    let second = file.flush().err().map(|fault| fault.kind());
    Ok([first, second])
}

// One device takes bytes and can't be synced, the other takes none.
#[test]
fn a_failed_sync_is_remembered_and_a_write_is_tried_again(rt: HostRuntime) -> Result<(), Fail> {
    let synced = faults_of(&rt, "/dev/null")?;
    let written = faults_of(&rt, "/dev/full")?;
    assert_eq!(rt;
        synced,
        [Some(ErrorKind::InvalidInput), Some(ErrorKind::Other)]
    );
    assert_eq!(rt;
        written,
        [Some(ErrorKind::StorageFull), Some(ErrorKind::StorageFull)]
    );
    Ok(())
}

// No sample of 24 bits in four bytes, mono, 44100 Hz, as the original writes it.
const WIDE: &[u8] = b"RIFF\x3c\0\0\0WAVEfmt \x28\0\0\0\xfe\xff\x01\0\x44\xac\0\0\x10\xb1\x02\0\
    \x04\0\x20\0\x16\0\x18\0\x01\0\0\0\x01\0\0\0\0\0\x10\0\x80\0\0\xaa\0\x38\x9b\x71data\0\0\0\0";

// Whether a writer of this spec creates the file of it, which a reader finds.
fn create_wide(
    rt: &HostRuntime,
    path: Path<'_>,
    wide: WavSpecEx,
    is_durable: bool,
) -> hound::Result<bool> {
    let begun = if is_durable {
        WavWriter::create_durable_with_spec_ex(rt, rt.alloc(), path, wide)?.spec_ex()
    } else {
        WavWriter::create_with_spec_ex(rt, rt.alloc(), path, wide)?.spec_ex()
    };
    let found = WavReader::open(rt, rt.alloc(), path)?.spec_ex();
    let bytes = fs::read(rt, path)?;
    Ok((begun, found) == (wide, wide) && bytes.as_slice() == WIDE)
}

#[test]
fn a_file_keeps_the_width_of_its_containers(rt: HostRuntime) -> Result<(), Fail> {
    let path = path_of(&rt, "hound_caller_tests_wide")?;
    let wide = integers(1, 44100, 24, 4);
    let created = create_wide(&rt, path.as_path(), wide, false)?;
    let durable = create_wide(&rt, path.as_path(), wide, true)?;
    fs::remove_file(&rt, path.as_path())?;
    assert_eq!(rt; (created, durable), (true, true));
    Ok(())
}

#[test]
fn a_state_is_a_sentence_for_a_user(rt: HostRuntime) -> Result<(), Fail> {
    let [whole, cut_off, followed, all_counted] = [
        RepairState::Whole,
        RepairState::CutOff,
        RepairState::HasChunksAfterData,
        RepairState::AllCounted,
    ];
    let said = format!(in rt.alloc(); "{whole}; {cut_off}; {followed}; {all_counted}")?;
    let wanted = "the file is whole; the recording was cut off; \
        something follows the data, so they weren't cut off; \
        all samples are counted, and only the RIFF size or the pad byte differs";
    assert_eq!(rt; said.as_str(), wanted);
    Ok(())
}
