// Media that rows can't test: one of a user's own, and files.
ghost use Rattle.std.specs.Prelude.{◌+◌, [], true};
ghost use Rattle.std.proofs.Common.{rules};

use hound_durable::{Durable, Target};
use hound_medium::{Journal, Medium, Placed, Source, put_all};
use hound_test_helpers::path_of;
use std::alloc::Global;
use std::io::{BufReader, BufWriter, ErrorKind};
use std::path::Path;
use std::test::Fail;
use std::{fs, io};

// No bytes, and a place that is counted from a start.
#[derive(Drop)]
struct Window {
    start: u64,
    offset: u64,
    faults: u64,
}

impl Placed for Window {
    ghost tells = { true };

    ghost state = { λ w. record {
      contents = [];
      place = w.start + w.offset;
      faults = w.faults;
      start = [];
      past = [];
      flushed = 0;
    } };

    ghost bytes = { λ _ _ _. Prim.search rules };

    fn go(&mut self, to: u64) -> io::Result<()> {
        self.start = to;
        self.offset = 0;
        Ok(())
    }

    fn shift(&mut self, by: i64) -> io::Result<()> {
        match self.offset.checked_add_signed(by) {
            Some(offset) if offset <= u64::MAX - self.start => {
                self.offset = offset;
                Ok(())
            }
            _ => {
                self.faults = self.faults.saturating_add(1);
                Err(io::Error::from(ErrorKind::InvalidInput))
            }
        }
    }
}

// The results of two moves by one.
fn two_steps<P: Placed>(mut placed: P) -> [bool; 2] {
    [placed.shift(1).is_ok(), placed.shift(1).is_ok()]
}

#[test]
fn a_medium_of_ones_own_rejects_places_above_all(rt: HostRuntime) {
    let mut window = Window {
        start: u64::MAX - 1,
        offset: 0,
        faults: 0,
    };
    let lent = (two_steps(&mut window), window.offset, window.faults);
    let went = (window.go(u64::MAX).is_ok(), two_steps(window));
    assert_eq!(rt;
        (lent, went),
        (([true, false], 1, 1), (true, [false, false]))
    );
}

// Writes three letters and then one over the second, and says how many bytes of these had been flushed by then.
fn flushed_when_it_goes_back(mut target: Target<Journal>) -> io::Result<(Journal, usize)> {
    put_all(&mut target, b"abc")?;
    target.shift(-2)?;
    put_all(&mut target, b"X")?;
    let journal = match target {
        Target::Plain(journal) => journal,
        Target::Synced(durable) => durable.into_inner(),
    };
    let flushed = journal.flushed();
    Ok((journal, flushed))
}

#[test]
fn a_target_is_flushed_before_it_goes_back_if_it_is_to_be(rt: HostRuntime) -> Result<(), Fail> {
    let alloc = rt.alloc();
    let plain = Target::Plain(Journal::new(alloc, Vec::new(alloc))?);
    let synced = Target::Synced(Durable::new(Journal::new(alloc, Vec::new(alloc))?));
    for (target, wanted) in [(plain, 0), (synced, 3)] {
        let (journal, flushed) = flushed_when_it_goes_back(target)?;
        let bytes = journal.bytes_after(alloc, journal.taken())?;
        assert_eq!(rt; (flushed, bytes.as_slice()), (wanted, b"aXc".as_slice()));
    }
    Ok(())
}

// Where a shift and a go lead to, shown by the letter that is written there, and whether a shift below 0 is an error.
fn put_at_places(rt: &HostRuntime, path: Path<'_>) -> io::Result<(Vec<u8>, bool)> {
    let mut writer = BufWriter::new(rt.alloc(), fs::File::create(rt, path)?)?;
    put_all(&mut writer, b"waveform")?;
    writer.shift(-6)?;
    put_all(&mut writer, b"V")?;
    writer.shift(3)?;
    put_all(&mut writer, b"R")?;
    writer.shift(4)?;
    put_all(&mut writer, b"!")?;
    let below = writer.shift(-13).is_err();
    writer.go(1)?;
    put_all(&mut writer, b"A")?;
    drop(writer);
    Ok((fs::read(rt, path)?, below))
}

// Where a shift leads to, shown by the byte that is read there: some within the bytes that are read
// ahead, some beyond. Each step is a shift and the byte that it leads to, if there is one.
fn gets_at_places(rt: &HostRuntime, path: Path<'_>) -> io::Result<bool> {
    let mut source = BufReader::new(rt.alloc(), fs::File::open(rt, path)?)?;
    let mut byte = [0];
    source.go(1)?;
    for (by, want) in [
        (-1, Some(0)),
        (6, Some(7)),
        (-8, Some(0)),
        (40_000, Some(65)),
        (-39_002, Some(232)),
        (58_999, None),
        (-59_996, Some(4)),
    ] {
        source.shift(by)?;
        let n = source.get(&mut byte)?;
        let got = if n == 1 { Some(byte[0]) } else { None };
        if got != want {
            return Ok(false);
        }
    }
    Ok(source.shift(-6).is_err())
}

// So many bytes, each of which is the lowest eight bits of its place.
fn counting(alloc: Global) -> Result<Vec<u8>, Fail> {
    Ok(
        (0..60_000u32)
            .map(|place| (place % 256) as u8)
            .collect(alloc)?,
    )
}

#[test]
fn a_shift_of_a_file_goes_as_far_as_it_says(rt: HostRuntime) -> Result<(), Fail> {
    let path = path_of(&rt, "hound_medium")?;
    let (bytes, below) = put_at_places(&rt, path.as_path())?;
    assert_eq!(rt;
        (bytes.as_slice(), below),
        (b"wAVefoRm\0\0\0!".as_slice(), true)
    );
    fs::write(&rt, path.as_path(), counting(rt.alloc())?.as_slice())?;
    let got = gets_at_places(&rt, path.as_path())?;
    fs::remove_file(&rt, path.as_path())?;
    assert_eq!(rt; got, true);
    Ok(())
}
