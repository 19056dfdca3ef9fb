// Repairs over what rows don't have: a source that nothing writes into, and a medium whose calls fail.
use hound_medium::{Journal, Tape};
use hound_repair::{
    RepairState, a_repair_keeps_stored_samples, a_second_repair_writes_nothing,
    a_stopped_repair_is_done_again, find_damage, repair,
};
use std::alloc::Global;
use std::io::Cursor;
use std::test::Fail;

// Mono, 44100 Hz, 8 bits, with this RIFF size and data length, of one byte each: three samples.
fn file(alloc: Global, riff_size: u8, data_length: u8) -> Result<Vec<u8>, Fail> {
    let mut bytes = *b"RIFF\0\0\0\0WAVEfmt \x10\0\0\0\x01\0\x01\0\x44\xac\0\0\x44\xac\0\0\
        \x01\0\x08\0data\0\0\0\0\x80\x81\x82";
    bytes[4] = riff_size;
    bytes[40] = data_length;
    Ok(bytes.to_vec(alloc)?)
}

#[test]
fn a_cursor_is_looked_at(rt: HostRuntime) -> Result<(), Fail> {
    let cut = file(rt.alloc(), 0, 0)?;
    let (cursor, found) = find_damage(Cursor::new(cut)).ok().ok_or("found")?;
    assert!(rt; found.state == RepairState::CutOff && (found.frames, found.left_over) == (3, 0));
    assert_eq!(rt; cursor.get_ref().len(), 47);
    Ok(())
}

// What a repair of three samples leaves whose calls fail from one to another, and whether it failed.
fn left_by_repair(alloc: Global, first: u64, last: u64) -> Result<(Vec<u8>, bool), Fail> {
    let mut journal = Journal::new(alloc, file(alloc, 9, 0)?)?;
    journal.fail(first, last);
    let (journal, has_failed) = match repair(journal) {
        Ok((journal, _)) => (journal, false),
        Err((journal, _)) => (journal, true),
    };
    Ok((journal.bytes_after(alloc, journal.taken())?, has_failed))
}

#[test]
fn a_repair_that_fails_is_repaired_again(rt: HostRuntime) -> Result<(), Fail> {
    let alloc = rt.alloc();
    // The pad byte isn't written again once both sizes are right.
    let mended = file(alloc, 40, 3)?;
    let mut failed = 0u32;
    for call in 1..120u64 {
        for last in [call, u64::MAX] {
            let (left, has_failed) = left_by_repair(alloc, call, last)?;
            failed = failed.wrapping_add(u32::from(has_failed));
            let (tape, _) = repair(Tape::new(left)).ok().ok_or("repaired")?;
            assert_eq!(rt; tape.bytes().starts_with(&mended), true);
        }
    }
    assert_eq!(rt; failed > 100, true);
    a_stopped_repair_is_done_again();
    a_repair_keeps_stored_samples();
    a_second_repair_writes_nothing();
    Ok(())
}
