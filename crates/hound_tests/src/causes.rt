// Blocks whose contracts say why an `IoError` comes: of bytes in memory, and of a journal whose calls fail.
use hound::{Decode, FloatBits, Journal, WavReader};
use hound_test_helpers::{FOUR_SAMPLES, name_of_answer};
use std::test::Fail;

// How many samples a block has, the name of the answer, and how many are left then.
fn decode<S: Decode>(reader: &mut WavReader<&[u8]>, block: &mut [S]) -> (usize, &'static str, u32) {
    let (count, result) = reader.decode_samples(block);
    (count, name_of_answer(&result), reader.samples_left())
}

#[test]
fn a_file_in_memory_is_decoded(rt: HostRuntime) -> Result<(), Fail> {
    let mut reader = WavReader::from_bytes(&FOUR_SAMPLES)?;
    let mut block = [85i16; 3];
    for (found, samples) in [
        ((3, "ok", 1), [2, -3, 5]),
        ((1, "ok", 0), [-7, -3, 5]),
        ((0, "ok", 0), [-7, -3, 5]),
    ] {
        assert_eq!(rt; decode(&mut reader, &mut block), found);
        assert_eq!(rt; block, samples);
    }
    Ok(())
}

#[test]
fn a_file_that_was_cut_is_decoded_up_to_there(rt: HostRuntime) -> Result<(), Fail> {
    let mut reader = WavReader::from_bytes(&FOUR_SAMPLES[..51])?;
    let mut block = [85i16; 4];
    assert_eq!(rt; decode(&mut reader, &mut block), (3, "IoError", 0));
    assert!(rt; block == [2, -3, 5, 85] && reader.into_inner().is_empty());
    Ok(())
}

#[test]
fn a_type_that_does_not_read_the_file_takes_no_byte(rt: HostRuntime) -> Result<(), Fail> {
    let mut reader = WavReader::from_bytes(&FOUR_SAMPLES)?;
    assert_eq!(rt; decode(&mut reader, &mut [85i8; 4]), (0, "TooWide", 3));
    let found = decode(&mut reader, &mut [FloatBits(85); 4]);
    assert_eq!(rt; found, (0, "InvalidSampleFormat", 2));
    assert_eq!(rt; reader.into_inner().len(), 8);
    Ok(())
}

// How many samples the first block of a journal has, whether it is an Ok, and how many are left then; None if the head
// isn't read.
fn first_block(journal: Journal, block: &mut [i16]) -> Option<(usize, bool, u32)> {
    let Ok(mut reader) = WavReader::try_new(journal) else {
        return None;
    };
    let (count, result) = reader.try_read_samples(block);
    Some((count, result.is_ok(), reader.samples_left()))
}

// The head takes some calls, and the four samples one.
#[test]
fn a_block_of_a_source_counts_a_call_that_fails(rt: HostRuntime) -> Result<(), Fail> {
    let alloc = rt.alloc();
    let mut heads = 0u64;
    let mut is_found = false;
    for number in 1..40u64 {
        let mut journal = Journal::new(alloc, FOUR_SAMPLES.to_vec(alloc)?)?;
        journal.fail(number, number);
        let mut block = [85i16; 4];
        match first_block(journal, &mut block) {
            None => heads = number,
            Some((0, false, 3)) => {
                assert!(rt; !is_found && number == heads.wrapping_add(1) && block == [85; 4]);
                is_found = true;
            }
            Some((4, true, 0)) => assert!(rt; is_found && block == [2, -3, 5, -7]),
            Some(_) => assert!(rt; false),
        }
    }
    assert!(rt; is_found);
    Ok(())
}

#[test]
fn a_source_that_was_cut_is_read_up_to_there(rt: HostRuntime) -> Result<(), Fail> {
    let alloc = rt.alloc();
    let journal = Journal::new(alloc, FOUR_SAMPLES[..47].to_vec(alloc)?)?;
    let mut block = [85i16; 3];
    assert_eq!(rt; first_block(journal, &mut block), Some((1, false, 2)));
    assert_eq!(rt; block, [2, 85, 85]);
    Ok(())
}
