// What is written at places: bytes, the two sizes, and at the end of the written data the containers of samples.
ghost use Rattle.std.specs.Prelude.{◌≡◌, ◌≤◌, false, not, IsOk, is_ok, ◌+◌, length, OnOk};
ghost use Rattle.hound_medium.specs.{PutsAll, WhereTells, WhereKeeps};
ghost use Rattle.hound_sample.specs.{all_containers, joined_containers};
ghost use Rattle.hound_writer.specs.{all_out, PutsAt, containers_in, sample_bytes, PatchesAtEach, Patches};

use crate::block::{BLOCK_LENGTH, Block};
use hound_medium::{Medium, put_all};
use hound_number::le_u32;
use hound_sample::Sample;
use hound_spec::WavSpecEx;
use std::io;

/// Writes bytes at the end of the written data, where the medium may be already. It may have moved at an error.
pub(crate) fn put_at_end<M: Medium>(
    medium: &mut M,
    may_have_moved: &mut bool,
    end: u64,
    bytes: &[u8],
) -> io::Result<()>
    requires { WhereTells M.tells (may_have_moved.old ≡ false → (M.state medium.old).place ≡ end) }
    ensures puts { WhereTells M.tells (PutsAt M.keeps end bytes.now (all_out (is_ok result))
        (M.state medium.old) (M.state medium.new)) }
    ensures moved { may_have_moved.new ≡ not (is_ok result) }
{
    let result = go_and_put(medium, *may_have_moved, end, bytes);
    *may_have_moved = result.is_err();
    result
}

// Writes bytes at a place, where the medium may be already.
fn go_and_put<M: Medium>(
    medium: &mut M,
    may_have_moved: bool,
    at: u64,
    bytes: &[u8],
) -> io::Result<()>
    requires { WhereTells M.tells (may_have_moved ≡ false → (M.state medium.old).place ≡ at) }
    ensures { WhereTells M.tells (PutsAt M.keeps at bytes.now result (M.state medium.old) (M.state medium.new)) }
{
    if !may_have_moved {
        return put_all(medium, bytes);
    }
    put_all_at(medium, at, bytes)
}

// Writes the containers of samples, a block at a time, or stops at the first `put` that fails.
fn put_samples<M: Medium, S: Sample + Copy>(
    medium: &mut M,
    block: &mut Block,
    samples: &[S],
    bits: u16,
    width: u16,
) -> io::Result<()>
    requires have { IsOk (all_containers (λ s. S.container s bits width) samples.now) }
    requires some { 1 ≤ width }
    requires width { width ≤ 4 }
    ensures { WhereTells M.tells (PutsAll M.keeps (joined_containers (λ s. S.container s bits width) samples.now) result
        (M.state medium.old) (M.state medium.new)) }
{
    let most = BLOCK_LENGTH / width as usize;
    let mut done = 0;
    while done < samples.len() {
        let count = most.min(samples.len() - done);
        block.clear();
        block.extend_by(&samples[done..done + count], bits, width);
        put_all(medium, block.as_slice())?;
        done += count;
    }
    Ok(())
}

/// Writes the containers of samples at the end of the written data, as `put_at_end` writes bytes. The block is used for
/// it, and must be empty.
pub(crate) fn put_samples_at_end<M: Medium, S: Sample + Copy>(
    medium: &mut M,
    may_have_moved: &mut bool,
    end: u64,
    block: &mut Block,
    samples: &[S],
    spec_ex: WavSpecEx,
) -> io::Result<()>
    requires have { IsOk (containers_in S.container spec_ex samples.now) }
    requires some { 1 ≤ spec_ex.bytes_per_sample }
    requires width { spec_ex.bytes_per_sample ≤ 4 }
    requires in_place { WhereTells M.tells (may_have_moved.old ≡ false → (M.state medium.old).place ≡ end) }
    ensures puts { WhereTells M.tells
        (PutsAt M.keeps end (sample_bytes S.container spec_ex samples.now) (all_out (is_ok result))
        (M.state medium.old) (M.state medium.new)) }
    ensures moved { may_have_moved.new ≡ not (is_ok result) }
{
    put_at_end(medium, may_have_moved, end, &[])?;
    let bits = spec_ex.spec.bits_per_sample;
    let result = put_samples(medium, block, samples, bits, spec_ex.bytes_per_sample);
    *may_have_moved = result.is_err();
    result
}

/// Writes bytes at a place, or stops at the first call of the medium that fails.
#[inline(always)]
pub fn put_all_at<M: Medium>(medium: &mut M, place: u64, bytes: &[u8]) -> io::Result<()>
    ensures { WhereTells M.tells (PutsAt M.keeps place bytes.now result (M.state medium.old) (M.state medium.new)) }
{
    medium.go(place)?;
    put_all(medium, bytes)
}

/// Writes both sizes, the RIFF size first, and flushes the medium, which is then after the data length. It ends at the
/// first fault.
pub fn patch<M: Medium>(
    medium: &mut M,
    data_len_offset: u64,
    riff_size: u32,
    data_length: u32,
) -> io::Result<()>
    requires beyond { 8 ≤ data_len_offset }
    requires inside { WhereTells M.tells (data_len_offset + 4 ≤ length (M.state medium.old).contents) }
    ensures patches { WhereTells M.tells (Patches data_len_offset riff_size data_length result
        (M.state medium.old) (M.state medium.new)) }
    ensures place { WhereTells M.tells (OnOk result ((M.state medium.new).place ≡ data_len_offset + 4)) }
    ensures moments { WhereKeeps M.tells M.keeps
        (PatchesAtEach data_len_offset riff_size data_length result (M.state medium.old) (M.state medium.new)) }
{
    put_all_at(medium, 4, &le_u32(riff_size))?;
    put_all_at(medium, data_len_offset, &le_u32(data_length))?;
    medium.flush()
}
