// Recorders whose caller performs the effects, on a medium, or on one after the other.
ghost use Rattle.std.specs.Prelude.{◌≡◌, ◌⊎◌, ◌≤◌, ◌+◌, ℕ, List, [], ◌++◌, ◌∷◌, ◌*◌, Bool, Ok, true, false, if◌then◌else◌, IfErr, IfOk, OnErr, OnOk, Result, drop, is_ok, length, slice_index_or, take};
ghost use Rattle.std.specs.declared.io.Error.{Error as IoFault};
ghost use Rattle.hound.specs.{Asked, Begun, Directed, DoesBeginning, DoesBeginnings, Flushes, HasData, IsIoError, IsSaid, IsSynced, IsWritable, Known, Log, MediumState, NoFault, PutsAt, Readable, Recorder, Repeats, WavSpecEx, WhereKeeps, WhereTells, IsEmpty, Resumes, at_beginning, beginning, data_start, end_of, faults_after, new_file, one_more, overlay, placed, recorder_of, resumed_file, seen};
ghost use Rattle.hound.specs.declared.Phase.TheVariants.{Idle, Saving};
ghost use Rattle.hound.specs.declared.BeginningEffect.TheVariants.{Empty};
ghost use Rattle.hound.specs.declared.Report.TheVariants.{Done, Pending};
ghost use Rattle.hound_callers.specs.Recorder.{CountsDirected, Continues, IsFound, IsNotContinued, IsNotMended, IsResumed, once_mended, HasRequest, IsDirected, IsErrorOf, IsNotBegunBy, IsNotResumed, IsReady, LosesBeginning, PerformsAll, AreAllKept, CountsFaults, IsFailure, IsFull, IsPerformable, IsBlockRejected, UnlessFault, Saves, Stops, StopsSaving, TriesAction, asked_as, once_done, report_for, samples_of, AreParts, IsPart, run_within};
ghost use Rattle.hound_callers.specs.Recording.{published_calls};

use hound::{
    Action, BeginningEffect, Effect, Error, FoundFile, Medium, Recorder, RecorderError,
    RepairState, Report, WavReader, WavSpecEx, a_cut_is_ignored, a_recorder_directs,
    a_recording_is_kept, a_request_ends, an_effect_may_be_repeated, beginning_effect, header_of,
    part_from, put_all_at,
};
use std::{io, result};

// Syncs a medium. If its end isn't known, it counts as failed.
fn sync<M: Medium>(medium: &mut M, is_lost: bool) -> io::Result<()>
    ensures said { WhereTells M.tells ((done : Result Unit IoFault) × IsSaid result done
        × Flushes done (M.state medium.old) (M.state medium.new)) }
    ensures kept { is_lost ≡ false
        → WhereTells M.tells (Flushes result (M.state medium.old) (M.state medium.new)) }
{
    let result = medium.flush();
    if is_lost {
        Err(io::Error::from(io::ErrorKind::Interrupted))
    } else {
        result
    }
}

// The report of an action that is done or not, unless it is lost.
fn report_of(is_done: bool, is_lost: bool) -> Report
    ensures { result ≡ (if is_lost then Pending else report_for is_done) }
{
    if is_lost {
        return Report::Pending;
    }
    if is_done {
        Report::Done
    } else {
        Report::Failed
    }
}

// Performs an action, the write of a block with these bytes, and reports how it ended, unless the report is lost: then
// a sync has failed. A medium isn't cut off.
fn perform<M: Medium>(medium: &mut M, action: Action, block: &[u8], is_lost: bool) -> Report
    ensures ended { is_lost ≡ false → result ≡ Pending → ⊥ }
    ensures tries { WhereKeeps M.tells M.keeps
        (TriesAction action block.now result (M.state medium.old) (M.state medium.new)) }
    ensures faults { WhereTells M.tells (CountsFaults (M.state medium.old) (M.state medium.new)) }
    ensures cause { is_lost ≡ false → IsPerformable action → WhereTells M.tells
        (NoFault (M.state medium.old) (M.state medium.new) → result ≡ Done) }
{
    let is_done = match action {
        Action::Perform(Effect::Sync) => return report_of(sync(medium, is_lost).is_ok(), false),
        Action::Perform(Effect::Pad(place)) => put_all_at(medium, place, &[0]).is_ok(),
        Action::Perform(Effect::Size(place, size)) => {
            put_all_at(medium, place, &size.to_le_bytes()).is_ok()
        }
        Action::WriteBlock(place, _) => put_all_at(medium, place, block).is_ok(),
        Action::Read(..) | Action::Shorten(_) => false,
    };
    report_of(is_done, is_lost)
}

// Whether the next report is lost: as the list says of the first ones, and then no longer.
fn is_next_lost(lost: &[bool], made: &mut usize) -> bool
    requires { made.old ≤ length lost.now }
    ensures listed { result ≡ slice_index_or lost.now made.old false }
    ensures within { made.new ≤ length lost.now }
    ensures counted { result ≡ true → made.new ≡ made.old + 1 }
    ensures grows { made.old ≤ made.new }
{
    match lost.get(*made) {
        Some(is_lost) => {
            *made += 1;
            *is_lost
        }
        None => false,
    }
}

// Performs one action after the other of what was requested, up to its end or a failure. An action whose report is lost
// is performed again.
fn perform_all<M: Medium>(
    medium: &mut M,
    recorder: &mut Recorder,
    block: &[u8],
    lost: &[bool],
    made: &mut usize,
) -> result::Result<(), RecorderError>
    requires asked { HasRequest recorder.old (length block.now) }
    requires within { made.old ≤ length lost.now }
    ensures within { made.new ≤ length lost.now }
    ensures done { OnOk result (recorder.new ≡ once_done recorder.old) }
    ensures directed { WhereKeeps M.tells M.keeps ((s : WavSpecEx) (file : Begun) (known : List Known)
        → IsDirected s file known recorder.old (M.state medium.old) → (recorder.new.number ≡ 0)
        × IsDirected s file (known ++ seen ((asked_as s recorder.old block.now, is_ok result) ∷ []))
        recorder.new (M.state medium.new)) }
    ensures performed { WhereKeeps M.tells M.keeps ((start : Log) → Repeats start.state (M.state medium.old)
        → recorder.old.phase ≡ Saving → HasData recorder.old recorder.old.data_length
        → PerformsAll recorder.old start result (M.state medium.new)) }
    ensures faults { WhereTells M.tells (CountsFaults (M.state medium.old) (M.state medium.new)) }
    ensures cause { HasData recorder.old recorder.old.data_length → UnlessFault M.tells lost.now
        (M.state medium.old) (M.state medium.new) (is_ok result ≡ true) }
    ensures error { HasData recorder.old recorder.old.data_length → IfErr result IsFailure }
{
    a_recorder_directs();
    a_request_ends();
    an_effect_may_be_repeated();
    let mut report = Report::Pending;
    while let Some(action) = recorder.next(report)? {
        report = perform(medium, action, block, is_next_lost(lost, made));
    }
    Ok(())
}

// Writes a block of containers after the data, and makes a checkpoint, up to a call that fails.
fn save_block<M: Medium>(
    medium: &mut M,
    recorder: &mut Recorder,
    block: &[u8],
    lost: &[bool],
    made: &mut usize,
) -> result::Result<(), RecorderError>
    requires ready { IsReady recorder.old }
    requires within { made.old ≤ length lost.now }
    ensures within { made.new ≤ length lost.now }
    ensures counted { OnOk result (IsReady recorder.new) }
    ensures saved { OnOk result (WhereKeeps M.tells M.keeps ((s : WavSpecEx) (file : Begun) (known : List Known)
        → IsDirected s file known recorder.old (M.state medium.old)
        → IsDirected s file (known ++ seen (published_calls (samples_of s) (block.entry ∷ []))) recorder.new
        (M.state medium.new))) }
    ensures stopped { OnErr result (WhereKeeps M.tells M.keeps ((s : WavSpecEx) (file : Begun) (known : List Known)
        → IsDirected s file known recorder.old (M.state medium.old)
        → Stops s file known block.entry recorder.new (M.state medium.new))) }
    ensures longer { OnOk result (recorder.new ≡ record recorder.old {
      data_length = recorder.old.data_length + length block.now;
      phase = Idle;
    }) }
    ensures faults { WhereTells M.tells (CountsFaults (M.state medium.old) (M.state medium.new)) }
    ensures cause { UnlessFault M.tells lost.now (M.state medium.old) (M.state medium.new)
        (is_ok result ≡ false → IsBlockRejected recorder.old block.entry) }
{
    a_recorder_directs();
    let width = recorder.bytes_per_sample as usize;
    if block.len() % width != 0 {
        return Err(RecorderError::UnfinishedFrame);
    }
    recorder.write(Report::Pending, (block.len() / width) as u64)?;
    perform_all(medium, recorder, block, lost, made)?;
    recorder.checkpoint(Report::Pending);
    perform_all(medium, recorder, block, lost, made)
}

// Saves blocks until a call fails or a block doesn't fit, and returns how many were saved.
fn save_blocks<M: Medium>(
    medium: &mut M,
    recorder: &mut Recorder,
    blocks: &[&[u8]],
    lost: &[bool],
) -> usize
    requires ready { IsReady recorder.old }
    ensures within { result ≤ length blocks.now }
    ensures saved { WhereKeeps M.tells M.keeps ((s : WavSpecEx) (file : Begun)
        → IsDirected s file [] recorder.old (M.state medium.old) → (more : List (Asked × Bool))
        × StopsSaving s recorder.new (drop result blocks.now) more × (recorder.new.number ≡ 0)
        × IsDirected s file (seen (published_calls (samples_of s) (take result blocks.now) ++ more))
        recorder.new (M.state medium.new)) }
    ensures faults { WhereTells M.tells (CountsFaults (M.state medium.old) (M.state medium.new)) }
    ensures cause { UnlessFault M.tells lost.now (M.state medium.old) (M.state medium.new)
        (IsFull recorder.old blocks.now result) }
{
    let mut made = 0;
    for i in 0..blocks.len() {
        if save_block(medium, recorder, blocks[i], lost, &mut made).is_err() {
            return i;
        }
    }
    blocks.len()
}

// Performs an effect with which a file begins. A medium is in no folder, and one that is empty needs no cut.
fn perform_beginning<M: Medium>(
    medium: &mut M,
    spec_ex: WavSpecEx,
    effect: BeginningEffect,
) -> io::Result<()>
    requires { IsWritable spec_ex }
    ensures does { WhereTells M.tells ((effect ≡ Empty → IsEmpty M.keeps (M.state medium.old))
        → DoesBeginning M.keeps spec_ex effect result (M.state medium.old) (M.state medium.new)) }
    ensures faults { WhereTells M.tells
        ((M.state medium.new).faults ≡ faults_after result (M.state medium.old).faults) }
{
    match effect {
        BeginningEffect::SyncFolder | BeginningEffect::Empty => Ok(()),
        BeginningEffect::Sync => medium.flush(),
        BeginningEffect::Header(first) => {
            let header = header_of(spec_ex, 0, 0);
            put_all_at(medium, first as u64, part_from(header.as_slice(), first))
        }
    }
}

// Performs the effects with which a file begins, from this number on, up to one that fails.
fn begin_from<M: Medium>(medium: &mut M, spec_ex: WavSpecEx, number: u32) -> io::Result<()>
    requires writable { IsWritable spec_ex }
    requires within { number ≤ 5 }
    ensures does { WhereTells M.tells ((number ≤ 1 → IsEmpty M.keeps (M.state medium.old))
        → DoesBeginnings M.keeps spec_ex (drop number beginning) result (M.state medium.old) (M.state medium.new)) }
    ensures faults { WhereTells M.tells
        ((M.state medium.new).faults ≡ faults_after result (M.state medium.old).faults) }
{
    let Ok(Some(effect)) = beginning_effect(spec_ex, number) else {
        return Ok(());
    };
    perform_beginning(medium, spec_ex, effect)?;
    begin_from(medium, spec_ex, number + 1)
}

/// Begins a file by the effects that are requested for it: at an Ok all of them were performed (`opened`). A new one
/// has at most its header then, and counts no sample, also after a loss of power (`survives`). Where one of them fails
/// it isn't begun (`rejected`).
///
/// What it promises of the file's bytes holds if the file is empty (`IsEmpty`), since a medium isn't cut off.
pub fn begin_by_effects<M: Medium>(medium: &mut M, spec_ex: WavSpecEx) -> hound::Result<()>
    ensures rejected { IfErr result (λ e. IsNotBegunBy M.Placed spec_ex medium.old medium.new e) }
    ensures opened { IfOk result (λ _. IsWritable spec_ex × WhereTells M.tells (IsEmpty M.keeps (M.state medium.old)
        → DoesBeginnings M.keeps spec_ex beginning (Ok tt) (M.state medium.old) (M.state medium.new))) }
    ensures survives { IsWritable spec_ex → WhereKeeps M.tells M.keeps
        (LosesBeginning spec_ex result (M.state medium.old) (M.state medium.new)) }
    ensures faults { OnOk result (WhereTells M.tells ((M.state medium.new).faults ≡ (M.state medium.old).faults)) }
{
    a_recording_is_kept();
    if !spec_ex.is_writable() {
        return Err(Error::Unsupported);
    }
    begin_from(medium, spec_ex, 0)?;
    Ok(())
}

/// Records blocks of containers into a new file, with a checkpoint after each, until a call fails or a block doesn't
/// fit, and returns how many blocks were saved. It writes the bytes and performs the effects itself, as programs in
/// other languages do: of the first effects those reports are lost that `lost` says, as of a program that was
/// interrupted, and what has no report is performed again. It is an error if the file isn't begun (`rejected`).
///
/// Unless a call of the medium failed or a report was lost, all blocks are saved, or those before one that is no whole
/// frames or has no room (`cause`).
pub fn record_by_effects<M: Medium>(
    medium: &mut M,
    spec_ex: WavSpecEx,
    blocks: &[&[u8]],
    lost: &[bool],
) -> hound::Result<usize>
    ensures rejected { IfErr result (λ e. IsNotBegunBy M.Placed spec_ex medium.old medium.new e) }
    ensures within { IfOk result (λ n. n ≤ length blocks.now) }
    ensures saved { IfOk result (λ n. WhereKeeps M.tells M.keeps (IsEmpty M.keeps (M.state medium.old)
        → Saves spec_ex (new_file (at_beginning (M.state medium.old))) blocks.now n (M.state medium.new))) }
    ensures cause { IfOk result (λ n. UnlessFault M.tells lost.now (M.state medium.old) (M.state medium.new)
        (IsFull (recorder_of spec_ex (data_start spec_ex) 0) blocks.now n)) }
{
    a_recorder_directs();
    a_recording_is_kept();
    an_effect_may_be_repeated();
    begin_by_effects(medium, spec_ex)?;
    let Ok(mut recorder) = Recorder::begin(spec_ex) else {
        return Err(Error::Unsupported);
    };
    Ok(save_blocks(medium, &mut recorder, blocks, lost))
}

// Requests the checkpoint that comes first of a recorder that continues a recording which was cut off. Before it what
// follows the data is cut off, which isn't done to a medium.
fn begin_mending(continued: &mut Recorder)
    requires { IsResumed continued.old }
    ensures { continued.new ≡ record continued.old { phase = Saving; has_rest = false } }
{
    continued.checkpoint(Report::Pending);
    if continued.has_rest {
        let _ = continued.next(Report::Pending);
        let _ = continued.next(Report::Failed);
    }
}

// Mends the file of such a recorder by that checkpoint.
fn mend<M: Medium>(
    medium: &mut M,
    recorder: &mut Recorder,
    lost: &[bool],
    made: &mut usize,
) -> result::Result<(), RecorderError>
    requires resumed { IsResumed recorder.old }
    requires within { made.old ≤ length lost.now }
    ensures within { made.new ≤ length lost.now }
    ensures done { OnOk result (recorder.new ≡ once_mended recorder.old) }
    ensures performed { WhereKeeps M.tells M.keeps ((start : Log) → Repeats start.state (M.state medium.old)
        → PerformsAll recorder.old start result (M.state medium.new)) }
    ensures faults { WhereTells M.tells (CountsFaults (M.state medium.old) (M.state medium.new)) }
    ensures cause { UnlessFault M.tells lost.now (M.state medium.old) (M.state medium.new) (is_ok result ≡ true) }
    ensures error { IfErr result IsFailure }
{
    begin_mending(recorder);
    perform_all(medium, recorder, &[], lost, made)
}

/// Continues a recording that was cut off, of a file that was found so: by a checkpoint of all whole frames that it
/// holds, and then as [`record_by_effects`] does. It is an error if a recorder doesn't continue it, or its header
/// counts more than whole frames, and the file is as it was (`rejected`); or the checkpoint fails, which then has left
/// what a `flush` of these samples leaves that fails. What a loss of power leaves within that checkpoint counts no more
/// than these samples.
///
/// What it promises holds if the file is as it was found ([`IsFound`](crate)).
pub fn continue_by_effects<M: Medium>(
    medium: &mut M,
    found: FoundFile,
    blocks: &[&[u8]],
    lost: &[bool],
) -> result::Result<usize, RecorderError>
    requires synced { WhereKeeps M.tells M.keeps (IsSynced (M.state medium.old)) }
    ensures within { IfOk result (λ n. n ≤ length blocks.now) }
    ensures rejected { IfErr result (λ error. (IsNotContinued found error × (medium.new ≡ medium.old))
        ⊎ (IsFailure error × WhereKeeps M.tells M.keeps (IsFound found (M.state medium.old) →
        IsNotMended found (M.state medium.old) (M.state medium.new))
        × UnlessFault M.tells lost.now (M.state medium.old) (M.state medium.new) ⊥)) }
    ensures saved { IfOk result (λ n. WhereKeeps M.tells M.keeps (IsFound found (M.state medium.old) →
        Continues found (M.state medium.old) blocks.now n (M.state medium.new))) }
    ensures cause { IfOk result (λ n. UnlessFault M.tells lost.now (M.state medium.old) (M.state medium.new)
        ((r : Recorder) × Resumes found true false (Ok r) × IsFull r blocks.now n)) }
{
    a_recorder_directs();
    a_recording_is_kept();
    an_effect_may_be_repeated();
    let mut continued = Recorder::resume(found, true, false)?;
    let mut made = 0;
    mend(medium, &mut continued, lost, &mut made)?;
    Ok(save_blocks(medium, &mut continued, blocks, lost))
}

// The error for one of a recorder.
fn error_of(error: RecorderError) -> Error
    ensures { IsErrorOf error result }
{
    match error {
        RecorderError::Truncated => Error::FormatError("the data are cut off"),
        RecorderError::NeedsOverwrite => Error::FormatError("more follows the data"),
        _ => Error::Unsupported,
    }
}

/// Appends blocks to a file with these contents, as [`record_by_effects`] records a new one. At an error the file is as
/// it was (`rejected`): the contents can't be read, or aren't appended to, or don't end with the data that the header
/// counts, or the medium failed (`why`).
pub fn append_by_effects<M: Medium>(
    medium: &mut M,
    contents: &[u8],
    blocks: &[&[u8]],
    lost: &[bool],
) -> hound::Result<usize>
    requires contents { WhereTells M.tells ((M.state medium.old).contents ≡ contents.now) }
    requires synced { WhereKeeps M.tells M.keeps (IsSynced (M.state medium.old)) }
    ensures rejected { IfErr result (λ e. WhereTells M.tells
        ((M.state medium.new).contents ≡ (M.state medium.old).contents)) }
    ensures why { IfErr result (λ e. IsNotResumed contents.now e ⊎ (IsIoError e × WhereTells M.tells
        ((M.state medium.new).faults ≡ one_more (M.state medium.old).faults))) }
    ensures within { IfOk result (λ n. n ≤ length blocks.now) }
    ensures saved { IfOk result (λ n. WhereKeeps M.tells M.keeps ((s : WavSpecEx) × (samples start : ℕ)
        × Readable contents.now s samples start
        × Saves s (resumed_file s samples start (M.state medium.old)) blocks.now n (M.state medium.new))) }
    ensures cause { IfOk result (λ n. UnlessFault M.tells lost.now (M.state medium.old) (M.state medium.new)
        ((s : WavSpecEx) × (samples start : ℕ) × Readable contents.now s samples start
        × IsFull (recorder_of s start (samples * s.bytes_per_sample)) blocks.now n)) }
{
    a_recorder_directs();
    a_recording_is_kept();
    an_effect_may_be_repeated();
    let reader = WavReader::new(contents)?;
    let (spec_ex, samples) = (reader.spec_ex(), reader.len());
    let data_start = (contents.len() - reader.into_inner().len()) as u64;
    let Some(data_length) = samples.checked_mul(spec_ex.bytes_per_sample as u32) else {
        return Err(Error::Unsupported);
    };
    let found = FoundFile {
        spec_ex,
        data_start,
        data_length,
        length: contents.len() as u64,
        frames: samples / spec_ex.spec.channels as u32,
        state: RepairState::HasChunksAfterData,
    };
    let mut resumed = match Recorder::resume(found, false, false) {
        Ok(resumed) => resumed,
        Err(error) => return Err(error_of(error)),
    };
    medium.go(data_start + resumed.data_length as u64)?;
    Ok(save_blocks(medium, &mut resumed, blocks, lost))
}

/// A recorder's file that its caller cuts off where the data end counts the same samples as before (`cut`), and so it
/// does once the next block is written there (`continued`).
pub fn a_cut_recording_counts()
    ensures cut { (s : WavSpecEx) (file : Begun) (known : List Known) (r : Recorder) (m : MediumState)
        → Directed s file known r m → r.number ≡ 0 → end_of r ≤ length m.contents
        → CountsDirected s file known m (take (end_of r) m.contents) }
    ensures continued { (s : WavSpecEx) (file : Begun) (known : List Known) (old r : Recorder) (m new : MediumState)
        (bytes : List ℕ) (result : Result Unit IoFault) → end_of old ≤ length m.contents
        → (puts : PutsAt true (end_of old) bytes result m new) → Directed s file known r new → r.number ≡ 0
        → end_of r ≡ end_of old + puts.count → CountsDirected s file known new
        (overlay (take (end_of old) m.contents) (placed (end_of old) (take puts.count bytes))) }
{
    a_recording_is_kept();
    a_cut_is_ignored();
}

// How many of these blocks, from the first on, have so many bytes at most in all.
fn run_within(blocks: &[&[u8]], most: usize) -> usize
    ensures is { result ≡ run_within blocks.now most }
    ensures inside { result ≤ length blocks.now }
{
    let mut left = most;
    for i in 0..blocks.len() {
        if blocks[i].len() > left {
            return i;
        }
        left -= blocks[i].len();
    }
    blocks.len()
}

// Records the blocks that fit into a new file, and returns how many were saved.
fn record_part<M: Medium>(
    medium: &mut M,
    spec_ex: WavSpecEx,
    blocks: &[&[u8]],
    most: usize,
    lost: &[bool],
) -> usize
    ensures within { result ≤ length blocks.now }
    ensures part { IsPart M.Placed spec_ex most lost.now blocks.now medium.old medium.new result }
{
    let count = run_within(blocks, most);
    match record_by_effects(medium, spec_ex, &blocks[..count], lost) {
        Ok(saved) => saved,
        Err(_) => 0,
    }
}

/// Records blocks of containers into new files, one after the other, with a checkpoint after each block, and returns
/// how many were saved. A file takes the next blocks whole, until one would make all of its own more than so many
/// bytes, is rejected, or meets a call that fails; the next file begins with that block. So what the headers of the
/// files count, one after the other, are exactly the blocks that were saved, unless a checkpoint has failed; and a loss
/// of power costs no published sample of any. A block whose write or checkpoint failed is in the next file, and a
/// repair of the one before may find it there, too.
///
/// Each file is begun, also where no block is left for it. One takes no block only where it can't be begun
/// ([`record_by_effects`] says what it holds then), or where its first block has no room or stops it; and a block that
/// has room stops a file only if it is rejected, unless a call of its medium failed or a report was lost.
pub fn record_in_parts<M: Medium>(
    media: &mut [M],
    spec_ex: WavSpecEx,
    blocks: &[&[u8]],
    most: usize,
    lost: &[bool],
) -> usize
    ensures within { result ≤ length blocks.now }
    ensures parts { AreParts M.Placed spec_ex most lost.now blocks.now media.old media.new result }
{
    let Some((first, rest)) = media.split_first_mut() else {
        return 0;
    };
    let saved = record_part(first, spec_ex, blocks, most, lost);
    saved + record_in_parts(rest, spec_ex, &blocks[saved..], most, lost)
}
