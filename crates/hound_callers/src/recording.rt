// Recorders that make their calls themselves.
ghost use Rattle.std.specs.Prelude.{◌≡◌, ◌⊎◌, ◌+◌, ◌-◌, ◌/◌, ◌<◌, ◌≤◌, ℕ, Bool, false, true, List, ◌∷◌, ◌++◌, [], Err, Ok, Result, MatchResult, is_ok, IsFalse, IsOk, IfOk, IfErr, IsErrAnd, IsTrue, OnErr, OnOk, drop, length, map, replicate, take};
ghost use Rattle.std.specs.List.{All, concat};
ghost use Rattle.hound.specs.{Accepts, AcceptsBytes, AreKnown, Asked, Begins, ReadsAs, IsSameFile, Takes, Checkpoints, Error, Finishes, accepted_as_seen, field, found_in, if_marked, start_of, i16_bytes, whole_containers, IsNotBegun, MediumState, Repair, Repairs, SurvivesLoss, Begun, Call, Known, Left, Recorded, returned, made, marked, new_file, publish, seen, write, int_container, Around, within, Kept, KeptWithin, accepted_by_all, canonical, data_start, AcceptsEach, Ascends, WritesToBatch, containers_in, fits, remaining, signed_bytes_of, ReadsFrames, IsSixteen, IsWritable, Ran, asked_by, containers_of, WhereKeeps, WhereTells, WriterState, IsWhole, accepted_samples, data_length, WavSpecEx, Appends, ChangesSizesOnly, Holds, IsNotAppended, appended};
ghost use Rattle.hound.specs.declared.Error.TheVariants.{Unsupported};
ghost use Rattle.hound.specs.declared.RepairState.TheVariants.{HasChunksAfterData};
ghost use Rattle.hound.specs.declared.session.Begin.TheVariants.{New};
ghost use Rattle.hound.specs.declared.session.End.TheVariants.{Drop, Finalize};
ghost use Rattle.hound.specs.declared.session.Step.TheVariants.{Whole};
ghost use Rattle.hound_callers.specs.Recording.{HasAllThatFit, HaveContainers, IsNoBatch, IsPublished, IsRejectedAfter, IsStopped, PublishesBlocks, ReadsSince, StopsPublishing, TakesNoBlock, WritesAndFlushes, all_asked, block_asks, bytes_of_blocks, containers_by, published_calls, recorder_asks};

use hound::{
    Begin, Durable, End, Error, Medium, Placed, Sample, SampleWriter16, Source, Step, WavSpecEx,
    WavWriter, a_batch_is_its_values, a_block_is_its_samples, a_durable_medium_ascends,
    a_repair_loses_no_published_sample, a_run_leaves_its_calls, a_write_is_marked_by_its_ok,
    an_append_keeps_the_front, an_ok_flush_is_kept, calls_are_a_run, i16s_are_kept, run_session,
    sessions_leave_one_file, what_a_loss_leaves, what_is_kept, what_is_known,
};
use std::alloc::Global;
use std::result;

// Writes a block, and publishes it if it is to be, whatever the results are.
fn record_block<S: Sample + Copy, M: Medium>(
    writer: &mut WavWriter<M>,
    block: &[S],
    publishes: bool,
)
    ensures { (s : WavSpecEx) (file : Begun) (known : List Known) → Recorded M.Placed s file known writer.old
        → Recorded M.Placed s file (known ++ block_asks (containers_in S.container s block.now) publishes) writer.new }
{
    let _ = writer.write_samples(block);
    if publishes {
        let _ = writer.flush();
    }
}

// Writes blocks, with a flush after every fourth, whatever the results are.
fn record_blocks<S: Sample + Copy, M: Medium>(writer: &mut WavWriter<M>, blocks: &[&[S]])
    ensures { (s : WavSpecEx) (file : Begun) (known : List Known) → Recorded M.Placed s file known writer.old
        → Recorded M.Placed s file (known ++ recorder_asks (containers_by S.container s) 0 blocks.now) writer.new }
{
    for i in 0..blocks.len() {
        record_block(writer, blocks[i], i % 4 == 3);
    }
}

/// Records blocks of samples into a new file, with a flush after every fourth, and ends it, whatever the results of
/// these calls are: they were made, one by one, and led to what is left (`left`), which holds all that they promise, in
/// each of its states (`kept`).
pub fn record<S: Sample + Copy, M: Source + Medium>(
    medium: M,
    spec_ex: WavSpecEx,
    blocks: &[&[S]],
) -> result::Result<M, (M, Error)>
    requires { WhereTells M.tells ((M.state medium).place ≡ 0) }
    ensures left { MatchResult result
        (Left M.Placed spec_ex (new_file (M.state medium)) (all_asked S.container spec_ex blocks.now))
        (λ rejected. IsNotBegun M.Placed spec_ex medium rejected.0 rejected.1) }
    ensures kept { IfOk result (λ left. WhereKeeps M.tells M.keeps
        (Kept M.Placed spec_ex (new_file (M.state medium)) (all_asked S.container spec_ex blocks.now) left)) }
{
    what_is_kept::<M>();
    let mut recorder = WavWriter::try_new(medium, spec_ex)?;
    record_blocks(&mut recorder, blocks);
    let (medium, _) = recorder.finalize_into();
    Ok(medium)
}

// Writes a block and publishes it, also where it ends within a frame, of which the next block has the rest. Any other
// error stops it.
fn publish_block<S: Sample + Copy, M: Medium>(
    writer: &mut WavWriter<M>,
    block: &[S],
) -> hound::Result<()>
    ensures spec { writer.new.spec_ex ≡ writer.old.spec_ex }
    ensures have { OnOk result (IsOk (containers_in S.container writer.old.spec_ex block.now)) }
    ensures published { OnOk result ((s : WavSpecEx) (file : Begun) (known : List Known)
        → Recorded M.Placed s file known writer.old → Recorded M.Placed s file
        (known ++ seen (published_calls (containers_in S.container s) (block.now ∷ []))) writer.new) }
    ensures stopped { OnErr result ((s : WavSpecEx) (file : Begun) (known : List Known)
        → Recorded M.Placed s file known writer.old → (more : List Known)
        × IsStopped (containers_in S.container s block.now) more
        × Recorded M.Placed s file (known ++ more) writer.new) }
    ensures start { writer.new.data_start ≡ writer.old.data_start }
    ensures longer { OnOk result (data_length writer.new ≡ data_length writer.old
        + length (concat (if_marked true (containers_in S.container writer.old.spec_ex block.now)))) }
    ensures same_faults { WhereTells M.tells
        (OnOk result ((M.state writer.new.medium).faults ≡ (M.state writer.old.medium).faults)) }
    ensures cause { WhereTells M.tells (OnErr result (IsRejectedAfter writer.old.data_start (data_length writer.old)
        (containers_in S.container writer.old.spec_ex block.now) ⊎ (0 < (M.state writer.new.medium).faults))) }
{
    writer.write_samples(block)?;
    match writer.flush() {
        Err(Error::UnfinishedSample) => Ok(()),
        result => result,
    }
}

// Writes and publishes blocks until a call fails, and returns how many were published.
fn publish_blocks<S: Sample + Copy, M: Medium>(writer: &mut WavWriter<M>, blocks: &[&[S]]) -> usize
    ensures within { result ≤ length blocks.now }
    ensures have { All (λ block. IsOk (containers_by S.container writer.old.spec_ex block)) (take result blocks.now) }
    ensures published { (s : WavSpecEx) (file : Begun) → Recorded M.Placed s file [] writer.old → (more : List Known)
        × StopsPublishing (containers_by S.container s) (drop result blocks.now) more × Recorded M.Placed s file
        (seen (published_calls (containers_by S.container s) (take result blocks.now)) ++ more) writer.new }
    ensures cause { WhereTells M.tells ((M.state writer.old.medium).faults ≡ 0 → (M.state writer.new.medium).faults ≡ 0
        → TakesNoBlock (containers_by S.container writer.old.spec_ex) writer.old.data_start (data_length writer.old
        + bytes_of_blocks (containers_by S.container writer.old.spec_ex) (take result blocks.now))
        (drop result blocks.now)) }
{
    for i in 0..blocks.len() {
        if publish_block(writer, blocks[i]).is_err() {
            return i;
        }
    }
    blocks.len()
}

/// Records blocks of samples over a medium that may lose its power, with a checkpoint after each, until a call fails,
/// and returns how many blocks were published.
///
/// Its calls are the write and the flush of each of these blocks, all of which published it, then those of the next
/// block, if there is one, which didn't, and the end. One of these flushes has published exactly the samples of the
/// blocks, if there are some; and whatever sectors keep what was written since the medium was flushed, what is left
/// counts, and has lost no sample that a flush has published (`published`). Once that is repaired, the samples of these
/// blocks are read first, as many as whole frames have, unless a repair that looks for chunks finds some (`safe`).
///
/// Unless a call of the medium has failed, all blocks are published, or those before one that is rejected, because a
/// sample of it has no container or the sizes would pass 32 bits; and then only a spec that can't be written is an
/// error (`cause`).
///
/// The medium must be new: its place is 0, and nothing has been written to it yet.
pub fn record_checkpoints<S: Sample + Copy, M: Source + Medium>(
    medium: M,
    spec_ex: WavSpecEx,
    blocks: &[&[S]],
) -> result::Result<(M, usize), (M, Error)>
    requires place { WhereTells M.tells ((M.state medium).place ≡ 0) }
    requires past { WhereKeeps M.tells M.keeps ((M.state medium).past ≡ []) }
    requires flushed { WhereKeeps M.tells M.keeps ((M.state medium).flushed ≡ 0) }
    ensures within { IfOk result (λ done. done.1 ≤ length blocks.now) }
    ensures published { let durable = ⟦<Durable<M> as Placed>⟧ in
        IfOk result (λ done. WhereKeeps M.tells M.keeps (Around (M.state medium) (M.state done.0) (λ first last.
        PublishesBlocks durable (containers_by S.container spec_ex) spec_ex
        (new_file (durable.state first)) blocks.now done.1 last (within last)))) }
    ensures safe { IfOk result (λ done. WhereKeeps M.tells M.keeps (0 < done.1 → (list : List (List ℕ))
        × HaveContainers (containers_by S.container spec_ex) (take done.1 blocks.now) list
        × ((looks : Bool) (sector : ℕ) (cut mended : MediumState) (found : Repair) → 1 ≤ sector
        → (data_start spec_ex - 4) / sector ≡ (data_start spec_ex - 1) / sector → (let s = M.state done.0 in
        SurvivesLoss sector s.start s.past s.flushed (length s.past) cut.contents)
        → Repairs looks cut found mended → (IsTrue looks → found.state ≡ HasChunksAfterData → ⊥) →
        (found.spec_ex ≡ spec_ex) × ReadsFrames found (data_start spec_ex) list mended.contents))) }
    ensures rejected { IfErr result (λ rejected. Around (M.state medium) (M.state rejected.0) (λ first last.
        IsNotBegun (⟦<Durable<M> as Placed>⟧) spec_ex first last rejected.1)) }
    ensures cause { WhereTells M.tells (MatchResult result
        (λ done. (M.state done.0).faults ≡ 0
        → HasAllThatFit (containers_by S.container spec_ex) spec_ex blocks.now done.1)
        (λ rejected. (M.state rejected.0).faults ≡ 0 → (IsWritable spec_ex → ⊥) × (rejected.1 ≡ Unsupported))) }
{
    what_is_known();
    what_a_loss_leaves::<M>();
    a_repair_loses_no_published_sample();
    let mut writer = match WavWriter::try_new(Durable::new(medium), spec_ex) {
        Ok(writer) => writer,
        Err((durable, error)) => {
            a_durable_medium_ascends(&durable);
            return Err((durable.into_inner(), error));
        }
    };
    let published = publish_blocks(&mut writer, blocks);
    let durable = writer.drop_into();
    a_durable_medium_ascends(&durable);
    Ok((durable.into_inner(), published))
}

/// Records steps into a new file, whatever the results are: if it was begun, this was a run with these marks (`run`),
/// and what is left keeps all that the calls of these steps promise (`kept`).
pub fn record_steps<M: Source + Medium>(
    alloc: Global,
    medium: M,
    spec_ex: WavSpecEx,
    steps: &[Step],
    marks: &mut [bool],
) -> result::Result<M, (M, Error)>
    requires place { WhereTells M.tells ((M.state medium).place ≡ 0) }
    requires size { length steps.now ≡ length marks.old }
    ensures run { MatchResult result (Ran M.Placed (New spec_ex) steps.now marks.new Drop medium (Ok tt))
        (λ rejected. IsNotBegun M.Placed spec_ex medium rejected.0 rejected.1
        × (marks.new ≡ replicate (length steps.now) false)) }
    ensures kept { IfOk result (λ left. WhereKeeps M.tells M.keeps (Kept M.Placed spec_ex (new_file (M.state medium))
        (map (λ step. made (asked_by spec_ex step)) steps.now ++ made publish ∷ []) left)) }
{
    what_is_kept::<M>();
    a_run_leaves_its_calls::<M>(steps);
    match run_session(alloc, medium, Begin::New(spec_ex), steps, marks, End::Drop) {
        (left, Ok(())) => Ok(left),
        (left, Err(error)) => Err((left, error)),
    }
}

/// Writes a file of one integer into an empty medium by calls of its own: at an Ok it is there, and nothing else
/// (`exact`), and these calls are a run, with all that a run promises (`run`). An error is that of the constructor, of
/// the sample, or of the end (`err`).
pub fn pack_one<M: Source + Medium>(
    medium: M,
    spec_ex: WavSpecEx,
    value: i32,
) -> result::Result<M, (M, Error)>
    requires place { WhereTells M.tells ((M.state medium).place ≡ 0) }
    requires empty { (M.state medium).contents ≡ [] }
    ensures run { IfOk result (Ran M.Placed (New spec_ex) (Whole value ∷ []) (true ∷ []) Finalize medium (Ok tt)) }
    ensures exact { IfOk result (λ left. WhereTells M.tells ((M.state left).contents
        ≡ canonical spec_ex (containers_of spec_ex (Whole value ∷ [])))) }
    ensures err { IfErr result (λ rejected. IsNotBegun M.Placed spec_ex medium rejected.0 rejected.1
        ⊎ ((first last : WriterState M) × Begins M.Placed spec_ex (M.state medium) first
        × ((Takes M.Placed (Whole value) (Err rejected.1) first last
        × (end : Result Unit Error) × Finishes M.Placed last end rejected.0)
        ⊎ (Takes M.Placed (Whole value) (Ok tt) first last × Finishes M.Placed last (Err rejected.1) rejected.0)))) }
{
    let steps = [Step::Whole(value)];
    calls_are_a_run::<M>(&steps);
    sessions_leave_one_file::<M>(spec_ex, &[&steps[..]]);
    let mut writer = WavWriter::try_new(medium, spec_ex)?;
    if let Err(error) = writer.write_sample(value) {
        return Err((writer.drop_into(), error));
    }
    match writer.finalize_into() {
        (medium, Ok(())) => Ok(medium),
        (medium, Err(error)) => Err((medium, error)),
    }
}

/// Writes a batch, which is accepted by one call; where there is no room for it, or no memory, the writer stays as it
/// was (`recorded`), and else the result is that of this call (`calls`). At an Ok it accepted what its values would
/// have been accepted as one by one (`same`).
pub fn record_batch<M: Medium>(
    alloc: Global,
    writer: &mut WavWriter<M>,
    batch: &[i16],
) -> hound::Result<()>
    requires { IsSixteen writer.old.spec_ex }
    ensures same { WhereTells M.tells (OnOk result (IsWhole M.state writer.old →
        (each : WriterState M) → AcceptsEach M.Placed int_container batch.now writer.old each →
        (accepted_samples M.state writer.new ≡ accepted_samples M.state each)
        × (data_length writer.new ≡ data_length each))) }
    ensures recorded { (s : WavSpecEx) (file : Begun) (known : List Known) → Recorded M.Placed s file known writer.old
        → (IsErrAnd result (IsNoBatch writer.old (length batch.now)) × Recorded M.Placed s file known writer.new)
        ⊎ Recorded M.Placed s file
        (known ++ marked (write (whole_containers s (i16_bytes batch.now))) (is_ok result) ∷ []) writer.new }
    ensures calls { IsErrAnd result (IsNoBatch writer.old (length batch.now))
        ⊎ ((mid : WriterState M) × IsSameFile writer.old mid
        × AcceptsBytes M.Placed (i16_bytes batch.now) result mid writer.new) }
{
    if batch.len() > u32::MAX as usize {
        return Err(Error::TooLong);
    }
    a_batch_is_its_values::<M>(batch);
    a_write_is_marked_by_its_ok::<M>();
    let mut values = writer.get_i16_writer(alloc, batch.len() as u32)?;
    for value in batch {
        values.write_sample(*value);
    }
    values.flush()
}

/// Writes samples by one call and publishes them: the file is then read as the samples before and all of these
/// (`published`), which are those that calls of their own would have written (`same`). An error is that of one of these
/// calls, and there is no other (`calls`).
pub fn record_at_once<S: Sample + Copy, M: Medium>(
    writer: &mut WavWriter<M>,
    samples: &[S],
) -> hound::Result<()>
    ensures published { WhereTells M.tells (IsWhole M.state writer.old → OnOk result (IsPublished M.state
        (containers_in S.container writer.old.spec_ex samples.now) writer.old writer.new)) }
    ensures same { WhereTells M.tells (IsWhole M.state writer.old → OnOk result ((each : WriterState M) →
        AcceptsEach M.Placed S.container samples.now writer.old each →
        accepted_samples M.state writer.new ≡ accepted_samples M.state each)) }
    ensures calls { WritesAndFlushes M.Placed
        (containers_in S.container writer.old.spec_ex samples.now) result writer.old writer.new }
{
    a_block_is_its_samples::<S, M>();
    writer.write_samples(samples)?;
    writer.flush()
}

/// Publishes what was accepted, and continues with samples, whatever becomes of them: until the next flush the file
/// counts exactly the samples that were accepted before this one, over a medium without a past too (`lasts`), and
/// whoever reads it finds exactly these (`reads`), also in each state since the flush returned, wherever the writing
/// stops. An error is that of the flush, and then nothing is written after it (`calls`).
pub fn publish_and_continue<S: Sample + Copy, M: Medium>(
    writer: &mut WavWriter<M>,
    samples: &[S],
) -> hound::Result<()>
    ensures lasts { WhereTells M.tells (OnOk result ((s : WavSpecEx) (file : Begun) (before : List (Asked × Bool))
        → Recorded M.Placed s file (seen before) writer.old →
        field (start_of s file - 4) (M.state writer.new.medium).contents
        ≡ length (concat (found_in file ++ accepted_as_seen before)))) }
    ensures reads { WhereTells M.tells (OnOk result ((s : WavSpecEx) (file : Begun) (known : List Known)
        → Recorded M.Placed s file known writer.old → (calls later : List Call) × AreKnown known calls
        × (accepted_samples M.state writer.new ≡ (found_in file ++ accepted_by_all calls) ++ accepted_by_all later)
        × ReadsAs s (start_of s file) (found_in file ++ accepted_by_all calls) (M.state writer.new.medium).contents)) }
    ensures calls { MatchResult result (λ _. (mid : WriterState M) × (answer : Result Unit Error)
        × Checkpoints M.Placed (Ok tt) writer.old mid
        × Accepts M.Placed (containers_in S.container mid.spec_ex samples.now) answer mid writer.new
        × WhereKeeps M.tells M.keeps ((s : WavSpecEx) (file : Begun) (known : List Known)
        → Recorded M.Placed s file known writer.old
        → ReadsSince s file known (accepted_samples M.state mid) (length (M.state mid.medium).past)
        (M.state writer.new.medium))) (λ e. Checkpoints M.Placed (Err e) writer.old writer.new) }
{
    what_is_kept::<M>();
    what_is_known();
    an_ok_flush_is_kept::<M>();
    writer.flush()?;
    let _ = writer.write_samples(samples);
    Ok(())
}

/// Writes an integer to a batch as itself if it has sixteen bits, and returns whether it has; a batch alone drops the
/// higher bits of any other.
pub fn write_if_short<M: Medium>(batch: &mut SampleWriter16<'_, M>, value: i32) -> bool
    requires { 1 ≤ remaining batch.old }
    ensures fits { result ≡ fits 16 value }
    ensures written { IsTrue result → WritesToBatch (signed_bytes_of 2 value) batch.old batch.new }
    ensures left { IsFalse result → batch.new ≡ batch.old }
{
    i16s_are_kept();
    if value < i16::MIN as i32 || value > i16::MAX as i32 {
        return false;
    }
    batch.write_sample(value);
    true
}

/// Ends a recording over a durable medium, and takes the medium out: the result is that of the end (`finishes`). At an
/// Ok all that was written to it is flushed, and in any case what was written since its last flush went to ascending
/// places.
pub fn finish_durable<M: Medium>(writer: WavWriter<Durable<M>>) -> (M, hound::Result<()>)
    ensures finishes { Around (within writer.medium) (M.state result.0) (λ _ last.
        Finishes (⟦<Durable<M> as Placed>⟧) writer result.1 last) }
    ensures flushed { WhereKeeps M.tells M.keeps (OnOk result.1 (
        let s = M.state result.0 in s.flushed ≡ length s.past)) }
    ensures ascends { WhereKeeps M.tells M.keeps (
        let s = M.state result.0 in Ascends s.past s.flushed (length s.past)) }
{
    let (durable, result) = writer.finalize_into();
    a_durable_medium_ascends(&durable);
    (durable.into_inner(), result)
}

/// Appends blocks of samples to a file, with a flush after every fourth, and ends it, whatever the results of these
/// calls are.
///
/// If the file had all its data, each byte before them stays except the two sizes, so metadata chunks do; and what is
/// left holds what these calls promise, after the samples that were there. An error is that of `try_append`, and
/// nothing was written.
pub fn append_blocks<S: Sample + Copy, M: Source + Medium>(
    medium: M,
    blocks: &[&[S]],
) -> result::Result<M, (M, Error)>
    requires { WhereTells M.tells ((M.state medium).place ≡ 0) }
    ensures { MatchResult result (λ left. (w : WriterState M) × Appends M.Placed (M.state medium) w
        × WhereTells M.tells (IsWhole M.state w →
        ChangesSizesOnly w.data_start (M.state medium).contents (M.state left).contents
        × Holds M.Placed w.spec_ex (appended (M.state medium) w.data_start
        (accepted_samples M.state w)) (all_asked S.container w.spec_ex blocks.now) left))
        (λ rejected. WhereTells M.tells (IsNotAppended (M.state medium) (M.state rejected.0) rejected.1)) }
{
    what_is_kept::<M>();
    an_append_keeps_the_front::<M>();
    let mut writer = WavWriter::try_append(medium)?;
    record_blocks(&mut writer, blocks);
    let (medium, _) = writer.finalize_into();
    Ok(medium)
}
