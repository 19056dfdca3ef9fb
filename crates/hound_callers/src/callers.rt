// Functions of a user of the library, whose contracts follow from its public ones.
ghost use Rattle.std.specs.Prelude.{◌≡◌, ℕ, ◌/◌, ◌*◌, ◌<◌, ◌≤◌, ◌++◌, Bool, ◌⊎◌, false, true, ⊤, List, length, map, ◌∷◌, None, Some, Ok, Err, Result, IfErr, IfOk, IfSome, IsTrue, MatchResult, OnOk};
ghost use Rattle.std.specs.List.{AllByRecursion, concat};
ghost use Rattle.hound.specs.{AreContainers, AreKnown, Begun, Call, Checkpoints, Damage, Error, Finishes, HasPublished, Head, IsFoundAt, IsIoError, IsLeftAfter, IsLookedAt, IsNext, IsNoPad, IsPair, IsSameFile, IsSixteen, IsSoundSpec, IsStored, IsWritable, Keeps, Known, Log, MediumState, OpensAs, Performed, ReaderState, ReadsAs, ReadsFrames, Recorded, Repair, Repairs, RepairsMedium, Seeks, WavSpecEx, WhereKeeps, WhereTells, accepted_by_all, accepted_samples, begins_at, canonical, container_at, containers, fits, found_in, frame_length, held, int_container, joined_containers, meaning_at, mending, one_more, rejection_at, repair_of, sample_count, samples_before, samples_left, scaled_to, shown_length, start_of, state_after, unread, with_noise};
ghost use Rattle.std.specs.declared.io.Error.{Error as IoFault};
ghost use Rattle.hound.specs.declared.Error.TheVariants.{OutOfMemory};
ghost use Rattle.hound.specs.declared.SampleFormat.TheVariants.{Int};
ghost use Rattle.hound.specs.declared.RepairState.TheVariants.{HasChunksAfterData, Whole};
ghost use Rattle.hound_callers.specs.Recording.{IsDoneAgain, IsDoneAgainAfterLoss, IsNoBatch, as_item};

use hound::{
    Amplitude, Error, Medium, Repair, Sample, Source, WavReader, WavWriter,
    a_look_finds_what_a_repair_does, a_repair_keeps_stored_samples,
    a_repair_loses_no_published_sample, a_second_repair_writes_nothing, a_seek_leads_to_its_frame,
    a_stopped_repair_is_done_again, a_writer_holds_its_calls, an_iterator_gives_what_it_hints,
    an_ok_flush_is_kept, effects_mend, find_damage, float_to_int, int_to_float,
    items_are_of_the_file, noise_continues, one_answer, repair, repair_to_end,
    scaled_integers_come_back, store_with_noise, written_is_read,
};
use std::alloc::Global;
use std::{io, result};

/// Publishes what was accepted so far, and says how many samples these are (`published`): those of the calls so far,
/// after those of the file, and exactly these are read (`counted`). An error is that of the flush.
pub fn publish<M: Medium>(writer: &mut WavWriter<M>) -> hound::Result<u32>
    ensures published { MatchResult result (λ count. (count ≡ sample_count writer.old)
        × Checkpoints M.Placed (Ok tt) writer.old writer.new)
        (λ e. Checkpoints M.Placed (Err e) writer.old writer.new) }
    ensures counted { WhereTells M.tells (IfOk result (λ count. (s : WavSpecEx) (file : Begun)
        (known : List Known) → Recorded M.Placed s file known writer.old → (calls : List Call) × AreKnown known calls
        × (count ≡ length (found_in file ++ accepted_by_all calls))
        × ReadsAs s (start_of s file) (found_in file ++ accepted_by_all calls) (M.state writer.new.medium).contents)) }
{
    a_writer_holds_its_calls::<M>();
    writer.flush()?;
    Ok(writer.len())
}

/// Ends a recording, and returns its medium: the result is that of the end (`finishes`). At an Ok whoever reads the
/// file finds exactly the samples that it had and those that the calls so far accepted (`reads`).
pub fn finish<M: Medium>(writer: WavWriter<M>) -> (M, hound::Result<()>)
    ensures finishes { Finishes M.Placed writer result.1 result.0 }
    ensures reads { WhereTells M.tells (OnOk result.1 ((s : WavSpecEx) (file : Begun) (known : List Known)
        → Recorded M.Placed s file known writer → (calls : List Call) × AreKnown known calls
        × (accepted_samples M.state writer ≡ found_in file ++ accepted_by_all calls)
        × ReadsAs s (start_of s file) (found_in file ++ accepted_by_all calls) (M.state result.0).contents)) }
{
    let (medium, result) = writer.finalize_into();
    an_ok_flush_is_kept::<M>();
    (medium, result)
}

/// Repairs what a recorder has left, whoever made its calls, over whichever medium: it does what `repair_to_end` does
/// (`repaired`), and no sample is missing that one of the recorder's flushes has published, whether calls failed or the
/// power went (`none_lost`). Another repair then finds the same frames and writes nothing (`again`). One that failed
/// has written nothing, or is done again: that finds the same frames, and leaves what the first one would have left
/// (`stopped`). So it is where the power goes meanwhile (`lost`).
pub fn repair_recording<N: Source + Medium>(left: N) -> result::Result<(N, Repair), (N, Error)>
    requires place { WhereTells N.tells ((N.state left).place ≡ 0) }
    ensures repaired { WhereTells N.tells (RepairsMedium false N.state left result) }
    ensures none_lost { WhereTells N.tells ((s : WavSpecEx) (file : Begun) (calls : List Call)
        (recorded : MediumState) (kept : Keeps s file calls recorded) (before after : List Call)
        (flush : Call) → calls ≡ before ++ (flush ∷ after) → HasPublished flush
        → IsLeftAfter (start_of s file) (begins_at after recorded.past) recorded (N.state left).contents →
        IfOk result (λ done. (done.1.spec_ex ≡ s) × ReadsFrames done.1 (start_of s file)
        (found_in file ++ accepted_by_all before) (N.state done.0).contents)) }
    ensures again { WhereTells N.tells (IfOk result (λ done. (looks : Bool) (next new : MediumState)
        (other : Repair) → next.contents ≡ (N.state done.0).contents → Repairs looks next other new →
        ((other.state ≡ Whole) ⊎ ((other.state ≡ HasChunksAfterData) × IsTrue looks × 1 ≤ done.1.left_over))
        × (other.frames ≡ done.1.frames) × (new.contents ≡ next.contents))) }
    ensures stopped { WhereTells N.tells (IfErr result (λ rejected.
        IsDoneAgain (N.state left).contents (N.state rejected.0).contents (λ _. ⊤))) }
    ensures lost { WhereKeeps N.tells N.keeps (MatchResult result
        (λ done. IsDoneAgainAfterLoss (N.state left) (N.state done.0))
        (λ rejected. IsDoneAgainAfterLoss (N.state left) (N.state rejected.0))) }
{
    a_repair_loses_no_published_sample();
    a_second_repair_writes_nothing();
    a_stopped_repair_is_done_again();
    repair_to_end(left)
}

/// Looks at a file before anything is written, then repairs it, and returns what the look found: it is what `repair`
/// reports, which is all that happened to the file (`repaired`). Unless chunks follow the data, the samples that were
/// stored are read first, whoever wrote them (`stored`).
pub fn look_and_repair<M: Source + Medium>(medium: M) -> result::Result<(M, Repair), (M, Error)>
    requires { WhereTells M.tells ((M.state medium).place ≡ 0) }
    ensures repaired { WhereTells M.tells (RepairsMedium true M.state medium result) }
    ensures stored { WhereTells M.tells (IfOk result (λ done. let old = (M.state medium).contents in
        (s : WavSpecEx) (len start : ℕ) (list : List (List ℕ)) → (done.1.state ≡ HasChunksAfterData → ⊥)
        → Head old s len start → IsSoundSpec s → AllByRecursion (λ c. length c ≡ s.bytes_per_sample) list
        → IsStored start (concat list) 0 (length (concat list)) old
        → IsNoPad s (shown_length start len old) (held start old) list →
        (done.1.spec_ex ≡ s) × ReadsFrames done.1 start list (M.state done.0).contents)) }
{
    a_look_finds_what_a_repair_does();
    a_repair_keeps_stored_samples();
    let (medium, found) = find_damage(medium)?;
    let mut medium = medium;
    if let Err(error) = medium.go(0) {
        return Err((medium, Error::IoError(error)));
    }
    let (medium, _) = repair(medium)?;
    Ok((medium, found))
}

/// The first sample of a frame, by a reader that has read nothing yet: that of its container, or an `IoError`, for a
/// type that reads the file (`sample`). An error is a fault of the seek, or else the result is the next item after it,
/// none past the end (`item`).
pub fn sample_at<S: Sample, R: Source>(
    reader: &mut WavReader<R>,
    time: u32,
) -> hound::Result<Option<S>>
    requires { reader.old.bytes_read ≡ 0 }
    ensures sample { WhereTells R.tells (time < reader.old.num_samples / reader.old.spec_ex.spec.channels
        → rejection_at S.rejection reader.old.spec_ex ≡ None → MatchResult result (λ sample. sample
        ≡ Some (meaning_at S.meaning reader.old.spec_ex (container_at reader.old.spec_ex.bytes_per_sample
        (samples_before time reader.old.spec_ex) (unread (R.state reader.old.reader))))) IsIoError) }
    ensures item { WhereTells R.tells (MatchResult result
        (λ sample. (mid : ReaderState R) × Seeks R.state time reader.old mid
        × IsNext R.remaining S.rejection S.meaning (as_item sample) mid reader.new)
        (λ e. (IsIoError e × ((R.state reader.new.reader).faults ≡ one_more (R.state reader.old.reader).faults))
        ⊎ ((mid : ReaderState R) × Seeks R.state time reader.old mid
        × IsNext R.remaining S.rejection S.meaning (Some (Err e)) mid reader.new))) }
{
    a_seek_leads_to_its_frame::<R, S>();
    reader.seek(time)?;
    reader.samples().next().transpose()
}

/// All samples that a reader has left, for a type that reads the file: the meanings of its containers, or an `IoError`
/// or `OutOfMemory`.
pub fn samples_of<S: Sample, R: io::Read + Drop>(
    alloc: Global,
    reader: WavReader<R>,
) -> hound::Result<Vec<S>>
    ensures { IfSome (R.remaining reader.reader) (λ bytes.
        rejection_at S.rejection reader.spec_ex ≡ None → MatchResult result (λ samples. samples.items
        ≡ map (meaning_at S.meaning reader.spec_ex)
        (containers reader.spec_ex.bytes_per_sample (samples_left reader) bytes))
        (λ e. IsIoError e ⊎ (e ≡ OutOfMemory))) }
{
    items_are_of_the_file::<R, S>();
    an_iterator_gives_what_it_hints::<R, S>();
    let mut samples = Vec::new(alloc);
    for sample in reader.into_samples::<S>() {
        samples.push(sample?)?;
    }
    Ok(samples)
}

/// Opens a file that was written: what is left in the reader are the containers.
pub fn open_written(bytes: &[u8]) -> hound::Result<WavReader<&[u8]>>
    ensures { (s : WavSpecEx) (list : List (List ℕ)) → IsWritable s → AreContainers s list → bytes.now
        ≡ canonical s list → OpensAs result (λ r. (r.spec_ex ≡ s) × (r.num_samples ≡ length list)
        × (containers s.bytes_per_sample (length list) r.reader.now ≡ list)) }
{
    written_is_read();
    one_answer();
    WavReader::new(bytes)
}

/// A program may perform the effects of a repair itself, and may be stopped at any of them: another repair of what it
/// left finds the frames that were found at first.
pub fn a_repair_by_hand_is_done_again()
    ensures { (looks again : Bool) (d : Damage) (old mid : Log) (result : Result Unit IoFault)
        (next new : MediumState) (other : Repair) → IsLookedAt looks old.state.contents d
        → Performed (mending d) result old mid → 1 ≤ frame_length d.head.spec_ex
        → next.contents ≡ mid.state.contents → Repairs again next other new
        → (IsTrue again → other.state ≡ HasChunksAfterData → ⊥) →
        (other.spec_ex ≡ d.head.spec_ex) × (other.frames ≡ (repair_of d).frames) }
{
    effects_mend();
    a_stopped_repair_is_done_again();
}

/// An integer of up to 24 bits as a float whose full scale is 1, and as an integer of as many bits again: it is the
/// same one. So an editor that works on floats loses nothing of the samples that it leaves alone.
pub fn through_a_float(sample: i32, bits: u16) -> i32
    requires bits { (0 < bits) × (bits ≤ 24) }
    requires fits { IsTrue (fits bits sample) }
    ensures { result ≡ sample }
{
    scaled_integers_come_back();
    float_to_int(int_to_float(sample, bits), bits).0
}

/// Audio that comes in two blocks, stored with noise that continues from the first to the second: the bytes are those
/// of both blocks in one call (`stored`), and so is the noise after them (`state`). So the length of a program's blocks
/// changes nothing that it writes.
pub fn store_two_blocks<S: Amplitude>(
    first_bytes: &mut [u8],
    second_bytes: &mut [u8],
    first: &[S],
    second: &[S],
    bits: u16,
    width: u16,
    state: &mut u64,
)
    requires pair { IsPair Int bits width }
    requires first_fits { length first_bytes.old ≡ width * length first.now }
    requires second_fits { length second_bytes.old ≡ width * length second.now }
    ensures stored { first_bytes.new ++ second_bytes.new ≡ joined_containers (λ v. int_container v bits width)
        (map (scaled_to bits) (with_noise S.amplitude bits state.old (first.now ++ second.now))) }
    ensures state { state.new ≡ state_after (length (first.now ++ second.now)) state.old }
{
    noise_continues::<S>();
    store_with_noise(first_bytes, first, bits, width, state);
    store_with_noise(second_bytes, second, bits, width, state);
}
