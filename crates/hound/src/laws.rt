// What holds for every run.
ghost use Rattle.std.specs.Prelude.{◌≡◌, ◌<◌, ◌≤◌, ◌+◌, ◌-◌, ◌/◌, ◌%◌, ℕ, Bool, true, IsTrue, List, [], ◌∷◌, ◌++◌, ◌&&◌, Ok, Option, Some, Result, is_ok, length, map};
ghost use Rattle.std.specs.List.{AllByRecursion, concat};
ghost use Rattle.std.specs.declared.io.Error.{Error as IoFault};
ghost use Rattle.hound_spec.specs.declared.error.Error.{Error};
ghost use Rattle.hound_spec.specs.declared.spec.WavSpecEx.{WavSpecEx};
ghost use Rattle.hound_spec.specs.{canonical, data_start, riff_size};
ghost use Rattle.hound_number.specs.{AreBytes, mix};
ghost use Rattle.hound_medium.specs.{MediumState, WhereKeeps, WhereTells, moment, overlay};
ghost use Rattle.hound_durable.specs.{Ascends, SurvivesLoss, place_of};
ghost use Rattle.hound_sample.specs.{Rejection, int_container};
ghost use Rattle.hound_follow.specs.{number_from};
ghost use Rattle.hound_writer.specs.{Advances, mark_of, AcceptAnswer, AcceptsBytes, ChangesSizesOnly, appended, AcceptsEach, i16_bytes, AreKnown, Asked, Begun, Call, IsKnown, Known, Lead, Left, Recorded, returned, sample_count, asked_by_all, found_in, made, marked, new_file, publish, start_of, IsSameFile, Finishes, WriterState, IsWhole, accepted_samples, data_length, IsSound, CountsAtMost, LeavesWriter, PutsAt, ReadsAs, field, Log, Performed, handed_in, log_kind, Directed, IsSynced, AgreeTo, Counts, end_of, IsCutOff, IsStored, DoesBeginnings, LeavesBeginning, Remains, Resumes, beginning, effects_of, stores_name, writer_of};
ghost use Rattle.hound_writer.specs.declared.recorder.Recorder.{Recorder};
ghost use Rattle.hound_writer.specs.declared.resuming.FoundFile.{FoundFile};
ghost use Rattle.hound_writer.specs.declared.effects.Action.{Action};
ghost use Rattle.hound_writer.specs.declared.effects.Report.{Report};
ghost use Rattle.hound_writer.specs.declared.effects.Report.TheVariants.{Pending};
ghost use Rattle.hound_writer.specs.declared.effects.Effect.TheVariants.{Size, Sync};
ghost use Rattle.hound_repair.specs.{ReadsFrames, Repairs};
ghost use Rattle.hound_repair.specs.declared.look.Repair.{Repair};
ghost use Rattle.hound_writer.specs.declared.resuming.RepairState.TheVariants.{HasChunksAfterData};
ghost use Rattle.hound.specs.declared.session.Begin.TheVariants.{New};
ghost use Rattle.hound.specs.declared.session.Begin.{Begin};
ghost use Rattle.hound.specs.declared.session.End.{End};
ghost use Rattle.hound.specs.Ending.{actions_left};
ghost use Rattle.hound.specs.Headline.{HasPublished, Holds, HoldsAtEnd, IsLeftAfter, Keeps, Kept, KeptWithin, LeftWithin, accepted_as_seen, accepted_by_all, begins_at, seen};
ghost use Rattle.hound.specs.Run.{BeginsAs, EndsAs, Ran, asked_by, containers_of, RunsOn, all_steps};

use crate::session::Step;
use hound_durable::Durable;
use hound_medium::{Medium, Placed};
use hound_spec::WavSpecEx;

/// A batch accepts what its values do one by one: the same samples, and the same count of them.
///
/// It holds over a medium whose bytes are known, from writers of one file of samples of sixteen bits whose accepted
/// samples are there (that of the batch has other memory), if the `flush` of the batch and each `write_sample` returned
/// Ok.
pub fn a_batch_is_its_values<M: Medium>(values: &[i16])
    ensures { WhereTells M.tells ((first a b c : WriterState M) → IsWhole M.state first →
        first.spec_ex.spec.bits_per_sample ≡ 16 → first.spec_ex.bytes_per_sample ≡ 2 → IsSameFile first a →
        AcceptsBytes M.Placed (i16_bytes values.now) (Ok tt) a b
        → AcceptsEach M.Placed int_container values.now first c →
        (accepted_samples M.state b ≡ accepted_samples M.state c) × (data_length b ≡ data_length c)) }
{}

/// Calls that are made one by one leave what a run leaves: a constructor that is Ok, steps, and an end.
///
/// So what [`run_session`](crate::run_session) promises of each intermediate state, of checkpoints and of a loss of
/// power holds for these calls too, over every medium.
pub fn calls_are_a_run<M: Medium>(steps: &[Step])
    ensures { (begin : Begin) (end : End) (old medium : M) (first last : WriterState M)
        (calls : List Call) (answer finished : Result Unit Error) → BeginsAs M.Placed begin old first
        → Lead M.Placed calls first last → asked_by_all calls ≡ map (asked_by first.spec_ex) steps.now
        → Finishes M.Placed last finished medium → EndsAs end answer finished → Ran M.Placed begin steps.now
        (map (λ (call : Call). mark_of call.answer) calls) end old answer medium }
{}

/// A run over a new file leaves what its calls leave, so what [`what_is_kept`] says of every caller's calls holds for
/// it too.
pub fn a_run_leaves_its_calls<M: Medium>(steps: &[Step])
    ensures { (spec_ex : WavSpecEx) (marks : List Bool) (end : End) (old medium : M) (answer : Result Unit Error)
        → Ran M.Placed (New spec_ex) steps.now marks end old answer medium →
        Left M.Placed spec_ex (new_file (M.state old))
        (map (λ step. made (asked_by spec_ex step)) steps.now ++ made publish ∷ []) medium }
{}

/// Sessions that were all Ok leave the file of one session of all their steps.
///
/// It holds for an empty medium whose bytes are known, whichever calls made them: `run_sessions`, or for each session a
/// constructor, steps and `finalize_into`.
pub fn sessions_leave_one_file<'a, M: Medium>(spec_ex: WavSpecEx, sessions: &'a [&'a [Step<'a>]])
    ensures { WhereTells M.tells ((old new : M) → (M.state old).place ≡ 0
        → (M.state old).contents ≡ [] → 0 < length sessions.now
        → RunsOn M.Placed (New spec_ex) sessions.now old (Ok tt) new →
        (M.state new).contents ≡ canonical spec_ex (containers_of spec_ex (all_steps sessions.now))) }
{}

/// A repair loses no sample that a flush has published, whatever became of the recorder after it.
///
/// It holds of what any calls of a writer have left in a medium that records every byte written: from the return of a
/// flush that published on, now, in each intermediate state, and in what a loss of power leaves of a medium that wrote
/// bytes at ascending places only since it was flushed, as a `Durable` does. Once the contents are repaired the file
/// can be read, and frames of the samples accepted before that flush are read first, unless chunks follow the data.
pub fn a_repair_loses_no_published_sample()
    ensures { (s : WavSpecEx) (file : Begun) (calls : List Call) (left : MediumState)
        (kept : Keeps s file calls left) (before after : List Call) (flush : Call) (looks : Bool)
        (cut mended : MediumState) (found : Repair) → calls ≡ before ++ (flush ∷ after) → HasPublished flush
        → IsLeftAfter (start_of s file) (begins_at after left.past) left cut.contents → Repairs looks cut found mended
        → (IsTrue looks → found.state ≡ HasChunksAfterData → ⊥) → (found.spec_ex ≡ s)
        × ReadsFrames found (start_of s file) (found_in file ++ accepted_by_all before) mended.contents }
{}

/// What a writer leaves at its end counts what its calls accepted, and over a medium that records every byte written
/// each of its states holds all that they promise: whoever made the calls, with whatever results. So does the medium of
/// a writer that is still in use (`so_far`).
pub fn what_is_kept<M: Medium>()
    ensures at_end { WhereTells M.tells ((s : WavSpecEx) (file : Begun) (known : List Known)
        (medium : M) → Left M.Placed s file known medium → Holds M.Placed s file known medium) }
    ensures kept { WhereKeeps M.tells M.keeps ((s : WavSpecEx) (file : Begun) (known : List Known)
        (medium : M) → Left M.Placed s file known medium → Kept M.Placed s file known medium) }
    ensures so_far { (s : WavSpecEx) (file : Begun) (known : List Known) (w : WriterState M)
        → Recorded M.Placed s file known w → Left M.Placed s file known w.medium }
{}

/// What a caller knows of calls holds of them, one by one (`among`). Calls whose marks are all known accepted what
/// these say (`accepted`). So a `flush` that was seen to publish, after calls whose marks are known, is one of those
/// that [`what_is_kept`] speaks of, and published what these say (`published`); and if no other follows, that is what
/// the length counts (`lasts`).
pub fn what_is_known()
    ensures among { (before after : List Known) (one : Known) (calls : List Call)
        → AreKnown (before ++ (one ∷ after)) calls → (first last : List Call) × (call : Call)
        × (calls ≡ first ++ (call ∷ last)) × AreKnown before first × IsKnown one call × AreKnown after last }
    ensures accepted { (list : List (Asked × Bool)) (calls : List Call) → AreKnown (seen list) calls →
        accepted_by_all calls ≡ accepted_as_seen list }
    ensures published { (before : List (Asked × Bool)) (after : List Known) (calls : List Call)
        → AreKnown (seen before ++ (marked publish true ∷ after)) calls →
        (first last : List Call) × (flush : Call) × (calls ≡ first ++ (flush ∷ last))
        × HasPublished flush × (accepted_by_all first ≡ accepted_as_seen before) }
    ensures lasts { (s : WavSpecEx) (file : Begun) (before : List (Asked × Bool)) (after : List Known)
        (calls : List Call) (m : MediumState) → HoldsAtEnd s file calls m
        → AreKnown (seen before ++ (marked publish true ∷ after)) calls
        → AllByRecursion (λ (one : Known). one.asked ≡ publish → ⊥) after → field (start_of s file - 4) m.contents
        ≡ length (concat (found_in file ++ accepted_as_seen before)) }
{}

/// A checkpoint holds: until the next call that publishes, whoever reads the file finds exactly the samples accepted
/// before the `flush`, if they are whole frames; at the end, and in each intermediate state of a medium that records
/// every byte written.
pub fn a_checkpoint_holds()
    ensures at_end { (s : WavSpecEx) (file : Begun) (calls : List Call) (m : MediumState)
        → HoldsAtEnd s file calls m → (before later : List Call) (flush : Call)
        → calls ≡ before ++ (flush ∷ later) → HasPublished flush
        → AllByRecursion (λ (call : Call). call.asked ≡ publish → ⊥) later
        → length (found_in file ++ accepted_by_all before) % s.spec.channels ≡ 0
        → ReadsAs s (start_of s file) (found_in file ++ accepted_by_all before) m.contents }
    ensures at_each { (s : WavSpecEx) (file : Begun) (calls : List Call) (m : MediumState)
        → Keeps s file calls m → (before later after : List Call) (flush : Call) (k : ℕ)
        → calls ≡ before ++ (flush ∷ (later ++ after)) → HasPublished flush
        → AllByRecursion (λ (call : Call). call.asked ≡ publish → ⊥) later
        → begins_at (later ++ after) m.past ≤ k → k ≤ begins_at after m.past
        → length (found_in file ++ accepted_by_all before) % s.spec.channels ≡ 0
        → ReadsAs s (start_of s file) (found_in file ++ accepted_by_all before) (moment m.start m.past k) }
{}

/// When `flush` returns Ok, a reader finds every sample accepted so far, until the next call that publishes, whatever
/// becomes of those between (`now`), and in each state of a medium that records every byte written, from the return of
/// the `flush` on (`at_each`). So it is of what an Ok end has left (`at_end`). These samples are those that the writer
/// holds: then (`at_each`, `at_end`), or with those accepted since (`now`).
pub fn an_ok_flush_is_kept<M: Medium>()
    ensures now { WhereTells M.tells ((s : WavSpecEx) (file : Begun) (before after : List Known)
        (w : WriterState M) → Recorded M.Placed s file (before ++ (returned publish (Ok tt) ∷ after)) w
        → AllByRecursion (λ (one : Known). one.asked ≡ publish → ⊥) after
        → (calls later : List Call) × AreKnown before calls × AreKnown after later
        × (accepted_samples M.state w ≡ (found_in file ++ accepted_by_all calls) ++ accepted_by_all later)
        × ReadsAs s (start_of s file) (found_in file ++ accepted_by_all calls) (M.state w.medium).contents) }
    ensures at_each { WhereKeeps M.tells M.keeps ((s : WavSpecEx) (file : Begun) (known : List Known)
        (mid w : WriterState M) (later : List Call)
        → Recorded M.Placed s file (known ++ returned publish (Ok tt) ∷ []) mid → Lead M.Placed later mid w
        → AllByRecursion (λ (call : Call). call.asked ≡ publish → ⊥) later
        → let m = M.state w.medium in (calls : List Call) × AreKnown known calls
        × (accepted_samples M.state mid ≡ found_in file ++ accepted_by_all calls)
        × ((k : ℕ) → length (M.state mid.medium).past ≤ k → k ≤ length m.past →
        ReadsAs s (start_of s file) (found_in file ++ accepted_by_all calls) (moment m.start m.past k))) }
    ensures at_end { WhereTells M.tells ((s : WavSpecEx) (file : Begun) (known : List Known)
        (w : WriterState M) (medium : M) → Recorded M.Placed s file known w → Finishes M.Placed w (Ok tt) medium
        → (calls : List Call) × AreKnown known calls
        × (accepted_samples M.state w ≡ found_in file ++ accepted_by_all calls)
        × ReadsAs s (start_of s file) (found_in file ++ accepted_by_all calls) (M.state medium).contents) }
{}

/// A writer to which calls led is of their file, with all bytes that it wrote, and holds the samples that the file had
/// and those that the calls accepted: so many are what `len` returns.
pub fn a_writer_holds_its_calls<M: Medium>()
    ensures { WhereTells M.tells ((s : WavSpecEx) (file : Begun) (known : List Known)
        (w : WriterState M) → Recorded M.Placed s file known w →
        (w.spec_ex ≡ s) × (w.data_start ≡ start_of s file) × IsWhole M.state w
        × ((calls : List Call) × AreKnown known calls
        × (accepted_samples M.state w ≡ found_in file ++ accepted_by_all calls)
        × (sample_count w ≡ length (found_in file ++ accepted_by_all calls)))) }
{}

/// The mark of a call for samples is its being Ok: by its answer it is never `UnfinishedSample`, whose mark at a
/// `flush` is that of an Ok.
pub fn a_write_is_marked_by_its_ok<M: Medium>()
    ensures { (asked : Result (List (List ℕ)) Rejection) (w : WriterState M) (answer : Result Unit Error)
        → AcceptAnswer asked w answer → mark_of answer ≡ is_ok answer }
{}

/// An append and its end leave each byte before the data except the two sizes, whatever failed.
pub fn an_append_keeps_the_front<M: Medium>()
    ensures { WhereTells M.tells ((s : WavSpecEx) (old : MediumState) (start : ℕ)
        (found : List (List ℕ)) (known : List Known) (medium : M)
        → Left M.Placed s (appended old start found) known medium
        → ChangesSizesOnly start old.contents (M.state medium).contents) }
{}

/// What a loss of power leaves of the medium within a `Durable` over which a writer was ended, or is in use (`so_far`
/// of [`what_is_kept`]): it counts, and has lost no sample that a flush has published.
pub fn what_a_loss_leaves<M: Medium>()
    ensures { WhereKeeps M.tells M.keeps (LeftWithin (⟦<Durable<M> as Placed>⟧)) }
{}

/// A recording that a recorder directed ([`a_recorder_directs`](crate::a_recorder_directs)) keeps all that a list of
/// calls promises (`kept`). If all was synced in the file as it was handed in, it has written at ascending places only
/// since it was last synced, within a checkpoint too (`ascends`); so a loss of power loses no sample of a checkpoint,
/// and what it leaves counts (`survives`).
///
/// A file that is cut off where the data of its recorder end, or not, counts the same (`cut`), and so does what a loss
/// of power leaves of it, where it agrees up to there with what one could leave without the cut (`cut_survives`).
///
/// Within the beginning of a file that had no bytes, whatever has failed, a loss of power leaves at most its header, in
/// which the data length is 0, or no file; once all is done, the file is there (`begun`).
///
/// Of a recording that was cut off, and is mended, a loss of power within the first checkpoint leaves a file that
/// counts no more than the samples that its recorder keeps, if the file was synced before. These are all, or as many as
/// its header counted, unless only some bytes of the data length are new (`mended`).
pub fn a_recording_is_kept()
    ensures begun { (s : WavSpecEx) (old new : MediumState) (result : Result Unit IoFault)
        → overlay old.start old.past ≡ [] → DoesBeginnings true s beginning result old new
        → (sector : ℕ) (left : Option (List ℕ)) → Remains (is_ok result && stores_name beginning) sector new left
        → LeavesBeginning result s left }
    ensures kept { (s : WavSpecEx) (file : Begun) (known : List Known) (r : Recorder) (m : MediumState)
        → Directed s file known r m → r.number ≡ 0 → (log : Log) × (log.state ≡ m) × Kept log_kind s file known log }
    ensures survives { (s : WavSpecEx) (file : Begun) (known : List Known) (r : Recorder) (m : MediumState)
        → Directed s file known r m → r.number ≡ 0 → IsSynced (handed_in file)
        → (log : Log) × (log.state ≡ m) × KeptWithin log_kind s file known log m }
    ensures ascends { (s : WavSpecEx) (file : Begun) (known : List Known) (r : Recorder) (m : MediumState)
        → Directed s file known r m → IsSynced (handed_in file) → Ascends m.past m.flushed (length m.past) }
    ensures cut { (s : WavSpecEx) (file : Begun) (known : List Known) (r : Recorder) (m : MediumState)
        → Directed s file known r m → r.number ≡ 0
        → (log : Log) × (log.state ≡ m) × (kept : Kept log_kind s file known log)
        × ((cut : List ℕ) → AgreeTo (end_of r) cut m.contents → Counts s (start_of s file)
        (found_in file ++ accepted_by_all kept.left.recorded.calls) cut) }
    ensures cut_survives { (s : WavSpecEx) (file : Begun) (known : List Known) (r : Recorder)
        (m : MediumState) → Directed s file known r m → r.number ≡ 0 → IsSynced (handed_in file)
        → (log : Log) × (log.state ≡ m) × (kept : KeptWithin log_kind s file known log m)
        × (begins_at kept.left.recorded.calls m.past ≤ m.flushed → (sector : ℕ) (contents : List ℕ)
        → 1 ≤ sector → (start_of s file - 4) / sector ≡ (start_of s file - 1) / sector
        → SurvivesLoss sector m.start m.past m.flushed (length m.past) contents
        → (cut : List ℕ) → AgreeTo (end_of r) cut contents → Counts s (start_of s file)
        (found_in file ++ accepted_by_all kept.left.recorded.calls) cut) }
    ensures mended { (f : FoundFile) (mends overwrites : Bool) (old end : Log) (r : Recorder)
        (result : Result Unit IoFault) → Resumes f mends overwrites (Ok r) → IsCutOff f r.data_length old.state
        → IsSynced old.state → Performed (effects_of r) result old end → (sector : ℕ) (left : List ℕ) → 1 ≤ sector
        → (f.data_start - 4) / sector ≡ (f.data_start - 1) / sector
        → SurvivesLoss sector end.state.start end.state.past end.state.flushed (length end.state.past) left
        → Counts f.spec_ex f.data_start (accepted_samples log_kind.state (writer_of f.spec_ex r old)) left
        × ((j : ℕ) × (j ≤ 4) × (field (f.data_start - 4) left ≡ mix j f.data_length r.data_length)) }
{}

/// A recorder's request ends: after an action that was reported, as done or as failed, fewer are left, and there are at
/// most eleven (`bounded`). So a loop over `next` that reports each action needs no other end. An action without a
/// report is requested again.
pub fn a_request_ends()
    ensures nearer { (report : Report) (old new : Recorder) (action : Action) → (report ≡ Pending → ⊥)
        → Advances report old new (Ok (Some action)) → actions_left new < actions_left old }
    ensures again { (old new : Recorder) (action : Action) → Advances Pending old new (Ok (Some action))
        → actions_left new ≤ actions_left old }
    ensures bounded { (r : Recorder) → actions_left r ≤ 11 }
{}

/// What a program reads that follows a recording while another one makes it. It takes the length in one state of the
/// medium, and the bytes that this counts in later ones, in pieces of any size: each of them is that of the accepted
/// samples (`reads`), of which so many bytes were accepted (`counted`). So what it has stays right whatever calls and
/// faults come between, and what a greater length counts begins with it.
///
/// So it is also where the length's four bytes are taken in four states, the last byte first (`torn`): a system that
/// reads four bytes at once may mix those of two lengths, in any order, and count more than was accepted. A length that
/// stays the same in these states is the one that is taken (`same`).
///
/// The bytes of the length are there in each of these states (`there`).
pub fn a_follower_reads_accepted_samples()
    ensures there { (s : WavSpecEx) (file : Begun) (calls : List Call) (m : MediumState) → Keeps s file calls m
        → (k : ℕ) → begins_at calls m.past ≤ k → k ≤ length m.past →
        (20 ≤ start_of s file) × (start_of s file ≤ length (moment m.start m.past k)) }
    ensures counted { (s : WavSpecEx) (file : Begun) (calls : List Call) (m : MediumState) → Keeps s file calls m
        → (k : ℕ) → begins_at calls m.past ≤ k → k ≤ length m.past →
        field (start_of s file - 4) (moment m.start m.past k)
        ≤ length (concat (found_in file ++ accepted_by_all calls)) }
    ensures reads { (s : WavSpecEx) (file : Begun) (calls : List Call) (m : MediumState) → Keeps s file calls m
        → (k later a len : ℕ) → begins_at calls m.past ≤ k → k ≤ later → later ≤ length m.past
        → a + len ≤ field (start_of s file - 4) (moment m.start m.past k) →
        IsStored (start_of s file) (concat (found_in file ++ accepted_by_all calls)) a len
        (moment m.start m.past later) }
    ensures torn { (s : WavSpecEx) (file : Begun) (calls : List Call) (m : MediumState) → Keeps s file calls m
        → (k3 k2 k1 k0 later a len : ℕ) → begins_at calls m.past ≤ k3 → k3 ≤ k2 → k2 ≤ k1 → k1 ≤ k0 → k0 ≤ later
        → later ≤ length m.past → let at = moment m.start m.past in
        AreBytes (at k0) → AreBytes (at k1) → AreBytes (at k2) → AreBytes (at k3)
        → a + len ≤ number_from (start_of s file - 4) (at k0) (at k1) (at k2) (at k3) →
        IsStored (start_of s file) (concat (found_in file ++ accepted_by_all calls)) a len
        (moment m.start m.past later) }
    ensures same { (s : WavSpecEx) (file : Begun) (calls : List Call) (m : MediumState) → Keeps s file calls m
        → (k3 k2 k1 k0 n : ℕ) → begins_at calls m.past ≤ k3 → k3 ≤ k2 → k2 ≤ k1 → k1 ≤ k0 → k0 ≤ length m.past
        → let at = moment m.start m.past in let place = start_of s file - 4 in
        AreBytes (at k0) → AreBytes (at k1) → AreBytes (at k2) → AreBytes (at k3)
        → field place (at k0) ≡ n → field place (at k1) ≡ n → field place (at k2) ≡ n → field place (at k3) ≡ n →
        number_from place (at k0) (at k1) (at k2) (at k3) ≡ n }
{}
