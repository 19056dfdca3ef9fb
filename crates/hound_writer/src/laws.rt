// What holds for all bytes that are to be appended to, and for all samples that are written.
ghost use Rattle.std.specs.Prelude.{◌≡◌, ◌⊎◌, ◌<◌, ◌≤◌, ◌*◌, ◌-◌, ℕ, Bool, true, false, List, [], ◌∷◌, ◌++◌, None, Some, Ok, Err, Result, is_ok, length, max, take, ◌+◌};
ghost use Rattle.std.specs.declared.io.Error.{Error as IoFault};
ghost use Rattle.hound_durable.specs.{SurvivesLoss};
ghost use Rattle.hound_medium.specs.{Flushes, Goes, MediumState, WhereTells, overlay, placed};
ghost use Rattle.hound_number.specs.{AreBytes};
ghost use Rattle.hound_spec.specs.declared.error.Error.{Error};
ghost use Rattle.hound_spec.specs.declared.spec.WavSpecEx.{WavSpecEx};
ghost use Rattle.hound_writer.specs.Accepting.{Accepts, AcceptsEach, containers_in, mark_of};
ghost use Rattle.hound_writer.specs.Appending.{HasOneAppendAnswer};
ghost use Rattle.hound_writer.specs.Beginning.{at_beginning};
ghost use Rattle.hound_writer.specs.Calls.{Begun, Known, marked, new_file, publish};
ghost use Rattle.hound_writer.specs.Effects.{Log, Performed, Performs, log_kind};
ghost use Rattle.hound_writer.specs.Parts.{PutsAt};
ghost use Rattle.hound_writer.specs.Publishing.{LeavesWriter};
ghost use Rattle.hound_writer.specs.Recorder.{GivesUp, GoesOn, HasEnded, TakesBlock, cuts_next, end_of, BeginsRecorder, IsAlive, effects_of, recorder_of};
ghost use Rattle.hound_writer.specs.Recording.{AgreeTo, Directed, IsCutOff, Opened, Resumed, block_known, cut_known, resumed_file, writer_of};
ghost use Rattle.hound_writer.specs.Repeating.{IsSaid, Repeats, written_first};
ghost use Rattle.hound_writer.specs.Resuming.{Resumes};
ghost use Rattle.hound_writer.specs.Writer.{WriterState, IsWhole, accepted_samples, data_length};
ghost use Rattle.hound_writer.specs.declared.effects.Action.TheVariants.{Perform, WriteBlock};
ghost use Rattle.hound_writer.specs.declared.effects.Effect.{Effect};
ghost use Rattle.hound_writer.specs.declared.recorder.Phase.TheVariants.{Saving, Writing};
ghost use Rattle.hound_writer.specs.declared.recorder.Recorder.{Recorder};
ghost use Rattle.hound_writer.specs.declared.recorder.RecorderError.{RecorderError};
ghost use Rattle.hound_writer.specs.declared.resuming.FoundFile.{FoundFile};

use hound_medium::Medium;
use hound_sample::Sample;
use hound_walk::one_answer;

/// Bytes can be appended to with one head, or have one fault for which they can't, and never two of these: so what the
/// calls that append return is decided by the bytes, unless the medium failed.
pub fn one_append_answer()
    ensures { (bytes : List ℕ) → HasOneAppendAnswer bytes }
{
    one_answer();
}

/// A block accepts what its samples do one by one: the same samples, and the same count of them.
///
/// It holds over a medium whose bytes are known, from one writer whose accepted samples are there, if `write_samples`
/// and each `write_sample` returned Ok.
pub fn a_block_is_its_samples<S: Sample, M: Medium>()
    ensures { WhereTells M.tells ((samples : List S) (a b c : WriterState M) → IsWhole M.state a →
        Accepts M.Placed (containers_in S.container a.spec_ex samples) (Ok tt) a b
        → AcceptsEach M.Placed S.container samples a c →
        (accepted_samples M.state b ≡ accepted_samples M.state c) × (data_length b ≡ data_length c)) }
{}

/// A caller that does what a [`Recorder`](crate::Recorder) says makes calls of a writer, whatever fails. It begins a
/// recorder of a file that it began by all effects of [`beginning_effect`](crate::beginning_effect) (`new`), or of one
/// that was found (`resumed`), and asks for blocks and checkpoints (`asked`), which gives up a block that was under
/// way, also where the request is rejected. It performs the effects that [`next`](crate::Recorder::next) returns
/// (`performed`), writes the block at its place (`handed`, `wrote`), cuts off what follows, or not (`cut`), and reports
/// each result, until there is no more (`saved`). An error comes only of what it reports, or once a sync has failed
/// (`failed`).
///
/// Of a recording that was cut off, and is mended, the first checkpoint publishes the samples that the file holds as a
/// `flush` of them does, up to an effect that fails (`mended`). Once it is done, the calls begin.
///
/// Each block is a call for its samples, and each checkpoint a `flush`. The clauses take the contracts of the
/// recorder's methods, and those of hound_c, as they are.
pub fn a_recorder_directs()
    ensures new { (s : WavSpecEx) (old : MediumState) (log : Log) (r : Recorder) → Opened s old log.state
        → BeginsRecorder s (Ok r) → Directed s (new_file (at_beginning old)) [] r log.state }
    ensures resumed { (f : FoundFile) (samples : ℕ) (mends overwrites : Bool) (old : MediumState) (log : Log)
        (r : Recorder) → Resumed f samples old log.state → Resumes f mends overwrites (Ok r)
        → r.data_length ≡ f.data_length
        → Directed f.spec_ex (resumed_file f.spec_ex samples f.data_start old) [] r log.state }
    ensures mended { (f : FoundFile) (mends overwrites : Bool) (old end : Log) (r : Recorder)
        (result : Result Unit IoFault) → Resumes f mends overwrites (Ok r) → IsCutOff f r.data_length old.state
        → Performed (effects_of r) result old end → ((answer : Result Unit Error) × (mark_of answer ≡ is_ok result)
        × LeavesWriter log_kind answer (writer_of f.spec_ex r old) (writer_of f.spec_ex r end))
        × (is_ok result ≡ true → (m : Log) → Goes {T = Unit} {E = IoFault} (end_of r) (Ok tt) end.state m.state
        → (samples : ℕ) × (r.data_length ≡ samples * f.spec_ex.bytes_per_sample)
        × Directed f.spec_ex (resumed_file f.spec_ex samples f.data_start end.state) []
        (recorder_of f.spec_ex f.data_start r.data_length) m.state) }
    ensures asked { (s : WavSpecEx) (file : Begun) (known : List Known) (old end new : Recorder)
        (m : MediumState) (samples : ℕ) (result : Result Unit RecorderError) → Directed s file known old m
        → GivesUp old end → Directed s file known (record end { phase = Saving }) m
        × (TakesBlock samples old.phase end new result → Directed s file known new m) }
    ensures performed { (s : WavSpecEx) (file : Begun) (known : List Known) (old mid new : Recorder)
        (m : MediumState) (end : Log) (effect : Effect) (result : Result Unit IoFault)
        (outcome : Result Unit RecorderError) → Directed s file known old m
        → GoesOn old mid (Ok (Some (Perform effect))) → Performs effect result m end.state
        → HasEnded (is_ok result) mid new outcome → Directed s file (known ++ cut_known outcome) new end.state }
    ensures wrote { (s : WavSpecEx) (file : Begun) (known : List Known) (old new : Recorder) (n : ℕ)
        (m : MediumState) (end : Log) (bytes : List ℕ) (result : Result Unit IoFault)
        (outcome : Result Unit RecorderError) → Directed s file known old m → old.phase ≡ Writing n
        → old.has_rest ≡ false → length bytes ≡ n - old.data_length → PutsAt true (end_of old) bytes result m end.state
        → HasEnded (is_ok result) old new outcome
        → Directed s file (known ++ block_known bytes (is_ok result) s ∷ []) new end.state }
    ensures cut { (s : WavSpecEx) (file : Begun) (known : List Known) (old new : Recorder) (m : MediumState)
        (ok : Bool) (outcome : Result Unit RecorderError) → Directed s file known old m
        → cuts_next old.phase old.has_rest ≡ true → HasEnded ok old new outcome → Directed s file known new m }
    ensures handed { (s : WavSpecEx) (file : Begun) (known : List Known) (old new : Recorder)
        (m : MediumState) (place len : ℕ) → Directed s file known old m
        → GoesOn old new (Ok (Some (WriteBlock place len))) → (place ≡ end_of new) × (Directed s file known new m
        ⊎ ((0 < old.number) × Directed s file (known ++ marked publish true ∷ []) new m)) }
    ensures saved { (s : WavSpecEx) (file : Begun) (known : List Known) (old new : Recorder)
        (m : MediumState) → Directed s file known old m → old.phase ≡ Saving → GoesOn old new (Ok None)
        → Directed s file (known ++ marked publish true ∷ []) new m }
    ensures failed { (s : WavSpecEx) (file : Begun) (known : List Known) (old new : Recorder)
        (m : MediumState) (error : RecorderError) → Directed s file known old m → IsAlive old
        → GoesOn old new (Err error) → ⊥ }
{}

/// An effect whose end isn't reported may be performed again: what was written then is written once more, at the same
/// place. Of some first bytes of it that were written before (`again`) there may be more then, and once its end is
/// reported, it is as if it had been performed once, with this report (`written`, `synced`). An effect is reported as
/// done only if it is, and a sync is always reported.
///
/// Such a file has no state that the other hasn't ([`Repeats`](crate)), and a loss of power leaves nothing of it that
/// it wouldn't leave of the other (`survives`).
pub fn an_effect_may_be_repeated()
    ensures once { (m : MediumState) → m.flushed ≤ length m.past → Repeats m m }
    ensures begun { (at : ℕ) (bytes : List ℕ) (m again : MediumState) → Repeats m again
        → Repeats (written_first at bytes 0 m) again }
    ensures again { (at : ℕ) (bytes : List ℕ) (m : Log) (n : ℕ) (old new : MediumState)
        (result : Result Unit IoFault) → n ≤ length bytes → Repeats (written_first at bytes n m.state) old
        → PutsAt true at bytes result old new
        → (n : ℕ) × (n ≤ length bytes) × Repeats (written_first at bytes n m.state) new }
    ensures written { (at : ℕ) (bytes : List ℕ) (m : Log) (n : ℕ) (old new : MediumState)
        (result said : Result Unit IoFault) → n ≤ length bytes → Repeats (written_first at bytes n m.state) old
        → PutsAt true at bytes result old new → IsSaid said result → AreBytes new.contents
        → (once : Log) × PutsAt true at bytes said m.state once.state × Repeats once.state new }
    ensures synced { (m : Log) (old new : MediumState) (result said : Result Unit IoFault)
        → Repeats m.state old → Flushes result old new → IsSaid said result
        → (once : Log) × Flushes said m.state once.state × Repeats once.state new }
    ensures survives { (once again : MediumState) (r : Repeats once again) (sector f k : ℕ) (contents : List ℕ)
        → k ≤ length again.past → SurvivesLoss sector again.start again.past f k contents
        → SurvivesLoss sector once.start once.past (r.state f) (r.state k) contents }
{}

/// What a cut leaves agrees up to its place with what was there (`cut`), and it still does once bytes are written that
/// begin at that place or before it (`written`): what is cut off, or isn't, is ignored until it is overwritten.
pub fn a_cut_is_ignored()
    ensures cut { (n : ℕ) (contents : List ℕ) → n ≤ length contents → AgreeTo n (take n contents) contents }
    ensures written { (n at : ℕ) (bytes cut : List ℕ) (old new : MediumState) (result : Result Unit IoFault)
        → AgreeTo n cut old.contents → at ≤ n → (puts : PutsAt true at bytes result old new)
        → AgreeTo (max n (at + puts.count)) (overlay cut (placed at (take puts.count bytes))) new.contents }
{}
