// Results that the definition of a run's result excludes, as the prover shows.
ghost use Rattle.std.specs.Borrow.{Bor};
ghost use Rattle.std.specs.Prelude.{◌≡◌, ◌<◌, ◌≤◌, ℕ, ℤ, List, [], ◌∷◌, length, min, pos, Ok, Err};
ghost use Rattle.hound.specs.{ReadsBlock, AnswersAll, AnswersSession, ReaderState, samples_left, Error};
ghost use Rattle.hound.specs.declared.Error.TheVariants.{OutOfMemory, TooLong, UnfinishedSample};
ghost use Rattle.hound.specs.declared.Step.{Step};
ghost use Rattle.hound.specs.declared.Step.TheVariants.{Whole, Batch, Flush};
ghost use Rattle.hound_tests.specs.Rows.{mono, stereo};

use hound::Sample;
use std::io;

// A sample that is too wide is ignored; the error of a later step is returned; a fault is
// reported as another error; an unfinished frame is ignored at a flush or at an end; a batch lacks
// memory.
fn wrong_answers()
    ensures passed_over { (first second third : Bor (List Step))
        → second.now ≡ Whole (pos 40000) ∷ [] →
        AnswersAll mono [] (first ∷ second ∷ third ∷ []) (Ok tt) → ⊥ }
    ensures later_error { AnswersSession stereo []
        (Whole (pos 40000) ∷ Whole (pos 11) ∷ Flush ∷ []) (Err UnfinishedSample) → ⊥ }
    ensures fault_as_too_long { AnswersSession mono [] (Whole (pos 11) ∷ []) (Err TooLong) → ⊥ }
    ensures unfinished_flush { AnswersSession stereo []
        (Whole (pos 11) ∷ Flush ∷ Whole (pos 13) ∷ []) (Ok tt) → ⊥ }
    ensures unfinished_end { AnswersSession stereo [] (Whole (pos 11) ∷ []) (Ok tt) → ⊥ }
    ensures batch_memory { (values : Bor (List ℤ)) →
        AnswersSession mono [] (Batch values ∷ []) (Err OutOfMemory) → ⊥ }
{}

// An error beside a slice that is full, or beside all samples that are left; an Ok of fewer.
fn wrong_blocks<R: io::Read, S: Sample>()
    ensures error { (count : ℕ) (error : Error) (before after : List S) (old new : ReaderState R) →
        ReadsBlock R.remaining S.rejection S.meaning count (Err error) before after old new →
        min (length after) (samples_left old) ≤ count → ⊥ }
    ensures few { (count : ℕ) (before after : List S) (old new : ReaderState R) →
        ReadsBlock R.remaining S.rejection S.meaning count (Ok tt) before after old new →
        count < min (length after) (samples_left old) → ⊥ }
{}

#[test]
fn definitions_leave_wrong_answers_out(_rt: HostRuntime) {
    wrong_answers();
    wrong_blocks::<&[u8], i16>();
}
