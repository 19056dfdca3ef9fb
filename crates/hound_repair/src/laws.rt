// What holds of every repair.
ghost use Rattle.std.specs.Prelude.{◌≡◌, ◌+◌, ◌-◌, ◌/◌, ◌<◌, ◌≤◌, ◌⊎◌, ℕ, Bool, true, not, IsTrue, List, None, Ok, Err, Result, length};
ghost use Rattle.std.specs.List.{concat, AllByRecursion};
ghost use Rattle.hound_medium.specs.{MediumState, Span};
ghost use Rattle.hound_durable.specs.{SurvivesLoss};
ghost use Rattle.hound_number.specs.{AreBytes};
ghost use Rattle.hound_walk.specs.{Head, IsSoundSpec};
ghost use Rattle.hound_spec.specs.declared.error.Error.{Error};
ghost use Rattle.hound_spec.specs.declared.spec.WavSpecEx.{WavSpecEx};
ghost use Rattle.hound_writer.specs.{IsIoError, IsStored, Log, Performed, PutsNothing, field};
ghost use Rattle.std.specs.declared.io.Error.{Error as IoFault};
ghost use Rattle.hound_repair.specs.declared.look.Damage.{Damage};
ghost use Rattle.hound_writer.specs.declared.effects.Action.{Action};
ghost use Rattle.hound_writer.specs.declared.effects.Report.{Report};
ghost use Rattle.hound_writer.specs.declared.effects.Report.TheVariants.{Done, Failed, Pending};
ghost use Rattle.hound_repair.specs.declared.machine.FailedAction.{FailedAction};
ghost use Rattle.hound_repair.specs.declared.machine.RepairError.{RepairError};
ghost use Rattle.hound_repair.specs.declared.machine.RepairError.TheVariants as errors;
ghost use Rattle.hound_repair.specs.declared.machine.RepairStep.{RepairStep};
ghost use Rattle.hound_repair.specs.declared.machine.RepairStep.TheVariants.{Asks, Found};
ghost use Rattle.hound_repair.specs.declared.machine.Repairing.{Repairing};
ghost use Rattle.hound_repair.specs.declared.machine.Repairing.TheVariants as states;
ghost use Rattle.hound_repair.specs.declared.stages.Task.{Task};
ghost use Rattle.hound_repair.specs.declared.stages.Unrepairable.{Unrepairable};
ghost use Rattle.hound_repair.specs.Driving.{DoesFor, IsPartlyRepaired, IsRequest, IsUnderRepair, first_stage};
ghost use Rattle.hound_repair.specs.Steps.{AsksNext, IsLengthOf, IsRejectedFor, IsRepair, asks_for, effects_left, IsLookedAt, IsNotRepaired, LeavesMended, PartlyMended, looks_for_chunks, mending, mends_for};
ghost use Rattle.hound_repair.specs.Held.{frame_length, held, mended, shown_length};
ghost use Rattle.hound_repair.specs.Repairing.{Finds, IsFoundAt, IsNoPad, LeavesFor, repair_of, ReadsFrames, Repairs, found_length, is_mended, repair_fault};
ghost use Rattle.hound_repair.specs.declared.look.Repair.{Repair};
ghost use Rattle.hound_writer.specs.declared.resuming.RepairState.TheVariants.{AllCounted, HasChunksAfterData, Whole};

/// A repair loses no sample that is stored: samples whose containers are stored from the data on are read first, as
/// many as whole frames have, with the spec of the head, whatever the sizes said.
///
/// Where this head has samples that are written and sizes that fit, the only error is `IoError`.
///
/// Where a frame has one byte (8 bits, mono) and the odd data length is one less than what is held, a last byte of 0 is
/// taken for a pad byte. Where chunks follow the data, `repair` writes nothing.
pub fn a_repair_keeps_stored_samples()
    ensures read { (looks : Bool) (old new : MediumState) (found : Repair) (s : WavSpecEx)
        (len start : ℕ) (list : List (List ℕ)) → Repairs looks old found new
        → (IsTrue looks → found.state ≡ HasChunksAfterData → ⊥) → Head old.contents s len start → IsSoundSpec s
        → AllByRecursion (λ c. length c ≡ s.bytes_per_sample) list
        → IsStored start (concat list) 0 (length (concat list)) old.contents
        → IsNoPad s (shown_length start len old.contents) (held start old.contents) list →
        (found.spec_ex ≡ s) × ReadsFrames found start list new.contents }
    ensures error { (looks : Bool) (old new : MediumState) (e : Error) (s : WavSpecEx)
        (len start : ℕ) → Head old.contents s len start
        → repair_fault s (shown_length start len old.contents) start (held start old.contents) ≡ None
        → IsNotRepaired looks old new e → IsIoError e }
{}

/// A second repair of a file finds the same frames, and writes nothing. It finds the file whole, unless bytes of a torn
/// frame are left that look like chunks.
///
/// It holds of contents as the first repair left them, unless that found chunks after the data, or that all samples
/// were counted. [`repair`](crate::repair) leaves such a file as it is, and finds the same again.
pub fn a_second_repair_writes_nothing()
    ensures { (looks again : Bool) (old mid next new : MediumState) (found other : Repair)
        → Repairs looks old found mid → (IsTrue looks → found.state ≡ HasChunksAfterData → ⊥)
        → (IsTrue looks → found.state ≡ AllCounted → ⊥) → 1 ≤ frame_length found.spec_ex → next.contents ≡ mid.contents
        → Repairs again next other new →
        ((other.state ≡ Whole) ⊎ ((other.state ≡ HasChunksAfterData) × IsTrue again × 1 ≤ found.left_over))
        × (other.spec_ex ≡ found.spec_ex) × (other.frames ≡ found.frames) × (new.contents ≡ next.contents) }
{}

/// A look reports what a repair of the same bytes would (`found`), and once it has found something, a repair fails only
/// where its medium does (`error`).
pub fn a_look_finds_what_a_repair_does()
    ensures found { (looks : Bool) (old seen next new : MediumState) (found other : Repair)
        → Finds looks old found seen → next.contents ≡ old.contents → Repairs looks next other new → other ≡ found }
    ensures error { (looks : Bool) (old seen next new : MediumState) (found : Repair) (e : Error)
        → Finds looks old found seen → next.contents ≡ old.contents → IsNotRepaired looks next new e → IsIoError e }
{}

/// The effects of a repair, done one after the other up to the first that fails, leave what [`repair`](crate::repair)
/// leaves, or a file that is partly mended (`leaves`), as in each intermediate state (`moments`), and after a loss of
/// power (`lost`) where the file was flushed at first and each size is within one sector.
pub fn effects_mend()
    ensures leaves { (looks : Bool) (d : Damage) (old new : Log) (result : Result (Unit {0}) IoFault)
        → IsLookedAt looks old.state.contents d → Performed (mending d) result old new
        → LeavesMended d.head.data_start d.sizes.data_length result old.state.contents new.state }
    ensures moments { (looks : Bool) (d : Damage) (old new : Log) (result : Result (Unit {0}) IoFault)
        → IsLookedAt looks old.state.contents d → Performed (mending d) result old new
        → Span (λ _. PartlyMended d.head.data_start d.sizes.data_length old.state.contents) 0 old.state new.state }
    ensures lost { (looks : Bool) (d : Damage) (old new : Log) (result : Result (Unit {0}) IoFault)
        (sector : ℕ) (left : List ℕ) → IsLookedAt looks old.state.contents d
        → old.state.flushed ≡ length old.state.past → 8 ≤ sector
        → (d.head.data_start - 4) / sector ≡ (d.head.data_start - 1) / sector → Performed (mending d) result old new
        → SurvivesLoss sector new.state.start new.state.past new.state.flushed (length new.state.past) left →
        PartlyMended d.head.data_start d.sizes.data_length old.state.contents left }
{}

/// Wherever the effects of a repair stop, another repair finds the same frames, by either call (`same`), fails no check
/// (`fault`), and where it mends the file leaves what the first one would have left (`finished`).
///
/// A data length that is half written may lead to bytes that look like chunks, and then [`repair`](crate::repair)
/// reports these; [`repair_to_end`](crate::repair_to_end) doesn't look for them. Where only the pad byte was missing,
/// `repair` finds all samples counted, and `repair_to_end` writes it.
pub fn a_stopped_repair_is_done_again()
    ensures same { (looks again : Bool) (old : List ℕ) (mid new : MediumState) (found other : Repair) (len start : ℕ)
        → IsFoundAt looks old found len start → (found.state ≡ HasChunksAfterData → ⊥) → 1 ≤ frame_length found.spec_ex
        → PartlyMended start (found_length found) old mid.contents
        → Repairs again mid other new → (IsTrue again → other.state ≡ HasChunksAfterData → ⊥) →
        (other.spec_ex ≡ found.spec_ex) × (other.frames ≡ found.frames) }
    ensures finished { (looks again : Bool) (old : List ℕ) (mid new : MediumState) (found other : Repair)
        (len start : ℕ) → IsFoundAt looks old found len start → (found.state ≡ HasChunksAfterData → ⊥)
        → 1 ≤ frame_length found.spec_ex → PartlyMended start (found_length found) old mid.contents
        → Repairs again mid other new → is_mended (not again) other.state ≡ true →
        new.contents ≡ mended start (found_length found) old }
    ensures fault { (looks : Bool) (old : List ℕ) (mid : MediumState) (found : Repair) (len start : ℕ)
        → IsFoundAt looks old found len start → (found.state ≡ HasChunksAfterData → ⊥) → 1 ≤ frame_length found.spec_ex
        → PartlyMended start (found_length found) old mid.contents →
        Head mid.contents found.spec_ex (field (start - 4) mid.contents) start
        × (repair_fault found.spec_ex (shown_length start (field (start - 4) mid.contents) mid.contents)
        start (held start mid.contents) ≡ None) }
{}

/// A caller that does what a repair requests ([`repair_next`](crate::repair_next)) repairs the file, whatever fails.
/// It begins with a file of so many bytes (`begins`). As long as there is a request (`requests`), it reads that part
/// of the file or performs that effect, and reports how that ended (`goes_on`). Where it doesn't report, it may have
/// done it or not, and the request comes again. If it reports a failure, the repair ends (`fails`).
///
/// Once something is found the file is as the task leaves it: as [`repair`](crate::repair) or
/// [`repair_to_end`](crate::repair_to_end) leaves it (`found`). If the bytes are rejected, they have that fault, and
/// nothing was written (`rejected`). Wherever else it ends (`failed`) or stops (`stopped`), nothing was written, or
/// the file is partly mended, and another repair finds the same frames
/// ([`a_stopped_repair_is_done_again`](crate::a_stopped_repair_is_done_again)).
pub fn a_repairer_repairs()
    ensures begins { (task : Task) (n : ℕ) (old : MediumState) →
        IsUnderRepair task n old (states.Looks first_stage) (Ok (Asks (asks_for first_stage n))) old }
    ensures goes_on { (keeps : Bool) (task : Task) (n : ℕ) (old mid new : MediumState) (state next : Repairing)
        (action : Action) (bytes : List ℕ) (report : Report) (answer : Result RepairStep RepairError)
        → AreBytes old.contents → IsLengthOf n old.contents → IsUnderRepair task n old state (Ok (Asks action)) mid
        → DoesFor keeps action bytes report mid new → AsksNext task n bytes report state next answer →
        IsUnderRepair task n old next answer new }
    ensures fails { (task : Task) (n : ℕ) (old mid : MediumState) (state next : Repairing) (action : Action)
        (bytes : List ℕ) (answer : Result RepairStep RepairError) → IsLengthOf n old.contents
        → IsUnderRepair task n old state (Ok (Asks action)) mid → AsksNext task n bytes Failed state next answer →
        (failure : FailedAction) × (answer ≡ Err (errors.Failed failure)) }
    ensures requests { (task : Task) (n : ℕ) (old new : MediumState) (state : Repairing) (action : Action)
        → IsUnderRepair task n old state (Ok (Asks action)) new → IsRequest action }
    ensures found { (task : Task) (n : ℕ) (old new : MediumState) (state : Repairing) (d : Damage)
        → IsUnderRepair task n old state (Ok (Found d)) new →
        IsFoundAt (looks_for_chunks task) old.contents (repair_of d) d.head.data_length d.head.data_start
        × LeavesFor (mends_for task d.state) (repair_of d) d.head.data_start old new
        × (IsRepair task → new.faults ≡ old.faults → Repairs (looks_for_chunks task) old (repair_of d) new) }
    ensures rejected { (task : Task) (n : ℕ) (old new : MediumState) (state : Repairing) (why : Unrepairable)
        → IsUnderRepair task n old state (Err (errors.Rejected why)) new →
        IsRejectedFor old.contents why × PutsNothing old new }
    ensures failed { (task : Task) (n : ℕ) (old new : MediumState) (state : Repairing) (failure : FailedAction)
        → AreBytes old.contents → IsUnderRepair task n old state (Err (errors.Failed failure)) new →
        IsPartlyRepaired task old new }
    ensures stopped { (keeps : Bool) (task : Task) (n : ℕ) (old mid new : MediumState) (state : Repairing)
        (action : Action) (bytes : List ℕ) (report : Report) → AreBytes old.contents
        → IsUnderRepair task n old state (Ok (Asks action)) mid → DoesFor keeps action bytes report mid new →
        IsPartlyRepaired task old new }
{}

/// A repair ends: after a report of `Done`, whatever was read, fewer effects are left to be requested (`nearer`), and
/// without a report as many (`again`). A report of `Failed` ends it at once (`ended`), and nothing else ends it with
/// the error that a call failed (`failed`).
///
/// Of a file of n bytes they are some n / 2 at most, since each chunk has a header of eight bytes (`bounded`).
pub fn a_repair_ends()
    ensures nearer { (task : Task) (n : ℕ) (bytes : List ℕ) (old new : Repairing) (action : Action)
        → AsksNext task n bytes Done old new (Ok (Asks action)) → effects_left n new < effects_left n old }
    ensures again { (task : Task) (n : ℕ) (bytes : List ℕ) (old new : Repairing) (action : Action)
        → AsksNext task n bytes Pending old new (Ok (Asks action)) → effects_left n new ≡ effects_left n old }
    ensures ended { (task : Task) (n : ℕ) (bytes : List ℕ) (old new : Repairing) (action : Action)
        → AsksNext task n bytes Failed old new (Ok (Asks action)) → ⊥ }
    ensures failed { (task : Task) (n : ℕ) (bytes : List ℕ) (report : Report) (old new : Repairing)
        (failure : FailedAction) → AsksNext task n bytes report old new (Err (errors.Failed failure)) →
        (report ≡ Failed) ⊎ (old ≡ states.Failed failure) }
    ensures bounded { (n : ℕ) → effects_left n (states.Looks first_stage) ≤ n / 2 + 16 }
{}
