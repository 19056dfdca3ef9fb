// Repairs: of a file in a slice, and of one that the caller reads and writes.
ghost use Rattle.std.specs.Prelude.{◌≡◌, ◌≤◌, Some, IfSome, IfOk, ◌/◌, ◌<◌, IfErr, length};
ghost use Rattle.hound_repair.specs.{IsSoundHead, IsSoundRepairing, IsRepair, IsSoundDamage, frame_length, looks_for_chunks, repair_of};
ghost use Rattle.hound_repair.specs.declared.machine.Repairing.TheVariants as states;
ghost use Rattle.hound_repair.specs.declared.stages.Stage.TheVariants as stages;
ghost use Rattle.hound_slices.specs.Effects.{effect_of};
ghost use Rattle.hound_slices.specs.Repairers.{BeginsRepairer, HasRepairerNumbers, StepsRepairer, after_head, count_of, failure_of_code, head_of, repairing_of, task_of};
ghost use Rattle.hound_slices.specs.Repairing.{FindsInFile, IsDamageError, IsReported, RepairsFile, state_code, state_of_code};

use crate::effect::{HoundEffect, effect_for_c, report_of};
use crate::error::{CallError, error_of};
use crate::spec::{HoundRepair, HoundSpec, spec_for_c};
use crate::walking::{found_for_c, found_of, numbers_of, walk_with};
use hound_repair::{
    Damage, FailedAction, RepairError, RepairState, RepairStep, Repairing, SeenHead, Stage, Task,
    find_damage_in_bytes, repair_bytes, repair_next,
};
use hound_writer::Action;

/// A repairer of a file that the caller reads and writes.
#[repr(C)]
#[derive(Clone, Copy)]
pub struct HoundRepairer {
    pub effect: HoundEffect,
    pub length: u64,
    pub place: u64,
    pub data_start: u64,
    pub spec: HoundSpec,
    pub data_length: u32,
    pub taken: u32,
    pub part: u32,
    pub fmt_length: u32,
    pub number: u32,
    pub mode: u32,
    pub unused: u32,
}

// What the caller requests, by its number.
fn task_of(mode: u32) -> Task
    ensures { result ≡ task_of mode }
{
    match mode {
        1 => Task::Repair,
        2 => Task::RepairToEnd,
        3 => Task::MakeCanonical,
        _ => Task::FindDamage,
    }
}

// What failed, by its number.
fn failure_of_code(number: u32) -> FailedAction
    ensures { result ≡ failure_of_code number }
{
    match number {
        0 => FailedAction::Sync,
        _ => FailedAction::Call,
    }
}

// The number of what failed.
fn code_of_failure(failure: FailedAction) -> u32
    ensures is { failure_of_code result ≡ failure }
    ensures least { result ≤ 1 }
{
    failure as u32
}

// The head that was found, if C's is one of a file.
fn head_of(c: HoundRepairer) -> Option<SeenHead>
    ensures is { result ≡ head_of c }
    ensures sound { IfSome result IsSoundHead }
{
    let spec_ex = found_of(c.spec)?;
    if c.data_start < 20 || c.data_start > 20 + u32::MAX as u64 {
        return None;
    }
    Some(SeenHead {
        spec_ex,
        data_length: c.data_length,
        data_start: c.data_start,
        has_more: c.taken == 1,
    })
}

// Where a repairer is that has found the head.
fn after_head(c: HoundRepairer, head: SeenHead) -> Repairing
    requires { IsSoundHead head }
    ensures is { result ≡ after_head c head }
    ensures sound { IsSoundRepairing result }
{
    match c.part {
        4 => Repairing::Looks(Stage::Last(head)),
        5 => Repairing::Looks(Stage::Size(head)),
        6 => Repairing::Looks(Stage::Chunk(head, c.place, true)),
        7 => Repairing::Looks(Stage::Chunk(head, c.place, false)),
        8 => Repairing::Looks(Stage::Tag(head)),
        9 => Repairing::Mends(head, c.number),
        _ => Repairing::Found(head, state_of_code(c.number)),
    }
}

// The repair that C's is.
fn repairing_of(c: HoundRepairer) -> Repairing
    ensures is { result ≡ repairing_of c }
    ensures sound { IsSoundRepairing result }
{
    if c.part < 4 {
        let walk = walk_with(c.spec, c.taken, c.part, c.fmt_length);
        return Repairing::Looks(Stage::Head(walk));
    }
    if c.part == 11 {
        return Repairing::Failed(failure_of_code(c.number));
    }
    match head_of(c) {
        None => Repairing::Failed(FailedAction::Call),
        Some(head) => after_head(c, head),
    }
}

// C's form of a repair that has found a head, with these numbers.
fn with_head(c: HoundRepairer, head: SeenHead, part: u32, place: u64, number: u32) -> HoundRepairer
    requires { IsSoundHead head }
    ensures head { head_of result ≡ Some head }
    ensures part { result.part ≡ part }
    ensures place { result.place ≡ place }
    ensures number { result.number ≡ number }
    ensures length { result.length ≡ c.length }
    ensures mode { result.mode ≡ c.mode }
    ensures effect { result.effect ≡ c.effect }
    ensures taken { result.taken ≤ 1 }
{
    HoundRepairer {
        place,
        data_start: head.data_start,
        spec: found_for_c(Some(head.spec_ex)),
        data_length: head.data_length,
        taken: if head.has_more { 1 } else { 0 },
        part,
        number,
        ..c
    }
}

// C's form of a repair that requests this, with the length and the task of this one.
fn repairer_for_c(c: HoundRepairer, state: Repairing, action: Option<Action>) -> HoundRepairer
    requires { IsSoundRepairing state }
    ensures is { repairing_of result ≡ state }
    ensures length { result.length ≡ c.length }
    ensures mode { result.mode ≡ c.mode }
    ensures effect { result.effect ≡ effect_of action }
    ensures numbers { HasRepairerNumbers result }
{
    let c = HoundRepairer {
        effect: effect_for_c(action),
        ..c
    };
    match state {
        Repairing::Looks(Stage::Head(walk)) => {
            let (part, fmt_length) = numbers_of(walk.part);
            HoundRepairer {
                spec: found_for_c(walk.found),
                taken: walk.taken,
                part,
                fmt_length,
                ..c
            }
        }
        Repairing::Looks(Stage::Last(head)) => with_head(c, head, 4, 0, 0),
        Repairing::Looks(Stage::Size(head)) => with_head(c, head, 5, 0, 0),
        Repairing::Looks(Stage::Chunk(head, place, true)) => with_head(c, head, 6, place, 0),
        Repairing::Looks(Stage::Chunk(head, place, false)) => with_head(c, head, 7, place, 0),
        Repairing::Looks(Stage::Tag(head)) => with_head(c, head, 8, 0, 0),
        Repairing::Mends(head, number) => with_head(c, head, 9, 0, number),
        Repairing::Found(head, found) => with_head(c, head, 10, 0, state_code(found)),
        Repairing::Failed(failure) => HoundRepairer {
            part: 11,
            number: code_of_failure(failure),
            ..c
        },
    }
}

// How many bytes a repairer has asked for.
fn count_of(state: Repairing) -> usize
    ensures { result ≡ count_of state }
{
    match state {
        Repairing::Looks(stage) => stage.count(),
        _ => 0,
    }
}

/// A repairer of a file of so many bytes.
pub fn begin_repairer(length: u64, mode: u32) -> HoundRepairer
    ensures { BeginsRepairer length mode result }
{
    HoundRepairer {
        effect: effect_for_c(None),
        length,
        place: 0,
        data_start: 0,
        spec: found_for_c(None),
        data_length: 0,
        taken: 0,
        part: 0,
        fmt_length: 0,
        number: 0,
        mode,
        unused: 0,
    }
}

/// Takes what an effect was reported as: 1 if an effect is requested, 0 if all is done.
pub fn step_repairer(
    repairer: &mut HoundRepairer,
    found: &mut HoundRepair,
) -> Result<usize, CallError>
    ensures steps { StepsRepairer repairer.old repairer.new found.old found.new result }
    ensures few { IfOk result (λ n. n ≤ 1) }
{
    let c = *repairer;
    let task = task_of(c.mode);
    let mut state = repairing_of(c);
    let asked = count_of(state);
    let read = (c.effect.length.min(40) as usize).min(asked);
    let step = repair_next(
        &mut state,
        c.length,
        task,
        &c.effect.bytes[..read],
        report_of(c.effect),
    );
    match step {
        Ok(RepairStep::Asks(action)) => {
            *repairer = repairer_for_c(c, state, Some(action));
            Ok(1)
        }
        Ok(RepairStep::Found(damage)) => {
            *found = repair_for_c(damage, c.length);
            *repairer = repairer_for_c(c, state, None);
            Ok(0)
        }
        Err(RepairError::Rejected(why)) => Err(why.into()),
        Err(RepairError::Failed(failure)) => {
            *repairer = repairer_for_c(c, state, None);
            Err(error_of(RepairError::Failed(failure)))
        }
    }
}

// The number of how a file was found.
fn state_code(state: RepairState) -> u32
    ensures { result ≡ state_code state }
{
    state as u32
}

// How a file was found, by that number.
pub(crate) fn state_of_code(number: u32) -> RepairState
    ensures { result ≡ state_of_code number }
{
    match number {
        0 => RepairState::Whole,
        1 => RepairState::CutOff,
        3 => RepairState::AllCounted,
        _ => RepairState::HasChunksAfterData,
    }
}

// What was found of a file of so many bytes, for C.
fn repair_for_c(damage: Damage, length: u64) -> HoundRepair
    requires { IsSoundDamage damage }
    ensures reported { IsReported (repair_of damage) result }
    ensures start { result.data_start ≡ damage.head.data_start }
    ensures says { result.data_length ≡ damage.head.data_length }
    ensures counted { result.counted ≡ damage.head.data_length / frame_length damage.head.spec_ex }
    ensures length { result.length ≡ length }
{
    let repair = damage.repair();
    let frame = repair.spec_ex.spec.channels as u32 * repair.spec_ex.bytes_per_sample as u32;
    HoundRepair {
        spec: spec_for_c(repair.spec_ex),
        frames: repair.frames,
        left_over: repair.left_over,
        state: state_code(repair.state),
        data_start: damage.head.data_start,
        length,
        data_length: damage.head.data_length,
        counted: damage.head.data_length / frame,
    }
}

/// Looks at a file, and returns what a repair would report.
pub fn find_file_damage(file: &[u8]) -> Result<HoundRepair, CallError>
    ensures found { IfOk result (FindsInFile file.now) }
    ensures error { IfErr result (IsDamageError file.now) }
{
    let damage = find_damage_in_bytes(file, Task::FindDamage)?;
    Ok(repair_for_c(damage, file.len() as u64))
}

/// Repairs the file in the first bytes, reports what was found, and returns its length. Chunks after the data are
/// looked for unless the task is to repair it to its end.
pub fn repair_file(
    file: &mut [u8],
    used: usize,
    task: Task,
    found: &mut HoundRepair,
) -> Result<usize, CallError>
    requires { IsRepair task }
    ensures repairs { RepairsFile (looks_for_chunks task) used file.old file.new found.old found.new result }
    ensures within { IfOk result (λ n. n ≤ length file.old) }
{
    if used > file.len() {
        return Err(CallError::NoRoom);
    }
    let damage = find_damage_in_bytes(&file[..used], task)?;
    let length = repair_bytes(file, used, task, damage).ok_or(CallError::NoRoom)?;
    *found = repair_for_c(damage, used as u64);
    Ok(length)
}
