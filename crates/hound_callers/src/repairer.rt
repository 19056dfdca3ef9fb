// Repairs whose caller reads the file and performs the effects.
ghost use Rattle.std.specs.Prelude.{◌≡◌, ◌≤◌, IfErr, IfOk, length, take};
ghost use Rattle.hound.specs.{DoesFor, IsLengthOf, IsRequest, PerformsOn, WhereTells};
ghost use Rattle.hound.specs.declared.Report.TheVariants.{Pending};
ghost use Rattle.hound_callers.specs.Repairer.{IsNotRepairedBy, IsRepairedBy, faults_by};

use hound::{
    Action, Effect, Medium, Repair, RepairError, RepairStep, Repairing, Report, Source, Stage,
    Task, a_repair_ends, a_repairer_repairs, part_at, put_all_at, repair_next,
};
use std::{io, result};

// Performs an effect.
fn perform_effect<M: Medium>(medium: &mut M, effect: Effect) -> io::Result<()>
    ensures { WhereTells M.tells (PerformsOn M.keeps effect result (M.state medium.old) (M.state medium.new)) }
{
    match effect {
        Effect::Sync => medium.flush(),
        Effect::Pad(place) => put_all_at(medium, place, &[0]),
        Effect::Size(place, size) => put_all_at(medium, place, &size.to_le_bytes()),
    }
}

// Reads a part into the front of a buffer, or performs an effect, and reports how that ended. It says how many bytes
// were read.
fn perform<M: Source + Medium>(
    medium: &mut M,
    action: Action,
    buf: &mut [u8; 40],
    count: &mut usize,
) -> Report
    requires within { count.old ≤ 40 }
    ensures within { count.new ≤ 40 }
    ensures reported { result ≡ Pending → ⊥ }
    ensures does { WhereTells M.tells (IsRequest action →
        DoesFor M.keeps action (take count.new buf.new) result (M.state medium.old) (M.state medium.new)) }
    ensures faults { WhereTells M.tells (IsRequest action →
        (M.state medium.new).faults ≡ faults_by result (M.state medium.old).faults) }
{
    let is_done = match action {
        Action::Read(place, length) => {
            let asked = (length as usize).min(40);
            match part_at(medium, place, &mut buf[..asked]) {
                Ok(read) => {
                    *count = read;
                    true
                }
                Err(_) => false,
            }
        }
        Action::Perform(effect) => perform_effect(medium, effect).is_ok(),
        Action::WriteBlock(..) | Action::Shorten(_) => false,
    };
    if is_done {
        Report::Done
    } else {
        Report::Failed
    }
}

/// Repairs a file of so many bytes as programs in other languages do: it reads the parts that are requested, performs
/// the effects, and reports how each ended, until something is found (`found`), or the bytes are rejected or a call
/// fails (`rejected`). Of the first requests those reports are lost that `lost` says, as of a program that was
/// interrupted, and what has no report is done again.
pub fn repair_by_requests<M: Source + Medium>(
    medium: &mut M,
    length: u64,
    task: Task,
    lost: &[bool],
) -> result::Result<Repair, RepairError>
    requires { WhereTells M.tells (IsLengthOf length (M.state medium.old).contents) }
    ensures found { IfOk result (λ found. WhereTells M.tells
        (IsRepairedBy task lost.now found (M.state medium.old) (M.state medium.new))) }
    ensures rejected { IfErr result (λ error. WhereTells M.tells
        (IsNotRepairedBy task lost.now error (M.state medium.old) (M.state medium.new))) }
{
    a_repairer_repairs();
    a_repair_ends();
    let mut state = Repairing::Looks(Stage::first());
    let mut buf = [0; 40];
    let mut count = 0;
    let mut report = Report::Pending;
    let mut lost = lost;
    'requests: loop {
        let action = match repair_next(&mut state, length, task, &buf[..count], report)? {
            RepairStep::Asks(action) => action,
            RepairStep::Found(damage) => return Ok(damage.repair()),
        };
        report = perform(medium, action, &mut buf, &mut count);
        if let Some((is_lost, rest)) = lost.split_first() {
            lost = rest;
            if *is_lost {
                report = Report::Pending;
            }
        }
    }
}
