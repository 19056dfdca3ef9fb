// The walk of a caller who reads the file.
ghost use Rattle.std.specs.Prelude.{◌≡◌, ◌<◌, pos, IfSome};
ghost use Rattle.hound_walk.specs.{IsSoundOption};
ghost use Rattle.hound_writer.specs.declared.effects.Report.TheVariants.{Done};
ghost use Rattle.hound_slices.specs.Effects.{report_of};
ghost use Rattle.hound_slices.specs.Writing.{IsExplicit};
ghost use Rattle.hound_slices.specs.Walks.{AnswersPart, Asks, FindsHead, IsStepNumber, bytes_of_part, found_of, part_of, walk_of, walk_with};

use crate::effect::{effect_for_c, report_of};
use crate::error::{CallError, code_of_error};
use crate::spec::{HoundInfo, HoundSpec, HoundWalk, info_for_c, spec_for_c, spec_from_c};
use hound_spec::WavSpecEx;
use hound_walk::{HeadWalk, Part, Step, count_samples, take_part};
use hound_writer::{Action, Report};

// The spec that was found so far, if C's is one of a file.
pub(crate) fn found_of(spec: HoundSpec) -> Option<WavSpecEx>
    ensures is { result ≡ found_of spec }
    ensures sound { IsSoundOption result }
{
    let spec_ex = spec_from_c(spec);
    if spec_ex.spec.channels == 0 {
        return None;
    }
    if spec_ex.bytes_per_sample == 0 {
        return None;
    }
    if spec_ex.spec.channels as u32 * spec_ex.bytes_per_sample as u32 > u16::MAX as u32 {
        return None;
    }
    Some(spec_ex)
}

// The walk with C's numbers.
pub(crate) fn walk_with(spec: HoundSpec, taken: u32, part: u32, fmt_length: u32) -> HeadWalk
    ensures is { result ≡ walk_with spec taken part fmt_length }
    ensures sound { IsSoundOption result.found }
{
    HeadWalk {
        found: found_of(spec),
        taken,
        part: match part {
            0 => Part::Front,
            1 => Part::Header,
            2 => Part::Last,
            _ => Part::Fmt(fmt_length),
        },
    }
}

// The numbers of a part.
pub(crate) fn numbers_of(part: Part) -> (u32, u32)
    ensures is { part_of result.0 result.1 ≡ part }
    ensures few { result.0 < 4 }
{
    match part {
        Part::Front => (0, 0),
        Part::Header => (1, 0),
        Part::Last => (2, 0),
        Part::Fmt(length) => (3, length),
    }
}

// The walk that C's is.
fn walk_of(walk: HoundWalk) -> HeadWalk
    ensures is { result ≡ walk_of walk }
    ensures sound { IsSoundOption result.found }
{
    walk_with(walk.spec, walk.taken, walk.part, walk.fmt_length)
}

// The bytes of the part that C's walk asks for, as they were read.
fn part_read(walk: &HoundWalk) -> &[u8]
    ensures { result.now ≡ bytes_of_part walk.now }
{
    let read = walk.effect.length.min(40) as usize;
    &walk.effect.bytes[..read.min(walk_of(*walk).length())]
}

// C's form of a spec that was found, or of none.
pub(crate) fn found_for_c(found: Option<WavSpecEx>) -> HoundSpec
    requires sound { IsSoundOption found }
    ensures is { found_of result ≡ found }
    ensures explicit { IfSome found (λ _. IsExplicit result) }
{
    match found {
        None => HoundSpec {
            sample_rate: 0,
            channels: 0,
            bits_per_sample: 0,
            bytes_per_sample: 0,
            sample_format: 0,
        },
        Some(spec_ex) => spec_for_c(spec_ex),
    }
}

// C's form of a walk.
fn walk_for_c(walk: HeadWalk) -> HoundWalk
    requires sound { IsSoundOption walk.found }
    ensures is { walk_of result ≡ walk }
    ensures asks { Asks result }
{
    let (part, fmt_length) = numbers_of(walk.part);
    HoundWalk {
        effect: effect_for_c(Some(Action::Read(walk.start(), walk.length() as u32))),
        spec: found_for_c(walk.found),
        taken: walk.taken,
        part,
        fmt_length,
    }
}

/// Takes the part of a file that C's walk asked for: 1 if it asks for a part, 0 if the data begin there, or why there
/// are none. The samples are counted as the header counts them, or are those of a stream.
#[inline(always)]
pub fn step_walk(walk: &mut HoundWalk, info: &mut HoundInfo, is_counted: bool) -> i32
    ensures answers { AnswersPart is_counted (report_of walk.old.effect) result walk.old walk.new info.new }
    ensures named { report_of walk.old.effect ≡ Done → IsStepNumber result }
    ensures found { result ≡ pos 0 → FindsHead walk.old info.new }
    ensures stays { (result ≡ pos 1 → ⊥) → walk.new ≡ walk.old }
    ensures kept { (result ≡ pos 0 → ⊥) → info.new ≡ info.old }
{
    let asked = walk_of(*walk);
    match report_of(walk.effect) {
        Report::Pending => {
            *walk = walk_for_c(asked);
            return 1;
        }
        Report::Failed => return code_of_error(CallError::NotPerformed),
        Report::Done => (),
    }
    let head = match take_part(asked, part_read(walk)) {
        Ok(Step::Next(next)) => {
            *walk = walk_for_c(next);
            return 1;
        }
        Ok(Step::Data(head)) => head,
        Err(cause) => return code_of_error(CallError::Head(cause)),
    };
    let samples = if is_counted {
        match count_samples(head) {
            Ok(samples) => samples,
            Err(cause) => return code_of_error(CallError::Head(cause)),
        }
    } else {
        0
    };
    *info = info_for_c(head, samples);
    0
}
