// Runs of a writer: all of its steps, or those up to the first error, and sessions one after the other over one medium.
ghost use Rattle.std.specs.Prelude.{◌≡◌, ◌≤◌, Ok, OnOk, List, Result, [], length, map, MatchResult, ◌<◌, Err, IfErr};
ghost use Rattle.std.specs.Io.{StartsWith};
ghost use Rattle.hound_spec.specs.declared.error.Error.{Error};
ghost use Rattle.hound_spec.specs.declared.spec.WavSpecEx.{WavSpecEx};
ghost use Rattle.hound_spec.specs.{IsWritable, canonical, data_start};
ghost use Rattle.hound_medium.specs.{WhereTells};
ghost use Rattle.hound_writer.specs.{mark_of, Call, Lead, asked_by_all, Finishes, Accepts};
ghost use Rattle.hound.specs.declared.session.Begin.TheVariants.{New, Append};
ghost use Rattle.hound.specs.declared.session.End.TheVariants.{Finalize};
ghost use Rattle.hound.specs.Headline.{NoFault};
ghost use Rattle.hound.specs.Run.{BeginsAs, EndsAs, IsNotBegunAs, IsSession, Ran, accepted_by_steps, asked_by, containers_of, Takes, is_sixteen, batch_containers, IsReturned, RunsFrom, RunsOn, RunsOnce, RunsUntil, StopsEarly, all_steps};

use crate::session::{Begin, End, Step};
use hound_medium::{Medium, Source};
use hound_spec::{Error, Result, SampleFormat, WavSpec, WavSpecEx};
use hound_writer::WavWriter;
use std::alloc::Global;
use std::result;

// Whether a sample or batch was accepted, or all was published.
#[inline(always)]
fn is_marked(answer: &Result<()>) -> bool
    ensures { result ≡ mark_of answer.now }
{
    match answer {
        Ok(()) | Err(Error::UnfinishedSample) => true,
        Err(_) => false,
    }
}

// Begins a new file, or appends to the existing one.
fn begin_writer<M: Source + Medium>(
    medium: M,
    begin: Begin,
) -> result::Result<WavWriter<M>, (M, Error)>
    requires { WhereTells M.tells ((M.state medium).place ≡ 0) }
    ensures { MatchResult result (BeginsAs M.Placed begin medium)
        (λ rejected. IsNotBegunAs M.Placed begin medium rejected.0 rejected.1) }
{
    match begin {
        Begin::New(spec_ex) => WavWriter::try_new(medium, spec_ex),
        Begin::Append => WavWriter::try_append(medium),
    }
}

// Takes all steps, whatever earlier ones returned, and marks them.
fn take_steps<M: Medium>(writer: &mut WavWriter<M>, steps: &[Step], marks: &mut [bool])
    requires { length steps.now ≡ length marks.old }
    ensures size { length marks.new ≡ length marks.old }
    ensures runs { (calls : List Call) × (asked_by_all calls ≡ map (asked_by writer.old.spec_ex) steps.now)
        × (marks.new ≡ map (λ (call : Call). mark_of call.answer) calls) × Lead M.Placed calls writer.old writer.new }
{
    for i in 0..steps.len() {
        let answer = take_step(writer, steps[i]);
        marks[i] = is_marked(&answer);
    }
}

// Ends a run, and returns the medium.
fn end_writer<M: Medium>(writer: WavWriter<M>, end: End) -> (M, Result<()>)
    ensures { (finished : Result Unit Error)
        × Finishes M.Placed writer finished result.0 × EndsAs end result.1 finished }
{
    match end {
        End::Finalize => writer.finalize_into(),
        End::Drop => (writer.drop_into(), Ok(())),
    }
}

/// Runs a whole session of a writer, and returns the medium.
///
/// It begins a file or appends to one, takes every step whatever earlier ones returned, and ends. A mark is true if a
/// sample or a whole batch was accepted, or a flush published all that was, with an unfinished frame too. The result is
/// that of the constructor, if it is an error, and all marks are false; else that of `finalize_into`, or Ok at a drop.
///
/// There must be as many marks as steps, with any values before, and the medium must be at 0, as each new one is;
/// `go(0)` leads there. No memory is taken, for batches neither, so the allocator isn't used.
pub fn run_session<M: Source + Medium>(
    _alloc: Global,
    medium: M,
    begin: Begin,
    steps: &[Step],
    marks: &mut [bool],
    end: End,
) -> (M, Result<()>)
    requires place { WhereTells M.tells ((M.state medium).place ≡ 0) }
    requires size { length steps.now ≡ length marks.old }
    ensures size { length marks.new ≡ length marks.old }
    ensures session { IsSession M.Placed begin steps.now marks.new end medium result.1 result.0 }

    // An empty medium that has a whole header then is a file that was begun.
    ensures begun { WhereTells M.tells ((spec_ex : WavSpecEx) → begin ≡ New spec_ex
        → (M.state medium).contents ≡ [] → data_start spec_ex ≤ length (M.state result.0).contents →
        Ran M.Placed begin steps.now marks.new end medium result.1 result.0) }

    // A new file that was finalized is the canonical one of what was accepted.
    ensures canonical { WhereTells M.tells ((spec_ex : WavSpecEx) → begin ≡ New spec_ex → end ≡ Finalize →
        OnOk result.1 (StartsWith (M.state result.0).contents
        (canonical spec_ex (accepted_by_steps spec_ex steps.now marks.new)))) }

    // If the medium was empty and no call of it failed, it is exactly that, also at a drop.
    ensures exact { WhereTells M.tells ((spec_ex : WavSpecEx) → begin ≡ New spec_ex
        → IsWritable spec_ex → (M.state medium).contents ≡ [] → NoFault (M.state medium) (M.state result.0) →
        (M.state result.0).contents ≡ canonical spec_ex (accepted_by_steps spec_ex steps.now marks.new)) }
{
    marks.fill(false);
    let mut writer = match begin_writer(medium, begin) {
        Ok(writer) => writer,
        Err((medium, error)) => return (medium, Err(error)),
    };
    take_steps(&mut writer, steps, marks);
    end_writer(writer, end)
}

// Takes steps up to the first that returns an error. Whatever end follows, they are then a session.
fn take_until_error<M: Medium>(writer: &mut WavWriter<M>, steps: &[Step]) -> Result<()>
    ensures { MatchResult result (λ _. (answer : Result Unit Error) (medium : M)
        → Finishes M.Placed writer.new answer medium → RunsUntil M.Placed steps.now writer.old answer medium)
        (λ e. (dropped : Result Unit Error) (medium : M) → Finishes M.Placed writer.new dropped medium
        → RunsUntil M.Placed steps.now writer.old (Err e) medium) }
{
    for i in 0..steps.len() {
        match take_step(writer, steps[i]) {
            Ok(()) => {}
            Err(error) => return Err(error),
        }
    }
    Ok(())
}

// Runs a session up to the first error, and returns the medium.
fn run_until_error<M: Source + Medium>(medium: M, begin: Begin, steps: &[Step]) -> (M, Result<()>)
    requires { WhereTells M.tells ((M.state medium).place ≡ 0) }
    ensures { RunsFrom M.Placed begin steps.now medium result.1 result.0 }
{
    let mut writer = match begin_writer(medium, begin) {
        Ok(writer) => writer,
        Err((medium, error)) => return (medium, Err(error)),
    };
    match take_until_error(&mut writer, steps) {
        Ok(()) => writer.finalize_into(),
        Err(error) => (writer.drop_into(), Err(error)),
    }
}

// Appends to the file in a medium by one more session.
fn append_session<M: Source + Medium>(medium: M, steps: &[Step]) -> (M, Result<()>)
    ensures { RunsOnce M.Placed Append steps.now medium result.1 result.0 }
{
    let mut medium = medium;
    if let Err(error) = medium.go(0) {
        return (medium, Err(Error::IoError(error)));
    }
    run_until_error(medium, Begin::Append, steps)
}

// Appends to the file in a medium by further sessions, up to the first error.
fn append_sessions<M: Source + Medium>(medium: M, sessions: &[&[Step<'_>]]) -> (M, Result<()>)
    ensures { RunsOn M.Placed Append sessions.now medium result.1 result.0 }
{
    let mut medium = medium;
    for i in 0..sessions.len() {
        let (back, answer) = append_session(medium, sessions[i]);
        medium = back;
        if let Err(error) = answer {
            return (medium, Err(error));
        }
    }
    (medium, Ok(()))
}

/// Runs sessions over one medium: the first begins a file of this spec, each further one appends to it, and each is
/// finalized.
///
/// It returns the first error of any call and ends there: `Unsupported`, for a spec that can't be written or a batch
/// for samples of other than sixteen bits; an error of a sample or a batch; an `UnfinishedSample` of a flush or an end;
/// or an `IoError` of the medium. What was accepted before is published then, unless the medium failed. Without
/// sessions nothing is done.
///
/// The medium is returned. It must be at 0 before, as each new one is; `go(0)` leads there. No memory is taken, so the
/// allocator isn't used. If steps borrow their batches, call it from a function that takes `&[Step]`, and pass these as
/// `&[&steps[..]]`.
pub fn run_sessions<'a, M: Source + Medium>(
    _alloc: Global,
    medium: M,
    spec_ex: WavSpecEx,
    sessions: &'a [&'a [Step<'a>]],
) -> (M, Result<()>)
    requires { WhereTells M.tells ((M.state medium).place ≡ 0) }
    ensures sessions { RunsOn M.Placed (New spec_ex) sessions.now medium result.1 result.0 }

    // An error is that of the first step or end that isn't Ok, by the spec and the steps.
    ensures returned { IsReturned M.Placed spec_ex sessions.now medium result.1 result.0 }

    // The bytes of one session over all containers.
    ensures canonical { WhereTells M.tells (0 < length sessions.now →
        OnOk result.1 (StartsWith (M.state result.0).contents
        (canonical spec_ex (containers_of spec_ex (all_steps sessions.now))))) }
    ensures exact { WhereTells M.tells (0 < length sessions.now → (M.state medium).contents ≡ [] →
        OnOk result.1 ((M.state result.0).contents ≡ canonical spec_ex
        (containers_of spec_ex (all_steps sessions.now)))) }

    // If no call of the medium failed, an error is that of a step or an end, and those before it are there.
    ensures stops { WhereTells M.tells (IsWritable spec_ex → NoFault (M.state medium) (M.state result.0) →
        IfErr result.1 (λ e. StopsEarly spec_ex [] (all_steps sessions.now) e (M.state result.0).contents)) }
{
    let Some((first, others)) = sessions.split_first() else {
        return (medium, Ok(()));
    };
    let (medium, answer) = run_until_error(medium, Begin::New(spec_ex), first);
    if let Err(error) = answer {
        return (medium, Err(error));
    }
    append_sessions(medium, others)
}

// Whether samples are integers of sixteen bits, which batches are for.
fn is_sixteen(spec: WavSpec) -> bool
    ensures { result ≡ is_sixteen spec }
{
    spec.sample_format == SampleFormat::Int && spec.bits_per_sample == 16
}

// Writes a batch, of samples of sixteen bits only.
fn write_batch<M: Medium>(writer: &mut WavWriter<M>, values: &[i16]) -> Result<()>
    ensures { Accepts M.Placed (batch_containers writer.old.spec_ex values.now) result writer.old writer.new }
{
    if !is_sixteen(writer.spec()) {
        return Err(Error::Unsupported);
    }
    writer.write_samples(values)
}

// Takes a step.
#[inline(always)]
fn take_step<M: Medium>(writer: &mut WavWriter<M>, step: Step<'_>) -> Result<()>
    ensures { Takes M.Placed step.entry result writer.old writer.new }
{
    match step {
        Step::Whole(value) => writer.write_sample(value),
        Step::Bits(bits) => writer.write_sample(bits),
        Step::Batch(values) => write_batch(writer, values),
        Step::Flush => writer.flush(),
    }
}
