// Reading a recording while it is made.
ghost use Rattle.std.specs.Prelude.{◌≡◌, ℕ, ◌-◌, ◌≤◌, ◌++◌, List, Result, IfErr, IfOk, drop, length, take};
ghost use Rattle.std.specs.List.{concat};
ghost use Rattle.hound.specs.{AreBytes, Begun, Call, FollowError, FollowStep, FollowsNext, IsSoundFollower, IsSoundRecording, Keeps, WavSpecEx, accepted_by_all, begins_at, field, found_in, greatest_u32, moment, part_for, riff_size, start_of, whole_bytes};
ghost use Rattle.hound.specs.declared.Error.TheVariants.{OutOfMemory};
ghost use Rattle.hound.specs.declared.Report.TheVariants.{Done};

use hound::{
    Follower, Journal, Look, Placed, Recording, Report, a_follower_reads_accepted_samples,
    a_look_takes_the_last_byte_first,
};
use std::alloc::Global;

// The bytes from a place on, at most so many.
fn part_of(bytes: &[u8], place: u64, count: u32) -> &[u8]
    ensures part { result.now ≡ take count (drop place bytes.now) }
    ensures bytes { AreBytes bytes.now }
{
    if place >= bytes.len() as u64 {
        return &bytes[bytes.len()..];
    }
    let rest = &bytes[place as usize..];
    &rest[..rest.len().min(count as usize)]
}

// What a follower does with the bytes that it requests, as a recording has them once so many bytes were written.
fn step_at(alloc: Global, journal: &Journal, k: usize, follower: &mut Follower) -> hound::Result<()>
    requires sound { IsSoundFollower follower.old }
    requires past { k ≤ length (⟦<Journal as Placed>⟧.state journal.now).past }
    ensures sound { IsSoundFollower follower.new }
    ensures steps { let m = ⟦<Journal as Placed>⟧.state journal.now in IfOk result (λ _.
        AreBytes (moment m.start m.past k) × (step : Result FollowStep FollowError)
        × FollowsNext Done (part_for follower.old (moment m.start m.past k)) follower.old follower.new step) }
    ensures err { IfErr result (λ e. e ≡ OutOfMemory) }
{
    let bytes = journal.bytes_after(alloc, k)?;
    let (place, count) = follower.request();
    // What it returns is also known of the follower.
    let _ = follower.next(part_of(&bytes, place, count), Report::Done);
    Ok(())
}

/// What a program has read that follows a recording. It takes the four bytes of the data length, the last one first,
/// while the recording continues: the last one as it is once `k3` bytes were written, the first one as it is once `k0`
/// were. Then it reads what they count, as the recording is `later` still.
///
/// Each byte is that of the first accepted samples, whatever calls and faults come between (`accepted`). If the length
/// stays the same meanwhile, they are all whole frames that it counts (`all`).
pub fn follow_meanwhile(
    alloc: Global,
    journal: &Journal,
    recording: Recording,
    k3: usize,
    k2: usize,
    k1: usize,
    k0: usize,
    later: usize,
) -> hound::Result<Vec<u8>>
    requires sound { IsSoundRecording recording }
    requires begins { recording.counted ≡ 0 }
    requires grow { (k3 ≤ k2) × (k2 ≤ k1) × (k1 ≤ k0) × (k0 ≤ later) }
    requires past { later ≤ length (⟦<Journal as Placed>⟧.state journal.now).past }
    ensures accepted { let m = ⟦<Journal as Placed>⟧.state journal.now in IfOk result (λ bytes.
        (s : WavSpecEx) (file : Begun) (calls : List Call) → Keeps s file calls m
        → recording.data_start ≡ start_of s file → begins_at calls m.past ≤ k3 →
        bytes.items ≡ take (length bytes.items) (concat (found_in file ++ accepted_by_all calls))) }
    ensures all { let m = ⟦<Journal as Placed>⟧.state journal.now in IfOk result (λ bytes.
        (s : WavSpecEx) (file : Begun) (calls : List Call) (n : ℕ) → Keeps s file calls m
        → recording.data_start ≡ start_of s file → begins_at calls m.past ≤ k3 →
        let says = λ (k : ℕ). field (start_of s file - 4) (moment m.start m.past k) in
        says k3 ≡ n → says k2 ≡ n → says k1 ≡ n → says k0 ≡ n → riff_size (start_of s file) n ≤ greatest_u32 →
        length bytes.items ≡ whole_bytes recording.spec_ex n) }
    ensures err { IfErr result (λ e. e ≡ OutOfMemory) }
{
    a_follower_reads_accepted_samples();
    a_look_takes_the_last_byte_first();
    let mut follower = Follower::Looks(recording, Look::Byte(3, 0));
    step_at(alloc, journal, k3, &mut follower)?;
    step_at(alloc, journal, k2, &mut follower)?;
    step_at(alloc, journal, k1, &mut follower)?;
    step_at(alloc, journal, k0, &mut follower)?;
    let bytes = journal.bytes_after(alloc, later)?;
    Ok(part_of(&bytes, recording.data_start, follower.counted()).to_vec(alloc)?)
}
