// The follower of a recording that another program makes; it is compiled into its caller as the one that it calls is.
ghost use Rattle.std.specs.Prelude.{◌≡◌, ◌≤◌, IfOk, IfSome};
ghost use Rattle.hound_follow.specs.{IsSoundFollower, IsSoundLength, IsSoundRecording};
ghost use Rattle.hound_slices.specs.Effects.{effect_of};
ghost use Rattle.hound_slices.specs.Followers.{HasFollowerNumbers, StepsFollower, action_of, asked_bytes, follower_of, look_of, outcome_of, recording_of};

use crate::effect::{HoundEffect, effect_for_c, report_of};
use crate::error::CallError;
use crate::spec::HoundSpec;
use crate::walking::{found_for_c, found_of, numbers_of, walk_with};
use hound_follow::{FollowError, FollowStep, Follower, Look, Recording};
use hound_writer::Action;

/// A follower of a recording that another program makes.
#[repr(C)]
#[derive(Clone, Copy)]
pub struct HoundFollower {
    pub effect: HoundEffect,
    pub data_start: u64,
    pub spec: HoundSpec,
    pub counted: u32,
    pub last: u32,
    pub above: u32,
    pub taken: u32,
    pub part: u32,
    pub fmt_length: u32,
    pub unused: u32,
}

// The recording that was found, if C's is one of a file.
#[inline(always)]
fn recording_of(c: HoundFollower) -> Option<Recording>
    ensures is { result ≡ recording_of c }
    ensures sound { IfSome result IsSoundRecording }
{
    let spec_ex = found_of(c.spec)?;
    if c.data_start < 20 || c.data_start > 20 + u32::MAX as u64 {
        return None;
    }
    Some(Recording {
        spec_ex,
        data_start: c.data_start,
        counted: c.counted,
        last: c.last,
    })
}

// What is requested of the data length, by its number.
#[inline(always)]
fn look_of(part: u32, above: u32) -> Look
    ensures is { result ≡ look_of part above }
    ensures sound { IsSoundLength result }
{
    match part {
        5 if above < 1 << 24 => Look::Byte(0, above),
        6 if above < 1 << 16 => Look::Byte(1, above),
        7 if above < 1 << 8 => Look::Byte(2, above),
        8 => Look::Byte(3, 0),
        _ => Look::Length,
    }
}

// The follower that C's is.
#[inline(always)]
fn follower_of(c: HoundFollower) -> Follower
    ensures is { result ≡ follower_of c }
    ensures sound { IsSoundFollower result }
{
    if c.part < 4 {
        return Follower::Walks(walk_with(c.spec, c.taken, c.part, c.fmt_length));
    }
    match recording_of(c) {
        None => Follower::new(),
        Some(recording) => Follower::Looks(recording, look_of(c.part, c.above)),
    }
}

// The numbers of what is requested of the data length.
#[inline(always)]
fn numbers_of_look(look: Look) -> (u32, u32)
    requires { IsSoundLength look }
    ensures is { look_of result.0 result.1 ≡ look }
    ensures least { (4 ≤ result.0) × (result.0 ≤ 8) }
{
    match look {
        Look::Length => (4, 0),
        Look::Byte(number, above) => (5 + number, above),
    }
}

// C's form of a follower that requests this.
#[inline(always)]
fn follower_for_c(follower: Follower, action: Option<Action>) -> HoundFollower
    requires { IsSoundFollower follower }
    ensures is { follower_of result ≡ follower }
    ensures effect { result.effect ≡ effect_of action }
    ensures numbers { HasFollowerNumbers result }
{
    let c = HoundFollower {
        effect: effect_for_c(action),
        data_start: 0,
        spec: found_for_c(None),
        counted: 0,
        last: 0,
        above: 0,
        taken: 0,
        part: 0,
        fmt_length: 0,
        unused: 0,
    };
    match follower {
        Follower::Walks(walk) => {
            let (part, fmt_length) = numbers_of(walk.part);
            HoundFollower {
                spec: found_for_c(walk.found),
                taken: walk.taken,
                part,
                fmt_length,
                ..c
            }
        }
        Follower::Looks(recording, look) => {
            let (part, above) = numbers_of_look(look);
            HoundFollower {
                data_start: recording.data_start,
                spec: found_for_c(Some(recording.spec_ex)),
                counted: recording.counted,
                last: recording.last,
                above,
                part,
                ..c
            }
        }
    }
}

// What is requested next, if something is.
#[inline(always)]
fn action_of(step: Result<FollowStep, FollowError>) -> Option<Action>
    ensures { result ≡ action_of step }
{
    match step {
        Ok(FollowStep::Reads(place, length)) => Some(Action::Read(place, length)),
        _ => None,
    }
}

// What a call returns for this.
#[inline(always)]
fn outcome_of(step: Result<FollowStep, FollowError>) -> Result<usize, CallError>
    ensures is { result ≡ outcome_of step }
    ensures few { IfOk result (λ n. n ≤ 2) }
{
    match step {
        Ok(FollowStep::Grew) => Ok(0),
        Ok(FollowStep::Reads(..)) => Ok(1),
        Ok(FollowStep::NothingNew) => Ok(2),
        Err(FollowError::Rejected(cause)) => Err(CallError::Head(cause)),
        Err(FollowError::Truncated) => Err(CallError::Truncated),
        Err(FollowError::TooLong) => Err(CallError::TooLong),
        Err(FollowError::NotPerformed) => Err(CallError::NotPerformed),
    }
}

// The bytes that were read of those that C's follower asked for.
#[inline(always)]
fn asked_bytes(c: &HoundFollower) -> &[u8]
    ensures { result.now ≡ asked_bytes c.now }
{
    let asked = match follower_of(*c) {
        Follower::Walks(walk) => walk.length(),
        Follower::Looks(_, Look::Length) => 4,
        Follower::Looks(_, Look::Byte(..)) => 1,
    };
    let read = c.effect.length.min(40) as usize;
    &c.effect.bytes[..read.min(asked)]
}

/// Takes how a read was reported: 1 if another one is requested, 0 if the look found more, 2 if it found nothing new.
#[inline(always)]
pub fn step_follower(follower: &mut HoundFollower) -> Result<usize, CallError>
    ensures steps { StepsFollower follower.old follower.new result }
    ensures few { IfOk result (λ n. n ≤ 2) }
{
    let mut state = follower_of(*follower);
    let step = state.next(asked_bytes(follower), report_of(follower.effect));
    *follower = follower_for_c(state, action_of(step));
    outcome_of(step)
}
