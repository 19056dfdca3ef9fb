// Recorders, as C has them.
ghost use Rattle.std.specs.Prelude.{◌≡◌, ◌≤◌};
ghost use Rattle.hound_slices.specs.Effects.{effect_of};
ghost use Rattle.hound_slices.specs.Recording.{HasRecorderNumbers, block_of, found_file, health_of_code, mends, overwrites, phase_of_code, recorder_of};

use crate::effect::{HoundEffect, effect_for_c};
use crate::repairer::state_of_code;
use crate::spec::{HoundRepair, spec_from_c};
use hound_writer::{Action, FoundFile, Health, Phase, Recorder};

/// A recorder, and what its caller is to do.
#[repr(C)]
#[derive(Clone, Copy)]
pub struct HoundRecorder {
    pub effect: HoundEffect,
    pub data_start: u64,
    pub data_length: u32,
    pub number: u32,
    pub block: u32,
    pub bytes_per_sample: u16,
    pub channels: u16,
    pub health: u16,
    pub phase: u16,
    pub has_rest: u16,
}

// Whether a recorder's file is as it counts it, by its number.
fn health_of_code(number: u16) -> Health
    ensures { result ≡ health_of_code number }
{
    match number {
        0 => Health::Sound,
        1 => Health::Suspect,
        _ => Health::Dead,
    }
}

// The number of that.
fn code_of_health(health: Health) -> u16
    ensures is { health_of_code result ≡ health }
    ensures least { result ≤ 2 }
{
    health as u16
}

// What is under way, by its number. With a block the data have so many bytes.
fn phase_of_code(number: u16, length: u32) -> Phase
    ensures { result ≡ phase_of_code number length }
{
    match number {
        1 => Phase::Saving,
        2 => Phase::Requested(length),
        3 => Phase::Writing(length),
        4 => Phase::Cleaning,
        _ => Phase::Idle,
    }
}

// The number of that.
fn code_of_phase(phase: Phase) -> u16
    ensures is { phase_of_code result (block_of phase) ≡ phase }
    ensures least { result ≤ 4 }
{
    match phase {
        Phase::Idle => 0,
        Phase::Saving => 1,
        Phase::Requested(_) => 2,
        Phase::Writing(_) => 3,
        Phase::Cleaning => 4,
    }
}

// How many bytes the data have with the block that is under way; 0 without one.
fn block_of(phase: Phase) -> u32
    ensures { result ≡ block_of phase }
{
    match phase {
        Phase::Requested(length) | Phase::Writing(length) => length,
        Phase::Idle | Phase::Saving | Phase::Cleaning => 0,
    }
}

/// The recorder that C's is.
pub fn recorder_of(c: &HoundRecorder) -> Recorder
    ensures { result ≡ recorder_of c.now }
{
    Recorder {
        data_start: c.data_start,
        data_length: c.data_length,
        number: c.number,
        bytes_per_sample: c.bytes_per_sample,
        channels: c.channels,
        health: health_of_code(c.health),
        phase: phase_of_code(c.phase, c.block),
        has_rest: c.has_rest > 0,
    }
}

/// C's form of a recorder, which requests this.
pub fn recorder_for_c(recorder: Recorder, action: Option<Action>) -> HoundRecorder
    ensures is { recorder_of result ≡ recorder }
    ensures requests { result.effect ≡ effect_of action }
    ensures numbers { HasRecorderNumbers result }
{
    HoundRecorder {
        effect: effect_for_c(action),
        data_start: recorder.data_start,
        data_length: recorder.data_length,
        number: recorder.number,
        block: block_of(recorder.phase),
        bytes_per_sample: recorder.bytes_per_sample,
        channels: recorder.channels,
        health: code_of_health(recorder.health),
        phase: code_of_phase(recorder.phase),
        has_rest: if recorder.has_rest { 1 } else { 0 },
    }
}

/// The file that C's is.
pub fn found_file(found: &HoundRepair) -> FoundFile
    ensures { result ≡ found_file found.now }
{
    FoundFile {
        spec_ex: spec_from_c(found.spec),
        data_start: found.data_start,
        data_length: found.data_length,
        length: found.length,
        frames: found.frames,
        state: state_of_code(found.state),
    }
}

/// Whether a recording that was cut off may be mended.
pub fn mends(allowed: u32) -> bool
    ensures { result ≡ mends allowed }
{
    allowed % 2 == 1
}

/// Whether chunks after the data may be overwritten.
pub fn overwrites(allowed: u32) -> bool
    ensures { result ≡ overwrites allowed }
{
    allowed / 2 % 2 == 1
}
