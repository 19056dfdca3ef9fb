// What a machine asks its caller to do, as C has it, and how that ended.
ghost use Rattle.std.specs.Prelude.{◌≡◌, ◌++◌, ◌-◌, ◌≤◌, Some, length, replicate};
ghost use Rattle.hound_spec.specs.{IsWritable};
ghost use Rattle.hound_writer.specs.{header_part};
ghost use Rattle.hound_writer.specs.declared.effects.BeginningEffect.TheVariants.{Header};
ghost use Rattle.hound_slices.specs.Effects.{beginning_of, effect_of, effect_with, report_of};

use hound_number::le_u32;
use hound_spec::{WavSpecEx, header_of};
use hound_writer::{Action, BeginningEffect, Effect, Report, part_from};

/// What a caller does to its file, and how that ended.
#[repr(C)]
#[derive(Clone, Copy)]
pub struct HoundEffect {
    pub place: u64,
    pub length: u32,
    pub kind: u16,
    pub report: u16,
    pub bytes: [u8; 40],
}

// At most 40 bytes, and zeros after them.
fn padded(bytes: &[u8]) -> [u8; 40]
    requires few { length bytes.now ≤ 40 }
    ensures { result ≡ bytes.now ++ replicate (40 - length bytes.now) 0 }
{
    let mut padded = [0; 40];
    padded[..bytes.len()].copy_from_slice(bytes);
    padded
}

// An effect that writes no bytes of its own.
fn without_bytes(kind: u16, place: u64, length: u32) -> HoundEffect
    ensures { result ≡ effect_with kind place length (replicate 40 0) }
{
    HoundEffect {
        place,
        length,
        kind,
        report: 0,
        bytes: [0; 40],
    }
}

/// What is requested, as C has it.
pub fn effect_for_c(action: Option<Action>) -> HoundEffect
    ensures { result ≡ effect_of action }
{
    match action {
        None => without_bytes(0, 0, 0),
        Some(Action::Read(place, length)) => without_bytes(1, place, length),
        Some(Action::Perform(Effect::Pad(place))) => without_bytes(2, place, 1),
        Some(Action::Perform(Effect::Size(place, size))) => HoundEffect {
            bytes: padded(&le_u32(size)),
            ..without_bytes(2, place, 4)
        },
        Some(Action::WriteBlock(place, length)) => without_bytes(3, place, length),
        Some(Action::Perform(Effect::Sync)) => without_bytes(4, 0, 0),
        Some(Action::Shorten(place)) => without_bytes(5, place, 0),
    }
}

// The write of the header from one of its bytes on.
fn header_part_for_c(spec_ex: WavSpecEx, first: u32) -> HoundEffect
    requires { IsWritable spec_ex }
    ensures { result ≡ beginning_of spec_ex (Some (Header first)) }
{
    let header = header_of(spec_ex, 0, 0);
    let bytes = part_from(header.as_slice(), first);
    HoundEffect {
        bytes: padded(bytes),
        ..without_bytes(2, first as u64, bytes.len() as u32)
    }
}

/// What begins a file of this spec, as C has it.
pub fn beginning_for_c(spec_ex: WavSpecEx, effect: Option<BeginningEffect>) -> HoundEffect
    requires { IsWritable spec_ex }
    ensures { result ≡ beginning_of spec_ex effect }
{
    match effect {
        None => without_bytes(0, 0, 0),
        Some(BeginningEffect::Header(first)) => header_part_for_c(spec_ex, first),
        Some(BeginningEffect::Sync) => without_bytes(4, 0, 0),
        Some(BeginningEffect::Empty) => without_bytes(5, 0, 0),
        Some(BeginningEffect::SyncFolder) => without_bytes(6, 0, 0),
    }
}

/// How what was requested has ended.
pub fn report_of(effect: HoundEffect) -> Report
    ensures { result ≡ report_of effect }
{
    if effect.kind == 0 {
        return Report::Pending;
    }
    match effect.report {
        1 => Report::Done,
        2 => Report::Failed,
        _ => Report::Pending,
    }
}
