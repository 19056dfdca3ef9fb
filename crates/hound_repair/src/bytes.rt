// Files in memory, repaired where they are.
ghost use Rattle.std.specs.Prelude.{◌≡◌, ◌+◌, ◌≤◌, IfErr, IfOk, IfSome, None, length, take};
ghost use Rattle.std.specs.Option.{IfNone};
ghost use Rattle.hound_writer.specs.{with_sizes};
ghost use Rattle.hound_repair.specs.Repairing.{FindsDamage, IsSoundDamage, LacksRoom, RepairsBytes, as_medium, repair_of};
ghost use Rattle.hound_repair.specs.Steps.{IsRejectedFor, IsRepair, looks_for_chunks};

use crate::look::Damage;
use crate::stages::{LookStep, Stage, Task, Unrepairable, take_asked};
use hound_number::le_u32;
use hound_walk::bytes_at;

/// Puts two sizes into a file in memory: the RIFF size, and the data length at a place.
pub fn set_sizes(bytes: &mut [u8], place: usize, riff_size: u32, data_length: u32)
    requires after { 8 ≤ place }
    requires inside { place + 4 ≤ length bytes.old }
    ensures { bytes.new ≡ with_sizes place riff_size data_length bytes.old }
{
    bytes[4..8].copy_from_slice(&le_u32(riff_size));
    bytes[place..place + 4].copy_from_slice(&le_u32(data_length));
}

/// Looks at the file that takes all of these bytes, as [`find_damage`](crate::find_damage) does at one in a source; no
/// chunks are looked for where the task is to repair it to its end.
pub fn find_damage_in_bytes(bytes: &[u8], task: Task) -> Result<Damage, Unrepairable>
    ensures sound { IfOk result IsSoundDamage }
    ensures inside { IfOk result (λ damage. damage.head.data_start + damage.held ≡ length bytes.now) }
    ensures finds { IfOk result (λ damage.
        FindsDamage (looks_for_chunks task) (as_medium bytes.now) damage (as_medium bytes.now)) }
    ensures fault { IfErr result (IsRejectedFor bytes.now) }
{
    let length = bytes.len() as u64;
    let mut stage = Stage::first();
    'parts: loop {
        let part = bytes_at(bytes, stage.place(length), stage.count());
        match take_asked(length, task, stage, part)? {
            LookStep::Next(next) => stage = next,
            LookStep::Found(damage) => return Ok(damage),
        }
    }
}

/// Repairs the file in the first `used` bytes, in which the task found this, as [`repair`](crate::repair) does one in a
/// medium, and returns its new length: one more where a pad byte was missing. If there is no room for that, nothing is
/// written.
pub fn repair_bytes(bytes: &mut [u8], used: usize, task: Task, damage: Damage) -> Option<usize>
    requires task { IsRepair task }
    requires used { used ≤ length bytes.old }
    requires sound { IsSoundDamage damage }
    requires inside { damage.head.data_start + damage.held ≡ used }
    ensures repairs { let file = as_medium (take used bytes.old) in FindsDamage (looks_for_chunks task) file damage file
        → IfSome result (λ n. RepairsBytes (looks_for_chunks task) used n (repair_of damage) bytes.old bytes.new) }
    ensures within { IfSome result (λ n. n ≤ length bytes.old) }
    ensures kept { IfNone result (bytes.new ≡ bytes.old) }
    ensures lacks { let file = as_medium (take used bytes.old) in FindsDamage (looks_for_chunks task) file damage file
        → IfNone result (LacksRoom (looks_for_chunks task) used bytes.old) }
{
    if !task.mends(damage.state) {
        return Some(used);
    }
    let lacks_pad = damage.lacks_pad();
    if lacks_pad && used == bytes.len() {
        return None;
    }
    let place = damage.head.data_start as usize - 4;
    let (riff_size, data_length) = (damage.sizes.riff_size, damage.sizes.data_length);
    set_sizes(&mut bytes[..used], place, riff_size, data_length);
    if !lacks_pad {
        return Some(used);
    }
    bytes[used] = 0;
    Some(used + 1)
}
