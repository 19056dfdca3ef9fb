// What holds of every look of a follower.
ghost use Rattle.std.specs.Prelude.{◌<◌, ◌-◌, ◌≤◌, List, ℕ, Ok, Result, length};
ghost use Rattle.hound_writer.specs.declared.effects.Report.TheVariants.{Done};
ghost use Rattle.hound_follow.specs.Following.{FollowsNext, LeavesLook, after_count, number_from, part_for, reads_left};
ghost use Rattle.hound_follow.specs.declared.follower.FollowError.{FollowError};
ghost use Rattle.hound_follow.specs.declared.follower.FollowStep.{FollowStep};
ghost use Rattle.hound_follow.specs.declared.follower.FollowStep.TheVariants.{Reads};
ghost use Rattle.hound_follow.specs.declared.follower.Follower.{Follower};
ghost use Rattle.hound_follow.specs.declared.follower.Follower.TheVariants.{Looks};
ghost use Rattle.hound_follow.specs.declared.follower.Look.TheVariants.{Byte};
ghost use Rattle.hound_follow.specs.declared.follower.Recording.{Recording};

/// A look ends: after each read that is reported as done fewer are left, whatever was read.
pub fn a_look_ends()
    ensures { (bytes : List ℕ) (old new : Follower) (place n : ℕ) → FollowsNext Done bytes old new (Ok (Reads place n))
        → reads_left new < reads_left old }
{}

/// A look takes the bytes of the data length one by one, from the last to the first, and counts what their number says,
/// whatever becomes of the file between two of them.
pub fn a_look_takes_the_last_byte_first()
    ensures { (recording : Recording) (a b c d : List ℕ) (after_d after_c after_b after_a : Follower)
        (step_d step_c step_b step_a : Result FollowStep FollowError) → let start = recording.data_start in
        20 ≤ start → start ≤ length a → start ≤ length b → start ≤ length c → start ≤ length d
        → FollowsNext Done (part_for (Looks recording (Byte 3 0)) d) (Looks recording (Byte 3 0)) after_d step_d
        → FollowsNext Done (part_for after_d c) after_d after_c step_c
        → FollowsNext Done (part_for after_c b) after_c after_b step_b
        → FollowsNext Done (part_for after_b a) after_b after_a step_a
        → LeavesLook (after_count recording (number_from (start - 4) a b c d)) after_a step_a }
{}
