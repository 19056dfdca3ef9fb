//! Tests that call the functions of `hound_callers`, for what rows (`hound_rows`) can't do: what those leave,
//! files on a disk, and losses of power.
#![tactic(auto)]

#[cfg(test)]
mod calling;
#[cfg(test)]
mod files;
#[cfg(test)]
mod following;
#[cfg(test)]
mod losses;
#[cfg(test)]
mod recording;
