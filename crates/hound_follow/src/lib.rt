//! A recording that is read while another program makes it.
//!
//! A recorder stores samples before it counts them, so whatever the header counts is there, and stays there. A
//! [`Follower`] requests the reads by which a program learns how much that is: the header, until all of it is there,
//! and then the data length, again and again.
//!
//! One read of its four bytes isn't enough. A recorder may write a new length meanwhile, and a system that doesn't read
//! or write four bytes at once then returns some bytes of the old length and some of the new one, which together may
//! count more than there is. So they are read one by one, from the last to the first, because a recorder writes a
//! length from its first byte on: what they count was stored before the first byte was read.
#![tactic(auto)]

mod follower;
mod laws;

pub use follower::{FollowError, FollowStep, Follower, Look, Recording};
pub use laws::{a_look_ends, a_look_takes_the_last_byte_first};
