// A medium that may be flushed before each step back: whether it is, the program chooses when it runs.
ghost use Rattle.hound_number.specs.{AreBytes};
ghost use Rattle.hound_medium.specs.{WhereKeeps, WhereTells, overlay};
ghost use Rattle.std.specs.Prelude.{◌≡◌};
ghost use Rattle.hound_durable.specs.Losses.{replays_own};
ghost use Rattle.hound_durable.specs.Targets.{by_target, law_by_target};

use crate::durable::Durable;
use hound_medium::{Medium, Placed};
use std::io;

/// What a file is written to: a medium as it is, or one that is flushed before each step back.
#[derive(Drop)]
pub enum Target<M: Medium> {
    /// As it is.
    Plain(M),
    /// Flushed before each step back.
    Synced(Durable<M>),
}

impl<M: Medium> Placed for Target<M> {
    ghost tells = { M.tells };

    ghost keeps = { M.keeps };

    ghost state = { λ t. by_target M.state ⟦<Durable<M> as Placed>⟧.state t };

    ghost bytes = { λ t. law_by_target (λ s. WhereTells M.tells (AreBytes s.contents))
        M.bytes (λ d. M.bytes d.inner) t };

    fn go(&mut self, to: u64) -> io::Result<()> {
        match self {
            Target::Plain(medium) => medium.go(to),
            Target::Synced(medium) => medium.go(to),
        }
    }

    fn shift(&mut self, by: i64) -> io::Result<()> {
        match self {
            Target::Plain(medium) => medium.shift(by),
            Target::Synced(medium) => medium.shift(by),
        }
    }
}

impl<M: Medium> Medium for Target<M> {
    ghost replays = { λ t. law_by_target (λ s. WhereKeeps M.tells M.keeps (s.contents ≡ overlay s.start s.past))
        M.replays (λ d tells keeps.
        replays_own M.keeps (M.state d.inner) d.faults d.flushed keeps (M.replays d.inner tells keeps)) t };

    fn put(&mut self, bytes: &[u8]) -> io::Result<usize> {
        match self {
            Target::Plain(medium) => medium.put(bytes),
            Target::Synced(medium) => medium.put(bytes),
        }
    }

    fn flush(&mut self) -> io::Result<()> {
        match self {
            Target::Plain(medium) => Medium::flush(medium),
            Target::Synced(medium) => Medium::flush(medium),
        }
    }
}
