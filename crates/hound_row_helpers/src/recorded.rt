// A journal that lists the calls made of it.
ghost use Rattle.std.specs.Prelude.{◌≡◌, false};
ghost use Rattle.std.proofs.lemmas.Bool.{false≢true};
ghost use Rattle.hound_medium.specs.{MediumState, unknown};

use crate::line::Line;
use hound_medium::{Journal, Medium, Placed, Source};
use std::alloc::Global;
use std::fmt::Display;
use std::io;

/// A journal that lists the calls that a writer makes, also failing ones.
#[derive(Drop)]
pub struct Recorded {
    /// The place of the next put.
    pub journal: Journal,

    /// A word for each call, except for a shift.
    pub calls: Line,

    /// How many these are.
    pub count: usize,
}

impl Recorded {
    /// Over this journal.
    pub fn over(alloc: Global, journal: Journal) -> Recorded {
        Recorded {
            journal,
            calls: Line::new(alloc),
            count: 0,
        }
    }

    fn record<T: Display + Drop>(&mut self, call: T) {
        self.calls.shown(call);
        self.count = self.count.saturating_add(1);
    }
}

impl Placed for Recorded {
    ghost tells = { false };

    ghost state = { λ _. unknown };

    ghost bytes = { λ _ tells. Prim.absurd (false≢true tells) };

    fn go(&mut self, to: u64) -> io::Result<()> {
        self.record(format_args!("go{to}"));
        self.journal.go(to)
    }

    fn shift(&mut self, by: i64) -> io::Result<()> {
        self.journal.shift(by)
    }
}

impl Medium for Recorded {
    ghost replays = { λ _ tells. Prim.absurd (false≢true tells) };

    fn put(&mut self, bytes: &[u8]) -> io::Result<usize> {
        self.record(format_args!("put{}", bytes.len()));
        Medium::put(&mut self.journal, bytes)
    }

    fn flush(&mut self) -> io::Result<()> {
        self.record("flush");
        Medium::flush(&mut self.journal)
    }
}

impl io::Read for Recorded {
    fn read(&mut self, buf: &mut [u8]) -> io::Result<usize> {
        io::Read::read(&mut self.journal, buf)
    }
}

impl Source for Recorded {
    ghost left = { λ _ tells. Prim.absurd (false≢true tells) };

    fn get(&mut self, buf: &mut [u8]) -> io::Result<usize> {
        Source::get(&mut self.journal, buf)
    }
}
