// The media that rows of writers and sessions write into, and how they are shown.
ghost use Rattle.std.specs.Prelude.{◌≡◌, ◌≤◌};

use crate::media::{journal_of, show_contents, show_counts};
use crate::moments::show_moments;
use hound::{Begin, Medium, Placed, Source, Tape};
use hound_row_helpers::recorded::Recorded;
use hound_row_helpers::row::{Row, find};
use hound_spec::header_of;

// For more calls only the number is shown.
const MOST_CALLS: usize = 40;

/// A medium of a row.
pub trait Kept: Source + Medium {
    /// Shows it as it is.
    fn show(&self, row: &mut Row);

    /// Shows what it held after each of its bytes from the whole header on, as it is or once it is repaired.
    fn show_past(&self, row: &mut Row, begin: Begin, is_repaired: bool);
}

impl Kept for Tape {
    fn show(&self, row: &mut Row) {
        row.line.word("tape");
        row.line.contents(Tape::bytes(self));
    }

    // A tape doesn't record its past.
    fn show_past(&self, row: &mut Row, _begin: Begin, _is_repaired: bool) {
        row.reject();
    }
}

impl Kept for Recorded {
    fn show(&self, row: &mut Row) {
        row.line.count("calls", self.count);
        if 1 <= self.count && self.count <= MOST_CALLS {
            row.line.word("");
            row.line.put_bytes(self.calls.bytes());
        }
        if self.calls.has_failed {
            row.line.fail();
        }
        show_counts(row, &self.journal);
        show_contents(row, &self.journal, self.journal.taken());
    }

    fn show_past(&self, row: &mut Row, begin: Begin, is_repaired: bool) {
        let first = match begin {
            Begin::New(spec_ex) if spec_ex.is_writable() => {
                header_of(spec_ex, 0, 0).as_slice().len()
            }
            Begin::New(_) => 44,
            Begin::Append => 0,
        };
        row.has_begun = self.journal.taken() >= first;
        show_moments(row, &self.journal, first, is_repaired);
    }
}

/// Shows a medium, and by the option `moments` or in a sweep also its past, with `moments=repaired` as it is once it is
/// repaired.
pub fn show_medium<M: Kept>(row: &mut Row, medium: &M, begin: Begin, options: &[&str]) {
    row.line.word(":");
    medium.show(row);
    let moments = find(options, "moments");
    if row.is_swept || moments.is_some() {
        row.line.word(":");
        medium.show_past(row, begin, moments == Some("repaired"));
    }
}

/// A tape, by the option `over=BYTES`.
pub fn tape_of(row: &mut Row, options: &[&str]) -> Tape
    ensures { (⟦<Tape as Placed>⟧.state result).place ≡ 0 }
{
    Tape::new(row.bytes_option(options, "over"))
}

/// A journal that lists its calls, by the options `over=BYTES`, `most=N` and `fail=A..B`.
pub fn recorded_of(row: &mut Row, options: &[&str]) -> Option<Recorded> {
    let over = row.bytes_option(options, "over");
    let journal = journal_of(row, over, options)?;
    Some(Recorded::over(row.alloc, journal))
}
