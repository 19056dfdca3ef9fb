// Rows that are run again and again, while other calls of their medium fail each time.
use crate::crc::Crc;
use crate::row::Row;

/// What came of the runs of a sweep.
#[derive(Clone, Copy)]
pub struct Sweep {
    runs: u64,
    begun: u64,
    crc: Crc,
}

impl Sweep {
    /// No runs yet.
    pub fn new() -> Sweep {
        Sweep {
            runs: 0,
            begun: 0,
            crc: Crc::new(),
        }
    }

    /// Takes the line of a run out of the row.
    pub fn add(&mut self, row: &mut Row) {
        self.runs = self.runs.saturating_add(1);
        if row.has_begun {
            self.begun = self.begun.saturating_add(1);
        }
        row.has_begun = false;
        row.line.put("\n");
        self.crc.add(row.line.bytes());
        row.line.clear();
    }

    /// How many runs there were, how many of them had begun, and the checksum of their lines.
    pub fn show(self, row: &mut Row) {
        row.line.count("runs", self.runs);
        row.line.count("begun", self.begun);
        row.line
            .count("crc", format_args!("{:08x}", self.crc.value()));
    }
}
