// The line that a row results in.
use crate::crc::Crc;
use hound_spec::Error;
use std::alloc::Global;
use std::fmt::Display;
use std::io;
use std::io::Write;

// Longer contents are shortened to this many bytes.
const MOST_BYTES: usize = 160;

const FIRST_BYTES: usize = 80;

// Longer text is shown as contents.
const MOST_TEXT: usize = 400;

/// A line that is built word by word. What begins with `put` adds to the last word, all else
/// begins a new word. If memory fails the line records that.
#[derive(Drop)]
pub struct Line {
    bytes: Vec<u8>,

    /// Whether memory failed.
    pub has_failed: bool,
}

impl Line {
    /// An empty line.
    pub fn new(alloc: Global) -> Line {
        Line {
            bytes: Vec::new(alloc),
            has_failed: false,
        }
    }

    /// What it has so far.
    pub fn bytes(&self) -> &[u8] {
        self.bytes.as_slice()
    }

    /// Records that memory failed elsewhere.
    pub fn fail(&mut self) {
        self.has_failed = true;
    }

    /// Removes all words.
    pub fn clear(&mut self) {
        self.bytes.clear();
    }

    pub fn put_bytes(&mut self, bytes: &[u8]) {
        if self.bytes.extend_from_slice(bytes).is_err() {
            self.has_failed = true;
        }
    }

    pub fn put(&mut self, text: &str) {
        self.put_bytes(text.as_bytes());
    }

    pub fn put_shown<T: Display + Drop>(&mut self, value: T) {
        if write!(self.bytes, "{value}").is_err() {
            self.has_failed = true;
        }
    }

    /// Two hex digits for each byte.
    pub fn put_hex(&mut self, bytes: &[u8]) {
        for byte in bytes {
            self.put_shown(format_args!("{byte:02x}"));
        }
    }

    pub fn put_error(&mut self, error: Error) {
        match error {
            Error::IoError(fault) => self.put_shown(format_args!("IoError({:?})", fault.kind())),
            Error::FormatError(reason) => self.put_shown(format_args!("FormatError({reason})")),
            other => self.put_shown(format_args!("{other:?}")),
        }
    }

    /// This word.
    pub fn word(&mut self, text: &str) {
        if !self.bytes.is_empty() {
            self.put(" ");
        }
        self.put(text);
    }

    /// A number, or another value with a text.
    pub fn shown<T: Display + Drop>(&mut self, value: T) {
        self.word("");
        self.put_shown(value);
    }

    pub fn hex(&mut self, bytes: &[u8]) {
        self.word("");
        self.put_hex(bytes);
    }

    /// A word, and a number after it.
    pub fn count<N: Display + Drop>(&mut self, name: &str, number: N) {
        self.word(name);
        self.shown(number);
    }

    /// Contents of a file: hex digits, of long ones the first, with the length and a checksum.
    pub fn contents(&mut self, bytes: &[u8]) {
        if bytes.is_empty() {
            self.word("-");
        } else if bytes.len() <= MOST_BYTES {
            self.hex(bytes);
        } else {
            let first = bytes.get(..FIRST_BYTES).unwrap_or(bytes);
            self.shown(bytes.len());
            self.put(":");
            self.put_hex(first);
            self.put_shown(format_args!(":{:08x}", Crc::of(bytes).value()));
        }
    }

    /// Text: in quotes if it is plain and short, else as contents.
    pub fn text(&mut self, bytes: &[u8]) {
        if bytes.len() > MOST_TEXT || !bytes.iter().all(|byte| is_plain(*byte)) {
            return self.contents(bytes);
        }
        self.word("'");
        for byte in bytes {
            if *byte == b'\n' {
                self.put("\\n");
            } else {
                self.put_bytes(&[*byte]);
            }
        }
        self.put("'");
    }

    pub fn error(&mut self, error: Error) {
        self.word("");
        self.put_error(error);
    }

    /// The result of a call.
    pub fn answer(&mut self, answer: hound_spec::Result<()>) {
        match answer {
            Ok(()) => self.word("ok"),
            Err(error) => self.error(error),
        }
    }

    /// The result of a call of a medium.
    pub fn io_answer(&mut self, answer: io::Result<()>) {
        self.answer(answer.map_err(Error::IoError));
    }
}

// Printable ASCII, or the end of a line.
fn is_plain(byte: u8) -> bool {
    byte == b'\n' || byte == b' ' || byte.is_ascii_graphic()
}
