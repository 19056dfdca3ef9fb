// A row, and its result.
use crate::line::Line;
use hound_spec::{SampleFormat, WavSpec, WavSpecEx};
use std::alloc::Global;
use std::io::ErrorKind;
use std::str::FromStr;

// Bytes that an earlier row has named.
#[derive(Drop)]
struct Named {
    name: Vec<u8>,
    bytes: Vec<u8>,
}

/// The row that is read. Its words are read in turn; the first bad one makes the whole row an
/// error, and its result so far is dropped.
#[derive(Drop)]
pub struct Row {
    /// For what takes memory.
    pub alloc: Global,

    /// The result.
    pub line: Line,

    /// Whether it is a run of a sweep.
    pub is_swept: bool,

    /// Whether there was a reader, a writer's whole header or a repair.
    pub has_begun: bool,

    /// Whether it is an error.
    pub is_rejected: bool,
    names: Vec<Named>,
}

impl Row {
    /// No row yet, and no names.
    pub fn new(alloc: Global) -> Row {
        Row {
            alloc,
            line: Line::new(alloc),
            is_swept: false,
            has_begun: false,
            is_rejected: false,
            names: Vec::new(alloc),
        }
    }

    /// The next row begins.
    pub fn begin(&mut self) {
        self.line.clear();
        self.is_swept = false;
        self.has_begun = false;
        self.is_rejected = false;
    }

    /// Marks the row as an error.
    pub fn reject(&mut self) {
        self.is_rejected = true;
    }

    /// Adds to a list.
    pub fn push<T: Drop>(&mut self, items: &mut Vec<T>, item: T) {
        if items.push(item).is_err() {
            self.line.fail();
        }
    }

    /// `let NAME BYTES`
    pub fn define(&mut self, name: &str, bytes: &str) {
        let bytes = self.bytes(bytes);
        self.line.shown(bytes.len());
        self.line.word("bytes");
        let Ok(name) = name.as_bytes().to_vec(self.alloc) else {
            return self.line.fail();
        };
        if self.names.push(Named { name, bytes }).is_err() {
            self.line.fail();
        }
    }

    /// Adds the bytes of this name to others.
    pub fn push_named(&mut self, bytes: &mut Vec<u8>, name: &[u8]) {
        for named in self.names.iter().rev() {
            if named.name.as_slice() == name {
                if bytes.extend_from_slice(named.bytes.as_slice()).is_err() {
                    self.line.fail();
                }
                return;
            }
        }
        self.is_rejected = true;
    }

    /// A number; `max` is the largest of 64 bits.
    pub fn number<N: FromStr + Default + Drop>(&mut self, word: &str) -> N
    where
        N::Err: Drop,
    {
        let digits = if word == "max" {
            "18446744073709551615"
        } else {
            word
        };
        match digits.parse::<N>() {
            Ok(number) if !word.starts_with('+') => number,
            _ => {
                self.is_rejected = true;
                N::default()
            }
        }
    }

    /// Hex digits as a number that begins with the first, at most four bytes.
    pub fn hex(&mut self, word: &str, count: usize) -> u32 {
        match u32::from_str_radix(word, 16) {
            Ok(number) if word.len() / 2 == count && word.len() % 2 == 0 => number,
            _ => {
                self.is_rejected = true;
                0
            }
        }
    }

    /// The parts of a word before and after this text.
    pub fn split<'a>(&mut self, word: &'a str, at: &str) -> (&'a str, &'a str) {
        match word.split_once(at) {
            Some(parts) => parts,
            None => {
                self.is_rejected = true;
                ("", "")
            }
        }
    }

    /// `CHANNELS,RATE,BITS/WIDTH`, with `f` before the bits of floats.
    pub fn spec(&mut self, word: &str) -> WavSpecEx {
        let (channels, others) = self.split(word, ",");
        let (rate, others) = self.split(others, ",");
        let (bits, width) = self.split(others, "/");
        let (bits, sample_format) = match bits.strip_prefix("f") {
            Some(bits) => (bits, SampleFormat::Float),
            None => (bits, SampleFormat::Int),
        };
        WavSpecEx {
            spec: WavSpec {
                channels: self.number(channels),
                sample_rate: self.number(rate),
                bits_per_sample: self.number(bits),
                sample_format,
            },
            bytes_per_sample: self.number(width),
        }
    }

    /// The kind of an `io::Error`.
    pub fn kind(&mut self, word: &str) -> ErrorKind {
        match word {
            "Other" => ErrorKind::Other,
            "Interrupted" => ErrorKind::Interrupted,
            "InvalidData" => ErrorKind::InvalidData,
            "WriteZero" => ErrorKind::WriteZero,
            "OutOfMemory" => ErrorKind::OutOfMemory,
            "InvalidInput" => ErrorKind::InvalidInput,
            _ => {
                self.is_rejected = true;
                ErrorKind::Other
            }
        }
    }

    /// Makes the row an error if a word isn't one of these, or one with what follows its `=`.
    pub fn allow(&mut self, options: &[&str], names: &[&str]) {
        for option in options {
            let (name, _) = name_and_value(option);
            if !(&*names).contains(&name) {
                self.is_rejected = true;
            }
        }
    }

    /// The number that an option has, or this one.
    pub fn option<N: FromStr + Default + Drop>(
        &mut self,
        options: &[&str],
        name: &str,
        default: N,
    ) -> N
    where
        N::Err: Drop,
    {
        match find(options, name) {
            Some(word) => self.number(word),
            None => default,
        }
    }

    /// The bytes that an option has, or none.
    pub fn bytes_option(&mut self, options: &[&str], name: &str) -> Vec<u8> {
        let word = find(options, name).unwrap_or("-");
        self.bytes(word)
    }

    /// The properties that readers and writers return.
    pub fn show_spec(&mut self, spec: WavSpec) {
        self.line.shown(spec.channels);
        self.line.shown(spec.sample_rate);
        self.line.shown(spec.bits_per_sample);
        self.line.word(match spec.sample_format {
            SampleFormat::Int => "int",
            SampleFormat::Float => "float",
        });
    }
}

/// The name and the value of `NAME=VALUE`; without a `=` there is no value.
pub fn name_and_value(word: &str) -> (&str, &str) {
    word.split_once("=").unwrap_or((word, ""))
}

/// The value of the option of this name, if there is one.
pub fn find<'a>(options: &[&'a str], wanted: &str) -> Option<&'a str> {
    for option in options {
        let (name, value) = name_and_value(option);
        if name == wanted {
            return Some(value);
        }
    }
    None
}

/// The words before the first `:`, and those after it.
pub fn parts<'a>(words: &'a [&'a str]) -> (&'a [&'a str], &'a [&'a str]) {
    let count = words
        .iter()
        .position(|word| *word == ":")
        .unwrap_or(words.len());
    let before = words.get(..count).unwrap_or(words);
    let after = words.get(count.saturating_add(1)..).unwrap_or(&[]);
    (before, after)
}
