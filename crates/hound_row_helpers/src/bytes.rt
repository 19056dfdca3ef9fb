// The bytes that a word stands for: terms, joined by `+`.
use crate::row::Row;

impl Row {
    /// The bytes of a word.
    pub fn bytes(&mut self, word: &str) -> Vec<u8> {
        let mut bytes = Vec::new(self.alloc);
        let mut cursor = Cursor {
            rest: word.as_bytes(),
        };
        cursor.term(self, &mut bytes);
        for _ in 0..word.len() {
            if !cursor.takes(b'+') {
                break;
            }
            cursor.term(self, &mut bytes);
        }
        if !cursor.rest.is_empty() {
            self.reject();
        }
        bytes
    }
}

// What is left of a word.
#[derive(Drop)]
struct Cursor<'a> {
    rest: &'a [u8],
}

// The value of a hex digit; of any other byte more than that of all digits.
fn digit_of(byte: u8) -> u8 {
    match byte {
        b'0'..=b'9' => byte - b'0',
        b'a'..=b'f' => byte - b'a' + 10,
        _ => u8::MAX,
    }
}

impl<'a> Cursor<'a> {
    // Takes a byte, if there is one.
    fn next(&mut self) -> Option<u8> {
        let (first, rest) = self.rest.split_first()?;
        self.rest = rest;
        Some(*first)
    }

    // Takes this byte, if it is the next.
    fn takes(&mut self, byte: u8) -> bool {
        if self.rest.first() != Some(&byte) {
            return false;
        }
        self.next();
        true
    }

    // Takes a digit, if one is the next.
    fn digit(&mut self, base: u8) -> Option<u8> {
        let digit = digit_of(*self.rest.first()?);
        if digit >= base {
            return None;
        }
        self.next();
        Some(digit)
    }

    // Takes a number, if one is the next.
    fn number(&mut self) -> Option<usize> {
        let mut number = self.digit(10)? as usize;
        for _ in 0..self.rest.len() {
            match self.digit(10) {
                Some(digit) => number = number.saturating_mul(10).saturating_add(digit as usize),
                None => break,
            }
        }
        Some(number)
    }

    // Takes two hex digits, if any are next.
    fn hex(&mut self, row: &mut Row) -> Option<u8> {
        let high = self.digit(16)?;
        match self.digit(16) {
            Some(low) => Some(high.wrapping_mul(16).wrapping_add(low)),
            None => {
                row.reject();
                None
            }
        }
    }

    // Takes this byte, which must be the next.
    fn expect(&mut self, byte: u8, row: &mut Row) {
        if !self.takes(byte) {
            row.reject();
        }
    }

    // A term, with its suffixes.
    fn term(&mut self, row: &mut Row, bytes: &mut Vec<u8>) {
        let start = bytes.len();
        self.stem(row, bytes);
        for _ in 0..self.rest.len() {
            match self.rest.first() {
                Some(b'[') => self.cut(row, bytes, start),
                Some(b'*') => self.repeat(row, bytes, start),
                Some(b'@') => self.overwrite(row, bytes, start),
                _ => break,
            }
        }
    }

    // What a term begins with.
    fn stem(&mut self, row: &mut Row, bytes: &mut Vec<u8>) {
        match self.rest.first() {
            Some(b'-') => {
                self.next();
            }
            Some(b'\'') => self.text(row, bytes),
            Some(b'$') => {
                let name = self.name();
                row.push_named(bytes, name);
            }
            _ => self.digits(row, bytes),
        }
    }

    // `'..'`
    fn text(&mut self, row: &mut Row, bytes: &mut Vec<u8>) {
        self.next();
        for _ in 0..self.rest.len() {
            match self.next() {
                Some(b'\'') => return,
                Some(b'_') => row.push(bytes, b' '),
                Some(b'\\') => match self.next() {
                    Some(b'n') => row.push(bytes, b'\n'),
                    Some(b't') => row.push(bytes, b'\t'),
                    Some(b'r') => row.push(bytes, b'\r'),
                    _ => row.reject(),
                },
                Some(byte) => row.push(bytes, byte),
                None => break,
            }
        }
        row.reject();
    }

    // `$NAME`
    fn name(&mut self) -> &'a [u8] {
        self.next();
        let rest = self.rest;
        let count = rest
            .iter()
            .position(|byte| !byte.is_ascii_alphanumeric() && *byte != b'_')
            .unwrap_or(rest.len());
        self.rest = rest.get(count..).unwrap_or(&[]);
        rest.get(..count).unwrap_or(&[])
    }

    // Hex digits, two for each byte.
    fn digits(&mut self, row: &mut Row, bytes: &mut Vec<u8>) {
        let start = bytes.len();
        for _ in 0..self.rest.len() {
            match self.hex(row) {
                Some(byte) => row.push(bytes, byte),
                None => break,
            }
        }
        if bytes.len() <= start {
            row.reject();
        }
    }

    // `[A..B]`: the bytes from A to before B.
    fn cut(&mut self, row: &mut Row, bytes: &mut Vec<u8>, start: usize) {
        self.next();
        let from = self.number().unwrap_or(0);
        self.expect(b'.', row);
        self.expect(b'.', row);
        let to = self.number().unwrap_or(usize::MAX);
        self.expect(b']', row);
        bytes.truncate(start.saturating_add(to));
        let end = start.saturating_add(from).min(bytes.len());
        if start < end {
            bytes.drain(start..end);
        }
    }

    // `*N`: repeated N times.
    fn repeat(&mut self, row: &mut Row, bytes: &mut Vec<u8>, start: usize) {
        self.next();
        let count = self.number().unwrap_or(0);
        let end = bytes.len();
        for _ in 1..count {
            for at in start..end {
                let byte = bytes.get(at).copied().unwrap_or(0);
                row.push(bytes, byte);
            }
        }
        if count == 0 {
            bytes.truncate(start);
        }
    }

    // `@AT=HEX`: overwritten from a place on.
    fn overwrite(&mut self, row: &mut Row, bytes: &mut Vec<u8>, start: usize) {
        self.next();
        let mut at = start.saturating_add(self.number().unwrap_or(usize::MAX));
        self.expect(b'=', row);
        for _ in 0..self.rest.len() {
            let Some(new) = self.hex(row) else {
                break;
            };
            if let Some(byte) = bytes.get_mut(at) {
                *byte = new;
            }
            at = at.saturating_add(1);
        }
    }
}
