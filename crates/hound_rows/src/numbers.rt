// Rows of numbers as bytes.
ghost use Rattle.std.specs.Prelude.{◌≡◌, ◌≤◌};

use hound_number::{
    ReadError, i16_from_le, i24_from_le, i32_from_le, le_i16, le_i32, le_u16, le_u32, read_into,
    signed_from_u8, u8_from_signed, u16_at, u32_at, write_bytes,
};
use hound_row_helpers::feed::Feed;
use hound_row_helpers::row::Row;
use hound_row_helpers::sink::Sink;

/// `le TYPE VALUE`
pub fn le(row: &mut Row, kind: &str, value: &str) {
    let bytes = match kind {
        "u16" => le_u16(row.number(value)).to_vec(row.alloc),
        "u32" => le_u32(row.number(value)).to_vec(row.alloc),
        "i16" => le_i16(row.number(value)).to_vec(row.alloc),
        "i32" => le_i32(row.number(value)).to_vec(row.alloc),
        _ => return row.reject(),
    };
    match bytes {
        Ok(bytes) => row.line.hex(bytes.as_slice()),
        Err(_) => row.line.fail(),
    }
}

/// `from TYPE HEX`
pub fn from(row: &mut Row, kind: &str, hex: &str) {
    let [a, b, c, d] = row.hex(hex, hex.len() / 2).to_be_bytes();
    match (kind, hex.len()) {
        ("i16", 4) => row.line.shown(i16_from_le([c, d])),
        ("i24", 6) => row.line.shown(i24_from_le([b, c, d])),
        ("i32", 8) => row.line.shown(i32_from_le([a, b, c, d])),
        _ => row.reject(),
    }
}

/// `at TYPE BYTES AT`
pub fn at(row: &mut Row, kind: &str, bytes: &str, at: &str) {
    let bytes = row.bytes(bytes);
    let at: usize = row.number(at);
    let left = bytes.len().saturating_sub(at);
    match kind {
        "u16" if left >= 2 => row.line.shown(u16_at(bytes.as_slice(), at)),
        "u32" if left >= 4 => row.line.shown(u32_at(bytes.as_slice(), at)),
        _ => row.reject(),
    }
}

/// `signed BYTE`
pub fn signed(row: &mut Row, byte: &str) {
    let byte = row.number(byte);
    row.line.shown(signed_from_u8(byte));
}

/// `unsigned NUMBER`
pub fn unsigned(row: &mut Row, number: &str) {
    let number = row.number(number);
    row.line.shown(u8_from_signed(number));
}

/// `fill BYTES OPTION..`: four bytes of a reader.
pub fn fill(row: &mut Row, bytes: &str, options: &[&str]) {
    let mut feed = Feed::of(row, bytes, options);
    let mut four = [0; 4];
    match read_into(&mut feed, &mut four) {
        Ok(()) => {
            row.line.word("ok");
            row.line.hex(&four);
        }
        Err(ReadError::Ended) => row.line.word("ended"),
        Err(ReadError::Failed(_)) => row.line.word("failed"),
    }
    row.line.count("left", feed.left());
}

/// `write_bytes BYTES SINK`
pub fn write(row: &mut Row, bytes: &str, options: &[&str]) {
    let bytes = row.bytes(bytes);
    let mut sink = Sink::of(row, options);
    row.line.io_answer(write_bytes(&mut sink, bytes.as_slice()));
    row.line.contents(&sink.taken);
}
