// Checksums, as zlib's `crc32` makes them.
/// The checksum of the bytes so far.
#[derive(Clone, Copy)]
pub struct Crc(u32);

impl Crc {
    /// That of no bytes.
    pub fn new() -> Crc {
        Crc(u32::MAX)
    }

    /// That of these bytes.
    pub fn of(bytes: &[u8]) -> Crc {
        let mut crc = Crc::new();
        crc.add(bytes);
        crc
    }

    /// Adds bytes.
    pub fn add(&mut self, bytes: &[u8]) {
        let mut rest = self.0;
        for byte in bytes {
            rest ^= *byte as u32;
            for _ in 0..8 {
                let has_one = rest % 2 == 1;
                rest /= 2;
                if has_one {
                    rest ^= 0xedb8_8320;
                }
            }
        }
        self.0 = rest;
    }

    /// The checksum.
    pub fn value(self) -> u32 {
        !self.0
    }
}
