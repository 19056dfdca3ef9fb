// What `Sample::read_many` asks of its reader: that of a `WavReader` makes a fault of an early end.
use hound_sample::Sample;
use hound_spec::SampleFormat;
use std::io;

// Gives no byte at its first read, as a terminal may, and all that is asked at later ones.
#[derive(Drop)]
struct Pausing {
    reads: u32,
}

impl io::Read for Pausing {
    fn read(&mut self, buf: &mut [u8]) -> io::Result<usize> {
        self.reads = self.reads.saturating_add(1);
        if self.reads == 1 {
            return Ok(0);
        }
        Ok(buf.len())
    }
}

#[test]
fn a_block_ends_at_a_read_that_gave_no_byte(rt: HostRuntime) {
    let mut reader = Pausing { reads: 0 };
    let mut samples = [85i16; 2];
    let (count, result) = i16::read_many(&mut reader, &mut samples, SampleFormat::Int, 2, 16);
    assert!(rt; count == 0 && result.is_err() && samples == [85, 85] && reader.reads == 1);
}
