// What a file holds, looked at without writing, and the sizes that it should have.
ghost use Rattle.std.specs.Prelude.{◌≡◌, ◌+◌, ◌<◌, ◌≤◌, ◌^◌, ◌&&◌, ◌==◌, true, false, None, Some, Ok, length, min, nat_le, nat_lt, ◌∷◌, [], IfErr, IfOk, IfSome, MatchResult, if◌then◌else◌, ◌*◌, ◌/◌, ◌%◌};
ghost use Rattle.hound_spec.specs.{padded};
ghost use Rattle.hound_medium.specs.{WhereTells};
ghost use Rattle.hound_walk.specs.{IsSoundSpec, IsDataPlace};
ghost use Rattle.hound_writer.specs.{IsMediumError, too_long};
ghost use Rattle.hound_repair.specs.Repairing.{IsSoundDamage, repair_of, shown_of, AreRightSizes, Finds, IsNotFound, Looks, size_fault};
ghost use Rattle.hound_repair.specs.Held.{has_known_tag, has_tag, is_printable, said_length, held, missing_pad, data_held};
ghost use Rattle.std.specs.Option.{IfNone};

use crate::mend::look_by_parts;
use crate::stages::Task;
use hound_medium::Source;
use hound_number::u32_at;
use hound_spec::{Error, WavSpecEx, riff_size, riff_size_fits};
use hound_writer::{FoundFile, RepairState};
use std::result;

// The tags that show that a chunk begins, whatever follows them: those of RIFF and of its update, of broadcasts, of
// metadata, and of programs.
const KNOWN_TAGS: [[u8; 4]; 24] = [
    *b"LIST", *b"INFO", *b"fact", *b"cue ", *b"plst", *b"JUNK", *b"PAD ", *b"DISP", *b"inst",
    *b"smpl", *b"bext", *b"levl", *b"cart", *b"axml", *b"chna", *b"iXML", *b"_PMX", *b"id3 ",
    *b"ID3 ", *b"acid", *b"strc", *b"afsp", *b"PEAK", *b"FLLR",
];

// How many bytes an ID3v1 tag has, which is at the end of a file.
pub(crate) const ID3_LENGTH: u64 = 128;

// What an ID3v1 tag begins with.
pub(crate) const ID3_TAG: [u8; 3] = *b"TAG";

/// The head of a file, with what is known of the byte after its data.
#[derive(Clone, Copy)]
pub struct SeenHead {
    /// The spec of the last fmt chunk.
    pub spec_ex: WavSpecEx,
    /// The length of the data in bytes, as in their chunk.
    pub data_length: u32,
    /// How many bytes are before the data.
    pub data_start: u64,
    /// A single byte follows the data, and isn't 0: it is a sample.
    pub has_more: bool,
}

/// A file as it was found, and the sizes that it should have.
#[derive(Clone, Copy)]
pub struct Damage {
    /// Its head.
    pub head: SeenHead,
    pub(crate) held: u64,
    pub(crate) sizes: Sizes,
    pub(crate) state: RepairState,
}

// Whether ASCII prints a byte.
fn is_printable(byte: u8) -> bool
    ensures { result ≡ is_printable byte }
{
    byte >= 32 && byte <= 126
}

// Whether these bytes begin with a tag of four printable ones.
fn has_tag(header: &[u8]) -> bool
    requires { 4 ≤ length header.now }
    ensures { result ≡ has_tag header.now }
{
    is_printable(header[0])
        && is_printable(header[1])
        && is_printable(header[2])
        && is_printable(header[3])
}

// Whether these bytes begin with a known tag.
pub(crate) fn has_known_tag(bytes: &[u8]) -> bool
    ensures { result ≡ has_known_tag bytes.now }
{
    if bytes.len() < 4 {
        return false;
    }
    let mut tag = [0; 4];
    tag.copy_from_slice(&bytes[..4]);
    KNOWN_TAGS.contains(&tag)
}

// How many bytes the content of the chunk takes that begins with these of so many bytes, if its tag is printable and
// there is room for it.
pub(crate) fn chunk_content(header: &[u8], left: u64) -> Option<u64>
    requires { min left 8 ≤ length header.now }
    ensures content { result ≡ (if nat_lt left 8 then None
        else if (has_tag header.now && nat_le (8 + said_length header.now) left)
        then Some (padded (said_length header.now)) else None) }
    ensures small { IfSome result (λ n. n ≤ 2 ^ 32) }
{
    if left < 8 {
        return None;
    }
    let length = u32_at(header, 4) as u64;
    if has_tag(header) && 8 + length <= left {
        return Some(length + length % 2);
    }
    None
}

impl SeenHead {
    /// The data length that the file shows.
    pub(crate) fn shown(&self) -> u64
        ensures is { result ≡ shown_of self.now }
        ensures small { result ≤ 2 ^ 32 }
    {
        self.data_length as u64 + self.has_more as u64
    }
}

impl Damage {
    /// What is reported of it.
    pub fn repair(&self) -> Repair
        requires { IsSoundDamage self.now }
        ensures { result ≡ repair_of self.now }
    {
        let spec_ex = self.head.spec_ex;
        let frame = spec_ex.spec.channels as u32 * spec_ex.bytes_per_sample as u32;
        let (frames, left_over) = match self.state {
            RepairState::HasChunksAfterData => (
                self.head.data_length / frame,
                self.head.data_length % frame,
            ),
            _ => (self.sizes.frames, self.sizes.left_over),
        };
        Repair {
            spec_ex,
            frames,
            left_over,
            state: self.state,
        }
    }

    /// The file of so many bytes in which this was found, as `Recorder::resume` takes it.
    pub fn in_file(&self, length: u64) -> FoundFile
        requires { IsSoundDamage self.now }
        ensures { result ≡ record {
          spec_ex = (repair_of self.now).spec_ex;
          data_start = self.now.head.data_start;
          data_length = self.now.head.data_length;
          length = length;
          frames = (repair_of self.now).frames;
          state = (repair_of self.now).state;
        } }
    {
        let found = self.repair();
        FoundFile {
            spec_ex: found.spec_ex,
            data_start: self.head.data_start,
            data_length: self.head.data_length,
            length,
            frames: found.frames,
            state: found.state,
        }
    }

    /// Whether a pad byte is missing after its data.
    pub(crate) fn lacks_pad(&self) -> bool
        ensures one { result ≡ true → missing_pad self.now.sizes.data_length self.now.held ≡ 0 ∷ [] }
        ensures none { result ≡ false → missing_pad self.now.sizes.data_length self.now.held ≡ [] }
    {
        let length = self.sizes.data_length;
        self.held == length as u64 && length % 2 == 1
    }
}

/// Looks at a file in a medium that is at its beginning, writes nothing, and reports what [`repair`](crate::repair)
/// would find: the frames that the file holds, and how it was found.
///
/// The errors, in their order: those of a reader's walk to the data, by the bytes; `Unsupported`, for samples that are
/// not written with these bits, bytes and format; `TooLong`, where the RIFF size of the frames would pass 4294967295;
/// `IoError`, where the medium failed.
pub fn find_damage<S: Source>(medium: S) -> result::Result<(S, Repair), (S, Error)>
    requires { WhereTells S.tells ((S.state medium).place ≡ 0) }
    ensures sound { IfOk result (λ found. IsSoundSpec found.1.spec_ex) }
    ensures reported { IfErr result (λ rejected. IsMediumError rejected.1) }
    ensures found { WhereTells S.tells (MatchResult result
        (λ found. Finds true (S.state medium) found.1 (S.state found.0))
        (λ rejected. IsNotFound (S.state medium) (S.state rejected.0) rejected.1)) }
{
    let mut medium = medium;
    match look_by_parts(&mut medium, Task::FindDamage) {
        Ok(damage) => Ok((medium, damage.repair())),
        Err(error) => Err((medium, error)),
    }
}

/// What a file holds, and how it was found.
#[derive(Clone, Copy, Debug, PartialEq, Eq)]
pub struct Repair {
    /// The spec of the last fmt chunk.
    pub spec_ex: WavSpecEx,
    /// The number of whole frames: samples for each channel.
    pub frames: u32,
    /// How many bytes of a torn frame follow them.
    pub left_over: u32,
    /// How the file was found.
    pub state: RepairState,
}

/// The sizes that a file should have, in bytes, and what they count.
#[derive(Clone, Copy)]
pub(crate) struct Sizes {
    pub(crate) riff_size: u32,
    pub(crate) data_length: u32,
    pub(crate) frames: u32,
    pub(crate) left_over: u32,
}

/// The right sizes of a file with this head that shows this data length, and holds so many bytes from the data on, if
/// the RIFF size fits.
#[tactic(auto, using(crate::proofs::Dividing::whole_le, crate::proofs::Dividing::times_le), unfolding(crate::specs::Repairing::size_fault, crate::specs::Held::data_held, crate::specs::Held::ends_with_pad))]
pub(crate) fn right_sizes(head: SeenHead, shown: u64, held: u64) -> Option<Sizes>
    requires sound { IsSoundSpec head.spec_ex }
    requires start { IsDataPlace head.data_start }
    requires small { shown ≤ 2 ^ 32 }
    requires few { held ≤ 2 ^ 33 }
    ensures check { IfNone result (size_fault head.spec_ex shown head.data_start held ≡ Some too_long) }
    ensures fits { IfSome result (λ _. size_fault head.spec_ex shown head.data_start held ≡ None) }
    ensures right { IfSome result (AreRightSizes head shown held) }
{
    let frame = head.spec_ex.spec.channels as u64 * head.spec_ex.bytes_per_sample as u64;
    // All that is held is data, except a pad byte that the data length shows.
    let data = if held == shown + 1 && shown % 2 == 1 && shown % frame == 0 {
        shown
    } else {
        held
    };
    let frames = data / frame;
    let right = frames * frame;
    if !riff_size_fits(head.data_start, right) {
        return None;
    }
    Some(Sizes {
        riff_size: riff_size(head.data_start, right) as u32,
        data_length: right as u32,
        frames: frames as u32,
        left_over: (data % frame) as u32,
    })
}
