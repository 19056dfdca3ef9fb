// The reads by which a program follows a recording. All of it is compiled into its caller: a function that returned a
// follower by memory would let the converter of the portable C file take numbers for addresses.
ghost use Rattle.std.specs.Prelude.{◌≡◌};
ghost use Rattle.hound_walk.specs.{IsSoundOption, IsSoundSpec};
ghost use Rattle.hound_follow.specs.Following.{FollowsNext, IsSoundFollower, IsSoundLength, IsSoundRecording, TakesHeaderPart, TakesRead, after_byte, after_count, after_length, counted_by, look_ended, first_walk, recording_of, requested_by, look_requests, whole_bytes};
ghost use Rattle.hound_follow.specs.declared.follower.Follower.TheVariants.{Looks, Walks};
ghost use Rattle.hound_follow.specs.declared.follower.Look.TheVariants.{Byte};

use hound_number::u32_at;
use hound_spec::{WavSpecEx, riff_size_fits};
use hound_walk::{Cause, HeadWalk, Part, Step, take_part};
use hound_writer::Report;

/// A recording whose header was read.
#[derive(Clone, Copy, Debug, PartialEq, Eq)]
pub struct Recording {
    /// The spec of its samples.
    pub spec_ex: WavSpecEx,
    /// How many bytes are before them.
    pub data_start: u64,
    /// How many bytes of whole frames the header has counted, at most so far: they are in the file, and stay there.
    pub counted: u32,
    /// The data length that was read last, which is less where a checkpoint was cut off between two of its bytes.
    pub last: u32,
}

/// Which bytes of the data length a look requests.
#[derive(Clone, Copy, Debug, PartialEq, Eq)]
pub enum Look {
    /// All four at once, which only show whether it has changed.
    Length,
    /// The one with this number, from 0; the number that those above it are comes after it.
    Byte(u32, u32),
}

/// What a program that follows a recording requests of the file.
#[derive(Clone, Copy)]
pub enum Follower {
    /// A part of the header.
    Walks(HeadWalk),
    /// Bytes of the data length of this recording.
    Looks(Recording, Look),
}

/// What a follower's caller does next.
#[derive(Clone, Copy)]
pub enum FollowStep {
    /// A read of so many bytes at this place: the place, and how many.
    Reads(u64, u32),
    /// Nothing: the look has ended, and found all of the header, or that more whole frames are counted.
    Grew,
    /// Nothing: the look has ended, and found neither.
    NothingNew,
}

/// Why a look has ended.
#[derive(Clone, Copy, Debug, PartialEq, Eq)]
pub enum FollowError {
    /// The file isn't read, for this cause.
    Rejected(Cause),
    /// The file no longer holds its data length.
    Truncated,
    /// The length is that of no file, such as the one of a stream whose writer didn't know it.
    TooLong,
    /// A read was reported as failed.
    NotPerformed,
}

// What a call leaves, and what it returns.
#[derive(Clone, Copy)]
pub(crate) struct Outcome {
    follower: Follower,
    returned: Result<FollowStep, FollowError>,
}

// A look that ends so, after which the next one begins.
#[inline(always)]
fn ended(follower: Follower, returned: Result<FollowStep, FollowError>) -> Outcome
    ensures { result ≡ look_ended follower returned }
{
    let follower = match follower {
        Follower::Walks(_) => Follower::new(),
        Follower::Looks(recording, _) => Follower::Looks(recording, Look::Length),
    };
    Outcome { follower, returned }
}

// A look that continues with a request.
#[inline(always)]
fn requests(follower: Follower) -> Outcome
    requires { IsSoundFollower follower }
    ensures is { result ≡ look_requests follower }
    ensures sound { IsSoundFollower result.follower }
{
    let (place, length) = follower.request();
    Outcome {
        follower,
        returned: Ok(FollowStep::Reads(place, length)),
    }
}

// What comes of a part of the header.
#[inline(always)]
fn after_part(walk: HeadWalk, bytes: &[u8]) -> Outcome
    requires sound { IsSoundOption walk.found }
    ensures takes { TakesHeaderPart walk bytes.now result }
    ensures sound { IsSoundFollower result.follower }
{
    match take_part(walk, bytes) {
        Ok(Step::Next(next)) => requests(Follower::Walks(next)),
        Ok(Step::Data(head)) => {
            let recording = Recording {
                spec_ex: head.spec_ex,
                data_start: head.data_start,
                counted: 0,
                last: 0,
            };
            ended(
                Follower::Looks(recording, Look::Length),
                Ok(FollowStep::Grew),
            )
        }
        // The recorder may not have written all of it yet.
        Err(Cause::Ended) => ended(Follower::Walks(walk), Ok(FollowStep::NothingNew)),
        Err(cause) => ended(Follower::Walks(walk), Err(FollowError::Rejected(cause))),
    }
}

impl Recording {
    // How many of so many bytes are whole frames.
    #[inline(always)]
    fn whole_frames(self, length: u32) -> u32
        requires { IsSoundSpec self.spec_ex }
        ensures { result ≡ whole_bytes self.spec_ex length }
    {
        let frame = self.spec_ex.spec.channels as u32 * self.spec_ex.bytes_per_sample as u32;
        length - length % frame
    }

    // What comes of a data length.
    #[inline(always)]
    fn after_count(self, length: u32) -> Outcome
        requires { IsSoundRecording self }
        ensures is { result ≡ after_count self length }
        ensures sound { IsSoundFollower result.follower }
    {
        if !riff_size_fits(self.data_start, length as u64) {
            let follower = Follower::Looks(self, Look::Length);
            return ended(follower, Err(FollowError::TooLong));
        }
        let whole = self.whole_frames(length);
        let recording = Recording {
            counted: whole.max(self.counted),
            last: length,
            ..self
        };
        let step = if whole > self.counted {
            FollowStep::Grew
        } else {
            FollowStep::NothingNew
        };
        ended(Follower::Looks(recording, Look::Length), Ok(step))
    }

    // What comes of all four bytes of the data length.
    #[inline(always)]
    fn after_length(self, bytes: &[u8]) -> Outcome
        requires { IsSoundRecording self }
        ensures is { result ≡ after_length self bytes.now }
        ensures sound { IsSoundFollower result.follower }
    {
        let follower = Follower::Looks(self, Look::Length);
        if bytes.len() < 4 {
            return ended(follower, Err(FollowError::Truncated));
        }
        if u32_at(bytes, 0) == self.last {
            return ended(follower, Ok(FollowStep::NothingNew));
        }
        requests(Follower::Looks(self, Look::Byte(3, 0)))
    }

    // What comes of one of them.
    #[inline(always)]
    fn after_byte(self, number: u32, above: u32, bytes: &[u8]) -> Outcome
        requires sound { IsSoundRecording self }
        requires above { IsSoundLength (Byte number above) }
        ensures is { result ≡ after_byte self number above bytes.now }
        ensures sound { IsSoundFollower result.follower }
    {
        if bytes.len() == 0 {
            let follower = Follower::Looks(self, Look::Length);
            return ended(follower, Err(FollowError::Truncated));
        }
        let from_here = above * 256 + bytes[0] as u32;
        if number == 0 {
            return self.after_count(from_here);
        }
        requests(Follower::Looks(self, Look::Byte(number - 1, from_here)))
    }

    // What comes of what was requested of the data length.
    #[inline(always)]
    fn after_look(self, look: Look, bytes: &[u8]) -> Outcome
        requires sound { IsSoundRecording self }
        requires look { IsSoundLength look }
        ensures takes { TakesRead bytes.now (Looks self look) result }
        ensures sound { IsSoundFollower result.follower }
    {
        match look {
            Look::Length => self.after_length(bytes),
            Look::Byte(number, above) => self.after_byte(number, above, bytes),
        }
    }
}

impl Follower {
    /// A follower of a file of which nothing was read yet.
    #[inline(always)]
    pub fn new() -> Follower
        ensures is { result ≡ Walks first_walk }
        ensures sound { IsSoundFollower result }
    {
        Follower::Walks(HeadWalk {
            found: None,
            taken: 0,
            part: Part::Front,
        })
    }

    /// The recording, once all of its header was there.
    #[inline(always)]
    pub fn recording(self) -> Option<Recording>
        ensures { result ≡ recording_of self }
    {
        match self {
            Follower::Walks(_) => None,
            Follower::Looks(recording, _) => Some(recording),
        }
    }

    /// How many bytes of whole frames the header has counted, at most so far; 0 before all of it was there.
    #[inline(always)]
    pub fn counted(self) -> u32
        ensures { result ≡ counted_by self }
    {
        match self {
            Follower::Walks(_) => 0,
            Follower::Looks(recording, _) => recording.counted,
        }
    }

    /// Where it reads next, and how many bytes.
    #[inline(always)]
    pub fn request(self) -> (u64, u32)
        requires { IsSoundFollower self }
        ensures { result ≡ requested_by self }
    {
        let (recording, look) = match self {
            Follower::Walks(walk) => return (walk.start(), walk.length() as u32),
            Follower::Looks(recording, look) => (recording, look),
        };
        let place = recording.data_start - 4;
        match look {
            Look::Length => (place, 4),
            Look::Byte(number, _) => (place + number as u64, 1),
        }
    }

    /// What its caller does next, by how it reports what was requested last; `bytes` are those that were read, fewer
    /// only at the end of the file. Without a report it requests that, or begins a look.
    ///
    /// A look ends with another result than a request. The next call, without a report, begins the next look. Between
    /// the two the caller may read what [`Recording::counted`] counts.
    #[inline(always)]
    pub fn next(&mut self, bytes: &[u8], report: Report) -> Result<FollowStep, FollowError>
        requires sound { IsSoundFollower self.old }
        ensures steps { FollowsNext report bytes.now self.old self.new result }
        ensures sound { IsSoundFollower self.new }
    {
        let outcome = match report {
            Report::Pending => requests(*self),
            Report::Failed => ended(*self, Err(FollowError::NotPerformed)),
            Report::Done => match *self {
                Follower::Walks(walk) => after_part(walk, bytes),
                Follower::Looks(recording, look) => recording.after_look(look, bytes),
            },
        };
        *self = outcome.follower;
        outcome.returned
    }
}
