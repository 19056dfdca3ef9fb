// A block of buffered samples.
ghost use Rattle.std.specs.Prelude.{◌≡◌, ◌+◌, ◌*◌, ◌≤◌, ◌++◌, [], IsOk, length, take};
ghost use Rattle.hound_sample.specs.{all_containers, joined_containers};
ghost use Rattle.hound_writer.specs.Writer.{block_length};

use hound_sample::{Sample, store_containers};
use std::marker::Model;

/// How many bytes a block holds.
pub(crate) const BLOCK_LENGTH: usize = 4096;

/// Accepted containers that are buffered, one after the other.
#[derive(Drop)]
pub(crate) struct Block {
    // Their bytes; those after these mean nothing.
    bytes: [u8; BLOCK_LENGTH],
    // How many bytes they have.
    length: usize,
}

impl Model for Block {
    ghost use Rattle.std.specs.Prelude.{ℕ, ◌≤◌, List, take};
    ghost use Rattle.hound_writer.specs.Writer.{block_length};

    ghost Value = { List ℕ };

    ghost view = { λ block. take block.length block.bytes };

    ghost invariant = { λ block. block.length ≤ block_length };
}

impl Block {
    /// An empty block.
    pub(crate) fn new() -> Block
        ensures { result ≡ [] }
    {
        Block {
            bytes: [0; BLOCK_LENGTH],
            length: 0,
        }
    }

    /// How many bytes are buffered.
    #[inline(always)]
    pub(crate) fn len(&self) -> usize
        ensures length { result ≡ length self.now }
        ensures within { result ≤ block_length }
    {
        self.length
    }

    /// The buffered bytes.
    pub(crate) fn as_slice(&self) -> &[u8]
        ensures { result.now ≡ self.now }
    {
        &self.bytes[..self.length]
    }

    /// Appends a container of this many bytes, if there is room for four.
    #[inline(always)]
    pub(crate) fn push(&mut self, container: [u8; 4], width: usize)
        requires room { length self.old + 4 ≤ block_length }
        requires width { width ≤ 4 }
        ensures { self.new ≡ self.old ++ take width container }
    {
        let at = self.length;
        let end = at + container.len();
        self.bytes[at..end].copy_from_slice(&container);
        self.length = at + width;
    }

    /// Appends containers, if there is room.
    pub(crate) fn extend(&mut self, containers: &[u8])
        requires { length self.old + length containers.now ≤ block_length }
        ensures { self.new ≡ self.old ++ containers.now }
    {
        let at = self.length;
        let end = at + containers.len();
        self.bytes[at..end].copy_from_slice(containers);
        self.length = end;
    }

    /// Appends the containers of samples, each of which has one, if there is room.
    #[inline(always)]
    pub(crate) fn extend_by<S: Sample + Copy>(&mut self, samples: &[S], bits: u16, width: u16)
        requires have { IsOk (all_containers (λ s. S.container s bits width) samples.now) }
        requires width { width ≤ 4 }
        requires room { length self.old + width * length samples.now ≤ block_length }
        ensures { self.new ≡ self.old ++ joined_containers (λ s. S.container s bits width) samples.now }
    {
        let at = self.length;
        let end = at + width as usize * samples.len();
        store_containers(&mut self.bytes[at..end], samples, bits, width);
        self.length = end;
    }

    /// Empties the block.
    pub(crate) fn clear(&mut self)
        ensures { self.new ≡ [] }
    {
        self.length = 0;
    }
}
