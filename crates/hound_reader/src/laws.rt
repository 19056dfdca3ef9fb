// What holds for all files that are written, and all readers.
ghost use Rattle.hound_medium.specs.{WhereTells};
ghost use Rattle.std.specs.Prelude.{◌≡◌, ℕ, ◌+◌, ◌*◌, ◌/◌, List, length, map, drop, ◌<◌, ◌≤◌, IsSome, Option, None, Some, Ok, Result, IfSome};
ghost use Rattle.hound_spec.specs.{IsWritable, data_start, canonical};
ghost use Rattle.hound_spec.specs.declared.spec.WavSpecEx.{WavSpecEx};
ghost use Rattle.hound_walk.specs.{Readable, unread};
ghost use Rattle.hound_reader.specs.Reader.{AreContainers, GivesItemsOfBytes, ReadsBlock, over_bytes, AreItems, GivesItems, ReaderState, IsNext, rejection_at, meaning_at, samples_left};
ghost use Rattle.hound_sample.specs.{containers};
ghost use Rattle.hound_reader.specs.Seeking.{HasSought, Seeks, IsWhereCounted, IsAtCount, ReadsInPlace, PassesItem, Follows, IsMeaningOf, container_at, samples_before, bytes_before};
ghost use Rattle.hound_spec.specs.declared.error.Error.{Error};

use hound_medium::Source;
use hound_sample::Sample;
use std::io;

/// The containers of a canonical file are read back, with its spec.
pub fn written_is_read()
    ensures { (s : WavSpecEx) (list : List (List ℕ)) → IsWritable s → AreContainers s list →
        Readable (canonical s list) s (length list) (data_start s)
        × (containers s.bytes_per_sample (length list) (drop (data_start s) (canonical s list)) ≡ list) }
{}

/// The items of one type that a reader gives are those of the file, from the reader's place on, and each counts.
pub fn items_are_of_the_file<R: io::Read, S: Sample>()
    ensures items { (items : List (Result S Error)) (old new : ReaderState R) →
        GivesItems R.remaining S.rejection S.meaning items old new → IfSome (R.remaining old.reader) (λ bytes.
        AreItems (rejection_at S.rejection old.spec_ex) (meaning_at S.meaning old.spec_ex)
        old.spec_ex.bytes_per_sample bytes items) }
    ensures counted { (items : List (Result S Error)) (old new : ReaderState R) →
        GivesItems R.remaining S.rejection S.meaning items old new →
        (new.samples_read ≡ old.samples_read + length items) × (length items ≤ samples_left old) }
{}

/// An iterator gives exactly as many items as are left when it begins, and then none: as many as its `size_hint` says.
pub fn an_iterator_gives_what_it_hints<R: io::Read, S: Sample>()
    ensures after { (items : List (Result S Error)) (old new end : ReaderState R) →
        GivesItems R.remaining S.rejection S.meaning items old new →
        IsNext {A = S} R.remaining S.rejection S.meaning None new end → length items ≡ samples_left old }
    ensures inside { (items : List (Result S Error)) (next : Option (Result S Error))
        (old new end : ReaderState R) → GivesItems R.remaining S.rejection S.meaning items old new →
        length items ≡ samples_left old → IsNext R.remaining S.rejection S.meaning next new end → next ≡ None }
{}

/// A block is its items: both are items of the bytes that are left. So if bytes are known, samples that a block read
/// are those that as many calls of `next` would have given, with the same counts and the same bytes left after them.
pub fn a_block_is_its_items<R: io::Read, S: Sample>()
    ensures items { (items : List (Result S Error)) (old new : ReaderState R) →
        GivesItems R.remaining S.rejection S.meaning items old new →
        GivesItemsOfBytes R.remaining S.rejection S.meaning items old new }
    ensures same { (samples others : List S) (old block new : ReaderState R) →
        IsSome (R.remaining old.reader) → length samples ≡ length others →
        GivesItemsOfBytes R.remaining S.rejection S.meaning (map Ok samples) old block →
        GivesItems R.remaining S.rejection S.meaning (map Ok others) old new →
        (samples ≡ others) × (over_bytes R.remaining block ≡ over_bytes R.remaining new) }
{}

/// A reader counts the bytes that its items took, whether they were read, rejected or torn: what is left are the data
/// after these bytes. This still holds after an Ok `seek` that doesn't go back, and after any `seek` over a source
/// whose reads only move its place.
pub fn a_reader_is_where_it_counts<R: Source, S: Sample>()
    ensures item { (bytes : List ℕ) (old new : ReaderState R) (next : Option (Result S Error)) →
        IsWhereCounted R.remaining bytes old → IsNext R.remaining S.rejection S.meaning next old new →
        IsWhereCounted R.remaining bytes new }
    ensures block { (bytes : List ℕ) (old new : ReaderState R) (count : ℕ)
        (result : Result (Unit {0}) Error) (before after : List S) → IsWhereCounted R.remaining bytes old →
        ReadsBlock R.remaining S.rejection S.meaning count result before after old new →
        IsWhereCounted R.remaining bytes new }
    ensures ahead { (bytes : List ℕ) (time : ℕ) (old new : ReaderState R) → WhereTells R.tells (
        IsWhereCounted R.remaining bytes old → Seeks R.state time old new →
        old.bytes_read ≤ bytes_before time old.spec_ex → IsWhereCounted R.remaining bytes new) }
    ensures passes { (old new : ReaderState R) (item : Result S Error) →
        IsNext R.remaining S.rejection S.meaning (Some item) old new →
        ReadsInPlace (R.state old.reader) (R.state new.reader) → PassesItem R.remaining R.state old new }
    ensures passes_block { (old new : ReaderState R) (count : ℕ) (result : Result (Unit {0}) Error)
        (before after : List S) → ReadsBlock R.remaining S.rejection S.meaning count result before after old new →
        ReadsInPlace (R.state old.reader) (R.state new.reader) → PassesItem R.remaining R.state old new }
    ensures place { (start : ℕ) (calls : List (Option ℕ)) (old new : ReaderState R) →
        WhereTells R.tells (IsAtCount R.state start old → Follows R.remaining R.state calls old new →
        IsAtCount R.state start new) }
{}

/// An Ok `seek` leads to its frame, if the source was as many bytes after the first data byte as the reader counts as
/// taken; and it is so afterwards. If the type reads the samples, the next item is then the meaning of the frame's
/// first container, unless it is an `IoError`, and that container is complete if the data chunk is.
pub fn a_seek_leads_to_its_frame<R: Source, S: Sample>()
    ensures place { (start time : ℕ) (old new : ReaderState R) → HasSought R.state start time old new →
        (R.state new.reader).place ≡ start + new.bytes_read }
    ensures item { (start time : ℕ) (old mid new : ReaderState R) (next : Option (Result S Error)) →
        WhereTells R.tells (HasSought R.state start time old mid → time < old.num_samples / old.spec_ex.spec.channels →
        rejection_at S.rejection old.spec_ex ≡ None → IsNext R.remaining S.rejection S.meaning next mid new →
        IsMeaningOf (meaning_at S.meaning old.spec_ex)
        (container_at old.spec_ex.bytes_per_sample (samples_before time old.spec_ex)
        (drop start (R.state old.reader).contents)) next) }
    ensures since_new { (calls : List (Option ℕ)) (time : ℕ) (first old mid new : ReaderState R)
        (next : Option (Result S Error)) → WhereTells R.tells (first.bytes_read ≡ 0 →
        Follows R.remaining R.state calls first old → Seeks R.state time old mid →
        time < first.num_samples / first.spec_ex.spec.channels → rejection_at S.rejection first.spec_ex ≡ None →
        IsNext R.remaining S.rejection S.meaning next mid new → IsMeaningOf (meaning_at S.meaning first.spec_ex)
        (container_at first.spec_ex.bytes_per_sample
        (samples_before time first.spec_ex) (unread (R.state first.reader))) next) }
    ensures there { (start time : ℕ) (old mid : ReaderState R) → HasSought R.state start time old mid →
        time < old.num_samples / old.spec_ex.spec.channels →
        start + old.num_samples * old.spec_ex.bytes_per_sample ≤ length (R.state old.reader).contents →
        old.spec_ex.bytes_per_sample ≤ length (unread (R.state mid.reader)) }
{}
