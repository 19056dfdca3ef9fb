// Reading an integer or a block, and opening a file again.
ghost use Rattle.std.specs.Prelude.{◌≡◌, ◌⊎◌, ℕ, ◌+◌, ◌-◌, ◌*◌, ◌/◌, ◌%◌, ◌≤◌, ◌++◌, ◌∷◌, List, None, Some, Ok, Err, IsSome, IfErr, IfOk, MatchResult, drop, length, map, min, take};
ghost use Rattle.std.specs.List.{AllByRecursion, concat};
ghost use Rattle.hound.specs.{Begun, Call, Error, HasPublished, IsUncut, ReadsAs, ReadsBlock, Seeks, Keeps, accepted_by_all, begins_at, field, found_in, mix, moment, publish, start_of, AreContainers, GivesItems, IsEncoded, IsIoError, IsNotAppended, IsWhole, IsWritable, ReaderState, WavSpecEx, WhereTells, accepted_samples, canonical, containers, data_fault, data_start, greatest_u32, header, int_container, one_more, over_bytes, riff_size, samples_before, samples_left};
ghost use Rattle.hound_callers.specs.Memory.{HasAllSamples, IsFaultOf};

use hound::{
    Decode, Error, Journal, Medium, Placed, Sample, SampleFormat, Source, WavReader, WavSpecEx,
    WavWriter, a_block_is_its_items, a_checkpoint_holds, a_reader_is_where_it_counts,
    integers_come_back, one_append_answer, written_is_head, written_is_read,
};
use std::alloc::Global;
use std::{io, result};

/// What is read of an integer that was written with these bits and bytes: the same integer (`same`). An error is that
/// of the type, which has no container for it, or a fault of the read (`err`).
pub fn written_and_read(value: i32, bits: u16, width: u16) -> hound::Result<i32>
    ensures same { IfOk result (λ read. read ≡ value) }
    ensures err { IfErr result (λ e. IsIoError e ⊎ IsEncoded (int_container value bits width) (Err e)) }
{
    integers_come_back();
    let container = value.encode(bits, width)?;
    let mut bytes = &container[..width as usize];
    i32::read(&mut bytes, SampleFormat::Int, width, bits)
}

/// Reads a block: at an Ok it has all samples that fit or are left (`all`), those that as many calls of `next` would
/// have given, and the reader is left as these would have left it (`same`). An error is that of the item in whose place
/// it came (`err`).
pub fn read_block<S: Sample, R: io::Read + Drop>(
    reader: &mut WavReader<R>,
    block: &mut [S],
) -> hound::Result<usize>
    ensures all { IfOk result (λ count. count ≡ min (length block.old) (samples_left reader.old)) }
    ensures same { IsSome (R.remaining reader.old.reader) → IfOk result (λ count.
        (others : List S) (other : ReaderState R) → length others ≡ count →
        GivesItems R.remaining S.rejection S.meaning (map Ok others) reader.old other → (take count block.new ≡ others)
        × (over_bytes R.remaining reader.new ≡ over_bytes R.remaining other)) }
    ensures err { IfErr result (λ e. (count : ℕ) × ReadsBlock R.remaining S.rejection S.meaning count
        (Err e) block.old block.new reader.old reader.new) }
{
    a_block_is_its_items::<R, S>();
    let (count, result) = reader.read_samples(block);
    result?;
    Ok(count)
}

/// Reads a block from a frame on, by a reader that has read nothing yet. Returns how many samples came, all that fit or
/// are left (`all`), and what is left of the input: the bytes after their containers (`rest`). An error is a fault of
/// the seek, or that of the item in whose place it came (`err`).
pub fn read_from<S: Sample, R: Source>(
    reader: WavReader<R>,
    time: u32,
    block: &mut [S],
) -> hound::Result<(usize, R)>
    requires { reader.bytes_read ≡ 0 }
    ensures all { IfOk result (λ done. done.0
        ≡ min (length block.old) (reader.num_samples - samples_before time reader.spec_ex)) }
    ensures rest { WhereTells R.tells ((bytes : List ℕ) → R.remaining reader.reader ≡ Some bytes →
        IfOk result (λ done. R.remaining done.1 ≡ Some (drop ((samples_before time reader.spec_ex
        + done.0) * reader.spec_ex.bytes_per_sample) bytes))) }
    ensures err { WhereTells R.tells (IfErr result (λ e. (IsIoError e × (last : ReaderState R)
        × ((R.state last.reader).faults ≡ one_more (R.state reader.reader).faults))
        ⊎ ((mid last : ReaderState R) × Seeks R.state time reader mid × (count : ℕ)
        × ReadsBlock R.remaining S.rejection S.meaning count (Err e) block.old block.new mid last))) }
{
    a_reader_is_where_it_counts::<R, S>();
    let mut reader = reader;
    reader.seek(time)?;
    let (count, result) = reader.read_samples(block);
    result?;
    Ok((count, reader.into_inner()))
}

/// Opens a file to append to it. The samples accepted so far are those of a canonical file (`written`), or, of a
/// recording that was cut off, those that its header counts (`begun`). If these are whole frames and leave room, it is
/// Ok unless the medium fails. At an error nothing was written (`rejected`).
pub fn reopen<M: Source + Medium>(medium: M) -> result::Result<WavWriter<M>, (M, Error)>
    requires { WhereTells M.tells ((M.state medium).place ≡ 0) }
    ensures written { WhereTells M.tells ((s : WavSpecEx) (list : List (List ℕ)) → IsWritable s →
        AreContainers s list → riff_size (data_start s) (length list * s.bytes_per_sample) ≤ greatest_u32 →
        (M.state medium).contents ≡ canonical s list → MatchResult result
        (λ w. (w.spec_ex ≡ s) × IsWhole M.state w × (accepted_samples M.state w ≡ list))
        (λ rejected. IsIoError rejected.1 × ((M.state rejected.0).faults ≡ one_more (M.state medium).faults))) }
    ensures begun { WhereTells M.tells ((s : WavSpecEx) (size len : ℕ) (rest : List ℕ) → IsWritable s →
        data_fault s len ≡ None → riff_size (data_start s) len ≤ greatest_u32 →
        (M.state medium).contents ≡ header s size len ++ rest → MatchResult result
        (λ w. (w.spec_ex ≡ s) × (len ≤ length rest → IsWhole M.state w)
        × (accepted_samples M.state w ≡ containers s.bytes_per_sample (len / s.bytes_per_sample) rest))
        (λ rejected. IsIoError rejected.1 × ((M.state rejected.0).faults ≡ one_more (M.state medium).faults))) }
    ensures rejected { IfErr result (λ rejected. WhereTells M.tells
        (IsNotAppended (M.state medium) (M.state rejected.0) rejected.1)) }
{
    written_is_head();
    written_is_read();
    one_append_answer();
    WavWriter::try_append(medium)
}

/// What a player finds that opens a recording after its first k bytes were written, by what the calls of its writer
/// promise. While one writes samples, all before the data is as it was (`front`). While one makes a checkpoint, the
/// data length has some bytes of the old one and the others of the new one (`mixed`), and is one of these two unless a
/// write of it is cut (`whole`). From a checkpoint to where the next one begins, he finds exactly the samples accepted
/// before it (`checkpoint`).
pub fn opened_meanwhile(alloc: Global, journal: &Journal, k: usize) -> hound::Result<Vec<u8>>
    requires { k ≤ length (⟦<Journal as Placed>⟧.state journal.now).past }
    ensures front { let m = ⟦<Journal as Placed>⟧.state journal.now in IfOk result (λ bytes.
        (s : WavSpecEx) (file : Begun) (calls : List Call) → Keeps s file calls m → (before after : List Call)
        (call : Call) → calls ≡ before ++ (call ∷ after) → (call.asked ≡ publish → ⊥) → call.began ≤ k
        → k ≤ begins_at after m.past →
        take (start_of s file) bytes.items ≡ take (start_of s file) (moment m.start m.past call.began)) }
    ensures mixed { let m = ⟦<Journal as Placed>⟧.state journal.now in IfOk result (λ bytes.
        (s : WavSpecEx) (file : Begun) (calls : List Call) → Keeps s file calls m → (before after : List Call)
        (patch : Call) → calls ≡ before ++ (patch ∷ after) → patch.asked ≡ publish → patch.began ≤ k
        → k ≤ begins_at after m.past → let at = start_of s file - 4 in
        (count : ℕ) × (count ≤ 4) × (field at bytes.items ≡ mix count (field at (moment m.start m.past patch.began))
        (length (concat (found_in file ++ accepted_by_all before))))) }
    ensures whole { let m = ⟦<Journal as Placed>⟧.state journal.now in IfOk result (λ bytes.
        (s : WavSpecEx) (file : Begun) (calls : List Call) → Keeps s file calls m → (before after : List Call)
        (patch : Call) → calls ≡ before ++ (patch ∷ after) → patch.asked ≡ publish → patch.began ≤ k
        → k ≤ begins_at after m.past → let at = start_of s file - 4 in IsUncut at (patch ∷ after) m.past k →
        (field at bytes.items ≡ field at (moment m.start m.past patch.began))
        ⊎ (field at bytes.items ≡ length (concat (found_in file ++ accepted_by_all before)))) }
    ensures checkpoint { let m = ⟦<Journal as Placed>⟧.state journal.now in IfOk result (λ bytes.
        (s : WavSpecEx) (file : Begun) (calls : List Call) → Keeps s file calls m → (before later after : List Call)
        (flush : Call) → calls ≡ before ++ (flush ∷ (later ++ after)) → HasPublished flush
        → AllByRecursion (λ (call : Call). call.asked ≡ publish → ⊥) later
        → begins_at (later ++ after) m.past ≤ k → k ≤ begins_at after m.past
        → length (found_in file ++ accepted_by_all before) % s.spec.channels ≡ 0
        → ReadsAs s (start_of s file) (found_in file ++ accepted_by_all before) bytes.items) }
    ensures err { IfErr result (λ e. e ≡ Error.OutOfMemory) }
{
    a_checkpoint_holds();
    journal.bytes_after(alloc, k)
}

/// Reads a file in memory: its spec, and all of its samples (`read`). An error is one that these bytes have, or that of
/// the type, or there is no memory for the samples (`err`). The vector has the given sample before they come.
pub fn read_memory<S: Decode + Copy>(
    alloc: Global,
    bytes: &[u8],
    silence: S,
) -> hound::Result<(WavSpecEx, Vec<S>)>
    ensures read { IfOk result (λ done. HasAllSamples S.value bytes.now done.0 done.1.items) }
    ensures err { IfErr result (λ e. IsFaultOf S.decode_rejection bytes.now e ⊎ (e ≡ Error.OutOfMemory)) }
{
    let mut reader = WavReader::from_bytes(bytes)?;
    let spec_ex = reader.spec_ex();
    // No more than the bytes could hold, and one more where the header counts more.
    let most = bytes.len() / spec_ex.bytes_per_sample as usize + 1;
    let mut samples = vec![in alloc; silence; most.min(reader.len() as usize)]?;
    let (_, result) = reader.decode_samples(&mut samples);
    result?;
    Ok((spec_ex, samples))
}
