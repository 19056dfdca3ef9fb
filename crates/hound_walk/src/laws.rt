// What holds for all bytes, and for all headers that are written.
ghost use Rattle.std.specs.Prelude.{ℕ, List, ◌++◌, ◌≤◌};
ghost use Rattle.hound_spec.specs.{IsWritable, header, data_start, greatest_u32};
ghost use Rattle.hound_spec.specs.declared.spec.WavSpecEx.{WavSpecEx};
ghost use Rattle.hound_walk.specs.Grammar.{HasOneAnswer, HasOneFileAnswer, Head};

/// Bytes have a head or a cause why they have none, and never two of these; and so they can be read as a file, or can't
/// for a cause.
pub fn one_answer()
    ensures head { (bytes : List ℕ) → HasOneAnswer bytes }
    ensures file { (bytes : List ℕ) → HasOneFileAnswer bytes }
{}

/// The header of a writable spec is a head with that spec and that length, whatever its RIFF size is and whatever
/// follows.
pub fn written_is_head()
    ensures { (s : WavSpecEx) (size len : ℕ) (rest : List ℕ) → IsWritable s → len ≤ greatest_u32 →
        Head (header s size len ++ rest) s len (data_start s) }
{}
