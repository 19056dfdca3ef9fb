// A `Cursor` over bytes in memory can be read from and sought in. Contracts of a `Source` don't know its bytes, since a
// cursor counts no faults; of a `Tape` they do.
ghost use Rattle.std.specs.Prelude.{◌≡◌, ◌≤◌, ◌+◌, ◌↔◌, ℤ, pos, ◌+ℤ◌, false, length, IsOk, IfOk, OnOk, IfErr, OnErr};
ghost use Rattle.std.specs.Int.{FitsUnsigned, w64};
ghost use Rattle.std.specs.Io.Cursor.{cursor_position, cursor_inner, cursor_remaining};
ghost use Rattle.std.specs.Io.KnownBytes.{ReadConsumes};
ghost use Rattle.std.specs.IoError.{error_kind};
ghost use Rattle.std.proofs.lemmas.Bool.{false≢true};

use crate::{Placed, Source};
use std::io;
use std::io::{AsBytes, Cursor, ErrorKind, Read, Seek, SeekFrom};

impl<T: AsBytes + Drop> Placed for Cursor<T> {
    ghost bytes = { λ _ tells. Prim.absurd (false≢true tells) };

    fn go(&mut self, to: u64) -> io::Result<()>
        ensures ok { IsOk result }
        ensures place { cursor_position self.new ≡ to }
        ensures inner { cursor_inner self.new ≡ cursor_inner self.old }
    {
        self.set_position(to);
        Ok(())
    }

    fn shift(&mut self, by: i64) -> io::Result<()>
        ensures place { OnOk result (pos (cursor_position self.new) ≡ pos (cursor_position self.old) +ℤ by) }
        ensures stays { OnErr result (cursor_position self.new ≡ cursor_position self.old) }
        ensures ok { IsOk result ↔ FitsUnsigned w64 (pos (cursor_position self.old) +ℤ by) }
        ensures kind { IfErr result (λ e. error_kind e ≡ ErrorKind.InvalidInput) }
        ensures inner { cursor_inner self.new ≡ cursor_inner self.old }
    {
        let _ = self.seek(SeekFrom::Current(by))?;
        Ok(())
    }
}

impl<T: AsBytes + Drop> Source for Cursor<T> {
    ghost left = { λ _ tells. Prim.absurd (false≢true tells) };

    fn get(&mut self, buf: &mut [u8]) -> io::Result<usize>
        ensures bound { IfOk result (λ n. n ≤ length buf.new) }
        ensures bytes { ReadConsumes (cursor_remaining T.bytes self.old)
            (cursor_remaining T.bytes self.new) result buf.new }
        ensures ok { IsOk result }
        ensures place { IfOk result (λ n. cursor_position self.new ≡ cursor_position self.old + n) }
        ensures inner { cursor_inner self.new ≡ cursor_inner self.old }
    {
        self.read(buf)
    }
}
