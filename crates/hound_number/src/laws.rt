// What holds for all bytes.
ghost use Rattle.std.specs.Prelude.{◌≡◌, ◌+ℤ◌, ◌-ℤ◌, ◌↔◌, ℕ, ℤ, pos};

/// Counting from -128 and counting from 0 are inverse, both ways: `signed_from_u8` of a byte is the number whose
/// `u8_from_signed` is that byte.
pub fn signed_bytes_come_back()
    ensures { (byte : ℕ) (signed : ℤ) → (signed ≡ pos byte -ℤ pos 128) ↔ (pos byte ≡ signed +ℤ pos 128) }
{}
