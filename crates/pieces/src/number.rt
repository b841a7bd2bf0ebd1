// Little-endian numbers of two bytes.
ghost use Rattle.std.specs.Prelude.{◌≡◌, ◌+◌, ◌≤◌, length};
ghost use Rattle.pieces.specs.Number.{word_at, signed_of};

// The number of the two bytes at a place.
pub fn word_at(file: &[u8], at: usize) -> u16
    requires { at + 2 ≤ length file.now }
    ensures { result ≡ word_at file.now at }
{
    u16::from_le_bytes([file[at], file[at + 1]])
}

// The two's complement number of the two bytes at a place.
#[tactic(auto, unfolding(crate::specs::Number::signed_of))]
pub fn signed_at(file: &[u8], at: usize) -> i16
    requires { at + 2 ≤ length file.now }
    ensures { result ≡ signed_of (word_at file.now at) }
{
    word_at(file, at).cast_signed()
}
