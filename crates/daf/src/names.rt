// The bytes of a name, and those that it loses: specs/Names.antt.
ghost use Rattle.std.specs.Prelude.{◌≡◌, ℕ, Bool, length};
ghost use Rattle.daf.specs.Names.{ascii, is_space};
ghost use Rattle.daf.specs.Steps.{trimmed};

// The bytes without those at their end that pass a test.
pub fn trimmed<F: Fn(u8) -> bool>(mut bytes: &[u8], is_lost: F) -> &[u8]
    requires { F.IsAlwaysCallable is_lost }
    ensures { (test : ℕ → Bool) → ((b : ℕ) (r : Bool) → F.post is_lost b r → r ≡ test b) → result.now ≡ trimmed test bytes.now }
{
    while let [rest @ .., last] = bytes
        && is_lost(*last)
    {
        bytes = rest;
    }
    bytes
}

// Bytes 9 to 13 and 32.
pub fn is_space(b: u8) -> bool
    ensures { result ≡ is_space b }
{
    matches!(b, 9..=13 | 32)
}

// All of the bytes are below 128.
pub fn is_ascii(bytes: &[u8]) -> bool
    ensures { result ≡ ascii bytes.now 0 (length bytes.now) }
{
    bytes.iter().all(|b| *b < 128)
}
