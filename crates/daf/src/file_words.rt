// The words and numbers of the file record: specs/FileRecord.antt.
ghost use Rattle.std.specs.Prelude.{◌≡◌, ◌+◌, ◌≤◌, length};
ghost use Rattle.daf.specs.FileRecord.{spells, shaped};

use super::Family;

// The word stands in the kernel from byte `at` on.
pub fn spells(kernel: &[u8], at: usize, word: &[u8]) -> bool
    requires { at + length word.now ≤ length kernel.now }
    ensures { result ≡ spells kernel.now at word.now }
{
    kernel[at..].starts_with(word)
}

// ND and NI are the family's.
pub fn shaped(kernel: &[u8], family: Family) -> bool
    requires { 1024 ≤ length kernel.now }
    ensures { result ≡ shaped family kernel.now }
{
    let ni = family.ni();
    bits::le_u32(kernel, 8) == 2 && bits::le_u32(kernel, 12) == ni
}
