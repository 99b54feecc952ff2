// The steps of the walk over the summary records: specs/Walk.antt.
ghost use Rattle.std.specs.Prelude.{◌≡◌, ◌+◌, ◌*◌, ◌≤◌, length};
ghost use Rattle.daf.specs.Walk.{next_of, count_of, past_end};

use super::Daf;

// Summary record r or the name record after it ends past the kernel.
pub fn past_end(kernel: &[u8], r: u32) -> bool
    ensures { result ≡ past_end kernel.now r }
{
    kernel.len() < Daf::RECORD * (r as usize + 1)
}

// NEXT of summary record r.
pub fn next_record(kernel: &[u8], r: u32) -> u32
    requires { (1 ≤ r) × (1024 * (r + 1) ≤ length kernel.now) }
    ensures { result ≡ next_of kernel.now r }
{
    let at = Daf::RECORD * (r as usize - 1);
    bits::cut_u32(bits::double_at(kernel, at))
}

// NSUM of summary record r.
pub fn count_of(kernel: &[u8], r: u32) -> u64
    requires { (1 ≤ r) × (1024 * (r + 1) ≤ length kernel.now) }
    ensures { result ≡ count_of kernel.now r }
{
    let at = Daf::RECORD * (r as usize - 1) + 16;
    bits::cut_u64(bits::double_at(kernel, at))
}
