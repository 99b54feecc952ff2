// Files of records: each record has so many bytes, of which the first two are its mark.

#![tactic(auto)]

ghost use Rattle.std.specs.Prelude.{◌≡◌, ◌+◌, ◌*◌, ◌≤◌, length};
ghost use Rattle.records.specs.Records.{begins, is_marked, records_fit};

// The two bytes that a record begins with.
#[derive(Clone, Copy)]
pub struct Mark {
    pub first: u8,
    pub second: u8,
}

// What stands at byte p begins with the mark.
fn begins(s: &[u8], mark: Mark, p: usize) -> bool
    requires { p + 2 ≤ length s.now }
    ensures { result ≡ begins mark s.now p }
{
    s[p] == mark.first && s[p + 1] == mark.second
}

// Record i, which is whole, begins with the mark.
pub fn is_marked(s: &[u8], size: usize, mark: Mark, i: usize) -> bool
    requires { (2 ≤ size) × (size * i + size ≤ length s.now) }
    ensures { result ≡ is_marked size mark s.now i }
{
    begins(s, mark, size * i)
}

// No record is cut short, and each begins with the mark.
pub fn fit(s: &[u8], size: usize, mark: Mark) -> bool
    requires { 2 ≤ size }
    ensures { result ≡ records_fit size mark s.now }
{
    if s.len() % size != 0 {
        return false;
    }
    for i in 0..s.len() / size {
        if !is_marked(s, size, mark, i) {
            return false;
        }
    }
    true
}
