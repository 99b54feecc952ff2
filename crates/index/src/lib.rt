// The index of a table by target: a slice of numbers that the caller lends, in four parts of equal length. An entry is one more than a
// segment's number, or 0 for none. Whatever it holds, a walk through it ends, and goes to segments of the table only.

#![tactic(auto)]

ghost use Rattle.std.specs.Prelude.{◌≡◌, suc, ◌+◌, ◌-◌, ◌≤◌, ◌<◌, length, take, drop};
ghost use Rattle.index.specs.Buckets.{unsigned_of, bucket_of};
ghost use Rattle.index.specs.Visiting.{head_of, down, up};
ghost use Rattle.index.specs.Parts.{quarter, last_of, below_of, first_of, above_of, room_in, has_room, Roomy, joined_at, joined_down, joined_up, emptied};

pub mod walks;

use segment::Segment;
use walks::{Down, Up};

// A body's number without its sign: n for n and for -1 - n.
fn unsigned_of(body: i32) -> usize
    ensures { result ≡ unsigned_of body }
{
    if body < 0 {
        (-1 - body) as usize
    } else {
        body as usize
    }
}

// The bucket of a body, of m.
fn bucket_of(body: i32, m: usize) -> usize
    requires { 0 < m }
    ensures value { result ≡ bucket_of m body }
    ensures upper_bound { result < m }
{
    unsigned_of(body) % m
}

// An index of so many numbers has room for n segments.
pub fn room_in(len: usize, n: usize) -> bool
    ensures { result ≡ room_in n len }
{
    let m = len / 4;
    0 < m && n <= m
}

// The index has room for n segments.
pub fn has_room(ix: &[u16], n: usize) -> bool
    ensures { result ≡ has_room n ix.now }
{
    room_in(ix.len(), n)
}

// ---- the parts

// A part of an index, which begins at place a.
fn part(ix: &[u16], a: usize) -> &[u16]
    requires { a + quarter ix.now ≤ length ix.now }
    ensures { result.now ≡ take (quarter ix.now) (drop a ix.now) }
{
    let e = a + ix.len() / 4;
    &ix[a..e]
}

// ---- a walk through it

// The entry of a body's bucket.
fn head_of(heads: &[u16], body: i32) -> u16
    requires { 0 < length heads.now }
    ensures { result ≡ head_of heads.now body }
{
    heads[bucket_of(body, heads.len())]
}

// The numbers that a walk down a body's segments visits, in a table of n.
pub fn down(ix: &[u16], n: usize, body: i32) -> Down<'_>
    requires { Roomy n ix.now }
    ensures { result ≡ down (below_of ix.now) n (head_of (last_of ix.now) body) }
{
    let links = part(ix, ix.len() / 4);
    let heads = part(ix, 0);
    Down::new(links, n, head_of(heads, body))
}

// The numbers that a walk up a body's segments visits, in a table of n.
pub fn up(ix: &[u16], n: usize, body: i32) -> Up<'_>
    requires { Roomy n ix.now }
    ensures { result ≡ up (above_of ix.now) 0 n (head_of (first_of ix.now) body) }
{
    let m = ix.len() / 4;
    let links = part(ix, m + m + m);
    let heads = part(ix, m + m);
    Up::new(links, n, head_of(heads, body))
}

// ---- how it is filled

// Empties every bucket.
pub fn clear(ix: &mut [u16])
    requires { 0 < quarter ix.old }
    ensures { ix.new ≡ emptied (quarter ix.old) ix.old }
{
    let m = ix.len() / 4;
    for i in 0..m {
        ix[i] = 0;
        ix[m + m + i] = 0;
    }
}

// Segment i, whose target is `body`, joins the half that begins at place a.
fn join_half(ix: &mut [u16], a: usize, i: usize, body: i32)
    requires half { a + quarter ix.old + quarter ix.old ≤ length ix.old }
    requires i_bound { i < quarter ix.old }
    requires i_bound_2 { i < 65535 }
    ensures { ix.new ≡ joined_at a ix.old i body }
{
    let m = ix.len() / 4;
    let h = a + bucket_of(body, m);
    ix[a + m + i] = ix[h];
    ix[h] = (i + 1) as u16;
}

// The number of the segment that stands as far from the end of n as segment i from the beginning.
pub fn mirrored(n: usize, i: usize) -> usize
    requires { i < n }
    ensures { result ≡ n - suc i }
{
    n - 1 - i
}

// Segment i, which is s, joins the descending half, and the segment as far from the end of n, which is u, the ascending one.
pub fn join(ix: &mut [u16], n: usize, i: usize, s: Segment, u: Segment)
    requires { ((n ≤ quarter ix.old) × (n < 65535)) × (i < n) }
    ensures { ix.new ≡ joined_up (joined_down ix.old i s.target) (n - suc i) u.target }
{
    let j = mirrored(n, i);
    join_half(ix, 0, i, s.target);
    let m = ix.len() / 4;
    join_half(ix, m + m, j, u.target);
}
