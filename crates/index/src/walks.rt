// What a walk through an index visits, one segment's number after another. Whatever the index holds, a walk ends, and stays within the table.

ghost use Rattle.std.specs.Prelude.{◌≡◌, ◌+◌, ◌<◌, ◌≤◌, MatchOption, length};
ghost use Rattle.std.specs.Iterator.{YieldsFirst, item_count};
ghost use Rattle.index.specs.Visiting.{down, up};

use std::marker::Model;

// The number that an entry names among those from a up to b, if it names one of them.
fn named(a: usize, b: usize, entry: u16) -> Option<usize>
    ensures { MatchOption result (a < entry → b < entry) (λ i. (entry ≡ i + 1) × (a ≤ i) × (i < b)) }
{
    let i = usize::from(entry).checked_sub(1)?;
    (a..b).contains(&i).then_some(i)
}

// A walk down: where it goes next, among the segments below a number, the entry says.
#[derive(Drop)]
pub struct Down<'a> {
    links: &'a [u16],
    below: usize,
    entry: u16,
}

impl<'a> Model for Down<'a> {
    ghost use Rattle.std.specs.Prelude.{ℕ, ◌≤◌, List, length};
    ghost use Rattle.index.specs.Visiting.{down};

    ghost Value = { List ℕ };

    ghost view = { λ a. down a.links.now a.below a.entry };

    ghost invariant = { λ a. a.below ≤ length a.links.now };
}

impl<'a> Down<'a> {
    pub(crate) fn new(links: &'a [u16], n: usize, entry: u16) -> Self
        requires { n ≤ length links.now }
        ensures { result ≡ down links.now n entry }
    {
        Down {
            links: links,
            below: n,
            entry: entry,
        }
    }
}

impl<'a> Iterator for Down<'a> {
    type Item = usize;

    ghost next_gives = { YieldsFirst (λ s. s) };

    ghost remaining = { item_count (λ s. s) };

    fn next(&mut self) -> Option<usize> {
        let i = named(0, self.below, self.entry)?;
        self.below = i;
        self.entry = self.links[i];
        Some(i)
    }
}

// A walk up: where it goes next, among the segments from a number on, the entry says.
#[derive(Drop)]
pub struct Up<'a> {
    links: &'a [u16],
    from: usize,
    count: usize,
    entry: u16,
}

impl<'a> Model for Up<'a> {
    ghost use Rattle.std.specs.Prelude.{ℕ, ◌-◌, ◌≤◌, List, length};
    ghost use Rattle.index.specs.Visiting.{up};

    ghost Value = { List ℕ };

    ghost view = { λ a. up a.links.now a.from (a.count - a.from) a.entry };

    ghost invariant = { λ a. (a.from ≤ a.count) × (a.count ≤ length a.links.now) };
}

impl<'a> Up<'a> {
    pub(crate) fn new(links: &'a [u16], n: usize, entry: u16) -> Self
        requires { n ≤ length links.now }
        ensures { result ≡ up links.now 0 n entry }
    {
        Up {
            links: links,
            from: 0,
            count: n,
            entry: entry,
        }
    }
}

impl<'a> Iterator for Up<'a> {
    type Item = usize;

    ghost next_gives = { YieldsFirst (λ s. s) };

    ghost remaining = { item_count (λ s. s) };

    fn next(&mut self) -> Option<usize> {
        let i = named(self.from, self.count, self.entry)?;
        self.from = i + 1;
        self.entry = self.links[i];
        Some(i)
    }
}
