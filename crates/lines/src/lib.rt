// The text of the programs' lines, put into a page: a buffer that the caller lends, and how far it is filled.
// The contracts give every byte; that a line is then written is beyond them, since no contract can speak of what a program writes.

#![tactic(auto)]

ghost use Rattle.std.specs.Prelude.{◌≡◌, ◌+◌, ◌≤◌, ◌<◌, length};
ghost use Rattle.std.specs.Float.{binary64};
ghost use Rattle.std.specs.Float.Ieee.{to_bits};
ghost use Rattle.lines.specs.Text.{decimal_text, signed_text, field_text, number_text, state_text, yes_text, tail_text, refusal_text, numbered_refusal_text};
ghost use Rattle.lines.specs.Written.{Put};
ghost use Rattle.lines.specs.Room.{decimal_room, field_room, yes_room, tail_room, refusal_room, numbered_refusal_room, text_room, capped};

use frame::State;
use refusal::Refusal;

// The most bytes of a number in decimal.
pub const DECIMAL: usize = 20;

// The most bytes of a signed number after a space.
pub const FIELD: usize = 22;

// The most bytes of a word, six numbers and the newline.
pub const TAIL: usize = 107;

// The most bytes of a refusal's line.
pub const REFUSAL: usize = 51;

// The bit pattern of x. The NaN has many, of which this is one.
pub fn bits_of(x: f64) -> u64
    ensures { result ≡ to_bits binary64 x }
{
    if x != x {
        return 0x7ff8_0000_0000_0000;
    }
    f64::to_bits(x)
}

// A buffer that is lent, and the place up to which it is filled.
#[derive(Drop)]
pub struct Page<'a> {
    pub out: &'a mut [u8],
    pub at: usize,
}

impl<'a> Page<'a> {
    // Puts a text.
    pub fn put(&mut self, text: &[u8])
        requires { self.old.at + length text.now ≤ length self.old.out.now }
        ensures { Put self.old text.now self.new }
    {
        let next = self.at + text.len();
        self.out[self.at..next].copy_from_slice(text);
        self.at = next;
    }

    // Puts n in decimal.
    pub fn put_decimal(&mut self, n: u64)
        requires { self.old.at + decimal_room ≤ length self.old.out.now }
        ensures written { Put self.old (decimal_text n) self.new }
        ensures upper_bound { self.new.at ≤ self.old.at + decimal_room }
    {
        let mut text = [0u8; DECIMAL];
        let k = io::decimal(n, &mut text);
        self.put(&text[..k]);
    }

    // Puts n in decimal, after a minus where it is negative.
    pub fn put_signed(&mut self, n: i64)
        requires { self.old.at + 21 ≤ length self.old.out.now }
        ensures written { Put self.old (signed_text n) self.new }
        ensures upper_bound { self.new.at ≤ self.old.at + 21 }
    {
        if n < 0 {
            self.put(b"-");
        }
        self.put_decimal(n.unsigned_abs());
    }

    // Puts n in decimal, after a space.
    pub fn put_field(&mut self, n: i32)
        requires { self.old.at + field_room ≤ length self.old.out.now }
        ensures written { Put self.old (field_text n) self.new }
        ensures upper_bound { self.new.at ≤ self.old.at + field_room }
    {
        self.put(b" ");
        self.put_signed(n as i64);
    }

    // Puts the bits of x in 16 hexadecimal digits, after a space.
    pub fn put_number(&mut self, x: f64)
        requires { self.old.at + 17 ≤ length self.old.out.now }
        ensures written { Put self.old (number_text x) self.new }
        ensures value { self.new.at ≡ self.old.at + 17 }
    {
        let mut text = [0u8; 16];
        let k = io::hex(bits_of(x), 16, &mut text);
        self.put(b" ");
        self.put(&text[..k]);
    }

    // Puts the six numbers of a state, each after a space.
    pub fn put_state(&mut self, s: State)
        requires { self.old.at + 102 ≤ length self.old.out.now }
        ensures written { Put self.old (state_text s) self.new }
        ensures value { self.new.at ≡ self.old.at + 102 }
    {
        self.put_number(s.x);
        self.put_number(s.y);
        self.put_number(s.z);
        self.put_number(s.vx);
        self.put_number(s.vy);
        self.put_number(s.vz);
    }

    // Puts `yes` or `no` after a space.
    pub fn put_yes(&mut self, yes: bool)
        requires { self.old.at + yes_room ≤ length self.old.out.now }
        ensures written { Put self.old (yes_text yes) self.new }
        ensures upper_bound { self.new.at ≤ self.old.at + yes_room }
    {
        if yes {
            self.put(b" yes");
        } else {
            self.put(b" no");
        }
    }

    // Puts the end of an answer's line: whether a record was stretched, its six numbers and the newline.
    pub fn put_tail(&mut self, stretched: bool, s: State)
        requires { self.old.at + tail_room ≤ length self.old.out.now }
        ensures written { Put self.old (tail_text stretched s) self.new }
        ensures upper_bound { self.new.at ≤ self.old.at + tail_room }
    {
        self.put_yes(stretched);
        self.put_state(s);
        self.put(b"\n");
    }

    // Puts the line of a refusal.
    pub fn put_refusal(&mut self, r: Refusal)
        requires { self.old.at + refusal_room ≤ length self.old.out.now }
        ensures written { Put self.old (refusal_text r) self.new }
        ensures upper_bound { self.new.at ≤ self.old.at + refusal_room }
    {
        self.put(b"refused ");
        self.put_decimal(r.number() as u64);
        self.put(b" ");
        self.put_signed(r.detail());
        self.put(b"\n");
    }

    // Puts the line of question i, which is refused: its number, then the refusal's line.
    pub fn put_numbered_refusal(&mut self, i: usize, r: Refusal)
        requires { self.old.at + numbered_refusal_room ≤ length self.old.out.now }
        ensures written { Put self.old (numbered_refusal_text i r) self.new }
        ensures upper_bound { self.new.at ≤ self.old.at + numbered_refusal_room }
    {
        self.put_decimal(i as u64);
        self.put(b" ");
        self.put_refusal(r);
    }
}

// The room of a text of n lines of at most so many bytes, or of one refusal; where that is over 64 bits, the largest number.
pub fn room(line: usize, n: usize) -> usize
    requires { 0 < line }
    ensures { result ≡ capped (text_room line n) }
{
    let most = (usize::MAX - REFUSAL) / line;
    if most < n {
        usize::MAX
    } else {
        line * n + REFUSAL
    }
}
