// States, the 3 by 3 matrices that turn them, and the frames of their numbers. A matrix is given row by row, as an array of arrays by value.
// The Rust's loops over 3 places are written out: the operations and their order stay.

#![tactic(auto)]

ghost use Rattle.std.specs.Prelude.{◌≡◌, ◌||◌};
ghost use Rattle.frame.specs.State.{zero_state, negated_state, plus_state, minus_state, finite_state};
ghost use Rattle.bits.specs.F64.{◌⊕◌, ◌⊗◌, at};
ghost use Rattle.frame.specs.Frame.{turned_state, transpose_of};
ghost use Rattle.frame.specs.Framed.{turn_of, joined};
ghost use Rattle.frame.specs.Given.{nothing_given, given_of, negated_given, plus_given, minus_given, turned_given};

// Position and velocity.
#[derive(Clone, Copy)]
pub struct State {
    pub x: f64,
    pub y: f64,
    pub z: f64,
    pub vx: f64,
    pub vy: f64,
    pub vz: f64,
}

impl State {
    // Six times +0.
    #[tactic(auto, unfolding(crate::specs::State::zero_state))]
    pub fn zero() -> Self
        ensures { result ≡ zero_state }
    {
        Self {
            x: 0.0,
            y: 0.0,
            z: 0.0,
            vx: 0.0,
            vy: 0.0,
            vz: 0.0,
        }
    }

    // Each number with the other sign, -0 for +0 too.
    #[tactic(auto, unfolding(crate::specs::State::negated_state))]
    pub fn negated(self) -> Self
        ensures { result ≡ negated_state self }
    {
        Self {
            x: -self.x,
            y: -self.y,
            z: -self.z,
            vx: -self.vx,
            vy: -self.vy,
            vz: -self.vz,
        }
    }

    // What f makes of each number and the other state's.
    fn zip<F: Fn(f64, f64) -> f64>(self, b: State, f: F) -> Self
        requires { F.IsAlwaysCallable f }
        ensures { F.post f self.x b.x result.x × F.post f self.y b.y result.y × F.post f self.z b.z result.z × F.post f self.vx b.vx result.vx × F.post f self.vy b.vy result.vy × F.post f self.vz b.vz result.vz }
    {
        Self {
            x: f(self.x, b.x),
            y: f(self.y, b.y),
            z: f(self.z, b.z),
            vx: f(self.vx, b.vx),
            vy: f(self.vy, b.vy),
            vz: f(self.vz, b.vz),
        }
    }

    // The sum, number by number.
    #[tactic(auto, unfolding(crate::specs::State::plus_state))]
    pub fn plus(self, b: State) -> Self
        ensures { result ≡ plus_state self b }
    {
        self.zip(b, |x, y| x + y)
    }

    // The difference, number by number.
    #[tactic(auto, unfolding(crate::specs::State::minus_state))]
    pub fn minus(self, b: State) -> Self
        ensures { result ≡ minus_state self b }
    {
        self.zip(b, |x, y| x - y)
    }

    // Whether each of the six is finite: a finite number less itself is +0, any other is a NaN, which stays in a sum.
    fn each_finite(self) -> bool
        ensures { result ≡ finite_state self }
    {
        let a = (self.x - self.x) + (self.z - self.z) + (self.vy - self.vy);
        let b = (self.y - self.y) + (self.vx - self.vx) + (self.vz - self.vz);
        0.0 <= a + b
    }

    // The same. A sum is finite only where its terms are: where the sum of all is not, each is looked at. The compiler adds them in pairs.
    pub fn is_finite(self) -> bool
        ensures { result ≡ finite_state self }
    {
        let total = (self.x + self.z + self.vy) + (self.y + self.vx + self.vz);
        if 0.0 <= total - total {
            return true;
        }
        self.each_finite()
    }
}

// A row of a matrix times a vector: the sum starts with its first product.
fn turned(row: [f64; 3], x: f64, y: f64, z: f64) -> f64
    ensures { result ≡ at row 0 ⊗ x ⊕ at row 1 ⊗ y ⊕ at row 2 ⊗ z }
{
    row[0] * x + row[1] * y + row[2] * z
}

// A state times a 3 by 3 matrix, position and velocity alike.
pub fn rotate_state_inertial(rot: [[f64; 3]; 3], s: State) -> State
    ensures { result ≡ turned_state rot s }
{
    let [a, b, c] = rot;
    State {
        x: turned(a, s.x, s.y, s.z),
        y: turned(b, s.x, s.y, s.z),
        z: turned(c, s.x, s.y, s.z),
        vx: turned(a, s.vx, s.vy, s.vz),
        vy: turned(b, s.vx, s.vy, s.vz),
        vz: turned(c, s.vx, s.vy, s.vz),
    }
}

// Rows for columns.
pub fn transpose(m: [[f64; 3]; 3]) -> [[f64; 3]; 3]
    ensures { result ≡ transpose_of m }
{
    [
        [m[0][0], m[1][0], m[2][0]],
        [m[0][1], m[1][1], m[2][1]],
        [m[0][2], m[1][2], m[2][2]],
    ]
}

// ---- the frame of numbers

// The frames that a state is turned between, by their numbers.
pub const J2000: i32 = 1;

pub const ECLIPJ2000: i32 = 17;

// The frame of the numbers that segments gave: no segment has entered, all were of this frame, or they were of several.
#[derive(Clone, Copy)]
pub enum Framed {
    Nothing,
    One(i32),
    Mixed,
}

// How a state is turned to a frame: it stands, the matrix turns it, its transpose does, or nothing.
#[derive(Clone, Copy)]
pub enum Turn {
    Stands,
    Forth,
    Back,
    Never,
}

impl Framed {
    // The frame of two sums together.
    pub fn joined(self, b: Framed) -> Framed
        ensures { result ≡ joined self b }
    {
        match (self, b) {
            (Framed::Nothing, _) => b,
            (_, Framed::Nothing) => self,
            (Framed::One(f), Framed::One(g)) if f == g => self,
            _ => Framed::Mixed,
        }
    }

    // How numbers of this frame are turned to a frame.
    pub fn turn(self, to: i32) -> Turn
        ensures { result ≡ turn_of self to }
    {
        match self {
            Framed::One(from) if from == to => Turn::Stands,
            Framed::One(J2000) if to == ECLIPJ2000 => Turn::Forth,
            Framed::One(ECLIPJ2000) if to == J2000 => Turn::Back,
            _ => Turn::Never,
        }
    }
}

// ---- a state, with what is known of it

// A state that segments gave, the frame of its numbers, and whether a record of one of them was stretched.
#[derive(Clone, Copy)]
pub struct Given {
    pub state: State,
    pub frame: Framed,
    pub stretched: bool,
}

impl Given {
    // Six times +0, which no segment gave: what a sum starts with.
    pub fn nothing() -> Given
        ensures { result ≡ nothing_given }
    {
        Given {
            state: State::zero(),
            frame: Framed::Nothing,
            stretched: false,
        }
    }

    // A state in a frame, stretched or not.
    pub fn of(state: State, frame: i32, stretched: bool) -> Given
        ensures { result ≡ given_of state frame stretched }
    {
        Given {
            state,
            frame: Framed::One(frame),
            stretched,
        }
    }

    // All six numbers negated.
    pub fn negated(self) -> Given
        ensures { result ≡ negated_given self }
    {
        Given {
            state: self.state.negated(),
            frame: self.frame,
            stretched: self.stretched,
        }
    }

    // A state made of two: their frames are joined, and it is stretched where one of them is.
    fn with(self, b: Given, state: State) -> Given
        ensures { result ≡ record { state = state; frame = joined self.frame b.frame; stretched = self.stretched || b.stretched } }
    {
        Given {
            state,
            frame: self.frame.joined(b.frame),
            stretched: self.stretched || b.stretched,
        }
    }

    // The sum.
    pub fn plus(self, b: Given) -> Given
        ensures { result ≡ plus_given self b }
    {
        self.with(b, self.state.plus(b.state))
    }

    // The difference.
    pub fn minus(self, b: Given) -> Given
        ensures { result ≡ minus_given self b }
    {
        self.with(b, self.state.minus(b.state))
    }

    // The state turned by a matrix to a frame.
    pub fn turned(self, rot: [[f64; 3]; 3], to: i32) -> Given
        ensures { result ≡ turned_given rot to self }
    {
        Given::of(rotate_state_inertial(rot, self.state), to, self.stretched)
    }
}
