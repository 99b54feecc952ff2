// 6 by 6 matrices of states, and the sums and products of 3 by 3 ones that make them. A matrix is given row by row, as an array of arrays by value.
// The Rust's loops over 3 or 6 places are written out: the operations and their order stay.

#![tactic(auto)]

ghost use Rattle.std.specs.Prelude.{◌≡◌};
ghost use Rattle.bits.specs.F64.{◌⊕◌, at};
ghost use Rattle.frame.specs.Frame.{table};
ghost use Rattle.sxform.specs.Sxform.{product_of, sum_of, sxform_of, inverse_of, applied_state};
ghost use Rattle.sxform.specs.Steps.{row_times, times_state};

use frame::State;

// A row times a matrix: unlike the rotation's, each sum starts at +0.
fn row_times(a: [f64; 3], b: [[f64; 3]; 3]) -> [f64; 3]
    ensures { result ≡ row_times a b }
{
    let [x, y, z] = a;
    [
        0.0 + x * b[0][0] + y * b[1][0] + z * b[2][0],
        0.0 + x * b[0][1] + y * b[1][1] + z * b[2][1],
        0.0 + x * b[0][2] + y * b[1][2] + z * b[2][2],
    ]
}

// The product of two matrices.
pub fn matmul3(a: [[f64; 3]; 3], b: [[f64; 3]; 3]) -> [[f64; 3]; 3]
    ensures { result ≡ product_of a b }
{
    [row_times(a[0], b), row_times(a[1], b), row_times(a[2], b)]
}

// The sum of two rows.
fn row_sum(a: [f64; 3], b: [f64; 3]) -> [f64; 3]
    ensures { result ≡ table 3 (λ j. at a j ⊕ at b j) }
{
    [a[0] + b[0], a[1] + b[1], a[2] + b[2]]
}

// The sum of two matrices.
pub fn add3(a: [[f64; 3]; 3], b: [[f64; 3]; 3]) -> [[f64; 3]; 3]
    ensures { result ≡ sum_of a b }
{
    [
        row_sum(a[0], b[0]),
        row_sum(a[1], b[1]),
        row_sum(a[2], b[2]),
    ]
}

// The 6 by 6 matrix of a rotation and its derivative: blocks [r, 0], [dr, r].
pub fn sxform_from_rotation(r: [[f64; 3]; 3], dr: [[f64; 3]; 3]) -> [[f64; 6]; 6]
    ensures { result ≡ sxform_of r dr }
{
    let [a, b, c] = r;
    let [d, e, f] = dr;
    [
        [a[0], a[1], a[2], 0.0, 0.0, 0.0],
        [b[0], b[1], b[2], 0.0, 0.0, 0.0],
        [c[0], c[1], c[2], 0.0, 0.0, 0.0],
        [d[0], d[1], d[2], a[0], a[1], a[2]],
        [e[0], e[1], e[2], b[0], b[1], b[2]],
        [f[0], f[1], f[2], c[0], c[1], c[2]],
    ]
}

// Each block of such a matrix transposed where it stands, and +0 in the upper right one.
pub fn invert_sxform(m: [[f64; 6]; 6]) -> [[f64; 6]; 6]
    ensures { result ≡ inverse_of m }
{
    let [a, b, c, d, e, f] = m;
    [
        [a[0], b[0], c[0], 0.0, 0.0, 0.0],
        [a[1], b[1], c[1], 0.0, 0.0, 0.0],
        [a[2], b[2], c[2], 0.0, 0.0, 0.0],
        [d[0], e[0], f[0], d[3], e[3], f[3]],
        [d[1], e[1], f[1], d[4], e[4], f[4]],
        [d[2], e[2], f[2], d[5], e[5], f[5]],
    ]
}

// A row of six times a state: the sum starts at +0.
fn times_state(r: [f64; 6], s: State) -> f64
    ensures { result ≡ times_state r s }
{
    0.0 + r[0] * s.x + r[1] * s.y + r[2] * s.z + r[3] * s.vx + r[4] * s.vy + r[5] * s.vz
}

// A 6 by 6 matrix times a state.
pub fn apply_sxform(m: [[f64; 6]; 6], s: State) -> State
    ensures { result ≡ applied_state m s }
{
    State {
        x: times_state(m[0], s),
        y: times_state(m[1], s),
        z: times_state(m[2], s),
        vx: times_state(m[3], s),
        vy: times_state(m[4], s),
        vz: times_state(m[5], s),
    }
}
