// A kernel and a file of records that is put to it: the refusals that come before any line is written, or the plan of the kernel's opening.

#![tactic(auto)]

ghost use Rattle.std.specs.Prelude.{◌≡◌, ◌≤◌};
ghost use Rattle.table.specs.Places.{limit_of};
ghost use Rattle.admission.specs.Order.{too_long, any_too_long, matrix_for, run_plan, plan_for, opened_for};

use daf::Family;
use opening::{Opened, Plan};
use records::Mark;
use refusal::Refusal;
use table::Table;

// Why a run with a matrix file doesn't go on, each state turned.
#[derive(Clone, Copy)]
pub enum MatrixFault {
    // a file is over a program's limit: 18
    TooLong,
    // the matrix file is none: it has another length
    Unfit,
}

// A matrix file has nine doubles.
pub const MATRIX: usize = 72;

// The kernel or the file of records is over a program's limit.
pub fn over(kernel: &[u8], file: &[u8]) -> bool
    ensures { result ≡ too_long kernel.now file.now }
{
    streams::too_long(kernel.len()) || streams::too_long(file.len())
}

// The kernel, the file of records or the matrix file is.
pub fn any_over(kernel: &[u8], file: &[u8], matrix: &[u8]) -> bool
    ensures { result ≡ any_too_long kernel.now file.now matrix.now }
{
    streams::too_long(matrix.len()) || over(kernel, file)
}

// The tests of a matrix file: 18 of any of the three, then its length.
pub fn matrix_for(kernel: &[u8], file: &[u8], matrix: &[u8]) -> Result<(), MatrixFault>
    ensures { result ≡ matrix_for kernel.now file.now matrix.now }
{
    if any_over(kernel, file, matrix) {
        return Err(MatrixFault::TooLong);
    }
    if matrix.len() != MATRIX {
        return Err(MatrixFault::Unfit);
    }
    Ok(())
}

// The plan for a file of records of so many bytes after this mark: the opening's refusals, then 19, or what is to be filled. Files of any length are
// taken: 18 is the programs' alone.
pub fn plan(
    kernel: &[u8],
    family: Family,
    file: &[u8],
    size: usize,
    mark: Mark,
    places: usize,
) -> Plan
    requires { 2 ≤ size }
    ensures { result ≡ run_plan family (limit_of places) size mark kernel.now file.now }
{
    let filling = opening::plan_of(kernel, family, places)?;
    if records::fit(file, size, mark) {
        Ok(filling)
    } else {
        Err(Refusal::BadRecord)
    }
}

// The same with 18 before it.
fn plan_short(
    kernel: &[u8],
    family: Family,
    file: &[u8],
    size: usize,
    mark: Mark,
    places: usize,
) -> Plan
    requires { 2 ≤ size }
    ensures { result ≡ plan_for family (limit_of places) size mark kernel.now file.now }
{
    if over(kernel, file) {
        return Err(Refusal::InputTooLong);
    }
    plan(kernel, family, file, size, mark, places)
}

// The table by value, 18 first.
pub fn open(kernel: &[u8], family: Family, file: &[u8], size: usize, mark: Mark) -> Opened
    requires { 2 ≤ size }
    ensures { result ≡ opened_for family size mark kernel.now file.now }
{
    let p = plan_short(kernel, family, file, size, mark, Table::PLACES);
    owned::open_by(kernel, family, p)
}
