// Whether a certificate contains a register, name by name.
ghost use Rattle.std.specs.Prelude.{◌≡◌, ℕ, ◌≤◌, MatchOption};
ghost use Rattle.certificates.specs.Views.{certificate_of};
ghost use Rattle.register.specs.Views.{state_of};
ghost use Rattle.checker.specs.Containing.{Contains, unlisted, CellInside, RowInside, NameInside, CellStray, IsStray, stray_name};
ghost use Rattle.checker.specs.Flaws.{IsLowestStray};

use crate::flaw::Stray;
use certificates::certificate::Certificate;
use model::mask::{Right, outside};
use model::name::{NAMES, Name};
use model::scales::Scales;
use model::stamp::Stamp;
use register::register::Register;
use rulings::ruling::Ruling;
use stores::store::CellStore;

// Whether an entry stands there, with a stamp that is not listed.
fn is_unlisted(certificate: &Certificate, entry: Option<Stamp>) -> bool
    ensures { result ≡ unlisted (certificate_of certificate.now) entry }
{
    entry.is_some_and(|stamp| !certificate.lists(&stamp))
}

// A right of the cell that is not allowed between its two entries.
fn right_outside<S: Scales, C: CellStore, R: Ruling>(
    register: &Register<S, C, R>,
    certificate: &Certificate,
    row: Name,
    column: Name,
) -> Option<Right>
    ensures { MatchOption result (CellInside (certificate_of certificate.now) (state_of register.now).protection row column) (CellStray (certificate_of certificate.now) (state_of register.now).protection row column) }
{
    let allowed = certificate.between(register.entry(row), register.entry(column));
    outside(register.cell(row, column), allowed)
}

// A cell of the row that holds a right that is not allowed.
fn stray_cell<S: Scales, C: CellStore, R: Ruling>(
    register: &Register<S, C, R>,
    certificate: &Certificate,
    row: Name,
) -> Option<Stray>
    ensures { MatchOption result (RowInside (certificate_of certificate.now) (state_of register.now).protection row) (λ stray. IsStray (certificate_of certificate.now) (state_of register.now).protection stray × (stray_name stray ≡ row)) }
{
    for column in 0..NAMES {
        if let Some(right) = right_outside(register, certificate, row, column) {
            return Some(Stray::Cell { row, column, right });
        }
    }
    None
}

// Why the name is at fault, if it is: by its stamp, or else by its row. No name over 63 is.
fn stray_at<S: Scales, C: CellStore, R: Ruling>(
    register: &Register<S, C, R>,
    certificate: &Certificate,
    name: Name,
) -> Option<Stray>
    ensures stray { MatchOption result (NameInside (certificate_of certificate.now) (state_of register.now).protection name) (λ stray. IsStray (certificate_of certificate.now) (state_of register.now).protection stray × (stray_name stray ≡ name)) }
    ensures names { (n : ℕ) → 64 ≤ n → NameInside (certificate_of certificate.now) (state_of register.now).protection n }
{
    if is_unlisted(certificate, register.entry(name)) {
        return Some(Stray::Unlisted(name));
    }
    stray_cell(register, certificate, name)
}

// Why the lowest name that is at fault is so, and none where the certificate contains the register.
pub fn first_stray<S: Scales, C: CellStore, R: Ruling>(
    register: &Register<S, C, R>,
    certificate: &Certificate,
) -> Option<Stray>
    ensures { MatchOption result (Contains (certificate_of certificate.now) (state_of register.now).protection) (IsLowestStray (certificate_of certificate.now) (state_of register.now).protection) }
{
    for name in 0..NAMES {
        if let Some(stray) = stray_at(register, certificate, name) {
            return Some(stray);
        }
    }
    None
}
