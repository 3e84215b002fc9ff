// The least table that contains a register, name by name.
ghost use Rattle.std.specs.Prelude.{◌≡◌, ℕ, false, cond, None, MatchResult};
ghost use Rattle.stores.specs.Matrices.{is_name};
ghost use Rattle.certificates.specs.Views.{certificate_of};
ghost use Rattle.register.specs.Views.{state_of};
ghost use Rattle.checker.specs.Containing.{unlisted, CellInside, RowInside, NameInside};
ghost use Rattle.maker.specs.Taking.{LeastContaining, Overfilled, Takes};

use crate::growing::meet;
use crate::need::{Need, Overfull};
use certificates::certificate::Certificate;
use model::name::{NAMES, Name};
use model::scales::Scales;
use register::register::Register;
use rulings::ruling::Ruling;
use stores::store::CellStore;

// A table that contains the register, and says no more than any certificate that does.
pub(crate) fn containing<S: Scales, C: CellStore, R: Ruling>(
    register: &Register<S, C, R>,
) -> Result<Certificate, Overfull>
    ensures { MatchResult result (λ t. LeastContaining (state_of register.now).protection (certificate_of t)) (λ _. Overfilled (state_of register.now).protection) }
{
    let mut table = Certificate::empty();
    for name in 0..NAMES {
        take_name(register, &mut table, name)?;
    }
    Ok(table)
}

// Adds what the table must say of a name: the stamp of its entry, and what its row holds.
fn take_name<S: Scales, C: CellStore, R: Ruling>(
    register: &Register<S, C, R>,
    table: &mut Certificate,
    name: Name,
) -> Result<(), Overfull>
    ensures taken { Takes (state_of register.now).protection (λ t. NameInside t (state_of register.now).protection name) (certificate_of table.old) (certificate_of table.new) result }
    ensures names { (n : ℕ) → (state_of register.now).protection.entry n ≡ cond (is_name n) ((state_of register.now).protection.entry n) None }
{
    take_entry(register, table, name)?;
    take_row(register, table, name)
}

// The stamp of the entry that stands under the name, if one does.
fn take_entry<S: Scales, C: CellStore, R: Ruling>(
    register: &Register<S, C, R>,
    table: &mut Certificate,
    name: Name,
) -> Result<(), Overfull>
    ensures taken { Takes (state_of register.now).protection (λ t. unlisted t ((state_of register.now).protection.entry name) ≡ false) (certificate_of table.old) (certificate_of table.new) result }
    ensures names { (n : ℕ) → (state_of register.now).protection.entry n ≡ cond (is_name n) ((state_of register.now).protection.entry n) None }
{
    match register.entry(name) {
        Some(stamp) => meet(table, Need::Stamp(stamp)),
        None => Ok(()),
    }
}

// What the cells of a row hold.
fn take_row<S: Scales, C: CellStore, R: Ruling>(
    register: &Register<S, C, R>,
    table: &mut Certificate,
    row: Name,
) -> Result<(), Overfull>
    ensures { Takes (state_of register.now).protection (λ t. RowInside t (state_of register.now).protection row) (certificate_of table.old) (certificate_of table.new) result }
{
    for column in 0..NAMES {
        take_cell(register, table, row, column)?;
    }
    Ok(())
}

// What one cell holds. Where an entry is missing, it is empty.
fn take_cell<S: Scales, C: CellStore, R: Ruling>(
    register: &Register<S, C, R>,
    table: &mut Certificate,
    row: Name,
    column: Name,
) -> Result<(), Overfull>
    ensures { Takes (state_of register.now).protection (λ t. CellInside t (state_of register.now).protection row column) (certificate_of table.old) (certificate_of table.new) result }
{
    let mask = register.cell(row, column);
    match (register.entry(row), register.entry(column)) {
        (Some(row), Some(column)) => meet(table, Need::Rights { row, column, mask }),
        _ => Ok(()),
    }
}
