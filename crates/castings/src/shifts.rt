// Which moves from one listed stamp to another lose nothing, by their numbers. There are at most 1,024, and a command has 32,768
// castings, so they are found out once for each command, before.
ghost use Rattle.std.specs.Prelude.{◌≡◌, true, Some};
ghost use Rattle.certificates.specs.Certificates.{stamp_at};
ghost use Rattle.certificates.specs.Views.{certificate_of};
ghost use Rattle.castings.specs.Conditions.{MoveKeptOnAll};
ghost use Rattle.castings.specs.Shifts.{is_known, KnownFrom, Known};

use crate::moving::move_kept_on_all;
use certificates::certificate::{Certificate, STAMPS};

// Of one stamp, whether it may become each.
type Row = [bool; STAMPS];

#[derive(Clone, Copy)]
pub(crate) struct Shifts {
    rows: [Row; STAMPS],
}

impl Shifts {
    // All of a certificate.
    pub(crate) fn of(certificate: &Certificate) -> Shifts
        ensures { Known (certificate_of certificate.now) result.rows }
    {
        let mut rows = [[false; STAMPS]; STAMPS];
        for u in 0..STAMPS {
            let row = row_of(certificate, u);
            rows[u] = row;
        }
        Shifts { rows }
    }

    // Whether the move is one of them.
    pub(crate) fn knows(&self, was: Option<usize>, is: Option<usize>) -> bool
        ensures { result ≡ is_known self.now.rows was is }
    {
        match (was, is) {
            (Some(u), Some(v)) => self
                .rows
                .get(u)
                .is_some_and(|row| row.get(v).copied().unwrap_or(false)),
            _ => false,
        }
    }
}

// Those from one stamp.
fn row_of(certificate: &Certificate, u: usize) -> Row
    ensures { KnownFrom (certificate_of certificate.now) u result }
{
    let mut row = [false; STAMPS];
    for v in 0..STAMPS {
        row[v] = loses_nothing(certificate, u, v);
    }
    row
}

// Whether what was of the one stamp and is of the other is allowed no less on each listed stamp, and this no less on it.
fn loses_nothing(certificate: &Certificate, u: usize, v: usize) -> bool
    ensures { result ≡ true → MoveKeptOnAll (certificate_of certificate.now) (stamp_at (certificate_of certificate.now) (Some u)) (stamp_at (certificate_of certificate.now) (Some v)) }
{
    move_kept_on_all(certificate, 0, Some(u), Some(v)).is_ok()
}
