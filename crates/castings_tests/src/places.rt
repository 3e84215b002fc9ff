// Going on from a place, where castings come by the numbers of their stamps.
use crate::samples::{command, enter, small_kiosk};
use castings::closure::first_escape_from;
use castings::places::{FIRST, Place};
use certificates::certificate::Certificate;
use model::scales::KioskScales;
use scheme::command::Command;
use std::process::Abort;
use std::test::Fail;

// The place of the first escape that is found from there on.
fn next(certificate: &Certificate, command: &Command, place: Place) -> Option<Place> {
    let escape = first_escape_from::<KioskScales>(certificate, command, place)?;
    Some(escape.place(certificate))
}

// Where each escape is mended, the next is found by going on from it.
#[test]
fn mended(rt: HostRuntime) -> Result<(), Fail> {
    let pass = command(2, 3, &[], &[enter(2, 0, 1)])?;
    let mut certificate = small_kiosk()?;
    let mut place = FIRST;
    for (row, column) in [(0, 0), (0, 1), (1, 0), (1, 1)] {
        place = next(&certificate, &pass, place).ok_or("an escape")?;
        assert!(rt; place == [row, column, 0]);
        certificate.allow(row, column, 4).map_err(|_| "its mask")?;
    }
    assert!(rt; next(&certificate, &pass, place).is_none());
    assert!(rt; next(&certificate, &pass, FIRST).is_none());
    Ok(())
}

// The casting at the place is tried itself, and after a later number of one parameter all numbers of those that follow. After the
// last there is none.
#[test]
fn from_on(rt: HostRuntime) -> Result<(), Fail> {
    let certificate = small_kiosk()?;
    let any = command(3, 1, &[], &[enter(2, 0, 1)])?;
    for (place, found) in [
        (FIRST, Some(FIRST)),
        ([0, 2, 2], Some([0, 2, 2])),
        ([0, 1, 3], Some([0, 2, 0])),
        ([0, 3, 1], Some([1, 0, 0])),
        ([1, 2, 3], None),
        ([2, 0, 0], None),
        ([usize::MAX; 3], None),
    ] {
        assert!(rt; next(&certificate, &any, place) == found);
    }
    Ok(())
}
