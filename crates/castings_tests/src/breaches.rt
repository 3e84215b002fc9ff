// Each condition that fails, and where it does not.
use crate::samples::{
    command, enter, escape, high, is_of_grade, low, set_grade, shown, small_kiosk, thing,
};
use castings::closure::first_escape;
use castings::escape::Breach;
use model::kind::Kind;
use model::scales::KioskScales;
use model::stamp::Stamp;
use scheme::step::Step;
use std::process::Abort;
use std::test::Fail;

#[test]
fn idle(rt: HostRuntime) -> Result<(), Fail> {
    assert!(rt; escape(&command(3, 7, &[], &[])?)?.is_none());
    Ok(())
}

// No stamp of grade 2 is listed.
#[test]
fn unlisted(rt: HostRuntime) -> Result<(), Fail> {
    let raise = command(2, 2, &[], &[set_grade(1, 2)])?;
    let breach = Breach::Unlisted { parameter: 1 };
    assert!(rt; escape(&raise)? == shown([Some(high()), Some(high()), None], breach));
    // What is destroyed afterwards is not left standing.
    let and_end = command(
        2,
        2,
        &[],
        &[set_grade(1, 2), Step::Destroy { parameter: 1 }],
    )?;
    assert!(rt; escape(&and_end)?.is_none());
    Ok(())
}

// A card that is made is all null, and so is a thing, which is listed.
#[test]
fn made(rt: HostRuntime) -> Result<(), Fail> {
    let card = command(1, 1, &[], &[Step::Create { parameter: 0 }])?;
    let breach = Breach::Unlisted { parameter: 0 };
    assert!(rt; escape(&card)? == shown([None, None, None], breach));
    let thing = [Step::Create { parameter: 1 }, enter(0, 0, 1)];
    assert!(rt; escape(&command(2, 1, &[], &thing)?)?.is_none());
    let more = [Step::Create { parameter: 1 }, enter(1, 0, 1)];
    let breach = Breach::Cell {
        row: 0,
        column: 1,
        right: 1,
    };
    assert!(rt; escape(&command(2, 1, &[], &more)?)? == shown([Some(high()), None, None], breach));
    Ok(())
}

// A right that is entered, and deleted again.
#[test]
fn cells(rt: HostRuntime) -> Result<(), Fail> {
    let hand = command(2, 1, &[is_of_grade(1, None)], &[enter(0, 0, 1)])?;
    assert!(rt; escape(&hand)?.is_none());
    let all = command(2, 1, &[], &[enter(0, 0, 1)])?;
    let breach = Breach::Cell {
        row: 0,
        column: 1,
        right: 0,
    };
    assert!(rt; escape(&all)? == shown([Some(high()), Some(high()), None], breach));
    let back = Step::Delete {
        right: 0,
        row: 0,
        column: 1,
    };
    let both = command(2, 1, &[], &[enter(0, 0, 1), back])?;
    assert!(rt; escape(&both)?.is_none());
    let itself = command(1, 1, &[is_of_grade(0, Some(1))], &[enter(5, 0, 0)])?;
    let breach = Breach::Cell {
        row: 0,
        column: 0,
        right: 5,
    };
    assert!(rt; escape(&itself)? == shown([Some(low()), None, None], breach));
    Ok(())
}

// A high card that becomes a low one keeps its right 1 on low cards, which a low card is not allowed.
#[test]
fn rows(rt: HostRuntime) -> Result<(), Fail> {
    let lower = command(1, 1, &[], &[set_grade(0, 1)])?;
    let breach = Breach::Row {
        parameter: 0,
        other: low(),
        right: 1,
    };
    assert!(rt; escape(&lower)? == shown([Some(high()), None, None], breach));
    // Where it is destroyed, nothing is kept.
    let end = command(
        1,
        1,
        &[],
        &[set_grade(0, 1), Step::Destroy { parameter: 0 }],
    )?;
    assert!(rt; escape(&end)?.is_none());
    Ok(())
}

// A low card that becomes a high one stays open to the high cards' right 1, which is not allowed among them.
#[test]
fn columns(rt: HostRuntime) -> Result<(), Fail> {
    let raise = command(1, 1, &[], &[set_grade(0, 3)])?;
    let breach = Breach::Column {
        parameter: 0,
        other: high(),
        right: 1,
    };
    assert!(rt; escape(&raise)? == shown([Some(low()), None, None], breach));
    Ok(())
}

// What is allowed on a thing is allowed on one that is graded too, where the certificate says so.
#[test]
fn between_things(rt: HostRuntime) -> Result<(), Fail> {
    let grade = command(1, 0, &[is_of_grade(0, None)], &[set_grade(0, 4)])?;
    let graded = Stamp {
        kind: Kind::Object,
        attributes: [Some(4), None, None, None],
    };
    let mut certificate = small_kiosk()?;
    certificate.list(graded).map_err(|_| "a fourth stamp")?;
    let breach = Breach::Column {
        parameter: 0,
        other: high(),
        right: 0,
    };
    let first = first_escape::<KioskScales>(&certificate, &grade);
    assert!(rt; first == shown([Some(thing()), None, None], breach));
    for u in [0, 1] {
        certificate.allow(u, 3, 1).map_err(|_| "another mask")?;
    }
    assert!(rt; first_escape::<KioskScales>(&certificate, &grade).is_none());
    Ok(())
}
