// Which castings are tried: by the tests, by declared cards, and by what is created.
use crate::samples::{command, enter, escape, high, is_of_grade, low, set_grade, shown, thing};
use castings::escape::Breach;
use scheme::step::Step;
use scheme::test::Test;
use std::process::Abort;
use std::test::Fail;

const THIRD: Breach = Breach::Cell {
    row: 2,
    column: 0,
    right: 9,
};

// Two parameters may get the same stamp.
#[test]
fn twice(rt: HostRuntime) -> Result<(), Fail> {
    let tests = [is_of_grade(0, Some(1)), is_of_grade(1, Some(1))];
    let breach = Breach::Cell {
        row: 0,
        column: 1,
        right: 2,
    };
    let both = command(2, 3, &tests, &[enter(2, 0, 1)])?;
    assert!(rt; escape(&both)? == shown([Some(low()), Some(low()), None], breach));
    Ok(())
}

// No test that fails lets a casting through, whichever parameter is its last.
#[test]
fn tested(rt: HostRuntime) -> Result<(), Fail> {
    let holds = Test::Holds {
        right: 1,
        row: 2,
        column: 0,
    };
    let over = Test::Covers {
        upper: 2,
        attribute: 0,
        lower: 1,
    };
    let steps = [enter(9, 2, 0)];
    let by_right = command(3, 4, &[holds], &steps)?;
    assert!(rt; escape(&by_right)? == shown([Some(low()), Some(high()), Some(high())], THIRD));
    let by_both = command(3, 4, &[holds, over, is_of_grade(1, Some(1))], &steps)?;
    assert!(rt; escape(&by_both)? == shown([Some(low()), Some(low()), Some(high())], THIRD));
    let other = Test::IsNot {
        parameter: 1,
        attribute: 0,
        value: Some(1),
    };
    let things = [holds, over, other, is_of_grade(1, None)];
    assert!(rt; escape(&command(3, 4, &things, &steps)?)?.is_none());
    let none = Test::Holds {
        right: 9,
        row: 2,
        column: 0,
    };
    assert!(rt; escape(&command(3, 4, &[none], &steps)?)?.is_none());
    Ok(())
}

// A declared card gets no thing's stamp, and what is declared none gets any.
#[test]
fn declared(rt: HostRuntime) -> Result<(), Fail> {
    let tests = [is_of_grade(0, None)];
    let breach = Breach::Unlisted { parameter: 0 };
    let any = command(1, 0, &tests, &[set_grade(0, 7)])?;
    assert!(rt; escape(&any)? == shown([Some(thing()), None, None], breach));
    assert!(rt; escape(&command(1, 1, &tests, &[set_grade(0, 7)])?)?.is_none());
    Ok(())
}

// What is created gets no stamp, so it is not all that is listed.
#[test]
fn created(rt: HostRuntime) -> Result<(), Fail> {
    let create = Step::Create { parameter: 0 };
    let make = command(2, 1, &[], &[create, set_grade(0, 3)])?;
    assert!(rt; escape(&make)?.is_none());
    let more = command(2, 1, &[], &[create, set_grade(0, 3), enter(3, 0, 1)])?;
    let breach = Breach::Cell {
        row: 0,
        column: 1,
        right: 3,
    };
    assert!(rt; escape(&more)? == shown([None, Some(high()), None], breach));
    Ok(())
}
