// One filter: when it is refused, which rights it concerns, and which values cover.
use crate::questions::{question, stamp};
use model::fault::Fault;
use model::labels::Labels;
use model::ladder::Ladder;
use model::scale::Scale;
use model::stamp::Attribute;
use rulings::filter::AttributeFilter;
use rulings::matrix::MatrixRuling;
use rulings::ruling::Ruling;
use std::test::Fail;

// For rights 1 and 15.
fn filter<S: Scale>(attribute: Attribute) -> Result<AttributeFilter<S, MatrixRuling>, Fault> {
    AttributeFilter::new(attribute, 0x8002, MatrixRuling)
}

#[test]
fn attributes(rt: HostRuntime) -> Result<(), Fail> {
    assert!(rt; filter::<Ladder>(3).is_ok());
    for attribute in [4, 255] {
        let Err(fault) = filter::<Ladder>(attribute) else {
            return Err(Fail::new("accepted"));
        };
        assert_eq!(rt; u8::from(fault.layer), 7);
        assert_eq!(rt; u8::from(fault.reason), 24);
        assert_eq!(rt; fault.place, u16::from(attribute));
    }
    Ok(())
}

#[test]
fn on_the_ladder(rt: HostRuntime) -> Result<(), Fail> {
    let by_grade = filter::<Ladder>(0)?;
    for (right, cell, row, column, answer) in [
        (1, 0xFFFF, Some(7), Some(0), true),
        (1, 0xFFFF, Some(3), Some(3), true),
        (1, 0xFFFF, Some(2), Some(3), false),
        (15, 0xFFFF, Some(2), Some(3), false),
        (1, 0xFFFF, None, Some(0), false),
        (1, 0xFFFF, Some(7), None, false),
        (1, 0xFFFF, None, None, false),
        (1, 0xFFFF, Some(8), Some(0), false),
        (1, 0xFFFF, Some(8), Some(8), false),
        // Rights outside the mask.
        (0, 0xFFFF, Some(2), Some(3), true),
        (0, 0xFFFF, None, Some(8), true),
        (16, 0xFFFF, Some(7), Some(0), false),
        // Values that cover do not stand in for the cell.
        (1, 0xFFFD, Some(7), Some(0), false),
    ] {
        let asked = question(
            right,
            cell,
            stamp([row, Some(0), Some(0), Some(0)]),
            stamp([column, Some(0), Some(0), Some(0)]),
        );
        assert_eq!(rt; by_grade.allows(&asked), answer);
    }
    Ok(())
}

// The same over labels, by attribute 3 of both stamps, and with full cells only.
#[test]
fn on_labels(rt: HostRuntime) -> Result<(), Fail> {
    let by_labels = filter::<Labels>(3)?;
    for (right, row, column, answer) in [
        (1, Some(15), Some(9), true),
        (1, Some(6), Some(6), true),
        (1, Some(6), Some(1), false),
        (1, Some(4), Some(6), false),
        (1, None, Some(0), false),
        (1, Some(15), None, false),
        (1, Some(16), Some(0), false),
        (1, Some(15), Some(16), false),
        (2, Some(6), Some(1), true),
    ] {
        let asked = question(
            right,
            0xFFFF,
            stamp([Some(0), Some(0), Some(0), row]),
            stamp([Some(0), Some(0), Some(0), column]),
        );
        assert_eq!(rt; by_labels.allows(&asked), answer);
    }
    Ok(())
}
