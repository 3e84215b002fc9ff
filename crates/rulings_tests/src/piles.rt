// Filters over filters: three of mixed scales, and the kiosk's four.
use crate::questions::{question, stamp};
use model::fault::Fault;
use model::labels::Labels;
use model::ladder::Ladder;
use rulings::filter::AttributeFilter;
use rulings::matrix::MatrixRuling;
use rulings::pile::{FilterMasks, FourFilters, ask_four, four_filters};
use rulings::ruling::{Ruling, ask};
use std::test::Fail;

type Three = AttributeFilter<
    Labels,
    AttributeFilter<Ladder, AttributeFilter<Labels, MatrixRuling>>,
>;

type Kiosk = FourFilters<Ladder, Labels, Labels, Ladder>;

// Right 0 by attributes 2 and 3, right 1 by attributes 3 and 1.
fn three() -> Result<Three, Fault> {
    let lowest = AttributeFilter::new(1, 2, MatrixRuling)?;
    let middle = AttributeFilter::new(3, 3, lowest)?;
    AttributeFilter::new(2, 1, middle)
}

#[test]
fn three_filters(rt: HostRuntime) -> Result<(), Fail> {
    let pile = three()?;
    for (right, cell, column, answer) in [
        (0, 1, stamp([None, Some(1), Some(8), Some(5)]), true),
        (1, 2, stamp([None, Some(1), Some(8), Some(5)]), false),
        (1, 2, stamp([None, Some(4), Some(1), Some(5)]), true),
        (0, 1, stamp([None, Some(4), Some(1), Some(5)]), false),
        (1, 2, stamp([None, Some(4), Some(8), Some(6)]), false),
        // The cell is asked at the bottom of the pile.
        (0, 2, stamp([None, Some(1), Some(8), Some(5)]), false),
        // No filter concerns right 2.
        (2, 4, stamp([Some(7), Some(7), Some(7), Some(7)]), true),
    ] {
        let asked = question(
            right,
            cell,
            stamp([None, Some(6), Some(8), Some(5)]),
            column,
        );
        assert_eq!(rt; ask(&pile, &asked), answer);
    }
    Ok(())
}

#[test]
fn four_without_masks(rt: HostRuntime) {
    let pile: Kiosk = four_filters(FilterMasks::none());
    for (right, cell, answer) in [(15, 0x8000, true), (15, 0x7FFF, false), (16, 0xFFFF, false)] {
        let asked = question(
            right,
            cell,
            stamp([None, Some(0), Some(16), Some(0)]),
            stamp([Some(7), Some(15), Some(15), None]),
        );
        assert_eq!(rt; pile.allows(&asked), answer);
    }
}

#[test]
fn four_with_one_mask(rt: HostRuntime) {
    let mut masks = FilterMasks::none();
    assert!(rt; masks.set(2, 0x0010).is_ok());
    for (right, column, answer) in [
        (4, stamp([Some(7), Some(15), Some(2), Some(7)]), true),
        (4, stamp([Some(0), Some(0), Some(1), Some(0)]), false),
        (4, stamp([Some(0), Some(0), None, Some(0)]), false),
        (3, stamp([Some(0), Some(0), Some(1), Some(0)]), true),
    ] {
        let asked = question(
            right,
            0xFFFF,
            stamp([Some(0), Some(0), Some(6), Some(0)]),
            column,
        );
        assert_eq!(rt;
            ask_four::<Ladder, Labels, Labels, Ladder>(masks, &asked),
            answer
        );
    }
}

#[test]
fn setting_masks(rt: HostRuntime) -> Result<(), Fail> {
    let mut masks = FilterMasks::none();
    for k in [0, 1, 2, 3] {
        assert!(rt; masks.set(k, 10 + u16::from(k)).is_ok());
    }
    for k in [4, 255] {
        let Err(fault) = masks.set(k, 99) else {
            return Err(Fail::new("accepted"));
        };
        assert_eq!(rt; u8::from(fault.reason), 24);
        assert_eq!(rt; fault.place, u16::from(k));
    }
    assert_eq!(rt; masks.each, [10, 11, 12, 13]);
    Ok(())
}
