// Scales at their edges, masks, bounded lists, and the table of orders.
use model::bounded::{Bounded, Full};
use model::counts::Counts;
use model::kind::Kind;
use model::labels::Labels;
use model::ladder::Ladder;
use model::mask::holds;
use model::scale::Scale;
use model::stamp::Stamp;
use std::test::Fail;
use tapes::order::Order;
use tapes::orders::Orders;
use tapes::table::row_of;
use tapes::tape::Tape;

#[test]
fn ladder(rt: HostRuntime) {
    assert!(rt; Ladder::covers(7, 0) && Ladder::covers(3, 3) && !Ladder::covers(2, 3));
    assert!(rt; !Ladder::covers(8, 0) && !Ladder::covers(255, 0) && !Ladder::covers(0, 255));
}

#[test]
fn labels(rt: HostRuntime) {
    assert!(rt; Labels::covers(15, 9) && Labels::covers(6, 4) && Labels::covers(0, 0));
    assert!(rt; !Labels::covers(6, 1) && !Labels::covers(16, 0) && !Labels::covers(15, 16));
}

#[test]
fn counts_of_the_kiosk(rt: HostRuntime) {
    let counts = Counts::of::<Ladder, Labels, Labels, Ladder>();
    assert!(rt; counts.is_value(0, 7) && !counts.is_value(0, 8) && counts.is_value(1, 8));
    assert!(rt;
        counts.is_null_or_value(3, None)
            && !counts.is_value(3, 255)
            && !counts.is_null_or_value(4, None)
    );
}

#[test]
fn masks(rt: HostRuntime) {
    assert!(rt; holds(0x8000, 15) && holds(1, 0) && !holds(1, 1));
    assert!(rt; !holds(0xFFFF, 16) && !holds(0xFFFF, 255));
}

#[test]
fn stamps(rt: HostRuntime) {
    let stamp = Stamp {
        kind: Kind::Object,
        attributes: [Some(3), Some(9), None, Some(7)],
    };
    assert_eq!(rt; u8::from(stamp.kind), 2);
    assert_eq!(rt;
        [0, 3, 4].map(|k| stamp.attribute(k)),
        [Some(3), Some(7), None]
    );
}

#[test]
fn bounded_lists(rt: HostRuntime) {
    let mut list: Bounded<u8, 2> = Bounded::empty(0);
    assert!(rt; list.push(5).is_ok() && list.push(6).is_ok() && list.push(7) == Err(Full));
    assert_eq!(rt; list.len(), 2);
    assert_eq!(rt; list.as_slice().last().copied(), Some(6));
}

#[test]
fn orders(rt: HostRuntime) -> Result<(), Fail> {
    assert!(rt; row_of(0x51).is_some() && row_of(0x35).is_none());
    let tape = [0x1F, 0x60, 1, 2, 3, 4, 5];
    let ban = Tape::Bans.order_at(&tape, 1)?;
    assert!(rt; ban.offset == 1 && ban.size == 6);
    assert!(rt; matches!(ban.order, Order::Ban(_)));
    assert!(rt;
        Tape::Scheme.order_at(&tape, 1).is_err() && Tape::Scheme.order_at(&tape, 9).is_err()
    );
    Ok(())
}

#[test]
fn orders_of_a_tape(rt: HostRuntime) -> Result<(), Fail> {
    let tape = [0x10, 1, 0, 0x34, 0, 0x1F, 0x60, 0x1F];
    let mut orders = Orders::of(&tape, Tape::Scheme)?;
    assert_eq!(rt; orders.end(), 8);
    for offset in [0, 3, 5] {
        assert!(rt; matches!(orders.next(), Some(Ok(placed)) if placed.offset == offset));
    }
    // An order of another tape is refused at its place, and nothing comes after it.
    assert!(rt; matches!(orders.next(), Some(Err(fault)) if fault.place == 6));
    assert!(rt; orders.next().is_none());
    assert_eq!(rt; orders.end(), 8);
    Ok(())
}
