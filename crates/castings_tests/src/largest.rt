// The largest scheme over the largest certificate: 16 commands of 3 parameters, none tested, over 32 stamps of cards. Each of the
// 524,288 castings passes, and is looked at in full.
use crate::samples::{command, enter, set_grade};
use castings::closure::first_escape;
use certificates::certificate::Certificate;
use model::kind::Kind;
use model::scales::KioskScales;
use model::stamp::{Stamp, Value};
use scheme::step::Step;
use std::process::Abort;
use std::test::Fail;

// Cards of eight grades by four values of attribute 3, each allowed all on each.
fn of_all_cards() -> Result<Certificate, Fail> {
    let mut certificate = Certificate::empty();
    for shelf in 0..4u8 {
        for grade in 0..8u8 {
            let stamp = Stamp {
                kind: Kind::Subject,
                attributes: [Some(grade), None, None, Some(shelf)],
            };
            certificate.list(stamp).map_err(|_| "32 stamps")?;
        }
    }
    for u in 0..32usize {
        for v in 0..32usize {
            certificate.allow(u, v, 0xFFFF).map_err(|_| "32 numbers")?;
        }
    }
    Ok(certificate)
}

fn steps(grade: Value) -> [Step; 16] {
    let mut steps = [enter(15, 0, 1); 16];
    steps[0] = set_grade(0, grade);
    steps[1] = set_grade(1, 7 - grade % 8);
    steps[2] = set_grade(2, grade);
    steps
}

#[test]
fn largest(rt: HostRuntime) -> Result<(), Fail> {
    let certificate = of_all_cards()?;
    for number in 0..16u8 {
        let all = command(3, 7, &[], &steps(number % 8))?;
        assert!(rt; first_escape::<KioskScales>(&certificate, &all).is_none());
    }
    Ok(())
}
