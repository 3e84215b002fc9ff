// The matrix ruling at the edges of rights and names.
use crate::questions::{question, stamp};
use rulings::matrix::MatrixRuling;
use rulings::ruling::{Ruling, ask};

#[test]
fn rights(rt: HostRuntime) {
    let entry = stamp([Some(0), Some(0), Some(0), Some(0)]);
    for (right, cell, answer) in [
        (0, 0xFFFF, true),
        (15, 0xFFFF, true),
        (16, 0xFFFF, false),
        (255, 0xFFFF, false),
        (15, 0x8000, true),
        (15, 0x7FFF, false),
        (0, 0, false),
    ] {
        assert_eq!(rt;
            MatrixRuling.allows(&question(right, cell, entry, entry)),
            answer
        );
    }
}

#[test]
fn names_make_no_difference(rt: HostRuntime) {
    let entry = stamp([Some(0), Some(0), Some(0), Some(0)]);
    for name in [0, 63, 64, 255] {
        let mut question = question(3, 0x0008, entry, entry);
        question.row = name;
        question.column = name;
        assert!(rt; ask(&MatrixRuling, &question));
        question.cell = 0xFFF7;
        assert!(rt; !ask(&MatrixRuling, &question));
    }
}
