// Each refusal of the scheme tape at its place, at least two ways, and what is accepted beside it.
use crate::samples::{SMALL_KIOSK, read, repeated, verdict};
use scheme::step::Step;
use scheme::test::Test;
use std::test::Fail;

#[test]
fn small_kiosk_is_read(rt: HostRuntime) -> Result<(), Fail> {
    let scheme = read(&SMALL_KIOSK)?;
    let commands = scheme.commands();
    assert!(rt; commands.len() == 3);
    assert_eq!(rt; commands[0].params(), 3);
    assert_eq!(rt; commands[0].cards(), 3);
    assert_eq!(rt; commands[0].tests().len(), 2);
    assert_eq!(rt; commands[1].steps().len(), 2);
    assert!(rt;
        matches!(
            commands[0].tests().first(),
            Some(Test::Holds {
                right: 0,
                row: 0,
                column: 2
            })
        )
    );
    assert!(rt;
        matches!(
            commands[2].steps().first(),
            Some(Step::Destroy { parameter: 0 })
        )
    );
    Ok(())
}

#[test]
fn little_is_enough(rt: HostRuntime) {
    assert_eq!(rt; verdict(&[]), Ok(()));
    assert_eq!(rt; verdict(&[0x10, 1, 0, 0x1F]), Ok(()));
    // A parameter with itself.
    assert_eq!(rt;
        verdict(&[
            0x10, 1, 1, 0x20, 15, 0, 0, 0x23, 0, 3, 0, 0x30, 0, 0, 0, 0x1F,
        ]),
        Ok(())
    );
    // Null may be compared with.
    assert_eq!(rt;
        verdict(&[0x10, 1, 0, 0x21, 0, 0, 0xFF, 0x22, 0, 1, 0xFF, 0x1F]),
        Ok(())
    );
}

#[test]
fn long_tapes_are_refused_first(rt: HostRuntime) -> Result<(), Fail> {
    let longest = repeated(rt.alloc(), &[], &[0], 65535, &[])?;
    assert_eq!(rt; verdict(longest.as_slice()), Err((1, 2, 0)));
    let longer = repeated(rt.alloc(), &[], &[0], 65536, &[])?;
    assert_eq!(rt; verdict(longer.as_slice()), Err((1, 1, 65535)));
    // A lawful beginning does not help.
    let lawful = repeated(rt.alloc(), &SMALL_KIOSK, &[0], 65500, &[])?;
    assert_eq!(rt; verdict(lawful.as_slice()), Err((1, 1, 65535)));
    Ok(())
}

#[test]
fn no_order(rt: HostRuntime) {
    assert_eq!(rt; verdict(&[0x11]), Err((1, 2, 0)));
    assert_eq!(rt; verdict(&[0x10, 1]), Err((1, 2, 0)));
    assert_eq!(rt; verdict(&[0x10, 1, 0, 0x32, 0, 0]), Err((1, 2, 3)));
    // An order of another tape.
    assert_eq!(rt; verdict(&[0x10, 1, 0, 0x40, 0, 0, 0, 0, 0]), Err((1, 2, 3)));
}

#[test]
fn out_of_place(rt: HostRuntime) {
    assert_eq!(rt; verdict(&[0x1F]), Err((1, 3, 0)));
    assert_eq!(rt; verdict(&[0x10, 1, 0, 0x1F, 0x33, 0]), Err((1, 3, 4)));
    assert_eq!(rt; verdict(&[0x10, 1, 0, 0x10, 9, 9]), Err((1, 3, 3)));
    // A test after a step.
    assert_eq!(rt;
        verdict(&[0x10, 1, 1, 0x30, 0, 0, 0, 0x20, 0, 0, 0, 0x1F]),
        Err((1, 3, 7))
    );
    // The end inside a command.
    assert_eq!(rt; verdict(&[0x10, 1, 0]), Err((1, 3, 3)));
    assert_eq!(rt; verdict(&[0x10, 1, 0, 0x34, 0]), Err((1, 3, 5)));
}

#[test]
fn too_many(rt: HostRuntime) -> Result<(), Fail> {
    let heap = rt.alloc();
    let command = [0x10, 1, 0, 0x1F];
    assert_eq!(rt;
        verdict(repeated(heap, &[], &command, 16, &[])?.as_slice()),
        Ok(())
    );
    assert_eq!(rt;
        verdict(repeated(heap, &[], &command, 17, &[])?.as_slice()),
        Err((1, 4, 64))
    );
    let test = [0x21, 0, 0, 0];
    assert_eq!(rt;
        verdict(repeated(heap, &[0x10, 1, 0], &test, 16, &[0x1F])?.as_slice()),
        Ok(())
    );
    // Before its operands are looked at.
    assert_eq!(rt;
        verdict(repeated(heap, &[0x10, 1, 0], &test, 16, &[0x21, 9, 9, 9])?.as_slice()),
        Err((1, 4, 67))
    );
    let step = [0x31, 0, 0, 0];
    assert_eq!(rt;
        verdict(repeated(heap, &[0x10, 1, 1], &step, 16, &[0x1F])?.as_slice()),
        Ok(())
    );
    assert_eq!(rt;
        verdict(repeated(heap, &[0x10, 1, 1], &step, 16, &[0x34, 0])?.as_slice()),
        Err((1, 4, 67))
    );
    Ok(())
}

#[test]
fn out_of_range(rt: HostRuntime) {
    // Parameters and cards of a command.
    assert_eq!(rt; verdict(&[0x10, 0, 0]), Err((1, 5, 0)));
    assert_eq!(rt; verdict(&[0x10, 4, 0]), Err((1, 5, 0)));
    assert_eq!(rt; verdict(&[0x10, 2, 4]), Err((1, 5, 0)));
    assert_eq!(rt; verdict(&[0x10, 3, 7, 0x1F]), Ok(()));
    // A parameter, a right, an attribute.
    assert_eq!(rt; verdict(&[0x10, 2, 3, 0x20, 0, 0, 2]), Err((1, 5, 3)));
    assert_eq!(rt; verdict(&[0x10, 2, 3, 0x30, 16, 0, 1]), Err((1, 5, 3)));
    assert_eq!(rt; verdict(&[0x10, 2, 3, 0x23, 0, 4, 1]), Err((1, 5, 3)));
    assert_eq!(rt; verdict(&[0x10, 2, 3, 0x33, 2]), Err((1, 5, 3)));
}

#[test]
fn values_of_their_own_scale(rt: HostRuntime) {
    assert_eq!(rt; verdict(&[0x10, 1, 0, 0x32, 0, 0, 7, 0x1F]), Ok(()));
    assert_eq!(rt; verdict(&[0x10, 1, 0, 0x32, 0, 0, 8, 0x1F]), Err((1, 5, 3)));
    assert_eq!(rt; verdict(&[0x10, 1, 0, 0x32, 0, 1, 15, 0x1F]), Ok(()));
    assert_eq!(rt;
        verdict(&[0x10, 1, 0, 0x32, 0, 2, 16, 0x1F]),
        Err((1, 5, 3))
    );
    assert_eq!(rt; verdict(&[0x10, 1, 0, 0x21, 0, 3, 8, 0x1F]), Err((1, 5, 3)));
    assert_eq!(rt;
        verdict(&[0x10, 1, 0, 0x32, 0, 0, 0xFF, 0x1F]),
        Err((1, 5, 3))
    );
}

#[test]
fn rows_are_cards(rt: HostRuntime) {
    assert_eq!(rt; verdict(&[0x10, 2, 2, 0x20, 0, 0, 1]), Err((1, 6, 3)));
    assert_eq!(rt; verdict(&[0x10, 2, 1, 0x20, 0, 0, 1, 0x1F]), Ok(()));
    assert_eq!(rt; verdict(&[0x10, 2, 1, 0x30, 0, 1, 0]), Err((1, 6, 3)));
    assert_eq!(rt; verdict(&[0x10, 2, 0, 0x31, 0, 1, 1]), Err((1, 6, 3)));
}

#[test]
fn created_parameters(rt: HostRuntime) {
    // Named by a test, by a step, created twice.
    assert_eq!(rt;
        verdict(&[0x10, 1, 0, 0x21, 0, 0, 0, 0x33, 0]),
        Err((1, 6, 7))
    );
    assert_eq!(rt;
        verdict(&[0x10, 2, 3, 0x30, 0, 0, 1, 0x33, 1]),
        Err((1, 6, 7))
    );
    assert_eq!(rt; verdict(&[0x10, 1, 0, 0x33, 0, 0x33, 0]), Err((1, 6, 5)));
    // Destroyed.
    assert_eq!(rt; verdict(&[0x10, 1, 0, 0x33, 0, 0x34, 0]), Err((1, 6, 5)));
    // A created row has to be declared too.
    assert_eq!(rt;
        verdict(&[0x10, 2, 1, 0x33, 1, 0x30, 0, 1, 0]),
        Err((1, 6, 5))
    );
    assert_eq!(rt;
        verdict(&[0x10, 2, 3, 0x33, 1, 0x30, 0, 1, 0, 0x1F]),
        Ok(())
    );
}

#[test]
fn destroyed_parameters(rt: HostRuntime) {
    assert_eq!(rt; verdict(&[0x10, 1, 0, 0x34, 0, 0x34, 0]), Err((1, 6, 5)));
    assert_eq!(rt;
        verdict(&[0x10, 1, 0, 0x34, 0, 0x32, 0, 0, 1]),
        Err((1, 6, 5))
    );
    assert_eq!(rt;
        verdict(&[0x10, 2, 3, 0x34, 1, 0x31, 0, 0, 1]),
        Err((1, 6, 5))
    );
    assert_eq!(rt; verdict(&[0x10, 1, 0, 0x34, 0, 0x33, 0]), Err((1, 6, 5)));
    assert_eq!(rt;
        verdict(&[0x10, 2, 3, 0x34, 1, 0x31, 0, 0, 0, 0x1F]),
        Ok(())
    );
}
