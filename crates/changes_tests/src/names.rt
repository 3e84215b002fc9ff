// Which names a request may give, and where it is refused.
use changes::names::Names;
use model::fault::Reason;
use model::name::Name;
use std::process::Abort;
use std::test::Fail;

fn refused(rt: &impl Abort, params: u8, names: &[Name], reason: Reason, place: u16) {
    match Names::bind(params, names) {
        Ok(_) => assert!(rt; false),
        Err(fault) => {
            assert!(rt; u8::from(fault.layer) == 5);
            assert!(rt; fault.reason == reason && fault.place == place);
        }
    }
}

#[test]
fn taken(rt: HostRuntime) -> Result<(), Fail> {
    let names = Names::bind(3, &[63, 0, 7]).map_err(|_| "three names")?;
    assert!(rt; names.len() == 3 && names.as_slice()[0] == 63);
    assert!(rt; names.parameter(7) == Some(2) && names.parameter(1).is_none());
    Ok(())
}

// By the lowest rule, and then at the lowest parameter; of two equal names the later one is at fault.
#[test]
fn rules(rt: HostRuntime) -> Result<(), Fail> {
    refused(&rt, 2, &[1], Reason::WrongNumberOfNames, 0);
    refused(&rt, 1, &[64, 64], Reason::WrongNumberOfNames, 0);
    refused(&rt, 4, &[1, 2, 3, 4], Reason::WrongNumberOfNames, 0);
    refused(&rt, 3, &[1, 1, 64], Reason::NoSuchName, 2);
    refused(&rt, 3, &[5, 255, 64], Reason::NoSuchName, 1);
    refused(&rt, 3, &[1, 2, 1], Reason::RepeatedName, 2);
    refused(&rt, 3, &[2, 2, 2], Reason::RepeatedName, 1);
    Ok(())
}
