// Stamps, certificates and commands for the tests.
use castings::closure::first_escape;
use castings::escape::{Breach, Escape};
use certificates::certificate::Certificate;
use model::counts::Counts;
use model::kind::Kind;
use model::labels::Labels;
use model::ladder::Ladder;
use model::scales::KioskScales;
use model::stamp::{Stamp, Value};
use scheme::command::Command;
use scheme::step::Step;
use scheme::test::{Parameter, Test};
use std::test::Fail;

// The kind with this grade, and null as all other attributes.
const fn of_grade(kind: Kind, grade: Option<Value>) -> Stamp {
    Stamp {
        kind,
        attributes: [grade, None, None, None],
    }
}

pub(crate) fn high() -> Stamp {
    of_grade(Kind::Subject, Some(3))
}

pub(crate) fn low() -> Stamp {
    of_grade(Kind::Subject, Some(1))
}

pub(crate) fn thing() -> Stamp {
    of_grade(Kind::Object, None)
}

// A high card may 0 on a thing and 1 on a low card, which may 0 on a thing.
pub(crate) fn small_kiosk() -> Result<Certificate, Fail> {
    let mut certificate = Certificate::empty();
    for stamp in [high(), low(), thing()] {
        certificate.list(stamp).map_err(|_| "three stamps")?;
    }
    for (u, v, mask) in [(0, 2, 1), (0, 1, 2), (1, 2, 1)] {
        certificate.allow(u, v, mask).map_err(|_| "three masks")?;
    }
    Ok(certificate)
}

pub(crate) fn command(
    params: u8,
    cards: u8,
    tests: &[Test],
    steps: &[Step],
) -> Result<Command, Fail> {
    let counts = Counts::of::<Ladder, Labels, Labels, Ladder>();
    let mut command = Command::begin(params, cards).map_err(|_| "its parameters")?;
    for test in tests {
        command.add_test(&counts, *test).map_err(|_| "its tests")?;
    }
    for step in steps {
        command.add_step(&counts, *step).map_err(|_| "its steps")?;
    }
    Ok(command)
}

pub(crate) fn enter(right: u8, row: Parameter, column: Parameter) -> Step {
    Step::Enter { right, row, column }
}

pub(crate) fn set_grade(parameter: Parameter, value: Value) -> Step {
    Step::Set {
        parameter,
        attribute: 0,
        value,
    }
}

pub(crate) fn is_of_grade(parameter: Parameter, value: Option<Value>) -> Test {
    Test::Is {
        parameter,
        attribute: 0,
        value,
    }
}

// An escape from the small kiosk's certificate.
pub(crate) fn escape(command: &Command) -> Result<Option<Escape>, Fail> {
    let certificate = small_kiosk()?;
    Ok(first_escape::<KioskScales>(&certificate, command))
}

pub(crate) fn shown(stamps: [Option<Stamp>; 3], breach: Breach) -> Option<Escape> {
    Some(Escape { stamps, breach })
}
