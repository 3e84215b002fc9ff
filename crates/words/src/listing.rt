// A command, line by line: its parameters, then its tests, then its steps.
ghost use Rattle.std.specs.Prelude.{Some, map};
ghost use Rattle.scheme.specs.Views.{view};
ghost use Rattle.words.specs.Listings.{parameter_words, parameters_words, test_lines, step_lines, listing_words, listings_words};

use crate::InWords;
use crate::role::Role;
use scheme::command::Command;
use scheme::step::Step;
use scheme::test::{Parameter, Test};
use std::fmt;

// A parameter; all but the first come after a comma.
#[derive(Clone, Copy)]
struct ParameterWords {
    i: Parameter,
    role: Role,
}

impl fmt::Display for ParameterWords {
    ghost output = { λ p. Some (parameter_words p.i p.role) };

    fn fmt<W: fmt::Write>(&self, f: &mut fmt::Formatter<W>) -> fmt::Result {
        let ParameterWords { i, role } = *self;
        if i == 0 {
            write!(f, "{i} ({role})")
        } else {
            write!(f, ", {i} ({role})")
        }
    }
}

// All parameters of a command, after how they are called.
#[derive(Drop)]
struct ParametersWords<'a>(&'a Command);

impl fmt::Display for ParametersWords<'_> {
    ghost output = { λ p. Some (parameters_words (view p.0.now)) };

    fn fmt<W: fmt::Write>(&self, f: &mut fmt::Formatter<W>) -> fmt::Result {
        let command = self.0;
        // The parameters are these numbers; there is no list of them to go over.
        for i in 0..command.params() {
            let role = Role::of(command, i);
            write!(f, "{}", ParameterWords { i, role })?;
        }
        Ok(())
    }
}

#[derive(Drop)]
struct TestLines<'a>(&'a [Test]);

impl fmt::Display for TestLines<'_> {
    ghost output = { λ l. Some (test_lines l.0.now) };

    fn fmt<W: fmt::Write>(&self, f: &mut fmt::Formatter<W>) -> fmt::Result {
        for (number, test) in self.0.iter().enumerate() {
            let test = InWords(*test);
            writeln!(f, "  test {number}: {test}")?;
        }
        Ok(())
    }
}

#[derive(Drop)]
struct StepLines<'a>(&'a [Step]);

impl fmt::Display for StepLines<'_> {
    ghost output = { λ l. Some (step_lines l.0.now) };

    fn fmt<W: fmt::Write>(&self, f: &mut fmt::Formatter<W>) -> fmt::Result {
        for (number, step) in self.0.iter().enumerate() {
            let step = InWords(*step);
            writeln!(f, "  step {number}: {step}")?;
        }
        Ok(())
    }
}

// A command with its number in the scheme.
#[derive(Drop)]
pub struct Listing<'a> {
    pub number: usize,
    pub command: &'a Command,
}

impl fmt::Display for Listing<'_> {
    ghost output = { λ l. Some (listing_words l.number (view l.command.now)) };

    fn fmt<W: fmt::Write>(&self, f: &mut fmt::Formatter<W>) -> fmt::Result {
        let Listing { number, command } = *self;
        let parameters = ParametersWords(command);
        if command.params() == 1 {
            writeln!(f, "command {number}: parameter {parameters}")?;
        } else {
            writeln!(f, "command {number}: parameters {parameters}")?;
        }
        let tests = TestLines(command.tests());
        let steps = StepLines(command.steps());
        write!(f, "{tests}{steps}")
    }
}

// All commands of a scheme, by rising number.
#[derive(Drop)]
pub struct Listings<'a>(pub &'a [Command]);

impl fmt::Display for Listings<'_> {
    ghost output = { λ l. Some (listings_words (map view l.0.now)) };

    fn fmt<W: fmt::Write>(&self, f: &mut fmt::Formatter<W>) -> fmt::Result {
        for (number, command) in self.0.iter().enumerate() {
            write!(f, "{}", Listing { number, command })?;
        }
        Ok(())
    }
}
