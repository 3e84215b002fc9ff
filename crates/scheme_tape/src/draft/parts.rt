// What each order of the scheme tape does to the draft.
ghost use Rattle.std.specs.Prelude.{◌≡◌};
ghost use Rattle.model.specs.Answers.{refused_by, unless};
ghost use Rattle.scheme_tape.specs.Drafts.{empty_draft, broken, extended, phase_of};
ghost use Rattle.scheme_tape.specs.Instructions.{begins, tests, steps, ends};
ghost use Rattle.scheme_tape.specs.Views.{draft_of};

use crate::draft::{Draft, Phase};
use model::counts::Counts;
use model::fault::Reason;
use scheme::command::Command;
use scheme::scheme::{COMMANDS, Scheme};
use scheme::step::Step;
use scheme::test::Test;

impl Draft {
    pub(crate) fn empty() -> Draft
        ensures { draft_of result ≡ empty_draft }
    {
        Draft {
            scheme: Scheme::empty(),
            current: None,
        }
    }

    pub(crate) fn phase(&self) -> Phase
        ensures { result ≡ phase_of (draft_of self.now) }
    {
        match &self.current {
            None => Phase::Outside,
            Some(command) if command.steps().is_empty() => Phase::Tests,
            Some(_) => Phase::Steps,
        }
    }

    // Begin a command.
    pub(crate) fn begin(&mut self, params: u8, cards: u8) -> Result<(), Reason>
        ensures answer { (c : Counts) → refused_by result ≡ broken c (draft_of self.old) (begins params cards) }
        ensures after { draft_of self.new ≡ unless (refused_by result) (draft_of self.old) (extended (draft_of self.old) (begins params cards)) }
    {
        if self.current.is_some() {
            return Err(Reason::OutOfPlace);
        }
        if self.scheme.len() >= COMMANDS {
            return Err(Reason::TooMany);
        }
        self.current = Some(Command::begin(params, cards)?);
        Ok(())
    }

    // Add a test to the open command. `step` below has the same shape: one function for both would take a closure, and say in
    // its contract what the closure does, which is longer than the two.
    pub(crate) fn test(&mut self, counts: &Counts, test: Test) -> Result<(), Reason>
        ensures answer { refused_by result ≡ broken counts.now (draft_of self.old) (tests test) }
        ensures after { draft_of self.new ≡ unless (refused_by result) (draft_of self.old) (extended (draft_of self.old) (tests test)) }
    {
        self.current
            .as_mut()
            .ok_or(Reason::OutOfPlace)?
            .add_test(counts, test)
    }

    // Add a step to the open command.
    pub(crate) fn step(&mut self, counts: &Counts, step: Step) -> Result<(), Reason>
        ensures answer { refused_by result ≡ broken counts.now (draft_of self.old) (steps step) }
        ensures after { draft_of self.new ≡ unless (refused_by result) (draft_of self.old) (extended (draft_of self.old) (steps step)) }
    {
        self.current
            .as_mut()
            .ok_or(Reason::OutOfPlace)?
            .add_step(counts, step)
    }

    // End the open command.
    pub(crate) fn end(&mut self) -> Result<(), Reason>
        ensures answer { (c : Counts) → refused_by result ≡ broken c (draft_of self.old) ends }
        ensures after { draft_of self.new ≡ unless (refused_by result) (draft_of self.old) (extended (draft_of self.old) ends) }
    {
        let command = self.current.take().ok_or(Reason::OutOfPlace)?;
        self.scheme.add(command)
    }
}
