// Which orders may come where: outside a command, among its tests, among its steps.
ghost use Rattle.std.specs.Prelude.{◌≡◌};
ghost use Rattle.model.specs.Answers.{refused_by, unless, answer};
ghost use Rattle.scheme.specs.Views.{commands_of};
ghost use Rattle.tapes.specs.declared.tape.Tape.TheVariants.{Scheme as SchemeTape};
ghost use Rattle.tapes.specs.Taking.{broken_order, extended_order, taken};
ghost use Rattle.scheme_tape.specs.Drafts.{scheme_grammar, finish};
ghost use Rattle.scheme_tape.specs.Said.{said};
ghost use Rattle.scheme_tape.specs.Views.{draft_of};

use crate::draft::{Draft, Phase};
use model::counts::Counts;
use model::fault::{Fault, Layer, Reason};
use scheme::scheme::Scheme;
use scheme::step::Step;
use scheme::test::Test;
use tapes::order::Order;
use tapes::reader::Placed;
use tapes::value::value_read;

impl Draft {
    // Take in one order, or refuse it by the lowest rule that it breaks and stay as it was. Arms of one shape differ in the
    // variant that they make.
    pub(crate) fn obey(&mut self, counts: &Counts, order: Order) -> Result<(), Reason>
        ensures answer { refused_by result ≡ broken_order (scheme_grammar counts.now) (draft_of self.old) (said order.entry) }
        ensures after { draft_of self.new ≡ unless (refused_by result) (draft_of self.old) (extended_order (scheme_grammar counts.now) (draft_of self.old) (said order.entry)) }
    {
        match (self.phase(), order) {
            (Phase::Outside, Order::Begin(&[params, cards])) => self.begin(params, cards),
            (Phase::Tests, Order::Holds(&[right, row, column])) => {
                self.test(counts, Test::Holds { right, row, column })
            }
            (Phase::Tests, Order::Is(&[parameter, attribute, value])) => {
                self.test(
                    counts,
                    Test::Is {
                        parameter,
                        attribute,
                        value: value_read(value),
                    },
                )
            }
            (Phase::Tests, Order::IsNot(&[parameter, attribute, value])) => {
                self.test(
                    counts,
                    Test::IsNot {
                        parameter,
                        attribute,
                        value: value_read(value),
                    },
                )
            }
            (Phase::Tests, Order::Covers(&[upper, attribute, lower])) => {
                self.test(
                    counts,
                    Test::Covers {
                        upper,
                        attribute,
                        lower,
                    },
                )
            }
            (Phase::Tests | Phase::Steps, Order::Enter(&[right, row, column])) => {
                self.step(counts, Step::Enter { right, row, column })
            }
            (Phase::Tests | Phase::Steps, Order::Delete(&[right, row, column])) => {
                self.step(counts, Step::Delete { right, row, column })
            }
            (Phase::Tests | Phase::Steps, Order::Set(&[parameter, attribute, value])) => {
                self.step(
                    counts,
                    Step::Set {
                        parameter,
                        attribute,
                        value,
                    },
                )
            }
            (Phase::Tests | Phase::Steps, Order::Create(&[parameter])) => {
                self.step(counts, Step::Create { parameter })
            }
            (Phase::Tests | Phase::Steps, Order::Destroy(&[parameter])) => {
                self.step(counts, Step::Destroy { parameter })
            }
            (Phase::Tests | Phase::Steps, Order::End) => self.end(),
            _ => Err(Reason::OutOfPlace),
        }
    }

    // The same, where a refusal has the order's offset as its place.
    pub(crate) fn take_in(&mut self, counts: &Counts, placed: Placed) -> Result<(), Fault>
        ensures answer { answer (λ _. tt) result ≡ taken SchemeTape placed.entry.offset (broken_order (scheme_grammar counts.now) (draft_of self.old) (said placed.entry.order)) }
        ensures after { draft_of self.new ≡ unless (broken_order (scheme_grammar counts.now) (draft_of self.old) (said placed.entry.order)) (draft_of self.old) (extended_order (scheme_grammar counts.now) (draft_of self.old) (said placed.entry.order)) }
    {
        self.obey(counts, placed.order).map_err(|reason| Fault {
            layer: Layer::Scheme,
            reason,
            place: placed.offset,
        })
    }

    // The scheme, where the tape ends after `end` bytes; it may not end inside a command.
    pub(crate) fn finish(&self, end: u16) -> Result<Scheme, Fault>
        ensures { answer commands_of result ≡ finish end (draft_of self.now) }
    {
        match self.current {
            None => Ok(self.scheme),
            Some(_) => Err(Fault {
                layer: Layer::Scheme,
                reason: Reason::OutOfPlace,
                place: end,
            }),
        }
    }
}
