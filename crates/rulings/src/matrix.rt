// The ruling that goes by the access matrix alone.
ghost use Rattle.std.specs.Prelude.{◌≡◌};
ghost use Rattle.rulings.specs.Questions.{held};
ghost use Rattle.std.proofs.Common.{rules};

use crate::question::Question;
use crate::ruling::Ruling;
use model::mask::{RIGHTS, holds};

#[derive(Clone, Copy)]
pub struct MatrixRuling;

impl Ruling for MatrixRuling {
    ghost says = { λ _ q. held q };

    ghost grants = { Prim.search rules };

    fn allows(&self, question: &Question) -> bool {
        question.right < RIGHTS && holds(question.cell, question.right)
    }
}
