// A ruling has the last word on an access question.
ghost use Rattle.std.specs.Prelude.{◌≡◌, Bool, true, not, ◌||◌};
ghost use Rattle.rulings.specs.Questions.{held};
ghost use Rattle.rulings.specs.declared.question.Question.{Question};

use crate::question::Question;

pub trait Ruling {
    // What a ruling means: its answer to every question.
    ghost says: { Self → Question → Bool };

    fn allows(&self, question: &Question) -> bool
        ensures { result ≡ says self.now question.now };

    // It says yes only if the cell holds the right.
    ghost grants: { (ruling : Self) (q : Question) → says ruling q ≡ true → held q ≡ true };
}

// Puts a question to any ruling. There is no yes, whichever ruling it is, unless the cell holds the right.
pub fn ask<R: Ruling>(ruling: &R, question: &Question) -> bool
    ensures answer { result ≡ R.Ruling.says ruling.now question.now }
    ensures lawful { (not result || held question.now) ≡ true }
{
    ruling.allows(question)
}
