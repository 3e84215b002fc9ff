// The kiosk's ruling: a pile of four filters, one for each attribute, over the access matrix.
ghost use Rattle.std.specs.Prelude.{◌≡◌, ℕ, Bool};
ghost use Rattle.model.specs.Answers.{answer};
ghost use Rattle.rulings.specs.Attributes.{if_attribute};
ghost use Rattle.model.specs.Scales.{covers_in, four_scales};
ghost use Rattle.rulings.specs.PileMasks.{no_masks, with_mask};
ghost use Rattle.rulings.specs.Piles.{pile_says};
ghost use Rattle.rulings.specs.Questions.{held};
ghost use Rattle.rulings.specs.declared.question.Question.{Question};

use crate::filter::{AttributeFilter, filter_attribute};
use crate::matrix::MatrixRuling;
use crate::question::Question;
use crate::ruling::{Ruling, ask};
use model::fault::Fault;
use model::mask::Mask;
use model::scale::Scale;
use model::stamp::{ATTRIBUTES, Attribute, PerAttribute};

// For the rights in its mask, an attribute is looked at. A mask of 0 filters nothing.
#[derive(Clone, Copy, Debug, PartialEq, Eq)]
pub struct FilterMasks {
    pub each: PerAttribute<Mask>,
}

impl FilterMasks {
    // All 0. Then the cell alone decides, whatever the scales. A length can't call `from`, so the constant is cast.
    pub fn none() -> FilterMasks
        ensures masks { result ≡ no_masks }
        ensures unfiltered { (covers : ℕ → ℕ → ℕ → Bool) (q : Question) → pile_says covers result q ≡ held q }
    {
        FilterMasks {
            each: [0; ATTRIBUTES as usize],
        }
    }

    // Replaces the mask of attribute `k`, or refuses and changes nothing where there is no such attribute.
    pub fn set(&mut self, k: Attribute, mask: Mask) -> Result<(), Fault>
        ensures answer { answer (λ done. done) result ≡ if_attribute k tt }
        ensures masks { self.new ≡ with_mask self.old k mask }
    {
        let known = filter_attribute(k)?;
        self.each[usize::from(known)] = mask;
        Ok(())
    }
}

// The kiosk's pile: a filter by each attribute, that by attribute 0 outermost, over the access matrix.
pub type FourFilters<S0, S1, S2, S3> = AttributeFilter<
    S0,
    AttributeFilter<S1, AttributeFilter<S2, AttributeFilter<S3, MatrixRuling>>>,
>;

// The pile for these masks, which is never refused.
pub fn four_filters<S0: Scale, S1: Scale, S2: Scale, S3: Scale>(
    masks: FilterMasks,
) -> FourFilters<S0, S1, S2, S3>
    ensures { (q : Question) → ⟦<FourFilters<S0, S1, S2, S3> as Ruling>⟧.says result q ≡ pile_says (four_scales (covers_in S0.Scale.COUNT S0.Scale.covering) (covers_in S1.Scale.COUNT S1.Scale.covering) (covers_in S2.Scale.COUNT S2.Scale.covering) (covers_in S3.Scale.COUNT S3.Scale.covering)) masks q }
{
    let [m0, m1, m2, m3] = masks.each;
    let by_three = AttributeFilter::over(3, m3, MatrixRuling);
    let by_two = AttributeFilter::over(2, m2, by_three);
    let by_one = AttributeFilter::over(1, m1, by_two);
    AttributeFilter::over(0, m0, by_one)
}

// Makes the pile for these masks and puts one question to it.
pub fn ask_four<S0: Scale, S1: Scale, S2: Scale, S3: Scale>(
    masks: FilterMasks,
    question: &Question,
) -> bool
    ensures { result ≡ pile_says (four_scales (covers_in S0.Scale.COUNT S0.Scale.covering) (covers_in S1.Scale.COUNT S1.Scale.covering) (covers_in S2.Scale.COUNT S2.Scale.covering) (covers_in S3.Scale.COUNT S3.Scale.covering)) masks question.now }
{
    ask(&four_filters::<S0, S1, S2, S3>(masks), question)
}
