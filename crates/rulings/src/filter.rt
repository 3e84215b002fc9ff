// A filter over any ruling: for some rights, the row's value of one attribute must also cover the column's.
ghost use Rattle.std.specs.Prelude.{◌≡◌, false, ◌&&◌};
ghost use Rattle.model.specs.Answers.{answer};
ghost use Rattle.rulings.specs.Attributes.{if_attribute};
ghost use Rattle.model.specs.Scales.{covers_in};
ghost use Rattle.rulings.specs.Filters.{filter_by, filter_says, meets_null};
ghost use Rattle.std.proofs.Common.{rules};

use crate::question::Question;
use crate::ruling::Ruling;
use model::fault::{Fault, Layer, Reason};
use model::mask::{Mask, holds};
use model::scale::Scale;
use model::stamp::{ATTRIBUTES, Attribute};
use std::marker::PhantomData;

// It concerns the rights in `rights` and no others. Every question is put to the ruling `below` as well.
pub struct AttributeFilter<S: Scale, R: Ruling> {
    attribute: Attribute,
    rights: Mask,
    below: R,
    scale: PhantomData<S>,
}

// Written by hand, since a derive would ask `Drop` of the scale too, of which there is never a value.
impl<S: Scale, R: Ruling + Drop> Drop for AttributeFilter<S, R> {
    fn drop(self) {
        let AttributeFilter {
            attribute: _,
            rights: _,
            below: _,
            scale: _,
        } = self;
    }
}

// The number of an attribute to filter by, or a refusal where there is no such attribute.
pub fn filter_attribute(k: Attribute) -> Result<Attribute, Fault>
    ensures { answer (λ n. n) result ≡ if_attribute k k }
{
    if k < ATTRIBUTES {
        Ok(k)
    } else {
        Err(Fault {
            layer: Layer::Parts,
            reason: Reason::NoSuchAttribute,
            place: u16::from(k),
        })
    }
}

impl<S: Scale, R: Ruling> AttributeFilter<S, R> {
    // For callers that know the attribute to exist.
    pub(crate) fn over(attribute: Attribute, rights: Mask, below: R) -> Self
        ensures { result ≡ filter_by attribute rights below }
    {
        AttributeFilter {
            attribute,
            rights,
            below,
            scale: PhantomData,
        }
    }
}

impl<S: Scale, R: Ruling + Drop> AttributeFilter<S, R> {
    pub fn new(attribute: Attribute, rights: Mask, below: R) -> Result<Self, Fault>
        ensures { answer (λ f. f) result ≡ if_attribute attribute (filter_by attribute rights below) }
    {
        let known = filter_attribute(attribute)?;
        Ok(AttributeFilter::over(known, rights, below))
    }
}

// `covers_in` and its two arguments stand here and in the contracts of the pile: a word that took both at once would have to
// name a type that the check makes for the trait.
impl<S: Scale, R: Ruling> Ruling for AttributeFilter<S, R> {
    ghost says = { filter_says (covers_in S.Scale.COUNT S.Scale.covering) R.Ruling.says };

    ghost grants = { Prim.search rules };

    // For the filter's rights, null on either side is a no.
    fn allows(&self, question: &Question) -> bool
        ensures answer { result ≡ filter_says (covers_in S.Scale.COUNT S.Scale.covering) R.Ruling.says self.now question.now }
        ensures nulls { (result && meets_null self.now.attribute self.now.rights question.now) ≡ false }
    {
        let below = self.below.allows(question);
        let row = question.row_stamp.attribute(self.attribute);
        let column = question.column_stamp.attribute(self.attribute);
        let covered = row
            .zip(column)
            .is_some_and(|(row, column)| S::covers(row, column));
        let passed = !holds(self.rights, question.right) || covered;
        below && passed
    }
}
