// What a register is put together from: where its cells lie, and its filters.
ghost use Rattle.std.specs.Prelude.{◌≡◌, Some};
ghost use Rattle.model.specs.Answers.{answer};
ghost use Rattle.rulings.specs.Attributes.{if_attribute};
ghost use Rattle.setups.specs.Setups.{plain_setup, with_store, with_filter, store_words};

use crate::size::ListSize;
use model::fault::Fault;
use model::mask::Mask;
use model::stamp::Attribute;
use rulings::pile::FilterMasks;
use std::fmt;

mod lines;

#[derive(Clone, Copy)]
pub enum StoreChoice {
    Board,
    // A list of so many records.
    List(ListSize),
}

impl fmt::Display for StoreChoice {
    ghost output = { λ choice. Some (store_words choice) };

    fn fmt<W: fmt::Write>(&self, f: &mut fmt::Formatter<W>) -> fmt::Result {
        match self {
            StoreChoice::Board => write!(f, "on a board"),
            StoreChoice::List(size) => write!(f, "in a list; records: {size}"),
        }
    }
}

#[derive(Clone, Copy)]
pub struct Setup {
    pub store: StoreChoice,
    pub filters: FilterMasks,
}

impl Setup {
    // A board, and no filters.
    pub fn plain() -> Setup
        ensures { result ≡ plain_setup }
    {
        Setup {
            store: StoreChoice::Board,
            filters: FilterMasks::none(),
        }
    }

    pub fn choose_store(&mut self, choice: StoreChoice)
        ensures { self.new ≡ with_store self.old choice }
    {
        self.store = choice;
    }

    // A filter by an attribute, or a refusal and no change where there is no such attribute.
    pub fn choose_filter(&mut self, attribute: Attribute, mask: Mask) -> Result<(), Fault>
        ensures answer { answer (λ done. done) result ≡ if_attribute attribute tt }
        ensures after { self.new ≡ with_filter self.old attribute mask }
    {
        self.filters.set(attribute, mask)
    }
}
