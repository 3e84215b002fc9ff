// How many values each of the four attributes has, as their scales state it.
ghost use Rattle.std.specs.Prelude.{◌≡◌, Bool};
ghost use Rattle.model.specs.Counts.{counts_by, is_value, is_null_or_value, in_scales};

use crate::scale::Scale;
use crate::stamp::{ATTRIBUTES, Attribute, PerAttribute, Stamp, Value};

#[derive(Clone, Copy, Debug, PartialEq, Eq)]
pub struct Counts {
    pub each: PerAttribute<u8>,
}

impl Counts {
    // Four parameters, and no trait of four scales: a caller would owe a type that implements it.
    pub fn of<S0: Scale, S1: Scale, S2: Scale, S3: Scale>() -> Counts
        ensures { result ≡ counts_by S0.Scale.COUNT S1.Scale.COUNT S2.Scale.COUNT S3.Scale.COUNT }
    {
        Counts {
            each: [S0::COUNT, S1::COUNT, S2::COUNT, S3::COUNT],
        }
    }

    // Whether `v` is a value of attribute `k`; an attribute that does not exist has none.
    pub fn is_value(&self, k: Attribute, v: Value) -> bool
        ensures { result ≡ is_value self.now k v }
    {
        self.each
            .get(usize::from(k))
            .is_some_and(|count| v < *count)
    }

    // Whether `v` may stand as attribute `k`: null may stand as any attribute there is.
    pub fn is_null_or_value(&self, k: Attribute, v: Option<Value>) -> bool
        ensures { result ≡ is_null_or_value self.now k v }
    {
        v.map_or(k < ATTRIBUTES, |v| self.is_value(k, v))
    }

    // Whether each attribute of a stamp is null or a value of its own scale.
    pub fn is_in_scales(&self, stamp: &Stamp) -> bool
        ensures { result ≡ in_scales self.now stamp.now }
    {
        (0..ATTRIBUTES).all(|k| self.is_null_or_value(k, stamp.attribute(k)))
    }
}
