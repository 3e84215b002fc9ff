// What sort of entry it is: its kind with its four attributes.
ghost use Rattle.std.specs.Prelude.{◌≡◌};
ghost use Rattle.model.specs.Stamps.{attribute_of, value_number, same_value, same_stamp};

use crate::kind::Kind;

// A value of an attribute's scale. Where an attribute may be null, it is an `Option<Value>`.
pub type Value = u8;

// Attributes are numbered 0 to 3.
pub type Attribute = u8;

pub const ATTRIBUTES: Attribute = 4;

// One of something for each attribute, in the order of their numbers. A constant can't call `from`, so its type is cast.
pub type PerAttribute<T> = [T; ATTRIBUTES as usize];

#[derive(Clone, Copy, Debug, PartialEq, Eq)]
pub struct Stamp {
    pub kind: Kind,
    pub attributes: PerAttribute<Option<Value>>,
}

// A value as a number, and null as one that is no value.
fn value_number(value: Option<Value>) -> u16
    ensures { result ≡ value_number value }
{
    match value {
        None => 256,
        Some(value) => u16::from(value),
    }
}

// By their numbers two are compared at once; `==` looks first whether there is a value, and then at it.
fn same_value(a: Option<Value>, b: Option<Value>) -> bool
    ensures { result ≡ same_value a b }
{
    value_number(a) == value_number(b)
}

impl Stamp {
    // Whether it is the same stamp. Contracts cite this, and not `==`, as it decides equality in the words of the subject.
    pub fn same(&self, other: &Stamp) -> bool
        ensures { result ≡ same_stamp self.now other.now }
    {
        let [a, b, c, d] = self.attributes;
        let [e, f, g, h] = other.attributes;
        u8::from(self.kind) == u8::from(other.kind)
            && same_value(a, e)
            && same_value(b, f)
            && same_value(c, g)
            && same_value(d, h)
    }

    // An attribute that does not exist reads as null.
    pub fn attribute(&self, k: Attribute) -> Option<Value>
        ensures { result ≡ attribute_of self.now k }
    {
        self.attributes.get(usize::from(k)).copied().flatten()
    }
}
