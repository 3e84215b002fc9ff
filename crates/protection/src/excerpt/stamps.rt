// The stamp of an entry that is made, and one whose attribute is set.
ghost use Rattle.std.specs.Prelude.{◌≡◌, Some, slice_set};
ghost use Rattle.protection.specs.Commands.{declared_kind};
ghost use Rattle.protection.specs.Operations.{null_stamp, with_attribute};

use model::kind::Kind;
use model::mask::holds;
use model::stamp::{ATTRIBUTES, Attribute, PerAttribute, Stamp, Value};
use scheme::test::Parameter;

// A subject where the parameter is declared a card, and else an object.
fn declared_kind(cards: u8, i: Parameter) -> Kind
    ensures { result ≡ declared_kind cards i }
{
    if holds(u16::from(cards), i) {
        Kind::Subject
    } else {
        Kind::Object
    }
}

// The stamp of the entry that a command makes for a parameter: all null.
pub(crate) fn made(cards: u8, i: Parameter) -> Stamp
    ensures { result ≡ null_stamp (declared_kind cards i) }
{
    Stamp {
        kind: declared_kind(cards, i),
        attributes: [None; ATTRIBUTES as usize],
    }
}

// The stamp with the value as its attribute k; there is no attribute over 3 to set.
pub(crate) fn with_attribute(stamp: Stamp, k: Attribute, value: Value) -> Stamp
    ensures { result ≡ with_attribute k value stamp }
{
    Stamp {
        kind: stamp.kind,
        attributes: replaced(stamp.attributes, k, value),
    }
}

fn replaced(
    mut attributes: PerAttribute<Option<Value>>,
    k: Attribute,
    value: Value,
) -> PerAttribute<Option<Value>>
    ensures { result ≡ slice_set attributes k (Some value) }
{
    if k < ATTRIBUTES {
        attributes[usize::from(k)] = Some(value);
    }
    attributes
}
