// The rules on the names that a request gives.
ghost use Rattle.std.specs.Prelude.{◌≡◌, ◌<◌, ◌==◌, not, length, MatchResult};
ghost use Rattle.std.specs.List.{list_any};
ghost use Rattle.model.specs.Answers.{answer};
ghost use Rattle.model.specs.Bounded.{listed};
ghost use Rattle.stores.specs.Matrices.{is_name};
ghost use Rattle.protection.specs.Commands.{name_at};
ghost use Rattle.protection.specs.Requests.{first_parameter, lowest_placed, unless_broken};
ghost use Rattle.changes.specs.Names.{repeats, names_rules};

use crate::names::Names;
use model::bounded::{Bounded, Full};
use model::fault::{Fault, Reason};
use model::name::{NAMES, Name};
use protection::excerpt::PARAMETERS;
use protection::refusal::refusal;

fn is_name(number: Name) -> bool
    ensures { result ≡ is_name number }
{
    number < NAMES
}

// The lowest parameter that is given a number over 63.
fn first_no_name(params: u8, names: &[Name]) -> Option<u8>
    requires { length names.now ≡ params }
    ensures { result ≡ first_parameter params (λ i. not (is_name (name_at names.now i))) }
{
    for i in 0..params {
        if !is_name(names[usize::from(i)]) {
            return Some(i);
        }
    }
    None
}

fn is_among(name: Name, names: &[Name]) -> bool
    ensures { result ≡ list_any (λ m. m == name) names.now }
{
    names.iter().any(|other| *other == name)
}

// The lowest parameter that is given the name of an earlier one.
fn first_repeated(params: u8, names: &[Name]) -> Option<u8>
    requires { length names.now ≡ params }
    ensures { result ≡ first_parameter params (repeats names.now) }
{
    for i in 0..params {
        let at = usize::from(i);
        if is_among(names[at], &names[..at]) {
            return Some(i);
        }
    }
    None
}

// The same names in a list of their own, if there are few enough.
fn list_of(names: &[Name]) -> Result<Bounded<Name, PARAMETERS>, Full>
    ensures { MatchResult result (λ items. listed items ≡ names.now) (λ _. 3 < length names.now) }
{
    let mut items = Bounded::empty(0);
    for name in names {
        items.push(*name)?;
    }
    Ok(items)
}

impl Names {
    // The names that a request gives for the parameters of its command, or a refusal by the lowest rule that they break.
    pub fn bind(params: u8, names: &[Name]) -> Result<Names, Fault>
        ensures answer { answer (λ n. listed n.items) result ≡ unless_broken (lowest_placed (names_rules params names.now)) names.now }
    {
        if names.len() != usize::from(params) {
            return Err(refusal(Reason::WrongNumberOfNames, 0));
        }
        let items = list_of(names).map_err(|_| refusal(Reason::WrongNumberOfNames, 0))?;
        if let Some(i) = first_no_name(params, names) {
            return Err(refusal(Reason::NoSuchName, u16::from(i)));
        }
        if let Some(i) = first_repeated(params, names) {
            return Err(refusal(Reason::RepeatedName, u16::from(i)));
        }
        Ok(Names { items })
    }
}
