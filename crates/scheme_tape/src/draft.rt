// A scheme that is being read: the commands that are finished, and the one that is not, if there is one.
ghost use Rattle.std.specs.Prelude.{◌≡◌, true, not, ◌||◌, length, is_some, nat_lt};
ghost use Rattle.scheme.specs.Views.{commands_of};

use scheme::command::Command;
use scheme::scheme::Scheme;

mod orders;
mod parts;

// Where a command is open there is room for it. The scales' counts come with each call: a draft is what is written, and has no
// scales.
#[derive(Clone, Copy)]
pub(crate) struct Draft {
    scheme: Scheme,
    current: Option<Command>,
    ghost room: { (not (is_some current) || nat_lt (length (commands_of scheme)) 16) ≡ true },
}

// Where the tape is: outside a command, among its tests, or among its steps. That the reader matches on this together with the
// order is a form that the project asks for.
#[derive(Clone, Copy)]
pub(crate) enum Phase {
    Outside,
    Tests,
    Steps,
}
