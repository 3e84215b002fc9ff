// What a command is over: how many parameters, and which of them are declared cards.
ghost use Rattle.std.specs.Prelude.{◌≡◌, ◌^◌, ◌<◌, ◌≤◌, IfOk};
ghost use Rattle.model.specs.Answers.{refused_by, lowest};
ghost use Rattle.scheme.specs.Commands.{begin_rules};

use model::fault::Reason;

// Bit i of `cards` declares parameter i a card.
#[derive(Clone, Copy, Debug, PartialEq, Eq)]
pub(crate) struct Parameters {
    pub(crate) count: u8,
    pub(crate) cards: u8,
    ghost some: { 1 ≤ count },
    ghost few: { count ≤ 3 },
    ghost declared: { cards < 2 ^ count },
}

impl Parameters {
    // One to three parameters, and cards among them only, or a refusal.
    pub(crate) fn new(count: u8, cards: u8) -> Result<Parameters, Reason>
        ensures answer { refused_by result ≡ lowest (begin_rules count cards) }
        ensures value { IfOk result (λ p. (p.count ≡ count) × (p.cards ≡ cards)) }
    {
        if !(1..=3).contains(&count) || cards >= 1 << count {
            return Err(Reason::OutOfRange);
        }
        Ok(Parameters { count, cards })
    }
}
