// The bans that a certificate may not meet.
ghost use Rattle.std.specs.Prelude.{◌≡◌, [], ◌∷◌, length, nat_le};
ghost use Rattle.model.specs.Answers.{refused_by, lowest, unless};
ghost use Rattle.certificates.specs.SaidBans.{with_ban};
ghost use Rattle.certificates.specs.Views.{bans_of};

use crate::ban::{Ban, Sort};
use model::bounded::Bounded;
use model::fault::Reason;

// How many bans there are at most.
pub const BANS: usize = 16;

#[derive(Clone, Copy)]
pub struct Bans {
    list: Bounded<Ban, BANS>,
}

impl Bans {
    pub(crate) fn none() -> Bans
        ensures { bans_of result ≡ [] }
    {
        let free = Sort {
            attribute: 0,
            value: None,
        };
        Bans {
            list: Bounded::empty(Ban {
                right: 0,
                row: free,
                column: free,
            }),
        }
    }

    // One ban more, or a refusal and no change where there are 16.
    pub(crate) fn add(&mut self, ban: Ban) -> Result<(), Reason>
        ensures answer { refused_by result ≡ lowest ((4, nat_le 16 (length (bans_of self.old))) ∷ []) }
        ensures after { bans_of self.new ≡ unless (refused_by result) (bans_of self.old) (with_ban (bans_of self.old) ban) }
    {
        self.list.push(ban).map_err(|_| Reason::TooMany)
    }

    pub fn bans(&self) -> &[Ban]
        ensures { result.now ≡ bans_of self.now }
    {
        self.list.as_slice()
    }
}
