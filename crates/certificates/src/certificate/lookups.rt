// What a certificate lists, and what it allows.
ghost use Rattle.std.specs.Prelude.{◌≡◌, slice_get};
ghost use Rattle.model.specs.Stamps.{is_subject};
ghost use Rattle.certificates.specs.Certificates.{number_of, lists, allows, between, stamp_at};
ghost use Rattle.certificates.specs.Views.{certificate_of};

use crate::certificate::Certificate;
use crate::certificate::places::place_of;
use model::kind::Kind;
use model::mask::Mask;
use model::stamp::Stamp;

impl Certificate {
    // The stamps that are listed, by their numbers.
    pub fn stamps(&self) -> &[Stamp]
        ensures { result.now ≡ (certificate_of self.now).stamps }
    {
        self.stamps.as_slice()
    }

    // The number of a stamp, where it is listed.
    pub fn number_of(&self, stamp: &Stamp) -> Option<usize>
        ensures { result ≡ number_of (certificate_of self.now) stamp.now }
    {
        self.stamps().iter().position(|listed| listed.same(stamp))
    }

    pub fn lists(&self, stamp: &Stamp) -> bool
        ensures { result ≡ lists (certificate_of self.now) stamp.now }
    {
        self.number_of(stamp).is_some()
    }

    // The stamp of a number, where one is there.
    pub fn stamp_at(&self, number: Option<usize>) -> Option<Stamp>
        ensures { result ≡ stamp_at (certificate_of self.now) number }
    {
        self.stamps().get(number?).copied()
    }

    // The mask of two numbers; from 32 on there is none.
    fn mask(&self, u: usize, v: usize) -> Mask
        ensures { result ≡ (certificate_of self.now).masks u v }
    {
        place_of(u, v).map_or(0, |place| self.masks[place])
    }

    // What a listed card's stamp is allowed on a listed stamp; else nothing.
    pub fn allows(&self, u: &Stamp, v: &Stamp) -> Mask
        ensures { result ≡ allows (certificate_of self.now) u.now v.now }
    {
        if u.kind != Kind::Subject {
            return 0;
        }
        match (self.number_of(u), self.number_of(v)) {
            (Some(u), Some(v)) => self.mask(u, v),
            _ => 0,
        }
    }

    // The same of two entries, by their stamps; where no entry is, nothing is allowed.
    pub fn between(&self, u: Option<Stamp>, v: Option<Stamp>) -> Mask
        ensures { result ≡ between (certificate_of self.now) u v }
    {
        match (u, v) {
            (Some(u), Some(v)) => self.allows(&u, &v),
            _ => 0,
        }
    }

    // The same of two numbers, by their stamps, without looking for them.
    pub fn between_numbers(&self, u: Option<usize>, v: Option<usize>) -> Mask
        ensures { result ≡ between (certificate_of self.now) (stamp_at (certificate_of self.now) u) (stamp_at (certificate_of self.now) v) }
    {
        let (Some(u), Some(v)) = (u, v) else {
            return 0;
        };
        if !self.is_subject(u) {
            return 0;
        }
        if v >= self.stamps.len() {
            return 0;
        }
        self.mask(u, v)
    }

    // Whether the stamp of a number is a card's.
    pub fn is_subject(&self, number: usize) -> bool
        ensures { result ≡ is_subject (slice_get (certificate_of self.now).stamps number) }
    {
        self.stamps()
            .get(number)
            .is_some_and(|stamp| stamp.kind == Kind::Subject)
    }
}
