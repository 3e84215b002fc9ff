// The words that a call begins with.
ghost use Rattle.std.specs.Prelude.{◌≡◌};
ghost use Rattle.script.specs.Finds.{Finds};
ghost use Rattle.script.specs.Keywords.{spelling};

#[derive(Clone, Copy)]
pub(crate) enum Keyword {
    Scheme,
    List,
    Store,
    Filter,
    Open,
    Request,
    Rule,
    State,
    Check,
    Make,
    Table,
}

// A word that is none has no error of its own, so this is no `TryFrom`.
pub(crate) fn find_keyword(word: &[u8]) -> Option<Keyword>
    ensures { Finds (λ k. word.now ≡ spelling k) result }
{
    match word {
        b"scheme" => Some(Keyword::Scheme),
        b"list" => Some(Keyword::List),
        b"store" => Some(Keyword::Store),
        b"filter" => Some(Keyword::Filter),
        b"open" => Some(Keyword::Open),
        b"request" => Some(Keyword::Request),
        b"rule" => Some(Keyword::Rule),
        b"state" => Some(Keyword::State),
        b"check" => Some(Keyword::Check),
        b"make" => Some(Keyword::Make),
        b"table" => Some(Keyword::Table),
        _ => None,
    }
}
