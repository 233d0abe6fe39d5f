//! The words that a line may begin with.
ghost use Rattle.std.specs.Prelude.{◌≡◌};
ghost use Rattle.eir_script.specs.Reading.{keyword_of};

/// A word that a line may begin with.
#[derive(Clone, Copy, Debug, PartialEq, Eq)]
pub enum Keyword {
    Source,
    Target,
    New,
    Put,
    Cut,
    Drop,
    Undo,
    Take,
    Kind,
    Budget,
    Fit,
    Tries,
    Reduce,
    Chase,
    Cert,
    Table,
    Exchange,
}

/// The keyword that is this word.
pub fn keyword_of(word: &[u8]) -> Option<Keyword>
    ensures { result ≡ keyword_of word.now }
{
    match word {
        b"source" => Some(Keyword::Source),
        b"target" => Some(Keyword::Target),
        b"new" => Some(Keyword::New),
        b"put" => Some(Keyword::Put),
        b"cut" => Some(Keyword::Cut),
        b"drop" => Some(Keyword::Drop),
        b"undo" => Some(Keyword::Undo),
        b"take" => Some(Keyword::Take),
        b"kind" => Some(Keyword::Kind),
        b"budget" => Some(Keyword::Budget),
        b"fit" => Some(Keyword::Fit),
        b"tries" => Some(Keyword::Tries),
        b"reduce" => Some(Keyword::Reduce),
        b"chase" => Some(Keyword::Chase),
        b"cert" => Some(Keyword::Cert),
        b"table" => Some(Keyword::Table),
        b"exchange" => Some(Keyword::Exchange),
        _ => None,
    }
}
