// The words that have a meaning of their own.
ghost use Rattle.std.specs.Prelude.{◌≡◌};
ghost use Rattle.std.specs.Option.{option_map};
ghost use Rattle.definitions.specs.Form.{keyword};
ghost use Rattle.forms.specs.View.{keyword_view, Names};

#[derive(Clone, Copy, Debug, PartialEq)]
pub enum Keyword {
    Role,
    Init,
    True,
    Next,
    Legal,
    Does,
    Sees,
    Goal,
    Terminal,
    Knows,
    Distinct,
    Not,
    Or,
    Arrow,
}

fn keyword_text(word: &str) -> Option<Keyword>
    ensures { Names word.now result }
{
    match word {
        "role" => Some(Keyword::Role),
        "init" => Some(Keyword::Init),
        "true" => Some(Keyword::True),
        "next" => Some(Keyword::Next),
        "legal" => Some(Keyword::Legal),
        "does" => Some(Keyword::Does),
        "sees" => Some(Keyword::Sees),
        "goal" => Some(Keyword::Goal),
        "terminal" => Some(Keyword::Terminal),
        "knows" => Some(Keyword::Knows),
        "distinct" => Some(Keyword::Distinct),
        "not" => Some(Keyword::Not),
        "or" => Some(Keyword::Or),
        "<=" => Some(Keyword::Arrow),
        _ => None,
    }
}

pub(crate) fn keyword_of(word: &[u8]) -> Option<Keyword>
    ensures { option_map keyword_view result ≡ keyword word.now }
{
    let Ok(text) = std::str::from_utf8(word) else {
        return None;
    };
    keyword_text(text)
}
