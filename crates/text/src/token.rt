// The words and brackets of a text.
ghost use Rattle.std.specs.Prelude.{◌≡◌};
ghost use Rattle.text.specs.View.{bare, token};
ghost use Rattle.definitions.specs.Writing.{is_word};
ghost use Rattle.text.specs.Spelt.{opens, closes, alike};

// A word or a bracket, with the place where it stands.
#[derive(Clone, Copy, Debug, PartialEq)]
pub enum Token<'a> {
    Open { at: usize },
    Close,
    Word { at: usize, spelling: &'a [u8] },
}

// A word or a bracket without its place.
#[derive(Clone, Copy, Debug, PartialEq)]
pub enum Bare<'a> {
    Open,
    Close,
    Word(&'a [u8]),
}

impl<'a> From<Token<'a>> for Bare<'a> {
    ghost from_gives = { λ t b. b ≡ bare t };

    fn from(t: Token<'a>) -> Bare<'a> {
        match t {
            Token::Open { at: _ } => Bare::Open,
            Token::Close => Bare::Close,
            Token::Word { at: _, spelling } => Bare::Word(spelling),
        }
    }
}

impl<'a> Token<'a> {
    pub(crate) fn opens(self) -> bool
        ensures { result ≡ opens (token self.entry) }
    {
        matches!(self, Token::Open { at: _ })
    }

    pub(crate) fn is_word(self) -> bool
        ensures { result ≡ is_word (token self.entry) }
    {
        matches!(self, Token::Word { at: _, spelling: _ })
    }

    pub(crate) fn closes(self) -> bool
        ensures { result ≡ closes (token self.entry) }
    {
        matches!(self, Token::Close)
    }

    // The same, places aside.
    #[tactic(auto, using(crate::proofs::Alike::like))]
    pub fn is_like(self, other: Token) -> bool
        ensures { result ≡ alike (token self.entry) (token other.entry) }
    {
        Bare::from(self) == Bare::from(other)
    }
}
