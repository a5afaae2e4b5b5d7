// What the tokens of a term begin with, and what follows it.
ghost use Rattle.std.specs.Prelude.{◌≡◌, [], ◌∷◌, map, MatchOption};
ghost use Rattle.std.specs.Bool.{Decides};
ghost use Rattle.std.specs.Option.{option_map};
ghost use Rattle.definitions.specs.Form.{list};
ghost use Rattle.definitions.specs.Term.{Placed, bares};
ghost use Rattle.definitions.specs.Text.Token.{closing};
ghost use Rattle.text.specs.View.{token};
ghost use Rattle.forms.specs.Args.{one_term};
ghost use Rattle.forms.specs.Tokens.{front, front_view, one_word, Closes, WholeIs};
ghost use Rattle.forms.specs.View.{term_view};

use crate::value::is_term;
use text::{Term, Token};

// The word that a pair begins with, and the tokens behind it.
pub(crate) fn front<'t>(tokens: &'t [Token<'t>]) -> Option<(&'t [u8], &'t [Token<'t>])>
    ensures { option_map front_view result ≡ front (map token tokens.now) }
{
    match tokens {
        [
            Token::Open { at: _ },
            Token::Word { at: _, spelling },
            rest @ ..,
        ] => Some((spelling, rest)),
        _ => None,
    }
}

pub(crate) fn is_one_word(tokens: &[Token]) -> bool
    ensures { result ≡ one_word (map token tokens.now) }
{
    matches!(tokens, [Token::Word { at: _, spelling: _ }])
}

// A closing bracket alone.
pub(crate) fn is_closed(tokens: &[Token]) -> bool
    ensures { Decides result (map token tokens.now ≡ closing ∷ []) }
{
    matches!(tokens, [Token::Close])
}

// The tokens that are still to be taken.
#[derive(Clone, Copy)]
pub struct Rest<'t> {
    pub tokens: &'t [Token<'t>],
}

impl<'t> Rest<'t> {
    ghost use Rattle.std.specs.Prelude.{map};
    ghost use Rattle.text.specs.View.{token};
    ghost use Rattle.forms.specs.Tokens.{Taken};

    // The term that they begin with, taken off them.
    pub(crate) fn take(&mut self) -> Option<Term<'t>>
        ensures { Taken result (map token self.old.tokens.now) (map token self.new.tokens.now) }
    {
        let (term, tokens) = Term::first_of(self.tokens)?;
        *self = Rest { tokens };
        Some(term)
    }
}

// The term that all of the tokens are.
#[tactic(auto, using(crate::proofs::Front::whole_is, crate::proofs::Front::whole_none))]
pub(crate) fn whole<'t>(tokens: &'t [Token<'t>]) -> Option<Term<'t>>
    ensures { WholeIs result (map token tokens.now) }
{
    let (term, others) = Term::first_of(tokens)?;
    others.is_empty().then_some(term)
}

// The only term before the closing bracket, if each pair in it has a word first and at least one more term.
pub(crate) fn declared<'t>(tokens: &'t [Token<'t>]) -> Option<Term<'t>>
    ensures value { (ts : Placed) → Closes (map token tokens.now) ts → option_map term_view result ≡ one_term (list (bares ts)) }
    ensures whole { MatchOption result (Unit {0}) (λ t. (ts : Placed) × Closes (map token tokens.now) ts) }
{
    let (term, rest) = Term::first_of(tokens)?;
    (is_closed(rest) && is_term(term)).then_some(term)
}
