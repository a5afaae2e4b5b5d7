// Terms over the tokens of a text.
ghost use Rattle.std.specs.Prelude.{◌≡◌, map};
ghost use Rattle.std.specs.Cmp.Lexicographic.{pointwise};
ghost use Rattle.text.specs.Spelt.{alike, IsTerm, AreTerms};
ghost use Rattle.text.specs.View.{token};

use crate::span::{first_len, is_balanced, term_len};
use crate::token::Token;

// The tokens of one term.
#[derive(Clone, Copy, Debug)]
pub struct Term<'t> {
    tokens: &'t [Token<'t>],
    pub ghost whole: { IsTerm (map token tokens.now) },
}

// The tokens of some terms, one after another.
#[derive(Clone, Copy, Debug)]
pub struct Terms<'t> {
    tokens: &'t [Token<'t>],
    pub ghost whole: { AreTerms (map token tokens.now) },
}

// A word, or what stands in a bracket pair.
#[derive(Clone, Copy, Debug)]
pub enum Parts<'t> {
    Word(&'t [u8]),
    Pair(Terms<'t>),
}

impl<'t> Term<'t> {
    ghost use Rattle.std.specs.Prelude.{◌≡◌};
    ghost use Rattle.definitions.specs.Text.{flat};
    ghost use Rattle.text.specs.Terms.{tree, place, PartsAre, StartsWith};

    // The term that tokens begin with, and the tokens after it.
    pub fn first_of(tokens: &'t [Token<'t>]) -> Option<(Term<'t>, &'t [Token<'t>])>
        ensures { StartsWith result (map token tokens.now) }
    {
        let (first, rest) = tokens.split_at(first_len(tokens)?);
        Some((Term { tokens: first }, rest))
    }

    pub fn tokens(self) -> &'t [Token<'t>]
        ensures { map token result.now ≡ flat (tree self.entry) }
    {
        self.tokens
    }

    // Where it starts.
    #[tactic(auto, using(crate::proofs::Spelt::no_close_first))]
    pub fn place(self) -> usize
        ensures { result ≡ place (tree self.entry) }
    {
        match self.tokens[0] {
            Token::Open { at } | Token::Word { at, spelling: _ } => at,
            Token::Close => unreachable!(),
        }
    }

    // A word, or what its bracket pair has inside.
    pub fn parts(self) -> Parts<'t>
        ensures { PartsAre result (tree self.entry) }
    {
        match self.tokens {
            [Token::Word { at: _, spelling }] => Parts::Word(spelling),
            [_, inside @ .., _] => Parts::Pair(Terms { tokens: inside }),
            _ => unreachable!(),
        }
    }
}

// Two terms are equal if alike in words and brackets.
impl<'t> PartialEq for Term<'t> {
    ghost use Rattle.text.specs.Same.{same, same_laws};

    ghost eq = { same };

    ghost laws = { same_laws };

    #[tactic(auto, using(crate::proofs::Alike::same_alike))]
    fn eq(&self, other: &Term<'t>) -> bool {
        are_alike(self.tokens, other.tokens)
    }
}

impl<'t> Terms<'t> {
    ghost use Rattle.std.specs.Prelude.{◌≡◌, [], ◌∷◌, MatchOption};
    ghost use Rattle.std.specs.Bool.{Decides};
    ghost use Rattle.definitions.specs.Term.{none, Placed};
    ghost use Rattle.definitions.specs.Text.{flats};
    ghost use Rattle.text.specs.Spelt.{terms};
    ghost use Rattle.text.specs.Terms.{tree, trees, left, WordFirst};

    // The terms that tokens are, if their brackets match.
    #[tactic(auto, using(crate::proofs::Balance::terms_if_balanced, crate::proofs::Balance::balanced_if_terms, crate::proofs::Spelt::are_terms))]
    pub fn of(tokens: &'t [Token<'t>]) -> Option<Terms<'t>>
        ensures { MatchOption result ((us : Placed) → map token tokens.now ≡ flats us → ⊥) (λ ts. map token tokens.now ≡ flats (trees ts)) }
    {
        if is_balanced(tokens) {
            Some(Terms { tokens })
        } else {
            None
        }
    }

    // Where the brackets of tokens are known to match.
    pub(crate) fn over(tokens: &'t [Token<'t>]) -> Terms<'t>
        requires { AreTerms (map token tokens.now) }
        ensures { trees result ≡ terms (map token tokens.now) }
    {
        Terms { tokens }
    }

    // There is no term.
    pub fn is_empty(self) -> bool
        ensures { Decides result (trees self.entry ≡ none) }
    {
        matches!(self.tokens, [])
    }

    // The first term and the others.
    pub fn split_first(self) -> Option<(Term<'t>, Terms<'t>)>
        ensures { MatchOption result (left self.entry ≡ []) (λ p. left self.entry ≡ tree p.0 ∷ left p.1) }
    {
        if self.tokens.is_empty() {
            return None;
        }
        let (first, others) = self.tokens.split_at(term_len(self.tokens));
        Some((Term { tokens: first }, Terms { tokens: others }))
    }

    // The word that comes first and the other terms.
    #[tactic(auto, using(crate::proofs::Spelt::word_split, crate::proofs::Spelt::word_others))]
    pub fn first_word(self) -> Option<(&'t [u8], Terms<'t>)>
        ensures { WordFirst result (trees self.entry) }
    {
        let [first, others @ ..] = self.tokens else {
            return None;
        };
        match *first {
            Token::Word { at: _, spelling } => Some((spelling, Terms { tokens: others })),
            _ => None,
        }
    }
}

impl<'t> Iterator for Terms<'t> {
    type Item = Term<'t>;

    ghost use Rattle.std.specs.Iterator.{YieldsFirstBy, item_count};
    ghost use Rattle.text.specs.Terms.{tree, left};

    ghost next_gives = { YieldsFirstBy tree left };

    ghost remaining = { item_count left };

    fn next(&mut self) -> Option<Term<'t>> {
        let (first, others) = self.split_first()?;
        *self = others;
        Some(first)
    }
}

// Tokens that differ in their places only.
fn are_alike(ts: &[Token], us: &[Token]) -> bool
    ensures { result ≡ pointwise alike (map token ts.now) (map token us.now) }
{
    ts.len() == us.len() && ts.iter().zip(us).all(|(t, u)| t.is_like(*u))
}
