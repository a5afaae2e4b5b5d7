// Terms whose every pair has a word first and at least one more term, plain facts, and goal values.
ghost use Rattle.std.specs.Prelude.{◌≡◌, ◌-◌, map};
ghost use Rattle.definitions.specs.Form.{is_term, plain, value, when, digit};
ghost use Rattle.definitions.specs.Term.{Tree};
ghost use Rattle.text.specs.Spelt.{opens};
ghost use Rattle.text.specs.View.{token};
ghost use Rattle.forms.specs.Headed.{first_headed, all_headed};
ghost use Rattle.forms.specs.View.{term_view};

use crate::keyword::keyword_of;
use crate::shape::{Shape, shape_of};
use text::{Term, Token};

// An opening bracket that comes first has a word behind it, and then not its end.
fn first_headed(tokens: &[Token]) -> bool
    ensures { result ≡ first_headed (map token tokens.now) }
{
    match tokens {
        [
            Token::Open { at: _ },
            Token::Word { at: _, spelling: _ },
            Token::Close,
            ..
        ] => false,
        [
            Token::Open { at: _ },
            Token::Word { at: _, spelling: _ },
            _,
            ..
        ] => true,
        [Token::Open { at: _ }, ..] => false,
        _ => true,
    }
}

fn is_open(t: Token) -> bool
    ensures { result ≡ opens (token t.entry) }
{
    matches!(t, Token::Open { at: _ })
}

// Each opening bracket has a word behind it, and then not its end.
pub(crate) fn all_headed(tokens: &[Token]) -> bool
    ensures { result ≡ all_headed (map token tokens.now) }
{
    for (i, t) in tokens.iter().enumerate() {
        if is_open(*t) && !first_headed(&tokens[i..]) {
            return false;
        }
    }
    true
}

// Each pair has a word first and at least one more term.
#[tactic(auto, using(crate::proofs::Headed::term_headed))]
pub(crate) fn is_term(term: Term) -> bool
    ensures { result ≡ is_term (term_view term.entry) }
{
    all_headed(term.tokens())
}

// A term whose first word is no keyword.
pub(crate) fn is_plain(term: Term) -> bool
    ensures { result ≡ plain (term_view term.entry) }
{
    match shape_of(term) {
        Shape::Word(w) => keyword_of(w).is_none(),
        Shape::Pair(w, _) => is_term(term) && keyword_of(w).is_none(),
        Shape::Other => false,
    }
}

fn digit_of(c: u8) -> Option<u8>
    ensures { result ≡ when (digit c) (c - 48) }
{
    match c {
        b'0'..=b'9' => Some(c - b'0'),
        _ => None,
    }
}

// A number from 0 to 100 without leading zeros.
fn number(word: &[u8]) -> Option<u8>
    ensures { result ≡ value (Tree.word tt word.now) }
{
    match word {
        [c] => digit_of(*c),
        [c, d] => match (digit_of(*c), digit_of(*d)) {
            (Some(tens), Some(ones)) if tens > 0 => Some(tens * 10 + ones),
            _ => None,
        },
        [b'1', b'0', b'0'] => Some(100),
        _ => None,
    }
}

pub(crate) fn value_of(term: Term) -> Option<u8>
    ensures { result ≡ value (term_view term.entry) }
{
    match shape_of(term) {
        Shape::Word(w) => number(w),
        _ => None,
    }
}
