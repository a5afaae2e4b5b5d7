// Atoms, in bodies and as heads.
ghost use Rattle.std.specs.Prelude.{◌≡◌, List, [], ◌∷◌, Option, MatchOption, map};
ghost use Rattle.std.specs.Option.{option_map};
ghost use Rattle.definitions.specs.Form as form;
ghost use Rattle.definitions.specs.Form.{atom, head, is_term, when, a_goal, a_knows, goal_of, list, body_atom, head_atom, word_atom, an_atom};
ghost use Rattle.definitions.specs.Term as terms;
ghost use Rattle.definitions.specs.Term.{Placed, bares};
ghost use Rattle.text.specs.View.{token};
ghost use Rattle.definitions.specs.Form.Atom.{fact};
ghost use Rattle.forms.specs.Atoms.{atom_view, Makes};
ghost use Rattle.forms.specs.Tokens.{Closes};
ghost use Rattle.forms.specs.View.{keyword_view, term_view, terms_view};

use crate::args::{both, one_term, only, two_terms};
use crate::keyword::{Keyword, keyword_of};
use crate::shape::{Shape, shape_of};
use crate::tokens::is_closed;
use crate::value::{is_plain, is_term, value_of};
use text::{Term, Terms, Token};

// X is what names roles, features, moves, percepts and facts: terms, or numbers.
#[derive(Clone, Copy)]
pub enum Atom<X> {
    Role(X),
    True(X),
    Does(X, X),
    Knows(X, X),
    Common(X),
    Legal(X, X),
    Goal(X, u8),
    Terminal,
    Fact(X),
    Next(X),
    Sees(X, X),
}

fn goal_of<'t>(role: Term<'t>, value: Term<'t>) -> Option<Atom<Term<'t>>>
    ensures { option_map atom_view result ≡ goal_of (term_view role.entry) (term_view value.entry) }
{
    let value = value_of(value)?;
    is_term(role).then_some(Atom::Goal(role, value))
}

fn a_goal<'t>(args: Terms<'t>) -> Option<Atom<Term<'t>>>
    ensures { option_map atom_view result ≡ a_goal (terms_view args.entry) }
{
    let (role, value) = both(args)?;
    goal_of(role, value)
}

fn a_knows<'t>(args: Terms<'t>) -> Option<Atom<Term<'t>>>
    ensures { option_map atom_view result ≡ a_knows (terms_view args.entry) }
{
    let (first, rest) = args.split_first()?;
    if rest.is_empty() {
        return is_plain(first).then_some(Atom::Common(first));
    }
    let fact = only(rest)?;
    (is_term(first) && is_plain(fact)).then_some(Atom::Knows(first, fact))
}

// What may stand in a body, by its keyword.
fn body_keyword<'t>(k: Keyword, args: Terms<'t>) -> Option<Atom<Term<'t>>>
    ensures { option_map atom_view result ≡ body_atom (keyword_view k) (terms_view args.entry) }
{
    match k {
        Keyword::Role => one_term(args).map(Atom::Role),
        Keyword::True => one_term(args).map(Atom::True),
        Keyword::Does => two_terms(args).map(|(r, m)| Atom::Does(r, m)),
        Keyword::Legal => two_terms(args).map(|(r, m)| Atom::Legal(r, m)),
        Keyword::Goal => a_goal(args),
        Keyword::Knows => a_knows(args),
        _ => None,
    }
}

// What a rule may conclude of one term behind a keyword.
fn head_of_one<'t>(k: Keyword, term: Term<'t>) -> Option<Atom<Term<'t>>>
    ensures { option_map atom_view result ≡ head_atom (keyword_view k) (term_view term.entry ∷ []) }
{
    match k {
        Keyword::Next => is_term(term).then_some(Atom::Next(term)),
        _ => None,
    }
}

// And of two.
fn head_of_two<'t>(k: Keyword, first: Term<'t>, second: Term<'t>) -> Option<Atom<Term<'t>>>
    ensures { option_map atom_view result ≡ head_atom (keyword_view k) (term_view first.entry ∷ term_view second.entry ∷ []) }
{
    match k {
        Keyword::Legal => (is_term(first) && is_term(second)).then_some(Atom::Legal(first, second)),
        Keyword::Sees => (is_term(first) && is_term(second)).then_some(Atom::Sees(first, second)),
        Keyword::Goal => goal_of(first, second),
        _ => None,
    }
}

// What a rule may conclude, by its keyword.
#[tactic(auto, using(crate::proofs::Heads::head_none, crate::proofs::Heads::head_one, crate::proofs::Heads::head_two, crate::proofs::Heads::head_more))]
fn head_keyword<'t>(k: Keyword, args: Terms<'t>) -> Option<Atom<Term<'t>>>
    ensures { option_map atom_view result ≡ head_atom (keyword_view k) (terms_view args.entry) }
{
    let (first, rest) = args.split_first()?;
    if rest.is_empty() {
        return head_of_one(k, first);
    }
    head_of_two(k, first, only(rest)?)
}

// The same of the terms before a closing bracket, of which no more than two are looked at.
pub(crate) fn head_behind<'t>(k: Keyword, tokens: &'t [Token<'t>]) -> Option<Atom<Term<'t>>>
    ensures value { (ts : Placed) → Closes (map token tokens.entry.now) ts → option_map atom_view result ≡ head_atom (keyword_view k) (list (bares ts)) }
    ensures whole { MatchOption result (Unit {0}) (λ a. (ts : Placed) × Closes (map token tokens.entry.now) ts) }
{
    let (first, rest) = Term::first_of(tokens)?;
    if is_closed(rest) {
        return head_of_one(k, first);
    }
    let (second, rest) = Term::first_of(rest)?;
    if !is_closed(rest) {
        return None;
    }
    head_of_two(k, first, second)
}

fn word_atom<'t>(k: Option<Keyword>, term: Term<'t>) -> Option<Atom<Term<'t>>>
    ensures { option_map atom_view result ≡ word_atom (option_map keyword_view k) (term_view term.entry) }
{
    match k {
        None => Some(Atom::Fact(term)),
        Some(Keyword::Terminal) => Some(Atom::Terminal),
        Some(_) => None,
    }
}

fn fact_atom<'t>(term: Term<'t>) -> Option<Atom<Term<'t>>>
    ensures { option_map atom_view result ≡ when (is_term (term_view term.entry)) (fact (term_view term.entry)) }
{
    is_term(term).then_some(Atom::Fact(term))
}

// The atom that a term is, by what its keyword may make of its arguments.
#[tactic(auto, using(crate::proofs::Shaped::atom_word))]
fn an_atom<'t, F: FnOnce(Keyword, Terms<'t>) -> Option<Atom<Term<'t>>>>(
    term: Term<'t>,
    by_keyword: F,
) -> Option<Atom<Term<'t>>>
    requires { F.IsAlwaysCallable by_keyword }
    ensures { (f : form.Keyword → List terms.Term → Option (form.Atom terms.Term)) → Makes (F.post by_keyword) f → option_map atom_view result ≡ an_atom f (term_view term.entry) }
{
    match shape_of(term) {
        Shape::Word(w) => word_atom(keyword_of(w), term),
        Shape::Pair(w, args) => match keyword_of(w) {
            None => fact_atom(term),
            Some(k) => by_keyword(k, args),
        },
        Shape::Other => None,
    }
}

pub(crate) fn atom_of<'t>(term: Term<'t>) -> Option<Atom<Term<'t>>>
    ensures { option_map atom_view result ≡ atom (term_view term.entry) }
{
    an_atom(term, body_keyword)
}

pub(crate) fn head_of<'t>(term: Term<'t>) -> Option<Atom<Term<'t>>>
    ensures { option_map atom_view result ≡ head (term_view term.entry) }
{
    an_atom(term, head_keyword)
}
