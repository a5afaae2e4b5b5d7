// The terms that follow a keyword.
ghost use Rattle.std.specs.Prelude.{◌≡◌};
ghost use Rattle.std.specs.Option.{option_map};
ghost use Rattle.forms.specs.Args.{only, both, one_term, two_terms, pair_view};
ghost use Rattle.forms.specs.View.{term_view, terms_view};

use crate::value::is_term;
use text::{Term, Terms};

// The only one.
#[tactic(auto, using(crate::proofs::Shaped::not_only))]
pub(crate) fn only<'t>(args: Terms<'t>) -> Option<Term<'t>>
    ensures { option_map term_view result ≡ only (terms_view args.entry) }
{
    let (first, rest) = args.split_first()?;
    rest.is_empty().then_some(first)
}

// Exactly two.
pub(crate) fn both<'t>(args: Terms<'t>) -> Option<(Term<'t>, Term<'t>)>
    ensures { option_map pair_view result ≡ both (terms_view args.entry) }
{
    let (first, rest) = args.split_first()?;
    let second = only(rest)?;
    Some((first, second))
}

// The only one, if each pair in it has a word first and at least one more term.
pub(crate) fn one_term<'t>(args: Terms<'t>) -> Option<Term<'t>>
    ensures { option_map term_view result ≡ one_term (terms_view args.entry) }
{
    let term = only(args)?;
    is_term(term).then_some(term)
}

// Exactly two such terms.
pub(crate) fn two_terms<'t>(args: Terms<'t>) -> Option<(Term<'t>, Term<'t>)>
    ensures { option_map pair_view result ≡ two_terms (terms_view args.entry) }
{
    let (first, second) = both(args)?;
    (is_term(first) && is_term(second)).then_some((first, second))
}
