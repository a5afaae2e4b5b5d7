// Literals: an atom, an atom negated, or a comparison of two terms.
ghost use Rattle.std.specs.Prelude.{◌≡◌};
ghost use Rattle.std.specs.Option.{option_map};
ghost use Rattle.definitions.specs.Form.{literal, atom, map_some, a_not, a_distinct};
ghost use Rattle.definitions.specs.Form.Literal.{bare as unnegated};
ghost use Rattle.forms.specs.Literals.{literal_view};
ghost use Rattle.forms.specs.View.{term_view, terms_view};

use crate::args::{only, two_terms};
use crate::atom::{Atom, atom_of};
use crate::keyword::Keyword;
use crate::shape::led_by;
use text::{Term, Terms};

#[derive(Clone, Copy)]
pub enum Literal<X> {
    Settled(bool),
    Bare(Atom<X>),
    Negated(Atom<X>),
}

fn distinct_of<'t>(args: Terms<'t>) -> Option<Literal<Term<'t>>>
    ensures { option_map literal_view result ≡ a_distinct (terms_view args.entry) }
{
    let (t, u) = two_terms(args)?;
    Some(Literal::Settled(t != u))
}

fn not_of<'t>(args: Terms<'t>) -> Option<Literal<Term<'t>>>
    ensures { option_map literal_view result ≡ a_not (terms_view args.entry) }
{
    let atom = atom_of(only(args)?)?;
    Some(Literal::Negated(atom))
}

fn bare_of<'t>(term: Term<'t>) -> Option<Literal<Term<'t>>>
    ensures { option_map literal_view result ≡ map_some unnegated (atom (term_view term.entry)) }
{
    atom_of(term).map(Literal::Bare)
}

pub(crate) fn literal_of<'t>(term: Term<'t>) -> Option<Literal<Term<'t>>>
    ensures { option_map literal_view result ≡ literal (term_view term.entry) }
{
    match led_by(term) {
        Some((Keyword::Not, args)) => not_of(args),
        Some((Keyword::Distinct, args)) => distinct_of(args),
        _ => bare_of(term),
    }
}
