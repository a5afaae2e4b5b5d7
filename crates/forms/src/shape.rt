// A term by what comes first in it.
ghost use Rattle.forms.specs.View.{term_view, terms_view};
ghost use Rattle.forms.specs.Shapes.{ShapeIs, PairIs, Led};

use crate::keyword::{Keyword, keyword_of};
use text::{Parts, Term, Terms};

// A word, a pair with a word first and what follows it, or another pair.
#[derive(Clone, Copy)]
pub enum Shape<'t> {
    Word(&'t [u8]),
    Pair(&'t [u8], Terms<'t>),
    Other,
}

fn pair_shape<'t>(terms: Terms<'t>) -> Shape<'t>
    ensures { PairIs result (terms_view terms.entry) }
{
    match terms.first_word() {
        Some((w, rest)) => Shape::Pair(w, rest),
        None => Shape::Other,
    }
}

#[tactic(auto, using(crate::proofs::Shaped::pair_shaped))]
pub(crate) fn shape_of<'t>(term: Term<'t>) -> Shape<'t>
    ensures { ShapeIs result (term_view term.entry) }
{
    match term.parts() {
        Parts::Word(w) => Shape::Word(w),
        Parts::Pair(terms) => pair_shape(terms),
    }
}

// The keyword that a pair begins with, and what follows it.
#[tactic(auto, using(crate::proofs::Shaped::pair_led, crate::proofs::Shaped::pair_unled))]
pub(crate) fn led_by<'t>(term: Term<'t>) -> Option<(Keyword, Terms<'t>)>
    ensures { Led result (term_view term.entry) }
{
    match shape_of(term) {
        Shape::Pair(w, args) => Some((keyword_of(w)?, args)),
        _ => None,
    }
}
