// The parts of a rule's body.
ghost use Rattle.std.specs.Prelude.{◌≡◌, [], map, OnOk};
ghost use Rattle.definitions.specs.Form.{literal, part, all_of, list};
ghost use Rattle.definitions.specs.Term.{Placed, bares};
ghost use Rattle.text.specs.View.{token};
ghost use Rattle.forms.specs.Bodies.{parts_view, body_view, Added, Joined, Put, alone, alternatives};
ghost use Rattle.forms.specs.Tokens.{Closes};
ghost use Rattle.forms.specs.View.{term_view, terms_view};

use crate::fault::FormFault;
use crate::keyword::Keyword;
use crate::literal::{Literal, literal_of};
use crate::shape::led_by;
use crate::tokens::{Rest, is_closed};
use std::alloc::Global;
use text::{Term, Terms, Token};

// One of the alternatives of a part: its first, or another.
#[derive(Clone, Copy)]
enum Alternative<'t> {
    First(Literal<Term<'t>>),
    Another(Literal<Term<'t>>),
}

// A part of one literal.
#[tactic(auto, using(crate::proofs::Joining::parts_first))]
fn put_literal<'t>(body: &mut Vec<Alternative<'t>>, term: Term<'t>) -> Result<(), FormFault>
    ensures { Added result (parts_view body.old) (parts_view body.new) (alone (literal (term_view term.entry))) }
{
    let literal = literal_of(term).ok_or(FormFault::Broken)?;
    body.push(Alternative::First(literal))?;
    Ok(())
}

// Another alternative of the last part.
#[tactic(auto, using(crate::proofs::Joining::parts_another))]
fn put_another<'t>(body: &mut Vec<Alternative<'t>>, term: Term<'t>) -> Result<(), FormFault>
    ensures { Joined result (parts_view body.old) (parts_view body.new) (literal (term_view term.entry)) }
{
    let literal = literal_of(term).ok_or(FormFault::Broken)?;
    body.push(Alternative::Another(literal))?;
    Ok(())
}

// The alternatives of an `or`, at least one.
fn put_alternatives<'t>(body: &mut Vec<Alternative<'t>>, terms: Terms<'t>) -> Result<(), FormFault>
    ensures { Added result (parts_view body.old) (parts_view body.new) (alternatives (terms_view terms.entry)) }
{
    let Some((first, others)) = terms.split_first() else {
        return Err(FormFault::Broken);
    };
    put_literal(body, first)?;
    for term in others {
        put_another(body, term)?;
    }
    Ok(())
}

// A literal, or an `or` of some.
fn put_part<'t>(body: &mut Vec<Alternative<'t>>, term: Term<'t>) -> Result<(), FormFault>
    ensures { Added result (parts_view body.old) (parts_view body.new) (part (term_view term.entry)) }
{
    match led_by(term) {
        Some((Keyword::Or, terms)) => put_alternatives(body, terms),
        _ => put_literal(body, term),
    }
}

// Parts that must all hold, each of alternatives of which one must.
#[derive(Drop)]
pub struct Body<'t> {
    alternatives: Vec<Alternative<'t>>,
}

impl<'t> Body<'t> {
    pub(crate) fn new(heap: Global) -> Body<'t>
        ensures { body_view result ≡ [] }
    {
        Body {
            alternatives: Vec::new(heap),
        }
    }

    fn put(&mut self, term: Term<'t>) -> Result<(), FormFault>
        ensures { Added result (body_view self.old) (body_view self.new) (part (term_view term.entry)) }
    {
        put_part(&mut self.alternatives, term)
    }

    // The parts that tokens are, to the bracket that closes them.
    pub(crate) fn put_all(&mut self, tokens: &'t [Token<'t>]) -> Result<(), FormFault>
        ensures value { (ts : Placed) → Closes (map token tokens.entry.now) ts → Put result (body_view self.old) (body_view self.new) (all_of part (list (bares ts))) }
        ensures whole { OnOk result ((ts : Placed) × Closes (map token tokens.entry.now) ts) }
    {
        let mut rest = Rest { tokens };
        while !is_closed(rest.tokens) {
            let Some(term) = rest.take() else {
                return Err(FormFault::Broken);
            };
            self.put(term)?;
        }
        Ok(())
    }
}
