// Declarations and rules.
ghost use Rattle.std.specs.Prelude.{◌≡◌, ℕ, List, Some, None, map, OnOk};
ghost use Rattle.definitions.specs.Form as language;
ghost use Rattle.definitions.specs.Form.{form, a_declaration, a_rule, head_atom, keyword, leading, list};
ghost use Rattle.definitions.specs.Term.{Tree, Placed, bare, bares};
ghost use Rattle.definitions.specs.Text.{flat};
ghost use Rattle.text.specs.Spelt.{IsTerm};
ghost use Rattle.text.specs.View.{token};
ghost use Rattle.forms.specs.Formed.{FormIs, bodiless, of_head};
ghost use Rattle.forms.specs.Tokens.{front, Closes};
ghost use Rattle.forms.specs.View.{keyword_view, term_view};

use crate::atom::{Atom, head_behind, head_of};
use crate::body::Body;
use crate::fault::FormFault;
use crate::keyword::{Keyword, keyword_of};
use crate::tokens::{declared, front, is_closed, is_one_word, whole};
use crate::value::all_headed;
use std::alloc::Global;
use text::{Term, Token};

#[derive(Drop)]
pub struct Rule<'t> {
    head: Atom<Term<'t>>,
    body: Body<'t>,
}

#[derive(Drop)]
pub enum Form<'t> {
    Declares(Term<'t>),
    Opens(Term<'t>),
    Rules(Rule<'t>),
}

// A role, to the bracket that closes its declaration.
#[tactic(auto, using(crate::proofs::Front::declares_is, crate::proofs::Front::made_within))]
fn declaration_of<'t>(tokens: &'t [Token<'t>]) -> Result<Form<'t>, FormFault>
    ensures value { (ts : Placed) → Closes (map token tokens.entry.now) ts → FormIs result (a_declaration language.declares (list (bares ts))) }
    ensures whole { OnOk result ((ts : Placed) × Closes (map token tokens.entry.now) ts) }
{
    declared(tokens)
        .map(Form::Declares)
        .ok_or(FormFault::Broken)
}

// An opening feature, likewise.
#[tactic(auto, using(crate::proofs::Front::opens_is, crate::proofs::Front::made_within))]
fn opening_of<'t>(tokens: &'t [Token<'t>]) -> Result<Form<'t>, FormFault>
    ensures value { (ts : Placed) → Closes (map token tokens.entry.now) ts → FormIs result (a_declaration language.opens (list (bares ts))) }
    ensures whole { OnOk result ((ts : Placed) × Closes (map token tokens.entry.now) ts) }
{
    declared(tokens).map(Form::Opens).ok_or(FormFault::Broken)
}

// A head and the parts of a body, to the bracket that closes the rule.
fn rule_of<'t>(heap: Global, tokens: &'t [Token<'t>]) -> Result<Form<'t>, FormFault>
    ensures value { (ts : Placed) → Closes (map token tokens.entry.now) ts → FormIs result (a_rule (list (bares ts))) }
    ensures whole { OnOk result ((ts : Placed) × Closes (map token tokens.entry.now) ts) }
{
    let Some((first, parts)) = Term::first_of(tokens) else {
        return Err(FormFault::Broken);
    };
    if is_closed(parts) {
        return Err(FormFault::Broken);
    }
    let Some(head) = head_of(first) else {
        return Err(FormFault::Broken);
    };
    let mut body = Body::new(heap);
    body.put_all(parts)?;
    Ok(Form::Rules(Rule { head, body }))
}

// A head alone.
fn fact_of<'t>(heap: Global, term: Term<'t>) -> Result<Form<'t>, FormFault>
    ensures { FormIs result (bodiless (term_view term.entry)) }
{
    let head = head_of(term).ok_or(FormFault::Broken)?;
    let body = Body::new(heap);
    Ok(Form::Rules(Rule { head, body }))
}

// A head alone that begins with a keyword, by what stands behind it.
#[tactic(auto, using(crate::proofs::Front::head_made, crate::proofs::Front::head_within))]
fn led_fact<'t>(heap: Global, k: Keyword, tokens: &'t [Token<'t>]) -> Result<Form<'t>, FormFault>
    ensures value { (ts : Placed) → Closes (map token tokens.entry.now) ts → FormIs result (of_head (head_atom (keyword_view k) (list (bares ts)))) }
    ensures whole { OnOk result ((ts : Placed) × Closes (map token tokens.entry.now) ts) }
{
    let Some(head) = head_behind(k, tokens) else {
        return Err(FormFault::Broken);
    };
    let body = Body::new(heap);
    Ok(Form::Rules(Rule { head, body }))
}

// A plain fact of more than a word.
fn plain_fact<'t>(heap: Global, tokens: &'t [Token<'t>]) -> Result<Form<'t>, FormFault>
    ensures value { (w : List ℕ) (u : Tree ℕ) → leading (bare u) ≡ Some w → keyword w ≡ None → map token tokens.entry.now ≡ flat u → FormIs result (bodiless (bare u)) }
    ensures whole { OnOk result (IsTerm (map token tokens.entry.now)) }
{
    if !all_headed(tokens) {
        return Err(FormFault::Broken);
    }
    let fact = whole(tokens).ok_or(FormFault::Broken)?;
    let head = Atom::Fact(fact);
    let body = Body::new(heap);
    Ok(Form::Rules(Rule { head, body }))
}

// A word alone, if no word comes first behind a bracket.
fn word_form<'t>(heap: Global, tokens: &'t [Token<'t>]) -> Result<Form<'t>, FormFault>
    ensures value { (u : Tree ℕ) → front (map token tokens.entry.now) ≡ None → map token tokens.entry.now ≡ flat u → FormIs result (form (bare u)) }
    ensures whole { OnOk result (IsTerm (map token tokens.entry.now)) }
{
    if !is_one_word(tokens) {
        return Err(FormFault::Broken);
    }
    let term = whole(tokens).ok_or(FormFault::Broken)?;
    fact_of(heap, term)
}

// The form that a term is.
pub fn form_in<'t>(heap: Global, term: Term<'t>) -> Result<Form<'t>, FormFault>
    ensures { FormIs result (form (term_view term.entry)) }
{
    form_of(heap, term.tokens())
}

// The form that the tokens of a term are. A declaration or a rule is read to its first broken term, and a head alone to its third.
pub fn form_of<'t>(heap: Global, tokens: &'t [Token<'t>]) -> Result<Form<'t>, FormFault>
    ensures value { (u : Tree ℕ) → map token tokens.entry.now ≡ flat u → FormIs result (form (bare u)) }
    ensures whole { OnOk result (IsTerm (map token tokens.entry.now)) }
{
    let Some((word, rest)) = front(tokens) else {
        return word_form(heap, tokens);
    };
    match keyword_of(word) {
        Some(Keyword::Role) => declaration_of(rest),
        Some(Keyword::Init) => opening_of(rest),
        Some(Keyword::Arrow) => rule_of(heap, rest),
        Some(k) => led_fact(heap, k, rest),
        None => plain_fact(heap, tokens),
    }
}
