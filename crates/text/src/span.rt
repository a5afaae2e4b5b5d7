// How far a term goes.
ghost use Rattle.std.specs.Prelude.{◌≡◌, ◌+◌, ◌^◌, ◌<◌, ◌≤◌, map, length};
ghost use Rattle.text.specs.View.{token};
ghost use Rattle.text.specs.Span.{opened, span, balanced, first_span, Spans};

use crate::token::Token;

// How many brackets are open after a token.
fn open_after(depth: usize, t: Token) -> usize
    requires { depth + 1 < 2 ^ 64 }
    ensures { result ≡ opened depth (token t.entry) }
{
    match t {
        Token::Open { at: _ } => depth + 1,
        Token::Close => depth.saturating_sub(1),
        Token::Word { at: _, spelling: _ } => depth,
    }
}

// The number of tokens of the first term: to the bracket that closes the first token, or one where it opens none.
#[tactic(auto, using(crate::proofs::Spans::spans, crate::proofs::Spans::span_more, crate::proofs::Spans::span_here, crate::proofs::Spans::opened_under))]
pub fn term_len(tokens: &[Token]) -> usize
    ensures value { result ≡ span 0 (map token tokens.now) }
    ensures within { result ≤ length tokens.now }
    ensures some { 0 < length tokens.now → 0 < result }
    ensures law { Spans }
{
    let mut depth = 0usize;
    for (i, t) in tokens.iter().enumerate() {
        depth = open_after(depth, *t);
        if depth == 0 {
            return i + 1;
        }
    }
    tokens.len()
}

// Each closing bracket closes one, and none is left open.
pub(crate) fn is_balanced(tokens: &[Token]) -> bool
    ensures { result ≡ balanced 0 (map token tokens.now) }
{
    let mut depth = 0usize;
    for t in tokens {
        if t.closes() && depth == 0 {
            return false;
        }
        depth = open_after(depth, *t);
    }
    depth == 0
}

// The number of tokens of the term that tokens begin with, if they begin with one.
pub(crate) fn first_len(tokens: &[Token]) -> Option<usize>
    ensures { result ≡ first_span 0 0 (map token tokens.now) }
{
    let mut depth = 0usize;
    for (before, t) in tokens.iter().enumerate() {
        if t.closes() && depth == 0 {
            return None;
        }
        depth = open_after(depth, *t);
        if depth == 0 {
            return Some(before + 1);
        }
    }
    None
}
