// The tokens of a text so far, and the brackets among them that are still open.
ghost use Rattle.std.specs.Prelude.{◌≡◌, map};
ghost use Rattle.definitions.specs.Text.{spread};
ghost use Rattle.text.specs.Spelt.{levels, places};
ghost use Rattle.text.specs.View.{token};

use crate::fault::TextFault;
use crate::token::Token;
use arrayvec::ArrayVec;
use std::alloc::Global;

#[derive(Drop)]
pub struct Nest<'a> {
    pub tokens: Vec<Token<'a>>,
    // where the open brackets stand
    pub opens: ArrayVec<usize, 8>,
    ghost spelt: { map token tokens.items ≡ spread (levels (map token tokens.items)) },
    ghost placed: { opens.items ≡ places (levels (map token tokens.items)) },
}

impl<'a> Nest<'a> {
    ghost use Rattle.std.specs.Prelude.{◌-◌, ◌<◌, length, not, MatchOption, nat_lt, slice_index_or};
    ghost use Rattle.definitions.specs.Term.{Tree, none};
    ghost use Rattle.definitions.specs.Text.{outer, open_brackets, Sort};
    ghost use Rattle.definitions.specs.Reading.{Mode, next, add, mark, shut, ended};
    ghost use Rattle.text.specs.Spelt.{fresh};
    ghost use Rattle.text.specs.Nesting.{nesting, Nested, Ended};

    pub(crate) fn new(heap: Global) -> Nest<'a>
        ensures { nesting result ≡ outer none }
    {
        Nest {
            tokens: Vec::new(heap),
            opens: ArrayVec::new(),
        }
    }

    pub(crate) fn add_word(&mut self, at: usize, spelling: &'a [u8]) -> Result<(), TextFault>
        ensures { Nested result self.new (next Mode.between (add (nesting self.old) (Tree.word at spelling.now))) }
    {
        self.tokens.push(Token::Word { at, spelling })?;
        Ok(())
    }

    // Eight brackets are open.
    #[tactic(auto, using(crate::proofs::Nesting::opens_count))]
    fn is_full(&self) -> bool
        ensures { result ≡ not (nat_lt (open_brackets (nesting self.now)) 8) }
    {
        self.opens.len() >= 8
    }

    // The innermost open bracket has no term yet.
    #[tactic(auto, using(crate::proofs::Nesting::fresh_last))]
    fn is_fresh(&self) -> bool
        ensures { result ≡ fresh (nesting self.now) }
    {
        match self.tokens.last() {
            Some(t) => t.opens(),
            None => false,
        }
    }

    fn innermost(&self) -> Option<usize>
        ensures { MatchOption result (length (places (nesting self.now)) ≡ 0) (λ x. (0 < length (places (nesting self.now))) × (x ≡ slice_index_or (places (nesting self.now)) (length (places (nesting self.now)) - 1) x)) }
    {
        self.opens.last().copied()
    }

    pub(crate) fn open_at(&mut self, at: usize) -> Result<(), TextFault>
        ensures { Nested result self.new (mark at 40 (nesting self.old) Sort.opening) }
    {
        if self.is_full() {
            return Err(TextFault::TooDeep { at });
        }
        self.tokens.push(Token::Open { at })?;
        self.opens.push(at);
        Ok(())
    }

    pub(crate) fn close_at(&mut self, at: usize) -> Result<(), TextFault>
        ensures { Nested result self.new (shut at (nesting self.old)) }
    {
        if self.opens.is_empty() {
            return Err(TextFault::Unopened { at });
        }
        if self.is_fresh() {
            return Err(TextFault::Empty { at });
        }
        self.tokens.push(Token::Close)?;
        let _ = self.opens.pop();
        Ok(())
    }

    // The end of the text, where every bracket must be closed.
    #[tactic(auto, using(crate::proofs::Nesting::ended_closed))]
    pub(crate) fn finish(&self) -> Result<(), TextFault>
        ensures { Ended result self.now.tokens.items (ended (nesting self.now)) }
    {
        match self.innermost() {
            Some(at) => Err(TextFault::Unclosed { at }),
            None => Ok(()),
        }
    }
}
