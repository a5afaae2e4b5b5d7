// The forms of a text, and the forms written out again.
ghost use Rattle.std.specs.Prelude.{◌≡◌, not, map, nat_le};
ghost use Rattle.text.specs.Spelt.{AreTerms};
ghost use Rattle.text.specs.View.{token};

use crate::fault::TextFault;
use crate::reader::Reader;
use crate::term::Terms;
use crate::token::Token;
use std::alloc::Global;

// A table of the tokens of a text, in order.
#[derive(Drop)]
pub struct Forms<'a> {
    tokens: Vec<Token<'a>>,
    pub ghost whole: { AreTerms (map token tokens.items) },
}

impl<'a> Forms<'a> {
    ghost use Rattle.std.specs.Prelude.{[]};
    ghost use Rattle.definitions.specs.Reading.{verdict, Decided};
    ghost use Rattle.text.specs.Terms.{trees};
    ghost use Rattle.text.specs.Table.{held, forms, Filled};

    pub fn new(heap: Global) -> Forms<'a>
        ensures { held result ≡ [] }
    {
        Forms {
            tokens: Vec::new(heap),
        }
    }

    pub fn tokens(&self) -> &[Token<'a>]
        ensures { result.now ≡ held self.now }
    {
        self.tokens.as_slice()
    }

    // The forms, one after another.
    pub fn terms(&self) -> Terms<'_>
        ensures { trees result ≡ forms self.now }
    {
        Terms::over(self.tokens.as_slice())
    }

    // Reads a text in place of what was held; after a refusal nothing is held.
    #[tactic(auto, using(definitions::proofs::Decided::decided))]
    pub fn read(&mut self, heap: Global, text: &'a [u8]) -> Result<(), TextFault>
        ensures value { Filled result self.new (verdict text.now) }
        ensures law { Decided }
    {
        self.tokens.clear();
        if too_long(text.len()) {
            return Err(TextFault::TooLong);
        }
        let mut reader = Reader::new(heap, text);
        reader.run()?;
        self.tokens = reader.nest.tokens;
        Ok(())
    }
}

fn too_long(len: usize) -> bool
    ensures { result ≡ not (nat_le len 32768) }
{
    len > 32768
}
