// The reader: a machine in place, whose state and next byte together decide the step.
ghost use Rattle.std.specs.Prelude.{◌≡◌, ◌+◌, ◌<◌, length, slice_index};
ghost use Rattle.definitions.specs.Text.{outer};
ghost use Rattle.definitions.specs.Term.{none};
ghost use Rattle.definitions.specs.Reading.{Mode, mark, step, settle, ended, reading};
ghost use Rattle.text.specs.Nesting.{nesting, Ended};
ghost use Rattle.text.specs.View.{sorted};
ghost use Rattle.text.specs.Machine.{mode, Started, Stepped};

use crate::fault::TextFault;
use crate::nest::Nest;
use crate::sort::Sort;
use std::alloc::Global;

#[derive(Clone, Copy)]
pub enum State {
    Between,
    Word { start: usize },
    Comment,
}

#[derive(Drop)]
pub struct Reader<'a> {
    pub text: &'a [u8],
    pub nest: Nest<'a>,
    pub state: State,
}

impl<'a> Reader<'a> {
    pub(crate) fn new(heap: Global, text: &'a [u8]) -> Reader<'a>
        ensures text { result.text.now ≡ text.now }
        ensures state { result.state ≡ State.Between }
        ensures nest { nesting result.nest ≡ outer none }
    {
        Reader {
            text,
            nest: Nest::new(heap),
            state: State::Between,
        }
    }

    // A byte that stands in no word and no comment.
    fn mark(&mut self, at: usize, sort: Sort) -> Result<(), TextFault>
        requires { at < length self.old.text.now }
        ensures value { Stepped result self.new (at + 1) (mark at (slice_index self.old.text.now at) (nesting self.old.nest) (sorted sort)) }
        ensures same { self.new.text.now ≡ self.old.text.now }
    {
        match sort {
            Sort::Word => self.state = State::Word { start: at },
            Sort::Divider => self.state = State::Between,
            Sort::Open => {
                self.nest.open_at(at)?;
                self.state = State::Between;
            }
            Sort::Close => {
                self.nest.close_at(at)?;
                self.state = State::Between;
            }
            Sort::Comment => self.state = State::Comment,
            Sort::Variable => return Err(TextFault::Variable { at }),
            Sort::Odd => return Err(TextFault::Odd { at }),
        }
        Ok(())
    }

    // The byte at `at`.
    #[tactic(auto, using(crate::proofs::Machine::step_goes_on))]
    fn step(&mut self, at: usize, byte: u8) -> Result<(), TextFault>
        requires within { at < length self.old.text.now }
        requires here { byte ≡ slice_index self.old.text.now at }
        requires started { Started self.old.state at }
        ensures value { Stepped result self.new (at + 1) (step at (mode self.old.state at self.old.text.now) (nesting self.old.nest) byte) }
        ensures same { self.new.text.now ≡ self.old.text.now }
    {
        match (self.state, Sort::from(byte)) {
            (State::Comment, _) if byte == b'\n' => {
                self.state = State::Between;
                Ok(())
            }
            (State::Comment, _) => Ok(()),
            (State::Word { start: _ }, sort) if sort.in_words() => Ok(()),
            (State::Word { start }, sort) => {
                self.nest.add_word(start, &self.text[start..at])?;
                self.mark(at, sort)
            }
            (State::Between, sort) => self.mark(at, sort),
        }
    }

    // The end of the text, with the word in progress.
    fn end(&mut self) -> Result<(), TextFault>
        requires { Started self.old.state (length self.old.text.now) }
        ensures { Ended result self.new.nest.tokens.items (ended (settle (mode self.old.state (length self.old.text.now) self.old.text.now) (nesting self.old.nest))) }
    {
        if let State::Word { start } = self.state {
            self.nest.add_word(start, &self.text[start..])?;
        }
        self.nest.finish()
    }

    pub(crate) fn run(&mut self) -> Result<(), TextFault>
        requires state { self.old.state ≡ State.Between }
        requires nest { nesting self.old.nest ≡ outer none }
        ensures { Ended result self.new.nest.tokens.items (reading 0 Mode.between (outer none) self.old.text.now) }
    {
        for (at, byte) in self.text.iter().enumerate() {
            self.step(at, *byte)?;
        }
        self.end()
    }
}
