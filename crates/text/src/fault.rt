// Why a text is refused. specs/Faults.antt gives each case its number, layer and place.
ghost use Rattle.std.specs.Prelude.{◌≡◌, alloc_error};
ghost use Rattle.text.specs.declared.fault.TextFault.TheVariants.{Memory};
ghost use Rattle.std.specs.Option.{option_map};
ghost use Rattle.std.specs.Result.{result_ok};
ghost use Rattle.text.specs.Faults.{of_text, refusal};

use crate::refusal::{Layer, Refusal};
use std::alloc::{AllocError, AllocFailed};
use std::error::Error;
use std::fmt;

#[derive(Clone, Copy, Debug, PartialEq)]
pub enum TextFault {
    Memory(AllocError),
    TooLong,
    Odd { at: usize },
    Variable { at: usize },
    Unopened { at: usize },
    Empty { at: usize },
    Unclosed { at: usize },
    TooDeep { at: usize },
}

impl<T: Drop> From<AllocFailed<T>> for TextFault {
    ghost from_gives = { λ _ f. f ≡ Memory alloc_error };

    fn from(failed: AllocFailed<T>) -> TextFault {
        TextFault::Memory(AllocError::from(failed))
    }
}

impl TextFault {
    // What is refused, or want of memory, which has no number.
    pub fn refusal(self) -> Result<Refusal, AllocError>
        ensures { option_map refusal (result_ok result) ≡ of_text self }
    {
        let (number, place) = match self {
            TextFault::Memory(e) => return Err(e),
            TextFault::TooLong => (1, 32768),
            TextFault::Odd { at } => (2, at),
            TextFault::Variable { at } => (3, at),
            TextFault::Unopened { at } => (4, at),
            TextFault::Empty { at } => (4, at),
            TextFault::Unclosed { at } => (4, at),
            TextFault::TooDeep { at } => (5, at),
        };
        Ok(Refusal {
            number,
            layer: Layer::Text,
            place,
        })
    }
}

// Number, layer and place, and what to mend.
impl fmt::Display for TextFault {
    fn fmt<W: fmt::Write>(&self, f: &mut fmt::Formatter<W>) -> fmt::Result {
        let why = match self {
            TextFault::Memory(_) => return f.write_str("there is not enough memory"),
            TextFault::TooLong => "the text has more than 32768 bytes",
            TextFault::Odd { at: _ } => "this byte may stand in a comment only",
            TextFault::Variable { at: _ } => "a ground text has no variables",
            TextFault::Unopened { at: _ } => "no bracket is open here",
            TextFault::Empty { at: _ } => "these brackets have nothing in them",
            TextFault::Unclosed { at: _ } => "this bracket is not closed",
            TextFault::TooDeep { at: _ } => "more than eight brackets are open",
        };
        match self.refusal() {
            Ok(r) => {
                let number = r.number;
                let place = r.place;
                write!(f, "{number} at byte {place} of the text: {why}")
            }
            Err(_) => f.write_str(why),
        }
    }
}

impl Error for TextFault {}
