// Why a term is no form: want of memory, or it is broken.
ghost use Rattle.std.specs.Prelude.{◌≡◌, alloc_error};
ghost use Rattle.forms.specs.declared.fault.FormFault.TheVariants.{Memory};

use std::alloc::{AllocError, AllocFailed};
use std::error::Error;
use std::fmt;

#[derive(Clone, Copy, Debug, PartialEq)]
pub enum FormFault {
    Memory(AllocError),
    Broken,
}

impl<T: Drop> From<AllocFailed<T>> for FormFault {
    ghost from_gives = { λ _ f. f ≡ Memory alloc_error };

    fn from(failed: AllocFailed<T>) -> FormFault {
        FormFault::Memory(AllocError::from(failed))
    }
}

impl fmt::Display for FormFault {
    fn fmt<W: fmt::Write>(&self, f: &mut fmt::Formatter<W>) -> fmt::Result {
        f.write_str(match self {
            FormFault::Memory(_) => "there is not enough memory",
            FormFault::Broken => "this is no form",
        })
    }
}

impl Error for FormFault {}
