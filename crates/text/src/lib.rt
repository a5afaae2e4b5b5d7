// The text layer: bytes are read as words and brackets, the tokens of a text's forms, and written out again.
#![tactic(auto)]

mod fault;
mod forms;
mod nest;
mod output;
mod reader;
mod refusal;
mod sort;
mod span;
mod term;
mod token;

pub use fault::TextFault;
pub use forms::Forms;
pub use output::write;
pub use refusal::{Layer, Refusal};
pub use span::term_len;
pub use term::{Parts, Term, Terms};
pub use token::Token;
