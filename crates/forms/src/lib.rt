// The forms of the language: which form a term is, if it is one.
#![tactic(auto)]

mod args;
mod atom;
mod body;
mod fault;
mod form;
mod keyword;
mod literal;
mod shape;
mod tokens;
mod value;

pub use atom::Atom;
pub use body::Body;
pub use fault::FormFault;
pub use form::{Form, Rule, form_in, form_of};
pub use literal::Literal;
