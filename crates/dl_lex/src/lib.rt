// The tokens of this project's profile of the OWL 2 functional-style syntax.
#![tactic(auto)]

mod characters;
mod keyword;
mod laws;
mod lexer;
mod scan;
mod token;

pub use keyword::Keyword;
pub use laws::{keywords_are_unique, tokens_are_unique};
pub use lexer::Lexer;
pub use token::{LexFault, Token, TokenKind};
