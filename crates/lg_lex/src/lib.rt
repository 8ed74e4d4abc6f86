//! The tokens of a line: words, numbers and operators.
#![tactic(auto)]

mod bytes;
pub mod examples;
pub mod laws;
mod lexing;
mod numbers;
mod operators;
mod tokens;

pub use bytes::{is_blank, without_return};
pub use lexing::lex_line;
pub use numbers::number_of;
pub use tokens::{LexEnd, Token, TokenKind};

#[cfg(test)]
mod tests;
