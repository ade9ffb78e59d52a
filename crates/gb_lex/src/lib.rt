//! Tokens: a text falls into white space, comments, tokens and faulty bytes, and a file into commands.
#![tactic(auto)]

pub mod byte;
pub mod commands;
pub mod comment;
pub mod laws;
pub mod lexing;
pub mod piece;
pub mod places;
pub mod symbol;
pub mod token;
