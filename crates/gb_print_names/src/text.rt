// Text that is written piece by piece.

ghost use Rattle.std.specs.Prelude.{◌≡◌, [], IfOk, OnOk};
ghost use Rattle.std.specs.Fmt.{signed_decimal};
ghost use Rattle.gb_print_names.specs.Text.{word, number, bar};

use crate::bound_names::Known;
use gb_core::Stack;
use std::alloc::{AllocError, Global};
use std::marker::Model;

/// A text. Contracts see its bytes.
#[derive(Drop)]
pub struct Text {
    bytes: Vec<u8>,
}

impl Model for Text {
    ghost use Rattle.std.specs.Prelude.{List, ℕ};

    ghost Value = { List ℕ };

    ghost view = { λ t. t.bytes.items };
}

impl Text {
    /// The empty text.
    pub fn new(alloc: Global) -> Text
        ensures { result ≡ [] }
    {
        Text {
            bytes: Vec::new(alloc),
        }
    }

    /// Writes a piece behind the text.
    pub fn put(&mut self, piece: &str) -> Result<(), AllocError>
        ensures { OnOk result (self.new ≡ word piece.now self.old) }
    {
        self.bytes.extend_from_slice(piece.as_bytes())
    }

    /// Writes a number in decimal.
    pub fn put_number(&mut self, alloc: Global, n: u128) -> Result<(), AllocError>
        ensures { OnOk result (self.new ≡ number n self.old) }
    {
        let digits = format!(in alloc; "{n}")?;
        self.put(digits.as_str())
    }

    /// Writes a number, with a sign where it is below 0.
    pub fn put_signed(&mut self, alloc: Global, n: i128) -> Result<(), AllocError>
        ensures { OnOk result (self.new ≡ word (signed_decimal n) self.old) }
    {
        let digits = format!(in alloc; "{n}")?;
        self.put(digits.as_str())
    }

    /// Writes a bar, and before it a space where a bar stands there already.
    pub fn put_bar(&mut self) -> Result<(), AllocError>
        ensures { OnOk result (self.new ≡ bar self.old) }
    {
        let joins = self.bytes.ends_with(b"|");
        self.put(if joins { " |" } else { "|" })
    }

    pub fn into_bytes(self) -> Vec<u8>
        ensures { result.items ≡ self }
    {
        let Text { bytes } = self;
        bytes
    }
}

/// What is written so far, and what is bound around the place where it goes on, the innermost first.
#[derive(Drop)]
pub struct Page {
    pub text: Text,
    pub bound: Stack<Known>,
}
