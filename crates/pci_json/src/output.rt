//! What is written of a document so far.
ghost use Rattle.std.specs.Prelude.{◌≡◌, ◌+◌, ◌++◌, [], ◌∷◌, OnOk, IfOk, decimal};
ghost use Rattle.std.specs.String.{string_bytes};
ghost use Rattle.json.specs.Lex.{tokens};
ghost use Rattle.json.specs.Token.{begin_object, end_object, begin_array, end_array, key, string, number, boolean, null};
ghost use Rattle.json.specs.Print.{print, IsNumber};

use json::Writer;
use std::alloc::{AllocError, Allocator};
use std::marker::Model;

/// The tokens of a document so far.
#[derive(Drop)]
pub struct Output<A: Allocator> {
    writer: Writer<A>,
    digits: String<A>,
}

impl<A: Allocator> Model for Output<A> {
    ghost use Rattle.std.specs.Prelude.{◌≡◌, List, []};
    ghost use Rattle.json.specs.Token.{Token, tokens_code};

    ghost Value = { List Token };

    ghost coded = { tokens_code };

    ghost view = { λ o. o.writer.tokens };

    ghost invariant = { λ o. o.writer.before ≡ [] };
}

impl<A: Allocator + Copy> Output<A> {
    /// Nothing is written.
    pub fn new(alloc: A) -> Output<A>
        ensures { result ≡ [] }
    {
        Output {
            writer: Writer::new(Vec::new(alloc)),
            digits: String::new(alloc),
        }
    }
}

impl<A: Allocator> Output<A> {
    pub fn begin_object(&mut self) -> Result<(), AllocError>
        ensures { OnOk result (self.new ≡ self.old ++ begin_object ∷ []) }
    {
        self.writer.begin_object()
    }

    pub fn end_object(&mut self) -> Result<(), AllocError>
        ensures { OnOk result (self.new ≡ self.old ++ end_object ∷ []) }
    {
        self.writer.end_object()
    }

    pub fn begin_array(&mut self) -> Result<(), AllocError>
        ensures { OnOk result (self.new ≡ self.old ++ begin_array ∷ []) }
    {
        self.writer.begin_array()
    }

    pub fn end_array(&mut self) -> Result<(), AllocError>
        ensures { OnOk result (self.new ≡ self.old ++ end_array ∷ []) }
    {
        self.writer.end_array()
    }

    /// The name of a member, whose value follows.
    pub fn key(&mut self, name: &str) -> Result<(), AllocError>
        ensures { OnOk result (self.new ≡ self.old ++ key name.now ∷ []) }
    {
        self.writer.key(name)
    }

    pub fn string(&mut self, text: &str) -> Result<(), AllocError>
        ensures { OnOk result (self.new ≡ self.old ++ string text.now ∷ []) }
    {
        self.writer.string(text)
    }

    pub fn null(&mut self) -> Result<(), AllocError>
        ensures { OnOk result (self.new ≡ self.old ++ null ∷ []) }
    {
        self.writer.null()
    }

    /// A member whose value is a text.
    pub fn text(&mut self, name: &str, text: &str) -> Result<(), AllocError>
        ensures { OnOk result (self.new ≡ self.old ++ key name.now ∷ string text.now ∷ []) }
    {
        self.writer.key(name)?;
        self.writer.string(text)
    }

    /// A member whose value is a number in hex digits, behind 0x.
    pub fn hex(&mut self, name: &str, digits: &str) -> Result<(), AllocError>
        ensures { OnOk result
            (self.new ≡ self.old ++ key name.now ∷ string (48 ∷ 120 ∷ digits.now) ∷ []) }
    {
        self.digits.clear();
        self.digits.push_str("0x")?;
        self.digits.push_str(digits)?;
        self.writer.key(name)?;
        self.writer.string(self.digits.as_str())
    }

    /// A member whose value is a number.
    pub fn number(&mut self, name: &str, value: u64) -> Result<(), AllocError>
        ensures { OnOk result (self.new ≡ self.old ++ key name.now ∷ number (decimal value) ∷ []) }
    {
        self.writer.key(name)?;
        self.writer.u64(value)
    }

    /// A number in these digits.
    fn number_text(&mut self, text: &str) -> Result<(), AllocError>
        requires { IsNumber text.now }
        ensures { OnOk result (self.new ≡ self.old ++ number text.now ∷ []) }
    {
        self.writer.number(text)
    }

    /// A number that is one more than this.
    fn next_number(&mut self, less: u64) -> Result<(), AllocError>
        ensures { OnOk result (self.new ≡ self.old ++ number (decimal (less + 1)) ∷ []) }
    {
        match less.checked_add(1) {
            Some(number) => self.writer.u64(number),
            None => self.number_text("18446744073709551616"),
        }
    }

    /// A member whose value is a number of addresses, one more than this.
    pub fn count(&mut self, name: &str, less: u64) -> Result<(), AllocError>
        ensures { OnOk result
            (self.new ≡ self.old ++ key name.now ∷ number (decimal (less + 1)) ∷ []) }
    {
        self.key(name)?;
        self.next_number(less)
    }

    /// A member whose value is true or false.
    pub fn boolean(&mut self, name: &str, truth: bool) -> Result<(), AllocError>
        ensures { OnOk result (self.new ≡ self.old ++ key name.now ∷ boolean truth ∷ []) }
    {
        self.writer.key(name)?;
        self.writer.boolean(truth)
    }

    /// The text of the tokens, and a line feed.
    pub fn finish(self) -> Result<String<A>, AllocError>
        ensures text { IfOk result (λ text. string_bytes text ≡ print self ++ 10 ∷ []) }
        ensures reads_back { tokens (print self) ≡ self }
    {
        let Output { writer, .. } = self;
        let mut text = match String::from_utf8(writer.into_inner()) {
            Ok(text) => text,
            Err(_) => return Err(AllocError),
        };
        text.push('\n')?;
        Ok(text)
    }
}
