//! Tokens.
ghost use Rattle.std.specs.Prelude.{◌≡◌, ◌↔◌, IsTrue, IfOk};

use crate::meaning::{between_quotes, number_of_digits, number_with_places, said_by};
use crate::signs::Sign;
use dw_value::Text;
use std::alloc::{AllocError, Global};

/// What a token is.
#[derive(Clone, Copy, Debug, PartialEq, Eq)]
pub enum Form {
    /// An ASCII letter or `_`, then letters, digits, `_` or `$`: at most 127 bytes. A word of SQL is a name too.
    Name,
    /// A name in double quotes, which may be a word of SQL too. The quotes belong to it, the 127 bytes are those between.
    Quoted,
    /// Digits, or digits with one point and at least one digit after it: at most 38 digits.
    Number,
    /// A text in single quotes, in which two quotes stand for one.
    Words,
    /// A sign.
    Sign(Sign),
}

/// A token of a text.
#[derive(Debug, Drop)]
pub struct Token {
    /// What kind of token it is.
    pub form: Form,
    /// The token's bytes as they stand in the text it was read from, quotes and upper case too.
    pub text: Text,
    /// Where it begins, in bytes from the text's start.
    pub start: u64,
    /// Where it ends: the place of the first byte after it.
    pub end: u64,
}

impl Token {
    ghost use Rattle.dw_lex.specs.declared.token.Form.TheVariants as forms;
    ghost use Rattle.dw_lex.specs.Meaning.{IsWord, folded, written_name, said_by, whole_number, decimal_number};

    /// Whether the token is this word, in whatever case its ASCII letters are. Only names are words; a quoted name and a
    /// text in quotes are none.
    pub fn is_word(&self, word: &str) -> bool
        ensures { IsTrue result ↔ IsWord word.now self.now }
    {
        matches!(self.form, Form::Name) && self.text.as_str().eq_ignore_ascii_case(word)
    }

    /// Whether the token is this sign.
    pub fn is_sign(&self, sign: Sign) -> bool
        ensures { IsTrue result ↔ (self.now.form ≡ forms.Sign sign) }
    {
        match self.form {
            Form::Sign(own) => own == sign,
            _ => false,
        }
    }

    /// The token's text with its ASCII letters in lower case: the name that a name in any case stands for.
    pub fn folded(&self, alloc: Global) -> Result<Text, AllocError>
        ensures { IfOk result (λ name. name ≡ folded self.now.text) }
    {
        let name = self.text.as_str().to_ascii_lowercase(alloc)?;
        Ok(Text::from_string(name))
    }

    /// The name that the token writes, with its ASCII letters in lower case: that of a name, and what stands between the
    /// quotes of a quoted name. `None` comes for any other token.
    pub fn written_name(&self, alloc: Global) -> Result<Option<Text>, AllocError>
        ensures { IfOk result (λ name. name ≡ written_name self.now) }
    {
        let name = match self.form {
            Form::Name => self.text.as_str(),
            Form::Quoted => between_quotes(self.text.as_str()),
            _ => return Ok(None),
        };
        let folded = name.to_ascii_lowercase(alloc)?;
        Ok(Some(Text::from_string(folded)))
    }

    /// The number that a token of digits alone writes. `None` comes for any other token, a number with a point among
    /// them, and for a number of 2^128 or more, which no token of at most 38 digits is.
    pub fn whole_number(&self) -> Option<u128>
        ensures { result ≡ whole_number self.now }
    {
        match self.form {
            Form::Number => number_of_digits(self.text.as_str()),
            _ => None,
        }
    }

    /// The number that a token of digits writes, with a point or without: the number of all its digits, and how many of
    /// them stand after the point. 1.50 gives 150 and 2. `None` comes for any other token, and for digits that write
    /// 2^128 or more, which no token of at most 38 digits does.
    pub fn decimal_number(&self, alloc: Global) -> Result<Option<(u128, usize)>, AllocError>
        ensures { IfOk result (λ number. number ≡ decimal_number self.now) }
    {
        match self.form {
            Form::Number => number_with_places(alloc, self.text.as_str()),
            _ => Ok(None),
        }
    }

    /// What a text in single quotes says: the bytes between its quotes, with one quote for each two.
    pub fn words(&self, alloc: Global) -> Result<Text, AllocError>
        ensures { IfOk result (λ words. words ≡ said_by self.now.text) }
    {
        let bytes = said_by(alloc, self.text.as_bytes())?;
        match String::from_utf8(bytes) {
            Ok(words) => Ok(Text::from_string(words)),
            Err(_) => unreachable!(),
        }
    }
}
