// Texts of the plain data, seen as the characters they have.
ghost use Rattle.std.specs.Prelude.{◌≡◌, [], ◌++◌, length, IfOk, IsTrue, ◌↔◌, OnOk, OnErr, string_bytes};
ghost use Rattle.std.specs.Str.{chars, encode_utf8_all};

use crate::fault::NoMemory;
use crate::seq::{Copied, Same, Seq};
use std::alloc::Global;
use std::marker::Model;

/// A `String` that contracts see as the list of its characters.
#[derive(Debug, Drop)]
pub struct Text {
    inner: String,
}

/// A list of texts.
pub type Names = Seq<Text>;

impl Model for Text {
    ghost use Rattle.std.specs.Prelude.{List, ℕ, string_bytes};
    ghost use Rattle.std.specs.Str.{chars};

    ghost Value = { List ℕ };

    ghost view = { λ t. chars (string_bytes t.inner) };
}

impl Text {
    /// A text without characters.
    pub fn new(alloc: Global) -> Text
        ensures { result ≡ [] }
    {
        Text {
            inner: String::new(alloc),
        }
    }

    /// The text of a `String`. It takes no memory.
    pub fn from_string(inner: String) -> Text
        ensures { result ≡ chars (string_bytes inner) }
    {
        Text { inner }
    }

    /// The `String` of the text. It takes no memory.
    pub fn into_string(self) -> String
        ensures { chars (string_bytes result) ≡ self }
    {
        let Text { inner } = self;
        inner
    }

    /// A copy of a text that is lent.
    pub fn from_str(alloc: Global, text: &str) -> Result<Text, NoMemory>
        ensures { IfOk result (λ t. t ≡ chars text.now) }
    {
        match String::from_str(alloc, text) {
            Ok(inner) => Ok(Text { inner }),
            Err(_) => Err(NoMemory),
        }
    }

    /// The characters, lent.
    pub fn as_str(&self) -> &str
        ensures chars { chars result.now ≡ self.now }
        ensures bytes { result.now ≡ encode_utf8_all self.now }
    {
        self.inner.as_str()
    }

    /// The length of its UTF-8.
    pub fn len(&self) -> usize
        ensures { result ≡ length (encode_utf8_all self.now) }
    {
        self.as_str().len()
    }

    pub fn is_empty(&self) -> bool
        ensures { IsTrue result ↔ (self.now ≡ []) }
    {
        let text = self.as_str();
        text.len() == 0
    }

    /// Adds the characters at the end, or none of them.
    pub fn push_str(&mut self, more: &str) -> Result<(), NoMemory>
        ensures ok { OnOk result (self.new ≡ self.old ++ chars more.now) }
        ensures err { OnErr result (self.new ≡ self.old) }
    {
        match self.inner.push_str(more) {
            Ok(()) => Ok(()),
            Err(_) => Err(NoMemory),
        }
    }
}

impl Same for Text {
    fn same(&self, other: &Text) -> bool {
        self.as_str() == other.as_str()
    }
}

impl Copied for Text {
    fn copied(&self, alloc: Global) -> Result<Text, NoMemory> {
        Text::from_str(alloc, self.as_str())
    }
}

impl PartialEq for Text {
    ghost use Rattle.std.specs.Prelude.{nat_eq, encode_utf8_all};
    ghost use Rattle.std.specs.Cmp.{partial_equiv_from_equiv};
    ghost use Rattle.std.specs.Cmp.Lexicographic.{pointwise, on_texts_equal};

    ghost eq = { λ x y. pointwise nat_eq (encode_utf8_all x) (encode_utf8_all y) };

    ghost laws = { partial_equiv_from_equiv (on_texts_equal encode_utf8_all) };

    fn eq(&self, other: &Text) -> bool {
        self.as_str() == other.as_str()
    }
}

impl Eq for Text {
    ghost use Rattle.std.specs.Prelude.{encode_utf8_all};
    ghost use Rattle.std.specs.Cmp.Lexicographic.{on_texts_equal};

    ghost laws = { on_texts_equal encode_utf8_all };
}
