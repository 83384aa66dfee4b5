//! Keys as a map has them.
ghost use Rattle.std.specs.Prelude.{◌≡◌, nat_eq};
ghost use Rattle.std.specs.Cmp.{partial_equiv_from_equiv};
ghost use Rattle.std.specs.Cmp.Lexicographic.{pointwise, nat_list_eq_equiv};
ghost use Rattle.std.specs.Cmp.Rules.{hashing};
ghost use Rattle.std.specs.Hash as fed;
ghost use Rattle.std.proofs.Common.{rules};

use ls_value::Text;
use std::hash::{Hash, Hasher};
use std::marker::Model;

/// A key, compared and hashed by its bytes.
#[derive(Drop)]
pub struct KeyText {
    text: Text,
}

impl Model for KeyText {
    ghost use Rattle.std.specs.Prelude.{List, ℕ};

    ghost Value = { List ℕ };

    ghost view = { λ k. k.text };
}

impl PartialEq for KeyText {
    ghost eq = { pointwise nat_eq };

    ghost laws = { partial_equiv_from_equiv nat_list_eq_equiv };

    fn eq(&self, other: &KeyText) -> bool {
        self.text.as_str() == other.text.as_str()
    }
}

impl Eq for KeyText {
    ghost laws = { nat_list_eq_equiv };
}

impl Hash for KeyText {
    ghost hash_input = { fed.str };

    ghost respects_eq = { Prim.search (hashing, rules) };

    fn hash<H: Hasher>(&self, state: &mut H) {
        self.text.as_str().hash(state);
    }
}

impl KeyText {
    /// The key of a text.
    pub fn of(text: Text) -> KeyText
        ensures { result ≡ text }
    {
        KeyText { text }
    }

    /// Its text.
    pub fn text(&self) -> &Text
        ensures { result.now ≡ self.now }
    {
        &self.text
    }

    /// Its text, which it hands over.
    pub fn into_text(self) -> Text
        ensures { result ≡ self }
    {
        self.text
    }
}
