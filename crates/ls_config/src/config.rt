//! What a config says.
ghost use Rattle.std.specs.Prelude.{◌≡◌, ℕ, List, None, Some, IfSome, slice_get};
ghost use Rattle.ls_value.specs.Values.{place_of};
ghost use Rattle.ls_config.specs.Items.{names_of};

use crate::items::Items;
use ls_value::Text;

/// A server's adapter set and its items (this project's profile).
#[derive(Drop)]
pub struct Config {
    /// The adapter set's name.
    pub set: Text,
    /// The items, in the order of their numbers.
    pub items: Items,
}

impl Config {
    /// The number of the item with a name, from 0: `None` exactly where no item has it. No memory is taken.
    pub fn find(&self, name: &[u8]) -> Option<u32>
        ensures first { result ≡ place_of (names_of self.now.items) name.now }
        ensures found { IfSome result (λ i. slice_get (names_of self.now.items) i ≡ Some name.now) }
        ensures absent { result ≡ None → (k : ℕ) → slice_get (names_of self.now.items) k ≡ Some name.now → ⊥ }
    {
        self.items.find(name)
    }
}
