//! What was seen of sessions.
ghost use Rattle.std.specs.Prelude.{◌≡◌, ◌++◌, ◌∷◌, [], ℕ, MatchOption, Some, option_map, slice_get, length};
ghost use Rattle.ls_told.specs.Seen.{Testified, LawfulTold};

use ls_register::House;
use ls_shared::Testimony;
use std::alloc::Global;
use std::marker::Model;

/// What was seen of sessions, one testimony for each. Contracts see them as a list.
#[derive(Drop)]
pub struct Seen<N: House> {
    pub(crate) tokens: Vec<Testimony<N>>,
}

impl<N: House> Model for Seen<N> {
    ghost use Rattle.std.specs.Prelude.{List};
    ghost use Rattle.ls_told.specs.Seen.{Testified};

    ghost Value = { List Testified };

    ghost view = { λ s. s.tokens.items };
}

/// What was seen is lawful.
fn vouch_all<N: House>(tokens: &[Testimony<N>])
    ensures { (k : ℕ) (t : Testified) → slice_get tokens.now k ≡ Some t → LawfulTold N.deed.config t }
{
    for k in 0..tokens.len() {
        tokens[k].vouch();
    }
}

impl<N: House> Seen<N> {
    /// Nothing was seen.
    pub fn new(alloc: Global) -> Seen<N>
        ensures { result ≡ [] }
    {
        Seen {
            tokens: Vec::new(alloc),
        }
    }

    /// Takes the last one out, where there is one.
    pub fn pop(&mut self) -> Option<Testimony<N>>
        ensures { MatchOption result ((self.old ≡ []) × (self.new ≡ [])) (λ t. self.old ≡ self.new ++ t ∷ []) }
    {
        self.tokens.pop()
    }

    /// How many sessions were seen.
    pub fn len(&self) -> usize
        ensures { result ≡ length self.now }
    {
        self.tokens.len()
    }

    /// What was seen of the session at a place, from 0.
    pub fn get(&self, place: usize) -> Option<&Testimony<N>>
        ensures { option_map (λ t. t.now) result ≡ slice_get self.now place }
    {
        self.tokens.get(place)
    }

    /// What was seen is lawful.
    pub fn vouch(&self)
        ensures { (k : ℕ) (t : Testified) → slice_get self.now k ≡ Some t → LawfulTold N.deed.config t }
    {
        vouch_all(&self.tokens);
    }
}
