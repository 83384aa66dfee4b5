//! Form text: names and texts (URL Standard, section 5).
ghost use Rattle.std.specs.Prelude.{◌≡◌, ◌⊎◌, ◌||◌, ℕ, List, [], ◌∷◌, ◌++◌, not, Some, None, IfOk, OnOk, IfErr};
ghost use Rattle.std.specs.Prelude.{length, map, nat_eq, slice_get, if◌then◌else◌};
ghost use Rattle.std.specs.BTreeSet.{contains_text};
ghost use Rattle.std.specs.Option.{option_copied};
ghost use Rattle.std.specs.Str.{is_utf8};
ghost use Rattle.form_urlencoded.specs.Form as url;
ghost use Rattle.std.specs.Str.{bytes_eq};
ghost use Rattle.ls_form.specs.Forms.{decoded, is_utf8_pair, has_name, text_under, cause_behind, form_cause, form_of};

use form_urlencoded::raw_pairs;
use ls_value::{NoMemory, Text, TextRefused};
use percent_encoding::percent_decode;
use std::alloc::{AllocError, AllocFailed, Global};
use std::collections::BTreeSet;
use std::marker::Model;

/// How many bytes a form text has at most (this project's profile).
pub const LONGEST_FORM: usize = 50_000;

/// Why a form text is refused, in the order in which the causes are looked at. Pairs are counted from 1.
#[derive(Clone, Copy, Debug, PartialEq, Eq)]
pub enum FormRefused {
    /// It has more than `LONGEST_FORM` bytes.
    TooLong {
        /// The number of its bytes.
        n: u64,
    },
    /// The name or the text of a pair, decoded, isn't UTF-8, and no pair before it is refused.
    NotUtf8 {
        /// The place of the pair.
        at: u64,
    },
    /// A pair has the name of an earlier one, and no pair before it is refused.
    Twice {
        /// The place of the pair.
        at: u64,
    },
    /// Memory was refused.
    NoMemory,
}

impl From<NoMemory> for FormRefused {
    ghost use Rattle.std.specs.Prelude.{◌≡◌};
    ghost use Rattle.ls_form.specs.declared.form.FormRefused.TheVariants as refused;

    ghost from_gives = { λ _ e. e ≡ refused.NoMemory };

    fn from(_: NoMemory) -> FormRefused {
        FormRefused::NoMemory
    }
}

/// A name and its text, decoded.
#[derive(Drop)]
pub struct Pair {
    /// What stands before the first `=`.
    pub name: Text,
    /// What stands behind it. It is empty where there is no `=`.
    pub text: Text,
}

/// The pairs of a form text in order, seen as a list of them.
#[derive(Drop)]
pub struct Params {
    pairs: Vec<Pair>,
}

impl Model for Params {
    ghost use Rattle.std.specs.Prelude.{List};
    ghost use Rattle.ls_form.specs.declared.form.Pair.{Pair as OnePair};

    ghost Value = { List OnePair };

    ghost view = { λ p. p.pairs.items };
}

impl Params {
    /// These pairs, whose memory it keeps: a name may come twice. No memory is taken.
    pub fn of(pairs: Vec<Pair>) -> Params
        ensures { result ≡ pairs.items }
    {
        Params { pairs }
    }

    /// The number of pairs.
    pub fn len(&self) -> usize
        ensures { result ≡ length self.now }
    {
        self.pairs.len()
    }

    /// Whether there are no pairs.
    pub fn is_empty(&self) -> bool
        ensures { result ≡ nat_eq (length self.now) 0 }
    {
        self.pairs.is_empty()
    }

    /// The pair at a place from 0: `None` exactly where there is none.
    pub fn get(&self, place: usize) -> Option<&Pair>
        ensures { option_copied result ≡ slice_get self.now place }
    {
        self.pairs.get(place)
    }

    /// The text of the pair with this name: `None` exactly where there is none. No memory is taken.
    pub fn find(&self, name: &[u8]) -> Option<&Text>
        ensures { option_copied result ≡ text_under self.now name.now }
    {
        text_of_name(&self.pairs, name)
    }
}

/// The text of the first pair with this name.
fn text_of_name<'a>(pairs: &'a [Pair], name: &[u8]) -> Option<&'a Text>
    ensures { option_copied result ≡ text_under pairs.now name.now }
{
    for pair in pairs {
        if pair.name.as_bytes() == name {
            return Some(&pair.text);
        }
    }
    None
}

/// The pairs of a form text, decoded, in order (URL Standard, section 5).
///
/// Pieces between `&` that are empty are skipped, and don't count as pairs; a piece without `=` is a name with an empty
/// text. The first cause in the order of `FormRefused` is answered, where there is one.
pub fn pairs(alloc: Global, bytes: &[u8]) -> Result<Params, FormRefused>
    ensures pairs { IfOk result (λ params. form_of bytes.now ≡ Some params) }
    ensures refused { IfErr result (λ e. (e ≡ FormRefused.NoMemory) ⊎ (form_cause bytes.now ≡ Some e)) }
{
    if bytes.len() > LONGEST_FORM {
        return Err(FormRefused::TooLong {
            n: bytes.len() as u64,
        });
    }
    let mut pairs = Vec::new(alloc);
    let mut names = BTreeSet::new(alloc);
    for (name, text) in raw_pairs(bytes) {
        if let Err(refused) = append(alloc, &mut pairs, &mut names, name, text) {
            return Err(refused);
        }
    }
    Ok(Params::of(pairs))
}

/// Appends a pair, decoded, and its name to the set of the names that came.
fn append(
    alloc: Global,
    pairs: &mut Vec<Pair>,
    names: &mut BTreeSet<String>,
    name: &[u8],
    text: &[u8],
) -> Result<(), FormRefused>
    requires { (q : List ℕ) → contains_text names.old q ≡ has_name pairs.old.items q }
    ensures pairs { OnOk result (pairs.new.items ≡ pairs.old.items ++ decoded (name.now, text.now) ∷ []) }
    ensures names { OnOk result ((q : List ℕ) → contains_text names.new q ≡ has_name pairs.new.items q) }
    ensures no_cause { OnOk result (cause_behind pairs.old.items (decoded (name.now, text.now)) ≡ None) }
    ensures refused { IfErr result (λ e. (e ≡ FormRefused.NoMemory)
        ⊎ (cause_behind pairs.old.items (decoded (name.now, text.now)) ≡ Some e)) }
{
    let at = (pairs.len() + 1) as u64;
    let Some(pair) = pair_of(alloc, name, text)? else {
        return Err(FormRefused::NotUtf8 { at });
    };
    if !add_name(alloc, names, &pair.name)? {
        return Err(FormRefused::Twice { at });
    }
    push(pairs, pair)?;
    Ok(())
}

/// A pair, decoded: `None` exactly where it isn't UTF-8.
fn pair_of(alloc: Global, name: &[u8], text: &[u8]) -> Result<Option<Pair>, NoMemory>
    ensures { IfOk result (λ p. p ≡ (let pair = decoded (name.now, text.now) in
        if is_utf8_pair pair then Some pair else None)) }
{
    let Some(name) = decoded_text(alloc, name)? else {
        return Ok(None);
    };
    let Some(text) = decoded_text(alloc, text)? else {
        return Ok(None);
    };
    Ok(Some(Pair { name, text }))
}

/// Adds a name, and answers whether it is new.
fn add_name(alloc: Global, names: &mut BTreeSet<String>, name: &Text) -> Result<bool, NoMemory>
    ensures new { IfOk result (λ new. new ≡ not (contains_text names.old name.now)) }
    ensures names { OnOk result ((q : List ℕ) → contains_text names.new q
        ≡ bytes_eq name.now q || contains_text names.old q) }
{
    let name = String::from_str(alloc, name.as_str())?;
    let new = names.insert(name)?;
    Ok(new)
}

/// Appends a pair.
fn push(pairs: &mut Vec<Pair>, pair: Pair) -> Result<(), NoMemory>
    ensures { OnOk result (pairs.new.items ≡ pairs.old.items ++ pair ∷ []) }
{
    pairs.push(pair)?;
    Ok(())
}

/// The text that encoded bytes stand for: `None` exactly where it isn't UTF-8.
fn decoded_text(alloc: Global, bytes: &[u8]) -> Result<Option<Text>, NoMemory>
    ensures { IfOk result (λ t. t ≡ (if is_utf8 (url.decode bytes.now) then Some (url.decode bytes.now) else None)) }
{
    let spaced = spaced(alloc, bytes)?;
    let mut decoded = Vec::new(alloc);
    percent_decode(&spaced).append_to(&mut decoded)?;
    match Text::of(alloc, &decoded) {
        Ok(text) => Ok(Some(text)),
        Err(TextRefused::NotUtf8) => Ok(None),
        Err(TextRefused::NoMemory) => Err(NoMemory),
    }
}

/// The bytes with a space for each `+`.
fn spaced(alloc: Global, bytes: &[u8]) -> Result<Vec<u8>, NoMemory>
    ensures { IfOk result (λ v. v.items ≡ map url.plus_to_space bytes.now) }
{
    let spaced = collect_spaced(alloc, bytes)?;
    Ok(spaced)
}

/// These bytes with a space for each `+`; the error is the allocator's own.
fn collect_spaced(alloc: Global, bytes: &[u8]) -> Result<Vec<u8>, AllocError>
    ensures { IfOk result (λ v. v.items ≡ map url.plus_to_space bytes.now) }
{
    bytes
        .iter()
        .map(|&b| if b == b'+' { b' ' } else { b })
        .collect(alloc)
}
