//! Sessions by their numbers.
ghost use Rattle.std.specs.Prelude.{◌≡◌, ◌<◌, IfOk, IfSome, OnErr, MatchOption, Some, length, slice_get};
ghost use mathlib.Core.List.{IsPrefix};
ghost use Rattle.ls_told.specs.Seen.{Testified};
ghost use Rattle.ls_conn.specs.Acting.{Finds, IsUnknown, SeenGrow, known};

use ls_register::{House, View};
use ls_shared::{Shared, Testimony};
use ls_value::NoMemory;
use std::sync::Wait;

/// The place of what was seen of a session, if something was.
fn place_of<N: House>(tokens: &[Testimony<N>], session: u64) -> Option<usize>
    ensures within { IfSome result (λ k. k < length tokens.now) }
    ensures found { IfSome result (λ k. (t : Testified) × (slice_get tokens.now k ≡ Some t) × (t.number ≡ session)) }
{
    for k in 0..tokens.len() {
        if tokens[k].session() == session {
            return Some(k);
        }
    }
    None
}

/// The place of what was seen of a session. Where nothing was, and the session lives by the register, it is added at
/// the end; `None` says that it doesn't live.
pub(crate) fn find<N: House, R: Wait>(
    rt: &R,
    shared: &Shared<N>,
    session: u64,
    view: &mut View<N>,
    tokens: &mut Vec<Testimony<N>>,
) -> Result<Option<usize>, NoMemory>
    ensures register { IsPrefix view.old view.new }
    ensures within { IfOk result (λ found. IfSome found (λ k. k < length tokens.new.items)) }
    ensures found { IfOk result (λ found. MatchOption found
        (IsUnknown session (known view.old tokens.old.items) (known view.new tokens.new.items))
        (λ k. (t : Testified) × Finds session (known view.old tokens.old.items) (known view.new tokens.new.items) k t)) }
    ensures seen { SeenGrow tokens.old.items tokens.new.items }
    ensures named { IfOk result (λ found. IfSome found (λ k. (t : Testified) → slice_get tokens.new.items k ≡ Some t
        → t.number ≡ session)) }
    ensures err { OnErr result (tokens.new.items ≡ tokens.old.items) }
{
    if let Some(place) = place_of(tokens, session) {
        return Ok(Some(place));
    }
    tokens.reserve(1)?;
    match shared.testify(rt, session, view) {
        Ok(Some(token)) => {
            tokens.push_reserved(token);
            Ok(Some(tokens.len() - 1))
        }
        Ok(None) => Ok(None),
        Err(NoMemory) => Err(NoMemory),
    }
}
