//! Where a key stands among keys in the order of their bytes.
ghost use Rattle.std.specs.Prelude.{◌≡◌, ◌≤◌, IfOk, IfErr, length};
ghost use Rattle.ls_event.specs.Keyed.{is_before};
ghost use Rattle.ls_item.specs.Keys.{IsOrdered, IsAt, IsGap, index_in, has_key};

use ls_event::KeyedRow;
use ls_value::same_bytes;

/// Where a key stands, or, if it isn't there, where it would stand.
pub fn find(rows: &[KeyedRow], key: &[u8]) -> Result<usize, usize>
    requires { IsOrdered rows.now }
    ensures found { IfOk result (IsAt key.now rows.now) }
    ensures absent { IfErr result (IsGap key.now rows.now) }
{
    let at = index_of(rows, key);
    match rows.get(at) {
        Some(row) => {
            if same_bytes(row.key.as_bytes(), key) {
                Ok(at)
            } else {
                Err(at)
            }
        }
        None => Err(at),
    }
}

/// The number of keys before this one.
fn index_of(rows: &[KeyedRow], key: &[u8]) -> usize
    requires { IsOrdered rows.now }
    ensures index { result ≡ index_in key.now rows.now }
    ensures within { result ≤ length rows.now }
{
    rows.partition_point(|row| is_before(row.key.as_bytes(), key))
}

/// Whether a text stands before another in the order of their bytes.
#[tactic(auto, using(crate::proofs::Places::before_at_end))]
fn is_before(a: &[u8], b: &[u8]) -> bool
    ensures { result ≡ is_before a.now b.now }
{
    for i in 0..b.len() {
        if i >= a.len() {
            return true;
        }
        if a[i] != b[i] {
            return a[i] < b[i];
        }
    }
    false
}
