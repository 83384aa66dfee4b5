//! A config, read from a source to its end.
ghost use Rattle.std.specs.Prelude.{◌≡◌, ◌⊎◌, [], true, IfOk, IsErrOf};
ghost use Rattle.ls_outside.specs.Causes.{Rose, RoseBy};
ghost use Rattle.ls_config.specs.Items.{are_items};
ghost use Rattle.ls_serve.specs.Reading.{TakesIn, SaysConfig, ReadsConfig};

use crate::serving::ServeEnd;
use ls_config::{Config, ConfigRefused, read};
use ls_outside::{Got, Source};
use std::alloc::Global;
use std::sync::Wait;

/// How many bytes of a config are read at once, at most.
const PIECE: usize = 8192;

/// How often in a row a read may find no byte yet. The last of these reads counts as a fault.
const MAX_IDLES: u32 = 3000;

/// What became of the bytes that were to be read.
#[derive(Clone, Copy, Debug, PartialEq, Eq)]
pub(crate) enum Input {
    /// All of them were read.
    Whole,

    /// A read failed, or too many in a row found no byte yet.
    Fault,

    /// Memory was refused.
    NoMemory,
}

/// Reads a source to its end.
fn take_in<R: Wait, S: Source>(rt: &R, source: &mut S, bytes: &mut Vec<u8>) -> Input
    requires { bytes.old.items ≡ [] }
    ensures takes { TakesIn result (S.unread source.old) (S.unread source.new) bytes.new.items }
    ensures fault { result ≡ Input.Fault → Rose (S.faults source.old) (S.faults source.new)
        ⊎ RoseBy 3000 (S.waits source.old) (S.waits source.new) }
    ensures well { result ≡ Input.Whole → S.faults source.new ≡ S.faults source.old }
{
    let mut piece = [0u8; PIECE];
    let mut idles = 0u32;
    for _ in rt.forever() {
        match source.read(&mut piece) {
            Got::Bytes(count) => {
                idles = 0;
                if bytes.extend_from_slice(&piece[..count]).is_err() {
                    return Input::NoMemory;
                }
            }
            Got::End => return Input::Whole,
            Got::NotYet => {
                idles += 1;
                if idles >= MAX_IDLES {
                    return Input::Fault;
                }
            }
            Got::Failed => return Input::Fault,
        }
    }
    unreachable!()
}

/// The config that bytes say, or the end of the server for which there is none.
fn config_in(alloc: Global, bytes: &[u8]) -> Result<Config, ServeEnd>
    ensures says { SaysConfig result bytes.now }
    ensures items { IfOk result (λ c. are_items c.items ≡ true) }
{
    match read(alloc, bytes) {
        Ok(config) => Ok(config),
        Err(ConfigRefused::BadConfig { line }) => Err(ServeEnd::BadConfig { line }),
        Err(ConfigRefused::NoMemory) => Err(ServeEnd::NoMemory),
    }
}

/// Reads a config from a source to its end.
pub(crate) fn read_config<R: Wait, S: Source>(
    rt: &R,
    alloc: Global,
    source: &mut S,
) -> Result<Config, ServeEnd>
    ensures reads { ReadsConfig result (S.unread source.old) (S.unread source.new) }
    ensures items { IfOk result (λ c. are_items c.items ≡ true) }
    ensures fault { IsErrOf result ServeEnd.ReadFault → Rose (S.faults source.old) (S.faults source.new)
        ⊎ RoseBy 3000 (S.waits source.old) (S.waits source.new) }
    ensures well { IfOk result (λ _. S.faults source.new ≡ S.faults source.old) }
{
    let mut bytes = Vec::new(alloc);
    match take_in(rt, source, &mut bytes) {
        Input::Whole => config_in(alloc, &bytes),
        Input::Fault => Err(ServeEnd::ReadFault),
        Input::NoMemory => Err(ServeEnd::NoMemory),
    }
}
