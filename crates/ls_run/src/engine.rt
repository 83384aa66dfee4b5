//! The engine: one line of a script at a time.
ghost use Rattle.std.specs.Prelude.{◌≡◌, IfOk, OnOk, IsErrOf};
ghost use Rattle.ls_world.specs.World.{World, empty};
ghost use Rattle.ls_world.specs.Script.{step};
ghost use Rattle.ls_run.specs.Engine.{StandsEngine, Steps, IsBad};

use ls_hub::Hub;
use ls_script::{Repeat, Script, ScriptRefused};
use ls_value::NoMemory;
use std::alloc::Global;

/// Why a line isn't done.
#[derive(Clone, Copy, Debug, PartialEq, Eq)]
pub enum LineRefused {
    /// It is outside the grammar of scripts, or names something that isn't declared.
    BadLine,

    /// Memory was refused.
    NoMemory,
}

impl From<ScriptRefused> for LineRefused {
    ghost use Rattle.std.specs.Prelude.{◌≡◌};
    ghost use Rattle.ls_run.specs.Engine.{script_cause};

    ghost from_gives = { λ s e. e ≡ script_cause s };

    fn from(cause: ScriptRefused) -> LineRefused {
        match cause {
            ScriptRefused::BadLine => LineRefused::BadLine,
            ScriptRefused::NoMemory => LineRefused::NoMemory,
        }
    }
}

impl From<NoMemory> for LineRefused {
    ghost use Rattle.std.specs.Prelude.{◌≡◌};
    ghost use Rattle.ls_run.specs.declared.engine.LineRefused.TheVariants as refused;

    ghost from_gives = { λ _ e. e ≡ refused.NoMemory };

    fn from(_: NoMemory) -> LineRefused {
        LineRefused::NoMemory
    }
}

/// What the lines so far made: their number, what they declared, and the hub.
#[derive(Drop)]
pub struct Engine {
    line: u64,
    script: Script,
    hub: Hub,
}

impl Engine {
    /// Before any line.
    pub fn new(alloc: Global) -> Result<Engine, NoMemory>
        ensures { IfOk result (λ e. StandsEngine e empty) }
    {
        Ok(Engine {
            line: 0,
            script: Script::new(alloc)?,
            hub: Hub::new(alloc)?,
        })
    }

    /// The number of the last line that came, from 1; 0 before any.
    pub fn number(&self) -> u64
        ensures { result ≡ self.now.line }
    {
        self.line
    }

    /// Does a line of the script, and appends what it prints. After an error nothing is known of the text, and of the
    /// engine no more than the number of a bad line. A script of 2^64 - 1 lines ends as want of memory.
    pub fn line(&mut self, line: &[u8], text: &mut Vec<u8>) -> Result<(), LineRefused>
        ensures ok { OnOk result ((w : World) → StandsEngine self.old w
            → Steps (step w line.now) text.old.items text.new.items self.new) }
        ensures bad { IsErrOf result LineRefused.BadLine
            → (w : World) → StandsEngine self.old w → IsBad w line.now self.new }
    {
        if self.line == u64::MAX {
            return Err(LineRefused::NoMemory);
        }
        self.line += 1;
        match self.script.read(line)? {
            None => Ok(()),
            Some(Repeat { step, times }) => {
                self.hub.step(self.line, step, times, text)?;
                Ok(())
            }
        }
    }
}
