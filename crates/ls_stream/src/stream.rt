//! What is kept of a session's newest stream.
ghost use Rattle.std.specs.Prelude.{◌≡◌, ◌+◌, ◌-◌, List, false, option_map};
ghost use Rattle.ls_record.specs.Records.{is_to_loop};
ghost use Rattle.ls_record.specs.Records.{Stream as WorldStream};
ghost use Rattle.ls_stream.specs.Standing.{StandsStream};

/// A stream: its epoch, how many bytes may still be given on it before its content length is reached, if it has one,
/// and whether it is forced to be over.
#[derive(Clone, Copy, Debug, PartialEq, Eq)]
pub struct Stream {
    pub(crate) epoch: u64,
    pub(crate) left: Option<u64>,
    pub(crate) forced: bool,
}

impl Stream {
    /// One on which nothing was given yet, by its content length.
    pub(crate) fn new(epoch: u64, content: Option<u64>) -> Stream
        ensures { result ≡ record { epoch = epoch; left = content; forced = false } }
    {
        Stream {
            epoch,
            left: content,
            forced: false,
        }
    }

    /// A line of so many bytes was given on it, and its CR LF.
    pub(crate) fn count(&mut self, bytes: usize)
        ensures { self.new ≡ record self.old { left = option_map (λ most. most - (bytes + 2)) self.old.left } }
    {
        if let Some(left) = self.left {
            self.left = Some(left.saturating_sub(bytes as u64).saturating_sub(2));
        }
    }

    /// Whether it is over: it is forced to be, or its content length is reached.
    pub(crate) fn is_over(&self) -> bool
        ensures { (streams : List WorldStream) → StandsStream self.now streams → result ≡ is_to_loop streams }
    {
        self.forced || self.left == Some(0)
    }
}
