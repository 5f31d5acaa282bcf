//! A sink that takes text.
ghost use Rattle.sn_outside.specs.Counts.{SinkHasCause};
ghost use Rattle.sn_outside.specs.Told.{ToldTaken};
ghost use Rattle.sn_outside.specs.Views.{SinkView};
ghost use Rattle.std.specs.Prelude.{Bool, true, IfOk, length, ◌≡◌, ◌<◌, ◌≤◌};

use crate::SinkFault;

/// A sink that takes bytes, some at a time.
///
/// `state` is what contracts see. Its count of `faults` counts the calls that failed: a u64 that
/// never falls, and stands still at its greatest value. Where `tells` holds, its `taken` are all
/// bytes taken so far.
pub trait Sink {
    ghost tells: { Bool };

    ghost state: { Self → SinkView };

    /// Takes at least one and at most all of the bytes, from the front, and answers how many.
    ///
    /// # Errors
    /// `Failed` where nothing was taken, only where the count of faults rose.
    fn write(&mut self, bytes: &[u8]) -> Result<usize, SinkFault>
        requires { 0 < length bytes.now }
        ensures cause { SinkHasCause (state self.old) (state self.new) result }
        ensures some { IfOk result (λ n. 0 < n) }
        ensures within { IfOk result (λ n. n ≤ length bytes.now) }
        ensures told { tells ≡ true → ToldTaken (state self.old) (state self.new) bytes.now result };
}
