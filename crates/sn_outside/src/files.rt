//! Files by name, read and written whole.
ghost use Rattle.sn_outside.specs.Counts.{HasCause};
ghost use Rattle.sn_outside.specs.Told.{GainedFile, ToldRead, ToldWrite};
ghost use Rattle.sn_outside.specs.Appended.{Appends};
ghost use Rattle.sn_outside.specs.declared.fault.FileFault.TheVariants.{TooLong};
ghost use Rattle.sn_outside.specs.Views.{FilesView};
ghost use Rattle.std.specs.Prelude.{Bool, true, Err, OnOk, OnErr, ◌≡◌};

use crate::FileFault;
use sn_names::FileName;

/// What a call on files does.
#[derive(Clone, Copy, Debug, PartialEq, Eq)]
pub enum CallKind {
    Read,
    Write,
}

/// One call that was made on files: what it was to do, with which file, and what it answered.
#[derive(Debug, Drop)]
pub struct FileCall {
    pub kind: CallKind,
    pub name: FileName,
    pub answer: Result<(), FileFault>,
}

/// Files by name.
///
/// `state` is what contracts see. Its count of `faults` counts the calls that failed: a u64 that
/// never falls, and stands still at its greatest value. Where `tells` holds, its `contents` are the
/// files by name, and its `calls` the calls made so far, except those refused for want of memory.
pub trait Files {
    ghost tells: { Bool };

    ghost state: { Self → FilesView };

    /// Appends the file's bytes, at most `limit` of them, to `into`. No file changes.
    ///
    /// # Errors
    /// `Failed` where the system refuses or the file isn't there, only where the count of faults
    /// rose; `TooLong` where the file has more than `limit` bytes; want of memory. Then `into` is
    /// as before.
    fn read(&mut self, name: &FileName, limit: u64, into: &mut Vec<u8>) -> Result<(), FileFault>
        ensures cause { HasCause (state self.old) (state self.new) result }
        ensures appends { OnOk result (Appends into.old.items into.new.items limit) }
        ensures refused { OnErr result (into.new.items ≡ into.old.items) }
        ensures found { tells ≡ true → OnOk result (GainedFile (state self.old) name.now into.old.items into.new.items) }
        ensures told { tells ≡ true → ToldRead (state self.old) (state self.new) name.now limit result };

    /// Makes these bytes the file's content, and leaves all others as they are.
    ///
    /// # Errors
    /// `Failed` where the system refuses, only where the count of faults rose: the file then may
    /// hold anything. Want of memory leaves it as it was.
    fn write(&mut self, name: &FileName, bytes: &[u8]) -> Result<(), FileFault>
        ensures cause { HasCause (state self.old) (state self.new) result }
        ensures never_long { result ≡ Err TooLong → ⊥ }
        ensures told { tells ≡ true → ToldWrite (state self.old) (state self.new) name.now bytes.now result };
}
