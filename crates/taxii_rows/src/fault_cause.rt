ghost use Rattle.std.specs.Prelude.{◌≡◌};
ghost use Rattle.taxii_rows.specs.Causes.{cause_text};

/// Why a keeper failed, as far as it knows.
#[derive(Clone, Copy, Debug, PartialEq, Eq)]
pub enum FaultCause {
    /// Unknown, or no call has failed.
    NotKnown,
    /// Not attached, or closed by an earlier failure.
    Closed,
    /// Another process holds the file.
    Locked,
    /// The file's directory does not exist.
    NoFolder,
    /// The path is a directory, a link or a device.
    NoFile,
    /// The process lacks the permission to read and write the file, or to create it.
    Denied,
    /// The file system is read-only.
    ReadOnly,
    /// Another program left a rollback journal, which only that program can replay.
    Journal,
    /// The system cannot open the file.
    NotOpened,
    /// The file is not a database, or its rows violate its own constraints.
    NoDatabase,
    /// A page of the file is corrupt.
    Damaged,
    /// The database has tables other than those of a store.
    OtherLayout,
    /// A later version of this program created the store.
    LaterLayout,
    /// The tables contain values that no store writes.
    Unsound,
    /// The disk is full.
    Full,
    /// The disk reported an error.
    Disk,
}

impl FaultCause {
    /// The cause as a clause whose subject is the store, for error messages.
    pub fn text(self) -> &'static str
        ensures { result.now ≡ cause_text self }
    {
        match self {
            FaultCause::NotKnown => "no cause is known",
            FaultCause::Closed => "an earlier failure closed it",
            FaultCause::Locked => "another process has it",
            FaultCause::NoFolder => "its folder isn't there",
            FaultCause::NoFile => "it is no file",
            FaultCause::Denied => "no right to read and write it",
            FaultCause::ReadOnly => "its file system is read-only",
            FaultCause::Journal => "another program left a journal beside it",
            FaultCause::NotOpened => "it can't be opened",
            FaultCause::NoDatabase => "it is no database",
            FaultCause::Damaged => "it is damaged",
            FaultCause::OtherLayout => "it is a database of another form",
            FaultCause::LaterLayout => "a later version made it",
            FaultCause::Unsound => "it holds what no store writes",
            FaultCause::Full => "its disk is full",
            FaultCause::Disk => "its disk failed",
        }
    }
}
