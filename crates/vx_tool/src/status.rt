//! How a run ends.
ghost use Rattle.std.specs.Prelude.{◌≡◌};
ghost use Rattle.vx_tool.specs.Status.{code_of, name_of};

/// How a run of the program ended.
#[derive(Clone, Copy, Debug, PartialEq, Eq, Drop)]
pub enum Status {
    /// The page was written whole.
    Ok,
    /// The plan was refused, and the refusal was written whole.
    Refused,
    /// The words ask for nothing that the program does. Nothing was read or written.
    Usage,
    /// The bytes are no job. Nothing was written.
    NotAJob,
    /// A read failed. Nothing was written.
    ReadFault,
    /// A write failed. The front of the text may have been written.
    WriteFault,
    /// There was no memory left. The front of the text may have been written.
    OutOfMemory,
    /// There were more bytes than a job may have. Nothing was written.
    TooLong,
}

impl Status {
    /// The number that the process ends with.
    pub fn code(self) -> u8
        ensures { result ≡ code_of self }
    {
        self as u8
    }

    /// A short name in words.
    pub fn name(self) -> &'static str
        ensures { result.now ≡ name_of self }
    {
        match self {
            Status::Ok => "ok",
            Status::Refused => "refused",
            Status::Usage => "usage: vxcol [run]",
            Status::NotAJob => "not a job",
            Status::ReadFault => "a read failed",
            Status::WriteFault => "a write failed",
            Status::OutOfMemory => "out of memory",
            Status::TooLong => "too long",
        }
    }
}
