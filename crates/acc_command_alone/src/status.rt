//! How a command ended.
ghost use Rattle.std.specs.Prelude.{◌≡◌};
ghost use Rattle.acc_command_alone.specs.Ends.{code_of};

/// The status of a command, which the program gives as its exit code.
#[derive(Clone, Copy, Debug, PartialEq, Eq)]
pub enum Status {
    /// The command did its work, and its whole text is written.
    Done = 0,
    /// A line of the report that was judged breaks a rule. The whole text is written.
    No = 1,
    /// The words are no line that is defined.
    Usage = 2,
    /// The source failed. Nothing is written.
    ReadFault = 3,
    /// The sink failed. A part of the text that was due is written, which may be none of it.
    WriteFault = 4,
    /// The document breaks a rule.
    BadInput = 5,
    /// A limit was met.
    Limit = 6,
    /// There was no memory. A part of the text that was due is written, which may be none of it.
    OutOfMemory = 7,
}

impl Status {
    /// The exit code.
    pub fn code(self) -> u8
        ensures { result ≡ code_of self }
    {
        self as u8
    }
}
