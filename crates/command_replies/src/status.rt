//! The exit statuses of the program: what a call comes to, as a number from 0 to 9.
//! A status is a plain value, which is copied.

/// The exit status of the program.
#[derive(Clone, Copy, PartialEq, Eq)]
pub enum Status {
    /// The command did its work: a certificate is valid or was migrated, a protocol was shown, successors were listed, or a search found a
    /// proof.
    Done = 0,
    /// A search found a run that it looks for: a bad one, or one into a deadlock.
    Unsafe = 1,
    /// A search counted as many states as its budget.
    Unknown = 2,
    /// The words mean no command.
    Usage = 3,
    /// A read failed, or a text is longer than its limit.
    ReadFault = 4,
    /// The text of a protocol has a fault.
    ProtocolRefused = 5,
    /// The text of a certificate, of a configuration or of properties has a fault.
    CertificateRefused = 6,
    /// A certificate is not valid.
    NotValid = 7,
    /// Standard output or standard error did not take its text.
    WriteFault = 8,
    /// There was no memory.
    Memory = 9,
}
