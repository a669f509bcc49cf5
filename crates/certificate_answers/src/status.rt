//! How a run ends.

/// How a run ended.
#[derive(Clone, Copy, Debug, PartialEq, Eq)]
pub enum Status {
    /// The command was carried out; of `check`, the certificate is accepted.
    Done,
    /// `check` doesn't accept the certificate.
    No,
    /// The words are no command.
    Usage,
    /// A file breaks its format or a limit.
    Refused,
    /// No permitted portfolio meets the needs.
    Infeasible,
    /// There is no rival: each permitted portfolio that meets the needs is worth more than it costs one unit of yield below
    /// the limit. One whose yield lies in the last unit up to the limit may be there.
    NoneWithinYield,
    /// The search spent its budget.
    BudgetSpent,
    /// A read failed.
    ReadFault,
    /// A write failed.
    WriteFault,
    /// A file isn't there.
    NoFile,
    /// Memory ran out.
    NoMemory,
}

impl Status {
    ghost use Rattle.std.specs.Prelude.{◌≡◌};
    ghost use Rattle.certificate_answers.specs.Statuses.{code_of};

    /// The exit status of the program. It takes no memory.
    pub fn code(&self) -> u8
        ensures { result ≡ code_of self.now }
    {
        match self {
            Status::Done => 0,
            Status::No => 1,
            Status::Usage => 2,
            Status::Refused => 3,
            Status::Infeasible => 4,
            Status::NoneWithinYield => 5,
            Status::BudgetSpent => 6,
            Status::ReadFault => 8,
            Status::WriteFault => 9,
            Status::NoFile => 10,
            Status::NoMemory => 11,
        }
    }
}
