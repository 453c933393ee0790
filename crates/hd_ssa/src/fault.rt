use hd_dbd::Status;

/// Why the segment search arguments of a call mean nothing: the status that the call answers, AJ, AC or AK. `Memory` says nothing of
/// them.
#[derive(Clone, Copy, Debug, Drop, PartialEq, Eq)]
pub enum SsaFault {
    Status(Status),
    Memory,
}

impl From<Status> for SsaFault {
    ghost use Rattle.std.specs.Prelude.{◌≡◌};
    ghost use Rattle.hd_ssa.specs.declared.fault.SsaFault.TheVariants as fault;

    ghost from_gives = { λ s e. e ≡ fault.Status s };

    fn from(status: Status) -> SsaFault {
        SsaFault::Status(status)
    }
}
