ghost use Rattle.std.specs.Prelude.{◌≡◌};
ghost use Rattle.zst_recv.specs.Faults.{of_record};

use zst_model::{ApplyFault, Refusal, StreamFault};
use zst_objset::ObjFault;
use zst_pool::PoolFault;

/// Why a receive isn't fed.
#[derive(Debug, Drop)]
pub enum RecvFault {
    /// What the plan found (E2 to E15, E19, E23), or the pool (E24, E25, E28, E31, E32).
    Pool(PoolFault),
    /// What the reading of the stream found (E17 to E19), or that it was cut (E20).
    Stream(StreamFault),
    /// E21: the record that can't be applied, counted from 0 at BEGIN, and why.
    CannotApply { record: u64, fault: ApplyFault },
}

impl From<PoolFault> for RecvFault {
    ghost use Rattle.std.specs.Prelude.{◌≡◌};
    ghost use Rattle.zst_recv.specs.declared.fault.RecvFault.TheVariants.{Pool};

    ghost from_gives = { λ pool fault. fault ≡ Pool pool };

    fn from(fault: PoolFault) -> Self {
        RecvFault::Pool(fault)
    }
}

impl From<StreamFault> for RecvFault {
    ghost use Rattle.std.specs.Prelude.{◌≡◌};
    ghost use Rattle.zst_recv.specs.declared.fault.RecvFault.TheVariants.{Stream};

    ghost from_gives = { λ stream fault. fault ≡ Stream stream };

    fn from(fault: StreamFault) -> Self {
        RecvFault::Stream(fault)
    }
}

impl From<RecvFault> for Refusal {
    ghost use Rattle.std.specs.Prelude.{◌≡◌};
    ghost use Rattle.zst_recv.specs.Faults.{recv_refusal};

    ghost from_gives = { λ fault refusal. refusal ≡ recv_refusal fault };

    fn from(fault: RecvFault) -> Self {
        match fault {
            RecvFault::Pool(fault) => Refusal::from(fault),
            RecvFault::Stream(fault) => Refusal::Stream(fault),
            RecvFault::CannotApply { record, fault } => Refusal::CannotApply { record, fault },
        }
    }
}

/// What applying the record with this index answers, as a receive's answer.
pub(crate) fn of_record(index: u64, fault: ObjFault) -> RecvFault
    ensures { result ≡ of_record index fault }
{
    match fault {
        ObjFault::CannotApply(fault) => RecvFault::CannotApply {
            record: index,
            fault,
        },
        fault => RecvFault::Pool(PoolFault::from(fault)),
    }
}
