// Why a test ends early.
use std::alloc::AllocError;
use zst_image::{CommitFault, CreateFault, OpenFault};
use zst_line::LineFault;
use zst_model::{PlanFault, Refusal};
use zst_pool::PoolFault;
use zst_recv::RecvFault;

// What a test, or a part of one, was refused for.
#[derive(Debug, Drop, PartialEq, Eq)]
pub(crate) struct TestRefusal(pub(crate) Refusal);

impl From<AllocError> for TestRefusal {
    fn from(_: AllocError) -> Self {
        TestRefusal(Refusal::OutOfMemory)
    }
}

impl From<LineFault> for TestRefusal {
    fn from(fault: LineFault) -> Self {
        TestRefusal(Refusal::from(fault))
    }
}

impl From<PlanFault> for TestRefusal {
    fn from(fault: PlanFault) -> Self {
        TestRefusal(Refusal::from(fault))
    }
}

impl From<OpenFault> for TestRefusal {
    fn from(fault: OpenFault) -> Self {
        TestRefusal(Refusal::from(fault))
    }
}

impl From<CreateFault> for TestRefusal {
    fn from(fault: CreateFault) -> Self {
        TestRefusal(Refusal::from(fault))
    }
}

impl From<CommitFault> for TestRefusal {
    fn from(fault: CommitFault) -> Self {
        TestRefusal(Refusal::from(fault))
    }
}

impl From<PoolFault> for TestRefusal {
    fn from(fault: PoolFault) -> Self {
        TestRefusal(Refusal::from(fault))
    }
}

impl From<RecvFault> for TestRefusal {
    fn from(fault: RecvFault) -> Self {
        TestRefusal(Refusal::from(fault))
    }
}
