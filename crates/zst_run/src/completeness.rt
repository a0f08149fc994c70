// Runs that nothing stands in the way of.
ghost use Rattle.zst_run.specs.Completeness.{ChecksComplete, CreatesComplete, DoneIsTold, DumpsComplete, ReceivesComplete, RestTransfersComplete, SendsComplete, StepsComplete, TokensComplete, TransfersComplete};

use zst_check::no_report_is_both;
use zst_outside::Disk;
use zst_replication::{rest_can_be_sent, rest_is_accepted, sent_can_be_sent, sent_is_accepted};
use zst_stream::{fronts_agree, view_is_read};

/// What is done is told by the status with which it ends, which is 0 but for a check, and want of memory by 10.
pub fn done_is_told()
    ensures { DoneIsTold }
{}

/// A command that its pool accepts is done where there is room and no fault is counted, or ends for want of memory.
pub fn steps_complete<D: Disk>()
    ensures { (here now : D) → StepsComplete (D.state here) (D.state now) }
{}

/// So is a send whose plan passes.
pub fn sends_complete<D: Disk>()
    ensures { (here now : D) → SendsComplete (D.state here) (D.state now) }
{}

/// So is a receive of a text that its pool takes.
pub fn receives_complete<D: Disk>()
    ensures { (here now : D) → ReceivesComplete (D.state here) (D.state now) }
{}

/// So are both runs of a snapshot that one sends and the other receives, where their plans pass: nothing in a send is refused.
pub fn transfers_complete<D: Disk, E: Disk>()
    ensures { (here now : D) (there later : E) → TransfersComplete (D.state here) (D.state now) (E.state there) (E.state later) }
{
    sent_can_be_sent();
    sent_is_accepted();
    view_is_read();
}

/// So are both runs of the rest of it, which the token asks for that the receiver's image tells.
pub fn rest_transfers_complete<D: Disk, E: Disk>()
    ensures { (here now : D) (there later : E) → RestTransfersComplete (D.state here) (D.state now) (E.state there) (E.state later) }
{
    rest_can_be_sent();
    rest_is_accepted();
    view_is_read();
}

/// So is the making of a pool where none is.
pub fn creates_complete<D: Disk>()
    ensures { (here now : D) → CreatesComplete (D.state here) (D.state now) }
{}

/// So is the telling of a token that a pool has.
pub fn tokens_complete<D: Disk>()
    ensures { (here now : D) → TokensComplete (D.state here) (D.state now) }
{}

/// So is the check of a pool, which ends with status 0 exactly where that is sound.
pub fn checks_complete<D: Disk>()
    ensures { (here now : D) → ChecksComplete (D.state here) (D.state now) }
{
    no_report_is_both();
}

/// So is the dump of a text that is read to END.
pub fn dumps_complete()
    ensures { DumpsComplete }
{
    fronts_agree();
}
