// What a token asks to be sent.
ghost use Rattle.std.specs.List.{position};
ghost use Rattle.std.specs.Prelude.{◌≡◌, ◌==◌, IfOk, Some};
ghost use Rattle.zst_plan.specs.Plans.{AnswersPlan};
ghost use Rattle.zst_send.specs.Openings.{rest_of};

use zst_dir::Dir;
use zst_model::{Lack, PlanFault};
use zst_plan::{SendPlan, resume_plan};
use zst_token::Token;

/// What a token asks for, by the rows. Large blocks aren't supported, so that nothing is looked up then.
pub fn rest_plan(dir: &Dir, token: &Token) -> Result<SendPlan, PlanFault>
    ensures plans { AnswersPlan dir.now (rest_of token.now) result }
    ensures to { IfOk result (λ plan. position (λ snapshot. snapshot.guid == token.now.to) dir.now.snapshots ≡ Some plan.snap) }
{
    if token.large {
        return Err(PlanFault::Unsupported(Lack::LargeBlocks));
    }
    resume_plan(dir, token)
}
