// The name of the snapshot that comes.
ghost use Rattle.std.specs.Prelude.{◌≡◌, ◌≤◌, ◌==◌, drop, length, IfOk};
ghost use Rattle.std.specs.List.{position};
ghost use Rattle.zst_names.specs.Names.{component_of, dataset_of};
ghost use Rattle.zst_plan.specs.Places.{AnswerAlike};
ghost use Rattle.zst_plan.specs.RecvPlan.{behind_mark, component_for, snapshot_name, stated_component};

use crate::receive::RecvAsk;
use std::str;
use zst_model::{Header, PlanFault};
use zst_names::{DatasetName, SnapName, check_component};

// The place of the first `@`.
fn mark_at(name: &[u8]) -> Option<usize>
    ensures { result ≡ position (λ byte. byte == 64) name.now }
{
    name.iter().position(|byte| *byte == b'@')
}

// How many bytes of a name stand up to its first `@`, and with it.
fn behind_mark(name: &[u8]) -> usize
    ensures place { result ≡ behind_mark name.now }
    ensures inside { result ≤ length name.now }
    ensures component { drop result name.now ≡ component_of 64 name.now }
{
    mark_at(name).map_or(name.len(), |place| place + 1)
}

// What stands behind the first `@`.
fn component_in(name: &[u8]) -> &[u8]
    ensures { result.now ≡ component_of 64 name.now }
{
    &name[behind_mark(name)..]
}

// The name that the target's snapshot has under the stream's component: E2 where that is none.
fn stated_name(target: &DatasetName, name: &[u8]) -> Result<SnapName, PlanFault>
    ensures exact { AnswerAlike (λ found component. found ≡ snapshot_name target.now component) result (stated_component name.now) }
    ensures dataset { IfOk result (λ found. dataset_of 64 found ≡ target.now) }
{
    let component = component_in(name);
    if let Err(fault) = check_component(component) {
        return Err(PlanFault::BadName {
            place: behind_mark(name) as u64 + fault.place,
        });
    }
    match str::from_utf8(component) {
        Ok(component) => Ok(SnapName::of(target, component)),
        // A component is ASCII.
        Err(_) => unreachable!(),
    }
}

/// The name of the snapshot that comes, by the asked component or by the stream's: E2.
pub fn find_name(ask: &RecvAsk, header: &Header) -> Result<SnapName, PlanFault>
    ensures exact { AnswerAlike (λ found component. found ≡ snapshot_name ask.now.target component) result (component_for ask.now header.now) }
    ensures dataset { IfOk result (λ found. dataset_of 64 found ≡ ask.now.target) }
{
    match &ask.snap {
        Some(snapshot) => Ok(SnapName::of(&ask.target, snapshot.component())),
        None => stated_name(&ask.target, header.name.as_bytes()),
    }
}
