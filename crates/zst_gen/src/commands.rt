// The commands, each by its number.
ghost use Rattle.std.specs.Prelude.{◌≡◌, ◌+◌, ◌*◌, ◌≤◌, ◌<◌, suc, length, IfOk, IfSome};
ghost use Rattle.std.specs.List.{slice_get};
ghost use Rattle.zst_gen.specs.Generated.{fs_name, generated, nth_command, nth_of_object, object_command, write_command};
ghost use Rattle.zst_model.specs.pools.Step.{IsCommand};

use crate::blocks::{BLOCK, block};
use crate::laws::commands_are_counted;
use std::alloc::{AllocError, Global};
use zst_bytes::push_word;
use zst_model::{Bytes, Command, ObjectHead};
use zst_names::{DatasetName, SnapName};

/// The type of the contents of a file (DMU_OT_PLAIN_FILE_CONTENTS of dmu.h).
const FILE_CONTENTS: u32 = 19;

/// How many commands make an object: one for itself, and one for each of its blocks that is written.
const OBJECT_COMMANDS: u64 = 225;

/// The name of the file system for so many objects.
fn file_system(alloc: Global, steps: u64) -> Result<DatasetName, AllocError>
    requires { (1 ≤ steps) × (steps ≤ 64) }
    ensures { IfOk result (λ name. name ≡ fs_name steps) }
{
    let text = format!(in alloc; "gen/f{steps}")?;
    Ok(DatasetName::parse(text.as_str()).unwrap())
}

/// The command that makes an object, whose bonus is its number.
fn object_command(alloc: Global, steps: u64, object: u64) -> Result<Command, AllocError>
    requires { (1 ≤ steps) × (steps ≤ 64) }
    ensures { IfOk result (λ command. command ≡ object_command steps object) }
{
    let dataset = file_system(alloc, steps)?;
    let mut bonus = Vec::new(alloc);
    push_word(&mut bonus, object)?;
    Ok(Command::Object {
        dataset,
        object,
        head: ObjectHead {
            type_: FILE_CONTENTS,
            bonus_type: 0,
            block_size: BLOCK as u32,
        },
        bonus: Bytes::new(bonus),
        spill: None,
    })
}

/// The command that writes a block of an object.
fn write_command(alloc: Global, steps: u64, object: u64, index: u64) -> Result<Command, AllocError>
    requires steps { (1 ≤ steps) × (steps ≤ 64) }
    requires object { object ≤ 64 }
    requires index { index < 256 }
    ensures { IfOk result (λ command. command ≡ write_command steps object index) }
{
    let dataset = file_system(alloc, steps)?;
    let bytes = block(alloc, object, index)?;
    Ok(Command::Write {
        dataset,
        object,
        index,
        bytes,
    })
}

/// The command with this number of those of an object: of each eight blocks it writes the first seven.
fn of_object(alloc: Global, steps: u64, object: u64, number: u64) -> Result<Command, AllocError>
    requires steps { (1 ≤ steps) × (steps ≤ 64) }
    requires object { object ≤ 64 }
    requires number { number < OBJECT_COMMANDS }
    ensures { IfOk result (λ command. command ≡ nth_of_object steps object number) }
{
    if number == 0 {
        return object_command(alloc, steps, object);
    }
    let write = number - 1;
    write_command(alloc, steps, object, write / 7 * 8 + write % 7)
}

/// The command with this number of those behind the first, which makes the file system.
fn behind_first(alloc: Global, steps: u64, number: u64) -> Result<Option<Command>, AllocError>
    requires { (1 ≤ steps) × (steps ≤ 64) }
    ensures { IfOk result (λ command. command ≡ nth_command steps (suc number)) }
{
    let last = OBJECT_COMMANDS * steps;
    if number < last {
        let object = 1 + number / OBJECT_COMMANDS;
        let command = of_object(alloc, steps, object, number % OBJECT_COMMANDS)?;
        return Ok(Some(command));
    }
    if number == last {
        let dataset = file_system(alloc, steps)?;
        let name = SnapName::of(&dataset, "g");
        return Ok(Some(Command::Snapshot { name }));
    }
    Ok(None)
}

/// How many commands make `steps` objects: two besides those of the objects.
pub fn command_count(steps: u64) -> u64
    requires { steps ≤ 64 }
    ensures { result ≡ length (generated steps) }
{
    OBJECT_COMMANDS * steps + 2
}

/// The command with this number of those that make `steps` objects, counted from 0; none past the last.
///
/// First comes a file system, then for each object itself and the 224 of its 255 blocks that are written, and last a
/// snapshot.
pub fn command(alloc: Global, steps: u64, number: u64) -> Result<Option<Command>, AllocError>
    requires { (1 ≤ steps) × (steps ≤ 64) }
    ensures command { IfOk result (λ command. command ≡ slice_get (generated steps) number) }
    ensures in_range { IfOk result (λ command. IfSome command IsCommand) }
{
    commands_are_counted();
    if number == 0 {
        let dataset = file_system(alloc, steps)?;
        return Ok(Some(Command::Fs { dataset }));
    }
    behind_first(alloc, steps, number - 1)
}
