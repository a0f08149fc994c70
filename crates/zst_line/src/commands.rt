//! What the words of each line on a pool say that fit their places.
ghost use Rattle.std.specs.Prelude.{◌∷◌, map, codes, string_bytes, IfOk};
ghost use Rattle.std.specs.List.{AllZip};
ghost use Rattle.zst_line.specs.Grammar.{front};
ghost use Rattle.zst_line.specs.WordFaults.{Takes};
ghost use Rattle.zst_line.specs.Line.{LineIs};

use crate::kind::Kind;
use crate::line::Line;
use crate::word_values::{bonus, bookmark, bytes, dataset, name, number, snapshot, spill, text};
use std::alloc::{AllocError, Global};
use zst_model::{Command, ObjectHead};

pub fn create(alloc: Global, words: &[String]) -> Result<Line, AllocError>
    requires { AllZip Takes (front Kind.Create 0) (map string_bytes words.now) }
    ensures { IfOk result (λ line. LineIs line (codes "create" ∷ map string_bytes words.now)) }
{
    let [image, sectors, id] = words else {
        unreachable!()
    };
    Ok(Line::Create {
        image: text(alloc, image.as_str())?,
        sectors: number(sectors.as_str()),
        id: number(id.as_str()) as u32,
    })
}

pub fn fs(alloc: Global, words: &[String]) -> Result<Line, AllocError>
    requires { AllZip Takes (front Kind.Fs 0) (map string_bytes words.now) }
    ensures { IfOk result (λ line. LineIs line (codes "fs" ∷ map string_bytes words.now)) }
{
    let [image, name] = words else { unreachable!() };
    Ok(Line::Step {
        image: text(alloc, image.as_str())?,
        command: Command::Fs {
            dataset: dataset(name.as_str()),
        },
    })
}

pub fn volume(alloc: Global, words: &[String]) -> Result<Line, AllocError>
    requires { AllZip Takes (front Kind.Volume 0) (map string_bytes words.now) }
    ensures { IfOk result (λ line. LineIs line (codes "volume" ∷ map string_bytes words.now)) }
{
    let [image, name] = words else { unreachable!() };
    Ok(Line::Step {
        image: text(alloc, image.as_str())?,
        command: Command::Volume {
            dataset: dataset(name.as_str()),
        },
    })
}

pub fn object(alloc: Global, words: &[String]) -> Result<Line, AllocError>
    requires { AllZip Takes (front Kind.Object 0) (map string_bytes words.now) }
    ensures { IfOk result (λ line. LineIs line (codes "object" ∷ map string_bytes words.now)) }
{
    let [
        image,
        name,
        object,
        type_,
        size,
        bonus_type,
        bonus_word,
        spill_word,
    ] = words
    else {
        unreachable!()
    };
    Ok(Line::Step {
        image: text(alloc, image.as_str())?,
        command: Command::Object {
            dataset: dataset(name.as_str()),
            object: number(object.as_str()),
            head: ObjectHead {
                type_: number(type_.as_str()) as u32,
                bonus_type: number(bonus_type.as_str()) as u32,
                block_size: number(size.as_str()) as u32,
            },
            bonus: bonus(alloc, bonus_word.as_str())?,
            spill: spill(alloc, spill_word.as_str())?,
        },
    })
}

pub fn write(alloc: Global, words: &[String]) -> Result<Line, AllocError>
    requires { AllZip Takes (front Kind.Write 0) (map string_bytes words.now) }
    ensures { IfOk result (λ line. LineIs line (codes "write" ∷ map string_bytes words.now)) }
{
    let [image, name, object, index, digits] = words else {
        unreachable!()
    };
    Ok(Line::Step {
        image: text(alloc, image.as_str())?,
        command: Command::Write {
            dataset: dataset(name.as_str()),
            object: number(object.as_str()),
            index: number(index.as_str()),
            bytes: bytes(alloc, digits.as_str())?,
        },
    })
}

pub fn punch(alloc: Global, words: &[String]) -> Result<Line, AllocError>
    requires { AllZip Takes (front Kind.Punch 0) (map string_bytes words.now) }
    ensures { IfOk result (λ line. LineIs line (codes "punch" ∷ map string_bytes words.now)) }
{
    let [image, name, object, first, count] = words else {
        unreachable!()
    };
    Ok(Line::Step {
        image: text(alloc, image.as_str())?,
        command: Command::Punch {
            dataset: dataset(name.as_str()),
            object: number(object.as_str()),
            first: number(first.as_str()),
            count: number(count.as_str()),
        },
    })
}

pub fn free(alloc: Global, words: &[String]) -> Result<Line, AllocError>
    requires { AllZip Takes (front Kind.Free 0) (map string_bytes words.now) }
    ensures { IfOk result (λ line. LineIs line (codes "free" ∷ map string_bytes words.now)) }
{
    let [image, name, first, count] = words else {
        unreachable!()
    };
    Ok(Line::Step {
        image: text(alloc, image.as_str())?,
        command: Command::Free {
            dataset: dataset(name.as_str()),
            first: number(first.as_str()),
            count: number(count.as_str()),
        },
    })
}

pub fn read(alloc: Global, words: &[String]) -> Result<Line, AllocError>
    requires { AllZip Takes (front Kind.Read 0) (map string_bytes words.now) }
    ensures { IfOk result (λ line. LineIs line (codes "read" ∷ map string_bytes words.now)) }
{
    let [image, named, object, index] = words else {
        unreachable!()
    };
    Ok(Line::Step {
        image: text(alloc, image.as_str())?,
        command: Command::Read {
            name: name(named.as_str()),
            object: number(object.as_str()),
            index: number(index.as_str()),
        },
    })
}

pub fn list(alloc: Global, words: &[String]) -> Result<Line, AllocError>
    requires { AllZip Takes (front Kind.List 0) (map string_bytes words.now) }
    ensures { IfOk result (λ line. LineIs line (codes "list" ∷ map string_bytes words.now)) }
{
    let [image] = words else { unreachable!() };
    Ok(Line::Step {
        image: text(alloc, image.as_str())?,
        command: Command::List,
    })
}

pub fn list_objects(alloc: Global, words: &[String]) -> Result<Line, AllocError>
    requires { AllZip Takes (front Kind.List 2) (map string_bytes words.now) }
    ensures { IfOk result (λ line. LineIs line (codes "list" ∷ map string_bytes words.now)) }
{
    let [image, named] = words else {
        unreachable!()
    };
    Ok(Line::Step {
        image: text(alloc, image.as_str())?,
        command: Command::ListObjects {
            name: name(named.as_str()),
        },
    })
}

pub fn snapshot_of(alloc: Global, words: &[String]) -> Result<Line, AllocError>
    requires { AllZip Takes (front Kind.Snapshot 0) (map string_bytes words.now) }
    ensures { IfOk result (λ line. LineIs line (codes "snapshot" ∷ map string_bytes words.now)) }
{
    let [image, name] = words else { unreachable!() };
    Ok(Line::Step {
        image: text(alloc, image.as_str())?,
        command: Command::Snapshot {
            name: snapshot(name.as_str()),
        },
    })
}

pub fn clone(alloc: Global, words: &[String]) -> Result<Line, AllocError>
    requires { AllZip Takes (front Kind.Clone 0) (map string_bytes words.now) }
    ensures { IfOk result (λ line. LineIs line (codes "clone" ∷ map string_bytes words.now)) }
{
    let [image, origin, name] = words else {
        unreachable!()
    };
    Ok(Line::Step {
        image: text(alloc, image.as_str())?,
        command: Command::Clone {
            origin: snapshot(origin.as_str()),
            dataset: dataset(name.as_str()),
        },
    })
}

pub fn bookmark_of(alloc: Global, words: &[String]) -> Result<Line, AllocError>
    requires { AllZip Takes (front Kind.Bookmark 0) (map string_bytes words.now) }
    ensures { IfOk result (λ line. LineIs line (codes "bookmark" ∷ map string_bytes words.now)) }
{
    let [image, of, name] = words else {
        unreachable!()
    };
    Ok(Line::Step {
        image: text(alloc, image.as_str())?,
        command: Command::Bookmark {
            snapshot: snapshot(of.as_str()),
            bookmark: bookmark(name.as_str()),
        },
    })
}

pub fn destroy(alloc: Global, words: &[String]) -> Result<Line, AllocError>
    requires { AllZip Takes (front Kind.Destroy 0) (map string_bytes words.now) }
    ensures { IfOk result (λ line. LineIs line (codes "destroy" ∷ map string_bytes words.now)) }
{
    let [image, named] = words else {
        unreachable!()
    };
    Ok(Line::Step {
        image: text(alloc, image.as_str())?,
        command: Command::Destroy {
            name: name(named.as_str()),
        },
    })
}

pub fn abort(alloc: Global, words: &[String]) -> Result<Line, AllocError>
    requires { AllZip Takes (front Kind.Abort 0) (map string_bytes words.now) }
    ensures { IfOk result (λ line. LineIs line (codes "abort" ∷ map string_bytes words.now)) }
{
    let [image, name] = words else { unreachable!() };
    Ok(Line::Step {
        image: text(alloc, image.as_str())?,
        command: Command::Abort {
            dataset: dataset(name.as_str()),
        },
    })
}

pub fn reclaim(alloc: Global, words: &[String]) -> Result<Line, AllocError>
    requires { AllZip Takes (front Kind.Reclaim 0) (map string_bytes words.now) }
    ensures { IfOk result (λ line. LineIs line (codes "reclaim" ∷ map string_bytes words.now)) }
{
    let [image] = words else { unreachable!() };
    Ok(Line::Step {
        image: text(alloc, image.as_str())?,
        command: Command::Reclaim,
    })
}
