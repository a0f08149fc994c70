//! What the words of each other line say that fit their places.
ghost use Rattle.std.specs.Prelude.{◌∷◌, map, codes, string_bytes, IfOk};
ghost use Rattle.std.specs.List.{AllZip};
ghost use Rattle.zst_line.specs.Grammar.{front};
ghost use Rattle.zst_line.specs.WordFaults.{Takes};
ghost use Rattle.zst_line.specs.Line.{LineIs};

use crate::kind::Kind;
use crate::line::Line;
use crate::word_values::{dataset, number, text};
use std::alloc::{AllocError, Global};

pub fn token(alloc: Global, words: &[String]) -> Result<Line, AllocError>
    requires { AllZip Takes (front Kind.Token 0) (map string_bytes words.now) }
    ensures { IfOk result (λ line. LineIs line (codes "token" ∷ map string_bytes words.now)) }
{
    let [image, name] = words else { unreachable!() };
    Ok(Line::Token {
        image: text(alloc, image.as_str())?,
        dataset: dataset(name.as_str()),
    })
}

pub fn check(alloc: Global, words: &[String]) -> Result<Line, AllocError>
    requires { AllZip Takes (front Kind.Check 0) (map string_bytes words.now) }
    ensures { IfOk result (λ line. LineIs line (codes "check" ∷ map string_bytes words.now)) }
{
    let [image] = words else { unreachable!() };
    Ok(Line::Check {
        image: text(alloc, image.as_str())?,
    })
}

pub fn gen_line(alloc: Global, words: &[String]) -> Result<Line, AllocError>
    requires { AllZip Takes (front Kind.Gen 0) (map string_bytes words.now) }
    ensures { IfOk result (λ line. LineIs line (codes "gen" ∷ map string_bytes words.now)) }
{
    let [image, steps] = words else {
        unreachable!()
    };
    Ok(Line::Gen {
        image: text(alloc, image.as_str())?,
        steps: number(steps.as_str()),
    })
}

pub fn replay(alloc: Global, words: &[String]) -> Result<Line, AllocError>
    requires { AllZip Takes (front Kind.Replay 0) (map string_bytes words.now) }
    ensures { IfOk result (λ line. LineIs line (codes "replay" ∷ map string_bytes words.now)) }
{
    let [here, there] = words else { unreachable!() };
    Ok(Line::Replay {
        here: text(alloc, here.as_str())?,
        there: text(alloc, there.as_str())?,
    })
}
