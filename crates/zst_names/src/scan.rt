ghost use Rattle.std.specs.Prelude.{◌≡◌, ◌≢◌, OnOk, IfErr, IsOk, IfSome};
ghost use Rattle.zst_names.specs.Names.{is_component_byte, IsComponent, IsName, StopsAt};
ghost use Rattle.zst_names.specs.Rest.{fits_component, is_mark, IsOpen, IsRest, Leads, Ends};

use crate::fault::NameFault;

/// The most components of a dataset name, joined by `/`.
const COMPONENTS: usize = 8;

/// The most bytes of a component.
const COMPONENT_BYTES: usize = 64;

/// The most bytes of a dataset name.
const DATASET_BYTES: usize = 190;

/// Where in a name the next byte stands.
#[derive(Clone, Copy)]
pub enum Position {
    /// In the dataset's name: in which of its components, counted from 1, and how many bytes of
    /// that one stand before.
    InDataset { components: usize, used: usize },
    /// Behind the mark: how many bytes of the last component stand before.
    InComponent { used: usize },
}

#[tactic(auto, unfolding(crate::specs::Names::is_component_byte))]
fn is_component_byte(byte: u8) -> bool
    ensures { result ≡ is_component_byte byte }
{
    byte.is_ascii_alphanumeric() || matches!(byte, b'_' | b'.' | b':' | b'-')
}

/// Whether the byte may be the next of a component of which `used` bytes stand.
fn fits_component(used: usize, byte: u8) -> bool
    ensures { result ≡ fits_component used byte }
{
    used < COMPONENT_BYTES && is_component_byte(byte) && (used > 0 || byte != b'-')
}

fn is_mark(mark: Option<u8>, byte: u8) -> bool
    ensures { result ≡ is_mark mark byte }
{
    match mark {
        Some(mark) => byte == mark,
        None => false,
    }
}

/// Where the byte at `place` leads, or nowhere.
fn next_in_dataset(
    mark: Option<u8>,
    components: usize,
    used: usize,
    place: usize,
    byte: u8,
) -> Option<Position>
    requires { IsOpen (Position.InDataset components used) place }
    ensures { Leads mark (Position.InDataset components used) place byte result }
{
    if is_mark(mark, byte) {
        if used == 0 {
            return None;
        }
        return Some(Position::InComponent { used: 0 });
    }
    if byte == b'/' {
        if used == 0 || components == COMPONENTS || place + 1 >= DATASET_BYTES {
            return None;
        }
        return Some(Position::InDataset {
            components: components + 1,
            used: 0,
        });
    }
    if place == DATASET_BYTES || !fits_component(used, byte) {
        return None;
    }
    Some(Position::InDataset {
        components,
        used: used + 1,
    })
}

/// Where the byte at `place` leads, or nowhere.
fn next(mark: Option<u8>, position: Position, place: usize, byte: u8) -> Option<Position>
    requires { IsOpen position place }
    ensures { Leads mark position place byte result }
{
    match position {
        Position::InDataset { components, used } => {
            next_in_dataset(mark, components, used, place, byte)
        }
        Position::InComponent { used } => {
            if fits_component(used, byte) {
                Some(Position::InComponent { used: used + 1 })
            } else {
                None
            }
        }
    }
}

/// Whether a name is whole at the position.
fn is_whole(mark: Option<u8>, position: Position) -> bool
    ensures { Ends mark position result }
{
    match position {
        Position::InDataset {
            components: _,
            used,
        } => mark.is_none() && used > 0,
        Position::InComponent { used } => used > 0,
    }
}

/// Whether the text is all that is left of a name from this position.
fn walk(mark: Option<u8>, start: Position, text: &[u8]) -> Result<(), NameFault>
    requires marked { IfSome mark (λ m. m ≢ 48) }
    requires start_is_open { IsOpen start 0 }
    ensures found { OnOk result (IsRest mark start 0 text.now) }
    ensures exact { IsRest mark start 0 text.now → IsOk result }
    ensures cause { IfErr result (λ fault. StopsAt (IsRest mark start 0) text.now fault.place) }
{
    let mut position = start;
    for (place, byte) in text.iter().enumerate() {
        match next(mark, position, place, *byte) {
            Some(after) => position = after,
            None => {
                return Err(NameFault {
                    place: place as u64,
                });
            }
        }
    }
    if is_whole(mark, position) {
        Ok(())
    } else {
        Err(NameFault {
            place: text.len() as u64,
        })
    }
}

/// Whether the text is a name of the kind that has this mark behind its dataset, or none.
pub fn scan(mark: Option<u8>, text: &[u8]) -> Result<(), NameFault>
    requires { IfSome mark (λ m. m ≢ 48) }
    ensures found { OnOk result (IsName mark text.now) }
    ensures exact { IsName mark text.now → IsOk result }
    ensures cause { IfErr result (λ fault. StopsAt (IsName mark) text.now fault.place) }
{
    let start = Position::InDataset {
        components: 1,
        used: 0,
    };
    walk(mark, start, text)
}

/// Whether the bytes are a component: 1 to 64 letters, digits and `_`, `.`, `:` or `-`, the first
/// of them no `-`. The fault's place is counted in these bytes.
pub fn check_component(bytes: &[u8]) -> Result<(), NameFault>
    ensures found { OnOk result (IsComponent bytes.now) }
    ensures exact { IsComponent bytes.now → IsOk result }
    ensures cause { IfErr result (λ fault. StopsAt IsComponent bytes.now fault.place) }
{
    walk(None, Position::InComponent { used: 0 }, bytes)
}
