// How the program opens the image that a line names, or the two of a replay.
ghost use Rattle.std.specs.Prelude.{◌≡◌, IfOk, [], map, string_bytes};
ghost use Rattle.zst_file.specs.FileDisk.{history_of};
ghost use Rattle.zst_run.specs.LineEffects.{IsInRange};
ghost use Rattle.zst_run.specs.OpenMode.{OpensBy, image_in, one_of, opening_in, way_of};

use std::alloc::{AllocError, Global};
use std::fs::{self, File};
use std::io::{self, ErrorKind};
use std::path::Path;
use zst_file::{FileDisk, Start, length_of};
use zst_line::{Line, LineFault, Text, parse};

/// The bytes of a sector.
const SECTOR: u64 = 512;

/// How the image of a line is opened.
#[derive(Clone, Copy)]
pub enum OpenMode {
    /// It is only read, beside others that only read it.
    Shared,
    /// It is read and written, with nobody beside.
    Alone,
    /// As `Alone`, and a file that isn't there is made, of so many bytes, all zero.
    Made { bytes: u64 },
}

/// The images that a line names, and how they are opened.
#[derive(Drop)]
pub enum Opening {
    One(Text, OpenMode),
    /// Each of the two with nobody beside, the first one first.
    Two { here: Text, there: Text },
}

/// How a line opens its one image: one that commits nothing needs no leave to write. None where it doesn't name
/// one.
fn mode_for(line: &Line) -> Option<OpenMode>
    requires { IsInRange line.now }
    ensures { result ≡ way_of line.now }
{
    match line {
        Line::Create { sectors, .. } => {
            let bytes = *sectors * SECTOR;
            Some(OpenMode::Made { bytes })
        }
        Line::Step { command, .. } if command.commits() => Some(OpenMode::Alone),
        Line::Receive { .. } | Line::Gen { .. } => Some(OpenMode::Alone),
        Line::Step { .. }
        | Line::Send { .. }
        | Line::Resume { .. }
        | Line::Token { .. }
        | Line::Check { .. } => Some(OpenMode::Shared),
        Line::Dump | Line::Replay { .. } => None,
    }
}

/// The one image that a line names.
fn image_of(line: Line) -> Option<Text>
    ensures { result ≡ image_in line }
{
    match line {
        Line::Create { image, .. } => Some(image),
        Line::Step { image, .. } => Some(image),
        Line::Send { image, .. } => Some(image),
        Line::Resume { image, .. } => Some(image),
        Line::Receive { image, .. } => Some(image),
        Line::Token { image, .. } => Some(image),
        Line::Check { image } => Some(image),
        Line::Gen { image, .. } => Some(image),
        Line::Dump | Line::Replay { .. } => None,
    }
}

/// The one image that a line names, and how it is opened.
fn opening_of_one(line: Line) -> Option<Opening>
    requires { IsInRange line }
    ensures { result ≡ one_of (image_in line) (way_of line) }
{
    let mode = mode_for(&line)?;
    let path = image_of(line)?;
    Some(Opening::One(path, mode))
}

/// The images that a line names, and how they are opened.
fn opening_for(line: Line) -> Option<Opening>
    requires { IsInRange line }
    ensures { result ≡ opening_in line }
{
    match line {
        Line::Replay { here, there } => Some(Opening::Two { here, there }),
        line => opening_of_one(line),
    }
}

/// The images that the words name, and how they are opened; None where they name none or are no line.
pub fn opening_of(alloc: Global, words: &[String]) -> Result<Option<Opening>, AllocError>
    ensures { IfOk result (OpensBy (map string_bytes words.now)) }
{
    match parse(alloc, words) {
        Ok(line) => Ok(opening_for(line)),
        Err(LineFault::Memory) => Err(AllocError),
        Err(_) => Ok(None),
    }
}

/// Syncs the folder of a path, and with it the entry of a file that was made there.
fn sync_folder(rt: &HostRuntime, path: &str) -> io::Result<()> {
    let folder = match Path::new(path).parent() {
        Some(folder) if !folder.as_str().is_empty() => folder,
        _ => Path::new("."),
    };
    File::open(rt, folder)?.sync_all()
}

/// Locks a file that was just made, gives it its length, and makes sure of both it and its folder's entry.
fn settle(rt: &HostRuntime, path: &str, file: &File, bytes: u64) -> io::Result<()> {
    file.try_lock()?;
    file.set_len(bytes)?;
    file.sync_all()?;
    sync_folder(rt, path)
}

/// Makes the file of a new image, which is on the disk before anything is said of it. Where that can't be had, the file
/// that was made is taken away again.
fn make(rt: &HostRuntime, path: &str, bytes: u64) -> io::Result<File> {
    let file = File::options()
        .read(true)
        .write(true)
        .create_new(true)
        .open(rt, path)?;
    match settle(rt, path, &file, bytes) {
        Ok(()) => Ok(file),
        Err(error) => {
            let _ = fs::remove_file(rt, path);
            Err(error)
        }
    }
}

/// Takes the lock that keeps an image from being written by two. It goes with the last descriptor of this opening, also
/// where the program is killed.
fn lock(file: &File, opening: OpenMode) -> io::Result<()> {
    match opening {
        OpenMode::Shared => file.try_lock_shared()?,
        OpenMode::Alone | OpenMode::Made { .. } => file.try_lock()?,
    }
    Ok(())
}

/// Opens an image and locks it before anything is read of it. Where another has its lock, this fails at once.
///
/// The descriptor that is kept is a copy, which is 3 or more: where a standard stream is closed, the file itself may have
/// got its number, and what is written to that stream must not land in the image.
pub fn open<S: Start>(
    rt: &HostRuntime,
    path: &str,
    opening: OpenMode,
    start: S,
) -> io::Result<FileDisk<S>>
    ensures { IfOk result (λ disk. history_of disk ≡ []) }
{
    let writes = !matches!(opening, OpenMode::Shared);
    let there = File::options().read(true).write(writes).open(rt, path);
    let file = match (there, opening) {
        (Err(error), OpenMode::Made { bytes }) if error.kind() == ErrorKind::NotFound => {
            make(rt, path, bytes)?
        }
        (there, _) => {
            let file = there?;
            lock(&file, opening)?;
            file
        }
    };
    let mut kept = file.try_clone()?;
    let bytes = length_of(&mut kept)?;
    Ok(FileDisk::new(kept, bytes, start))
}
