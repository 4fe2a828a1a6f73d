//! Reads files, the files of a folder and the standard input, and replaces files.
ghost use Rattle.std.specs.Prelude.{◌≡◌, ◌++◌, All, Bool, IfErr, IfOk, OnOk, codes, replicate, string_bytes};
ghost use Rattle.wh_console.specs.Inputs.{IsCalled, IsEndOf, IsFaultAt, IsOf, IsReadFrom, IsSingle, IsUnreadFrom};
ghost use Rattle.wh_console.specs.Names.{IsBadName, IsMarked};
ghost use Rattle.wh_console.specs.Reasons.{reason_of, reason_words};

use std::alloc::{AllocError, Global};
use std::fs::File;
use std::io::{ErrorKind, Read};
use std::rt::Files;
use std::{fs, io};

/// How many bytes of a file are read: one more than the longest history that is accepted, so that a
/// longer file is seen to be too long without being read to its end.
const READ_LIMIT: u64 = 67_108_865;

/// Why a file, or the list of the files of a folder, could not be read.
#[derive(Clone, Copy, Debug)]
pub enum FolderFault {
    /// The file or the folder cannot be read.
    Unreadable {
        /// The reason.
        reason: Reason,
    },
    /// There is no memory for a name or for the bytes of a file.
    OutOfMemory,
}

/// Why a file or a folder cannot be read, as the system reports it.
#[derive(Clone, Copy, PartialEq, Eq, Debug)]
pub enum Reason {
    /// Nothing is at the path, or a folder on the path does not exist.
    Missing,
    /// There is no permission to read it or to reach it.
    Forbidden,
    /// It is a folder, and a file is needed.
    IsFolder,
    /// It is not a folder, and a folder is needed.
    NoFolder,
    /// It is neither a file nor a folder, but for example a pipe or a device.
    NoFile,
    /// Its symbolic links lead round in a circle.
    LinkLoop,
    /// The path is too long, or a name in it is.
    LongName,
    /// The system reports another error.
    Other,
}

impl Reason {
    /// Returns the words in which the reason is reported.
    pub fn words(self) -> &'static str
        ensures { result.now ≡ reason_words self }
    {
        match self {
            Reason::Missing => "no such file or folder",
            Reason::Forbidden => "permission denied",
            Reason::IsFolder => "is a folder",
            Reason::NoFolder => "is no folder",
            Reason::NoFile => "is no file",
            Reason::LinkLoop => "too many links",
            Reason::LongName => "a name is too long",
            Reason::Other => "the system can't read it",
        }
    }
}

/// Returns the reason for an error that the system reports.
fn reason_of(kind: ErrorKind) -> Reason
    ensures { result ≡ reason_of kind }
{
    match kind {
        ErrorKind::NotFound => Reason::Missing,
        ErrorKind::PermissionDenied => Reason::Forbidden,
        ErrorKind::IsADirectory => Reason::IsFolder,
        ErrorKind::NotADirectory => Reason::NoFolder,
        ErrorKind::FilesystemLoop => Reason::LinkLoop,
        ErrorKind::InvalidFilename => Reason::LongName,
        _ => Reason::Other,
    }
}

impl From<io::Error> for FolderFault {
    ghost use Rattle.std.specs.Prelude.{◌≡◌};
    ghost use Rattle.std.specs.IoError.{error_kind};
    ghost use Rattle.wh_console.specs.Reasons.{fault_of};

    ghost from_gives = { λ error fault. fault ≡ fault_of (error_kind error) };

    fn from(error: io::Error) -> FolderFault {
        match error.kind() {
            ErrorKind::OutOfMemory => FolderFault::OutOfMemory,
            kind => FolderFault::Unreadable {
                reason: reason_of(kind),
            },
        }
    }
}

impl From<AllocError> for FolderFault {
    ghost use Rattle.std.specs.Prelude.{◌≡◌};
    ghost use Rattle.wh_console.specs.declared.files.FolderFault.{FolderFault};

    ghost from_gives = { λ _ fault. fault ≡ FolderFault.OutOfMemory };

    fn from(_refused: AllocError) -> FolderFault {
        FolderFault::OutOfMemory
    }
}

/// Where the bytes of a file come from.
#[derive(Debug, Drop)]
pub enum Origin {
    /// A file that was named by its own path.
    File {
        /// Its path.
        path: String,
    },
    /// A file of a folder, where the folder was named.
    Entry {
        /// The path of the folder.
        dir: String,
        /// The name of the file in the folder.
        name: String,
    },
    /// The standard input, which has been read already.
    StandardInput {
        /// The bytes that were read.
        bytes: Vec<u8>,
    },
}

/// A file that is to be read.
#[derive(Debug, Drop)]
pub struct Input {
    /// The name of the file in reports.
    pub name: String,
    /// Where its bytes come from.
    pub origin: Origin,
}

/// Why an input could not be read.
#[derive(Debug, Drop)]
pub enum InputFault {
    /// It cannot be read.
    Unreadable {
        /// The path that was named: that of the file, or that of its folder.
        path: String,
        /// The file's name in the folder, if a folder was named.
        entry: Option<String>,
        /// The reason.
        reason: Reason,
    },
    /// There is no memory for a name or for the bytes.
    OutOfMemory,
}

/// The files that a path names.
#[derive(Debug, Drop)]
pub struct Listing {
    /// The files that can be opened, in the order of the bytes of their names.
    pub inputs: Vec<Input>,
    /// The names of the files of the folder that can't be opened because their names are not UTF-8:
    /// each with `?` for every byte that is not part of a character, in the order of the bytes of
    /// the original names.
    pub bad_names: Vec<String>,
}

/// Returns the path of a folder with a slash after it, so that a link to a folder is followed.
fn folder_path(alloc: Global, dir: &str) -> Result<String, AllocError> {
    if dir.is_empty() {
        return Ok(String::new(alloc));
    }
    format!(in alloc; "{dir}/")
}

/// Reads the names in a folder as the system returns them: each ended by a zero byte, in any order.
fn read_names<R: Files + AllocGlobal>(rt: &R, dir: &str) -> Result<Vec<u8>, FolderFault> {
    let path = folder_path(rt.alloc(), dir)?;
    let mut folder = rt.open_dir(path.as_str())?;
    let mut names = Vec::new(rt.alloc());
    let mut block = [0u8; 4096];
    for _ in 0..u64::MAX {
        let count = folder.read(&mut block)?;
        if count == 0 {
            return Ok(names);
        }
        names.extend_from_slice(&block[..count])?;
    }
    Err(FolderFault::Unreadable {
        reason: Reason::Other,
    })
}

/// Returns the names that end in `.json`, in the order of their bytes. In `names` each name is
/// ended by a zero byte.
fn sorted_names(alloc: Global, names: &[u8]) -> Result<Vec<Vec<u8>>, AllocError> {
    let mut sorted = Vec::new(alloc);
    for name in names.split(|byte: &u8| *byte == 0) {
        if name.ends_with(b".json".as_slice()) {
            sorted.push(Vec::from_slice(alloc, name)?)?;
        }
    }
    sorted.sort()?;
    Ok(sorted)
}

/// Appends `count` question marks.
fn push_marks(shown: &mut String, count: usize) -> Result<(), AllocError>
    ensures { OnOk result (string_bytes shown.new ≡ string_bytes shown.old ++ replicate count 63) }
{
    for _mark in 0..count {
        shown.push_str("?")?;
    }
    Ok(())
}

/// Returns bytes as text, with `?` for every byte that is not part of a character.
fn lossy_text(alloc: Global, bytes: &[u8]) -> Result<String, AllocError>
    ensures { IfOk result (λ shown. IsMarked bytes.now (string_bytes shown)) }
{
    let mut shown = String::new(alloc);
    for chunk in bytes.utf8_chunks() {
        shown.push_str(chunk.valid())?;
        push_marks(&mut shown, chunk.invalid().len())?;
    }
    Ok(shown)
}

/// Returns how many bytes to reserve before a file of this size is read: one more than it has, so
/// that its end is seen without growing the buffer.
fn room_for(size: u64) -> usize {
    size.min(READ_LIMIT) as usize + 1
}

/// Reads up to `READ_LIMIT` bytes at a path. `size` is the size that the system reports.
fn read_path<R: Files + AllocGlobal>(
    rt: &R,
    path: &str,
    size: u64,
) -> Result<Vec<u8>, FolderFault> {
    let mut bytes = Vec::with_capacity(rt.alloc(), room_for(size))?;
    File::open(rt, path)?
        .take(READ_LIMIT)
        .read_to_end(&mut bytes)?;
    Ok(bytes)
}

/// Returns the fault of a path that names no file: a folder, or neither a file nor a folder.
fn no_file(is_dir: bool) -> FolderFault {
    FolderFault::Unreadable {
        reason: if is_dir {
            Reason::IsFolder
        } else {
            Reason::NoFile
        },
    }
}

/// Reads up to `READ_LIMIT` bytes of a file. Anything other than a file, such as a folder or a
/// pipe, is refused as `Unreadable`.
pub fn read_file<R: Files + AllocGlobal>(rt: &R, path: &str) -> Result<Vec<u8>, FolderFault> {
    let metadata = fs::metadata(rt, path)?;
    if !metadata.is_file() {
        return Err(no_file(metadata.is_dir()));
    }
    read_path(rt, path, metadata.len())
}

/// Reads a file that was named by its own path. A pipe is read too, until it ends.
fn read_single_file<R: Files + AllocGlobal>(rt: &R, path: &str) -> Result<Vec<u8>, FolderFault> {
    let metadata = fs::metadata(rt, path)?;
    if metadata.is_dir() {
        return Err(no_file(true));
    }
    read_path(rt, path, metadata.len())
}

/// Reads a file of a folder; anything other than a file is refused.
fn read_entry<R: Files + AllocGlobal>(
    rt: &R,
    dir: &str,
    name: &str,
) -> Result<Vec<u8>, FolderFault> {
    let path = format!(in rt.alloc(); "{dir}/{name}")?;
    read_file(rt, path.as_str())
}

/// Reads up to `READ_LIMIT` bytes of the standard input.
fn read_standard_input<R: io::Input + AllocGlobal>(rt: &R) -> Result<Vec<u8>, FolderFault> {
    let mut bytes = Vec::new(rt.alloc());
    rt.reader().take(READ_LIMIT).read_to_end(&mut bytes)?;
    Ok(bytes)
}

/// Returns the input for a file of a folder, named in reports by its path or by its name alone.
fn entry_input(alloc: Global, dir: &str, name: String, by_path: bool) -> Result<Input, AllocError>
    ensures called { IfOk result (IsCalled by_path) }
    ensures from { IfOk result (λ input. IsOf dir.now input.origin) }
{
    let called = if by_path {
        format!(in alloc; "{dir}/{name}")?
    } else {
        String::from_str(alloc, name.as_str())?
    };
    let dir = String::from_str(alloc, dir)?;
    Ok(Input {
        name: called,
        origin: Origin::Entry { dir, name },
    })
}

/// Returns the files of a folder from the bytes of their names, in the same order.
fn listing_of(
    alloc: Global,
    dir: &str,
    names: Vec<Vec<u8>>,
    by_path: bool,
) -> Result<Listing, AllocError>
    ensures called { IfOk result (λ listing. All (IsCalled by_path) listing.inputs.items) }
    ensures from { IfOk result (λ listing. All (λ input. IsOf dir.now input.origin) listing.inputs.items) }
    ensures bad { IfOk result (λ listing. All IsBadName listing.bad_names.items) }
{
    let mut inputs = Vec::new(alloc);
    let mut bad_names = Vec::new(alloc);
    for name in names {
        match String::from_utf8(name) {
            Ok(name) => inputs.push(entry_input(alloc, dir, name, by_path)?)?,
            Err(fault) => bad_names.push(lossy_text(alloc, fault.as_bytes())?)?,
        }
    }
    Ok(Listing { inputs, bad_names })
}

/// Lists the files of a folder whose names end in `.json`, in the order of the bytes of their
/// names. If the path is not a folder, it is refused as `Unreadable`. The files are not opened yet,
/// so whether each can be read is known only later; but those whose names are not UTF-8 can't be
/// opened and are listed as bad names.
pub fn folder_inputs<R: Files + AllocGlobal>(
    rt: &R,
    dir: &str,
    by_path: bool,
) -> Result<Listing, FolderFault>
    ensures called { IfOk result (λ listing. All (IsCalled by_path) listing.inputs.items) }
    ensures from { IfOk result (λ listing. All (λ input. IsOf dir.now input.origin) listing.inputs.items) }
    ensures bad { IfOk result (λ listing. All IsBadName listing.bad_names.items) }
{
    let names = read_names(rt, dir)?;
    let sorted = sorted_names(rt.alloc(), names.as_slice())?;
    Ok(listing_of(rt.alloc(), dir, sorted, by_path)?)
}

/// Returns the end of a path, after its last slash.
fn file_name(path: &str) -> &str
    ensures { IsEndOf path.now result.now }
{
    match path.rsplit_once('/') {
        Some((_, name)) => name,
        None => path,
    }
}

/// Reads the standard input and returns it as an input.
fn standard_input<R: io::Input + AllocGlobal>(rt: &R) -> Result<Input, FolderFault>
    ensures called { IfOk result (λ input. (by_path : Bool) → IsCalled by_path input) }
    ensures from { IfOk result (λ input. IsOf (codes "-") input.origin) }
    ensures single { IfOk result (λ input. IsSingle input.origin) }
{
    let bytes = read_standard_input(rt)?;
    Ok(Input {
        name: String::from_str(rt.alloc(), "-")?,
        origin: Origin::StandardInput { bytes },
    })
}

/// Returns the file at a path, or the standard input if the path is `-`; the latter is read at
/// once, up to `READ_LIMIT` bytes of it. The name in reports is the path, or what follows its last
/// slash.
pub fn input_at<R: io::Input + AllocGlobal>(
    rt: &R,
    path: &str,
    by_path: bool,
) -> Result<Input, FolderFault>
    ensures called { IfOk result (IsCalled by_path) }
    ensures from { IfOk result (λ input. IsOf path.now input.origin) }
    ensures single { IfOk result (λ input. IsSingle input.origin) }
{
    if path == "-" {
        return standard_input(rt);
    }
    let name = if by_path { path } else { file_name(path) };
    Ok(Input {
        name: String::from_str(rt.alloc(), name)?,
        origin: Origin::File {
            path: String::from_str(rt.alloc(), path)?,
        },
    })
}

/// Returns what is to be read at a path: for a folder, its files whose names end in `.json`, in the
/// order of the bytes of their names; otherwise what `input_at` returns. The files are not opened
/// yet, so whether each can be read is known only when it is read.
pub fn inputs_at<R: Files + io::Input + AllocGlobal>(
    rt: &R,
    path: &str,
    by_path: bool,
) -> Result<Listing, FolderFault>
    ensures called { IfOk result (λ listing. All (IsCalled by_path) listing.inputs.items) }
    ensures from { IfOk result (λ listing. All (λ input. IsOf path.now input.origin) listing.inputs.items) }
    ensures bad { IfOk result (λ listing. All IsBadName listing.bad_names.items) }
{
    if path != "-" && fs::metadata(rt, path)?.is_dir() {
        return folder_inputs(rt, path, by_path);
    }
    let input = input_at(rt, path, by_path)?;
    let mut inputs = Vec::new(rt.alloc());
    let Ok(()) = inputs.push(input) else {
        return Err(FolderFault::OutOfMemory);
    };
    Ok(Listing {
        inputs,
        bad_names: Vec::new(rt.alloc()),
    })
}

/// Returns the fault of an input for the fault of its file.
fn input_fault(fault: FolderFault, path: String, entry: Option<String>) -> InputFault
    ensures { IsFaultAt path entry result }
{
    match fault {
        FolderFault::OutOfMemory => InputFault::OutOfMemory,
        FolderFault::Unreadable { reason } => InputFault::Unreadable {
            path,
            entry,
            reason,
        },
    }
}

/// Reads up to `READ_LIMIT` bytes of an input. A folder is refused as `Unreadable`, and so is
/// anything other than a file in a folder, such as a pipe, because reading it could wait forever. A
/// pipe that was named by its own path is read until it ends.
pub fn read_input<R: Files + AllocGlobal>(rt: &R, origin: Origin) -> Result<Vec<u8>, InputFault>
    ensures bytes { IfOk result (IsReadFrom origin) }
    ensures unread { IfErr result (IsUnreadFrom origin) }
{
    match origin {
        Origin::StandardInput { bytes } => Ok(bytes),
        Origin::File { path } => match read_single_file(rt, path.as_str()) {
            Ok(bytes) => Ok(bytes),
            Err(fault) => Err(input_fault(fault, path, None)),
        },
        Origin::Entry { dir, name } => match read_entry(rt, dir.as_str(), name.as_str()) {
            Ok(bytes) => Ok(bytes),
            Err(fault) => Err(input_fault(fault, dir, Some(name))),
        },
    }
}

/// Replaces the content of a file in one step: a reader sees the content before or these bytes,
/// never a part of them. The bytes are written to `beside`, a path in the same folder, which is
/// then renamed to the file's name (POSIX, `rename`). After an error the file is as it was, and a
/// file may be left at `beside`.
pub fn replace_file<R: Files>(
    rt: &R,
    path: &str,
    beside: &str,
    bytes: &[u8],
) -> Result<(), FolderFault> {
    fs::write(rt, beside, bytes)?;
    fs::rename(rt, beside, path)?;
    Ok(())
}
