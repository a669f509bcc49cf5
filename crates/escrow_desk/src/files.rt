//! Files in a list, by name.

ghost use Rattle.std.specs.Prelude.{◌≡◌, ◌≢◌, ◌<◌, ◌≤◌, ◌++◌, [], ℕ, length, None, OnOk, OnErr, IfSome, IfNone, unwrap_or, option_map, string_bytes, slice_index_or};
ghost use Rattle.std.specs.FinMap as fin;
ghost use Rattle.escrow_desk.specs.Content.{PartOf};
ghost use Rattle.escrow_desk.specs.NamedFiles.{files_of};
ghost use Rattle.escrow_desk.specs.declared.named.NamedBytes.{NamedBytes};

use crate::named::NamedBytes;
use crate::refusal::NoMemory;
use std::alloc::Global;

// Where the first file of a name is.
fn place_of(files: &[NamedBytes], name: &str) -> Option<usize>
    ensures found { IfSome result (λ i. (i < length files.now) × ((d : NamedBytes) → string_bytes (slice_index_or files.now i d).name ≡ name.now)) }
    ensures first { IfSome result (λ i. (j : ℕ) (d : NamedBytes) → j < i → string_bytes (slice_index_or files.now j d).name ≢ name.now) }
    ensures none { IfNone result ((j : ℕ) (d : NamedBytes) → j < length files.now → string_bytes (slice_index_or files.now j d).name ≢ name.now) }
{
    for (i, file) in files.iter().enumerate() {
        if file.name.as_str() == name {
            return Some(i);
        }
    }
    None
}

/// The bytes of the file of a name.
pub fn bytes_under<'a>(files: &'a [NamedBytes], name: &str) -> Option<&'a [u8]>
    ensures { option_map (λ bytes. bytes.now) result ≡ fin.get (files_of files.now) name.now }
{
    match place_of(files, name) {
        Some(place) => Some(files[place].bytes.as_slice()),
        None => None,
    }
}

/// Puts bytes of a file from a place on into the front of a buffer, and answers how many.
pub fn copy_part(file: &[u8], at: u64, into: &mut [u8]) -> usize
    ensures count { result ≤ length into.new }
    ensures part { PartOf file.now at into.old result into.new }
{
    let size = file.len();
    let start = if at < size as u64 { at as usize } else { size };
    let count = into.len().min(size - start);
    into[..count].copy_from_slice(&file[start..start + count]);
    count
}

// Adds a file of a new name.
fn push_file(
    alloc: Global,
    files: &mut Vec<NamedBytes>,
    name: &str,
    bytes: &[u8],
) -> Result<(), NoMemory>
    requires { fin.get (files_of files.old.items) name.now ≡ None }
    ensures ok { OnOk result (files_of files.new.items ≡ fin.insert (files_of files.old.items) name.now bytes.now) }
    ensures err { OnErr result (files.new.items ≡ files.old.items) }
{
    let name = String::from_str(alloc, name)?;
    let bytes = Vec::from_slice(alloc, bytes)?;
    files.push(NamedBytes { name, bytes })?;
    Ok(())
}

/// Makes a file empty, or makes it.
pub fn empty_file(alloc: Global, files: &mut Vec<NamedBytes>, name: &str) -> Result<(), NoMemory>
    ensures ok { OnOk result (files_of files.new.items ≡ fin.insert (files_of files.old.items) name.now []) }
    ensures err { OnErr result (files.new.items ≡ files.old.items) }
{
    match place_of(files.as_slice(), name) {
        Some(place) => {
            let file = &mut files[place];
            file.bytes.clear();
            Ok(())
        }
        None => push_file(alloc, files, name, &[]),
    }
}

/// Adds bytes to a file, or makes it of them.
pub fn extend_file(
    alloc: Global,
    files: &mut Vec<NamedBytes>,
    name: &str,
    bytes: &[u8],
) -> Result<(), NoMemory>
    ensures ok { OnOk result (files_of files.new.items
        ≡ fin.insert (files_of files.old.items) name.now (unwrap_or (fin.get (files_of files.old.items) name.now) [] ++ bytes.now)) }
    ensures err { OnErr result (files_of files.new.items ≡ files_of files.old.items) }
{
    match place_of(files.as_slice(), name) {
        Some(place) => {
            let file = &mut files[place];
            file.bytes.extend_from_slice(bytes)?;
            Ok(())
        }
        None => push_file(alloc, files, name, bytes),
    }
}
