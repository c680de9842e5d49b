//! Blobs in memory, one for each name.

ghost use Rattle.std.specs.Prelude.{◌≡◌, OnErr, OnOk, option_copied};
ghost use Rattle.std.specs.FinMap.{insert};
ghost use Rattle.shelf_terms.specs.Blobs.{blob_at, part_of};
ghost use Rattle.shelf_io.specs.BlobMap.{blobs_of};

use lists::Memory;
use std::alloc::Global;
use std::collections::BTreeMap;

/// The bytes of the blob of the name. The time grows with the logarithm of the number of blobs.
pub(crate) fn find<'a>(blobs: &'a BTreeMap<String, Vec<u8>>, name: &str) -> Option<&'a [u8]>
    ensures { option_copied result ≡ blob_at (blobs_of blobs.now.entries) name.now }
{
    match blobs.get(name) {
        Some(bytes) => Some(bytes.as_slice()),
        None => None,
    }
}

/// Makes these bytes the blob of the name, in place of the one that it had.
pub(crate) fn store(
    blobs: &mut BTreeMap<String, Vec<u8>>,
    alloc: Global,
    name: &str,
    bytes: &[u8],
) -> Result<(), Memory>
    ensures done { OnOk result (blobs_of blobs.new.entries
        ≡ insert (blobs_of blobs.old.entries) name.now bytes.now) }
    ensures refused { OnErr result (blobs.new.entries ≡ blobs.old.entries) }
{
    let bytes = Vec::from_slice(alloc, bytes)?;
    let name = String::from_str(alloc, name)?;
    let _replaced = blobs.insert(name, bytes)?;
    Ok(())
}

/// At most `most` bytes of the blob, from the place `from` on.
pub(crate) fn part_slice(blob: &[u8], from: u64, most: usize) -> &[u8]
    ensures { result.now ≡ part_of blob.now from most }
{
    let start = from.min(blob.len() as u64) as usize;
    let end = start + most.min(blob.len() - start);
    &blob[start..end]
}
