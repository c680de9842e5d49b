//! Which names stay in a folder.

ghost use Rattle.std.specs.Prelude.{◌≡◌, ◌==◌, slice_index, codes};
ghost use Rattle.std.specs.List.{list_any};
ghost use Rattle.std.specs.Str.{bytes_eq};
ghost use Rattle.shelf_io.specs.Folder.{leaves_folder, name_parts};

/// Whether the name begins at the root, or has `..` as one of the parts into which its slashes cut it.
pub(crate) fn leaves_folder(name: &str) -> bool
    ensures { result ≡ leaves_folder name.now }
{
    begins_at_root(name) || has_parent_part(name)
}

/// Whether the name begins with a slash.
fn begins_at_root(name: &str) -> bool
    ensures { result ≡ (slice_index name.now 0 == 47) }
{
    name.as_bytes().first() == Some(&b'/')
}

/// Whether one of the parts between slashes is `..`.
fn has_parent_part(name: &str) -> bool
    ensures { result ≡ list_any (λ part. bytes_eq part (codes "..")) (name_parts name.now) }
{
    name.split('/').any(|part| part == "..")
}
