// A path to an entry.
ghost use Rattle.std.specs.Prelude.{◌≡◌, ◌≤◌, length};
ghost use Rattle.volume.specs.Blocks.{Holds};
ghost use Rattle.volume.specs.Disks.{Sized, image_bytes, disk_of};
ghost use Rattle.lookup.specs.Paths.{longest_path, split};
ghost use Rattle.lookup.specs.Lookup.{lookup_from, from_root, find_of, Finds};
ghost use Rattle.lookup.specs.Parts.{Looks, found_at};

use crate::chain::search;
use crate::path::{first_slash, path_fault};
use answers::{Fault, Refusal};
use volume::block::{Block, word_of};
use volume::disk::Disk;
use volume::entry::is_directory;
use volume::root::root_fault;

// What a path leads to: a key, the size of a file, and how many entries were compared.
#[derive(Clone, Copy, Debug, PartialEq, Eq)]
pub enum Found {
    Directory { key: u32, compared: u32 },
    File { key: u32, size: u32, compared: u32 },
}

// An entry that a path leads to, once so many entries are compared.
fn found_at(image: &[u8], key: u32, compared: u32) -> Found
    requires { Holds image.now key }
    ensures { result ≡ found_at image.now key compared }
{
    if is_directory(image, key) {
        return Found::Directory { key, compared };
    }
    let size = word_of(image, key, Block::SIZE);
    Found::File {
        key,
        size,
        compared,
    }
}

// The components of a path from a directory on, counted on from `component`; so many entries were compared before.
fn lookup(
    disk: Disk,
    image: &[u8],
    path: &[u8],
    directory: u32,
    component: usize,
    compared: u32,
) -> Result<Found, Refusal>
    requires { Looks disk image.now path.now directory component compared }
    ensures { result ≡ lookup_from disk image.now directory component compared (split path.now) }
{
    let end = first_slash(path);
    let Some(hit) = search(disk, image, directory, &path[..end])? else {
        return Err(Fault::NotFound.at(component));
    };
    let all = compared + hit.compared;
    if end == path.len() {
        return Ok(found_at(image, hit.key, all));
    }
    if !is_directory(image, hit.key) {
        return Err(Fault::WrongKind.at(component));
    }
    lookup(disk, image, &path[end + 1..], hit.key, component + 1, all)
}

// A path of good form, on an image that is long enough and has its tag.
fn from_root(disk: Disk, image: &[u8], path: &[u8]) -> Result<Found, Refusal>
    requires { (Sized disk × (length image.now ≡ image_bytes disk)) × (length path.now ≤ longest_path) }
    ensures { result ≡ from_root disk image.now path.now }
{
    let root = disk.root();
    if let Err(fault) = root_fault(disk, image) {
        return Err(fault.at(root as usize));
    }
    if path.is_empty() {
        return Ok(Found::Directory {
            key: root,
            compared: 0,
        });
    }
    lookup(disk, image, path, root, 0, 0)
}

// What a path leads to on a disk.
pub fn find_on(disk: Disk, image: &[u8], path: &[u8]) -> Result<Found, Refusal>
    requires { Sized disk }
    ensures { result ≡ find_of disk image.now path.now }
{
    if image.len() != disk.image_bytes() {
        return Err(Fault::ImageLength.at(0));
    }
    path_fault(path)?;
    if !disk.has_tag(image) {
        return Err(Fault::BootTag.at(0));
    }
    from_root(disk, image, path)
}

// What a path leads to on an image: that of a disk of the `named` number of blocks, or of either size where 0 is named,
// and of the kind that its boot tag names.
pub fn find(named: u32, image: &[u8], path: &[u8]) -> Result<Found, Refusal>
    ensures { Finds (disk_of named image.now) image.now path.now result }
{
    let disk = Disk::of(named, image);
    find_on(disk, image, path)
}
