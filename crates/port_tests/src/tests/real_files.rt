//! Real files are read, and replaced whole.
use super::Step::{self, Begin, Read, Replace};
use super::{FAILED, NO_MEMORY, follow, follow_step};
use file_port::{DiskStore, PortError, Store};
use std::alloc::{Alloc, Global};
use std::fs::{self, Permissions};
use std::os::unix::fs::{PermissionsExt, symlink};
use std::process::Abort;
use std::rt::Files;
use std::test::Fail;
use std::{env, io, process};

/// A path with more text behind it.
pub(crate) fn path(rt: &impl Abort, alloc: Global, front: &str, back: &str) -> String {
    let mut path = String::from_str(alloc, front).expect(rt, NO_MEMORY);
    path.push_str(back).expect(rt, NO_MEMORY);
    path
}

/// The name of a new folder for one test, which a test that runs beside has not.
pub(crate) fn new_folder(rt: &HostRuntime, test: &str) -> Result<String, Fail> {
    let temporary = env::temp_dir(rt)?;
    let temporary = temporary
        .as_path()
        .to_str()
        .ok_or("a folder whose name is text")?;
    let id = process::id(rt.process());
    let mut folder = String::from_str(rt.alloc(), temporary)?;
    folder.push_str(test)?;
    folder.push_str(id.to_string(rt.alloc())?.as_str())?;
    fs::create_dir(rt, folder.as_str())?;
    Ok(folder)
}

/// Removes a folder with all that is in it.
pub(crate) fn remove_folder(rt: &(impl Files + Abort + Alloc), folder: &str) {
    fs::remove_dir_all(rt, folder).expect(rt, "the folder is removed");
}

/// Makes a file of these bytes.
pub(crate) fn write_file(rt: &(impl Files + Abort), name: &str, bytes: &[u8]) {
    fs::write(rt, name, bytes).expect(rt, "a file is made");
}

/// Makes a link to a file.
pub(crate) fn link_file(rt: &(impl Files + Abort), file: &str, link: &str) {
    symlink(rt, file, link).expect(rt, "a link is made");
}

/// Compares the bytes of a file.
pub(crate) fn check_file(rt: &(impl Files + Abort + Alloc), row: &str, name: &str, wanted: &[u8]) {
    let bytes = fs::read(rt, name).expect(rt, "a file is read");
    assert!(rt; bytes.as_slice() == wanted, "{row}");
}

/// How many files a folder has.
fn count_files(rt: &(impl Files + Alloc + Clone), folder: &str) -> io::Result<usize> {
    let mut count = 0usize;
    for entry in fs::read_dir(rt, folder)? {
        entry?;
        count = count.saturating_add(1);
    }
    Ok(count)
}

/// Compares the number of files of a folder.
pub(crate) fn check_count(
    rt: &(impl Files + Abort + Alloc + Clone),
    row: &str,
    folder: &str,
    wanted: usize,
) {
    let count = count_files(rt, folder).expect(rt, "a folder is read");
    assert!(rt; count == wanted, "{row}: files");
}

#[test]
fn disk_store_reads_and_replaces_real_files(rt: HostRuntime) -> Result<(), Fail> {
    let alloc = rt.alloc();
    let folder = new_folder(&rt, "/port_tests_real_")?;
    let name = path(&rt, alloc, &folder, "/file");
    let missing = path(&rt, alloc, &folder, "/missing");
    let below = path(&rt, alloc, &name, "/below");
    write_file(&rt, &name, b"abcdefg");
    let of_file = [
        Read(4, Some(b"")),
        Begin(&name, Ok(true)),
        Read(4, Some(b"abcd")),
        Read(8, Some(b"efg")),
        Read(4, Some(b"")),
        Begin(&name, Ok(true)),
        Replace(&name, b"new", Ok(())),
        Read(4, Some(b"")),
        Begin(&name, Ok(true)),
        Read(8, Some(b"new")),
    ];
    let mut store = DiskStore::new(rt);
    follow(&rt, alloc, "a real file", &mut store, &of_file);
    let of_missing = [Begin(&missing, Ok(false)), Read(4, Some(b""))];
    follow(&rt, alloc, "a missing file", &mut store, &of_missing);
    let below_file = [
        Begin(&below, FAILED),
        Replace(&below, b"new", Err(PortError::Failed)),
    ];
    follow(&rt, alloc, "a path through a file", &mut store, &below_file);
    let of_folder = [
        Begin(&folder, Ok(true)),
        Read(4, None),
        Read(4, Some(b"")),
        Replace(&folder, b"new", Err(PortError::Failed)),
    ];
    follow(&rt, alloc, "a folder", &mut store, &of_folder);
    remove_folder(&rt, &folder);
    Ok(())
}

/// Replaces a file, and reads it.
fn replace_and_read<S: Store>(
    rt: &impl Abort,
    alloc: Global,
    store: &mut S,
    name: &str,
    bytes: &'static [u8],
) {
    let row = "a real file";
    follow_step(rt, alloc, row, store, Replace(name, bytes, Ok(())));
    follow_step(rt, alloc, row, store, Begin(name, Ok(true)));
    follow_step(rt, alloc, row, store, Read(8, Some(bytes)));
}

/// The permissions of a file.
fn mode_of(rt: &impl Files, name: &str) -> io::Result<u32> {
    Ok(fs::metadata(rt, name)?.permissions().mode() & 0o777)
}

/// Whether this is a link.
fn is_link(rt: &impl Files, name: &str) -> io::Result<bool> {
    Ok(fs::symlink_metadata(rt, name)?.is_symlink())
}

/// Makes a file with permissions of its own, and a link to it.
fn write_kept(rt: &(impl Files + Abort), kept: &str, link: &str) {
    write_file(rt, kept, b"a longer text than the new one");
    fs::set_permissions(rt, kept, Permissions::from_mode(0o640)).expect(rt, "they are set");
    link_file(rt, kept, link);
}

#[test]
fn real_files_are_replaced_whole(rt: HostRuntime) -> Result<(), Fail> {
    let alloc = rt.alloc();
    let folder = new_folder(&rt, "/port_tests_whole_")?;
    let kept = path(&rt, alloc, &folder, "/kept");
    let link = path(&rt, alloc, &folder, "/link");
    let fresh = path(&rt, alloc, &folder, "/fresh");
    let left_behind = path(&rt, alloc, &folder, "/.golvushem-0");
    write_kept(&rt, &kept, &link);
    write_file(&rt, &left_behind, b"left behind");
    let mut store = DiskStore::new(rt);
    replace_and_read(&rt, alloc, &mut store, &kept, b"one");
    replace_and_read(&rt, alloc, &mut store, &link, b"through");
    replace_and_read(&rt, alloc, &mut store, &fresh, b"new");
    check_file(&rt, "what the link names", &kept, b"through");
    let mode = mode_of(&rt, &kept).expect(&rt, "its permissions");
    assert!(rt; mode == 0o640, "the permissions of the file that was there");
    let stays = is_link(&rt, &link).expect(&rt, "what it is");
    assert!(rt; stays, "the link stays one");
    check_count(
        &rt,
        "kept, fresh, link and what was left behind",
        &folder,
        4,
    );
    remove_folder(&rt, &folder);
    Ok(())
}

/// Calls on devices, and on names in no folder.
const NO_FILES: &[Step] = &[
    Replace("/dev/null", b"gone", Ok(())),
    Begin("/dev/null", Ok(true)),
    Read(8, Some(b"")),
    // a device that is full
    Replace("/dev/full", b"full", Err(PortError::Failed)),
    // no folder
    Replace("/dev/null/none", b"new", Err(PortError::Failed)),
    Replace("no folder/none", b"new", Err(PortError::Failed)),
    Begin("no folder/none", Ok(false)),
];

#[test]
fn what_is_no_file_is_written_in_its_place(rt: HostRuntime) {
    let mut store = DiskStore::new(rt);
    follow(&rt, rt.alloc(), "no files", &mut store, NO_FILES);
    let device = fs::metadata(&rt, "/dev/null").expect(&rt, "the device is there");
    assert!(rt; !device.is_file(), "the device stays one");
}
