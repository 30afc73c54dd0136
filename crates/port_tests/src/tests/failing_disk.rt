//! Real files on a disk that fails at listed calls, in ways that a test can't make a real disk fail.
use super::Step::{Begin, Read as Take, Replace};
use super::real_files::{
    check_count, check_file, link_file, new_folder, path, remove_folder, write_file,
};
use super::{FAILED, follow_step};
use file_port::{DiskStore, PortError};
use std::alloc::Allocator;
use std::fs::{File, Metadata, OpenFile, OpenOptions, Permissions};
use std::io::{self, ErrorKind, Read, Seek, SeekFrom, Write};
use std::rt::Files;
use std::test::Fail;

/// A call that fails, or how.
#[derive(Clone, Copy, PartialEq, Eq)]
enum Fault {
    Nothing,
    /// Opening a file is not permitted.
    Denied,
    /// Opening a file fails for another reason.
    Strange,
    /// What a name stands for can't be looked at.
    Look,
    /// Each read with an odd number is interrupted.
    Interrupted,
    /// The second read fails.
    SecondRead,
    /// The disk is full before the last byte of a write.
    Write,
    /// Permissions can't be set.
    Permissions,
    /// The disk is full, and says so when bytes that were written are flushed.
    Flush,
    /// A file can't be renamed.
    Rename,
}

/// At most two faults.
type Faults = (Fault, Fault);

const NO_FAULT: Faults = (Fault::Nothing, Fault::Nothing);

/// The real files on a disk with these faults.
#[derive(Clone, Copy)]
struct FailingDisk {
    rt: HostRuntime,
    faults: Faults,
}

/// A file of such a disk.
#[derive(Drop)]
struct FailingFile {
    file: File,
    faults: Faults,
    reads: u32,
}

/// Whether the fault is one of these.
fn has(faults: Faults, fault: Fault) -> bool {
    faults.0 == fault || faults.1 == fault
}

/// The error, where the fault is one of these.
fn unless(faults: Faults, fault: Fault, kind: ErrorKind) -> io::Result<()> {
    if has(faults, fault) {
        Err(kind.into())
    } else {
        Ok(())
    }
}

impl Read for FailingFile {
    /// One byte a call.
    fn read(&mut self, buf: &mut [u8]) -> io::Result<usize> {
        self.reads = self.reads.saturating_add(1);
        if self.reads % 2 == 1 {
            unless(self.faults, Fault::Interrupted, ErrorKind::Interrupted)?;
        }
        if self.reads == 2 {
            unless(self.faults, Fault::SecondRead, ErrorKind::Other)?;
        }
        let end = buf.len().min(1);
        self.file.read(&mut buf[..end])
    }
}

impl Write for FailingFile {
    /// All but the last byte, where a write is to fail, and the fault in the next call.
    fn write(&mut self, buf: &[u8]) -> io::Result<usize> {
        match buf.split_last() {
            Some((_, front)) if has(self.faults, Fault::Write) && !front.is_empty() => {
                self.file.write(front)
            }
            _ => {
                unless(self.faults, Fault::Write, ErrorKind::StorageFull)?;
                self.file.write(buf)
            }
        }
    }

    fn flush(&mut self) -> io::Result<()> {
        self.file.flush()
    }
}

impl Seek for FailingFile {
    fn seek(&mut self, to: SeekFrom) -> io::Result<u64> {
        self.file.seek(to)
    }
}

impl OpenFile for FailingFile {
    fn metadata(&self) -> io::Result<Metadata> {
        self.file.metadata()
    }

    fn set_len(&self, size: u64) -> io::Result<()> {
        self.file.set_len(size)
    }

    /// A file without bytes has nothing to flush that could fail.
    fn sync_all(&self) -> io::Result<()> {
        if self.file.metadata()?.len() > 0 {
            unless(self.faults, Fault::Flush, ErrorKind::StorageFull)?;
        }
        self.file.sync_all()
    }

    fn sync_data(&self) -> io::Result<()> {
        self.file.sync_data()
    }

    fn set_permissions(&self, permissions: Permissions) -> io::Result<()> {
        unless(self.faults, Fault::Permissions, ErrorKind::PermissionDenied)?;
        self.file.set_permissions(permissions)
    }
}

impl Files for FailingDisk {
    type File = FailingFile;

    type Dir = FailingFile;

    fn open_file(&self, how: &OpenOptions, path: &str) -> io::Result<FailingFile> {
        unless(self.faults, Fault::Denied, ErrorKind::PermissionDenied)?;
        unless(self.faults, Fault::Strange, ErrorKind::Other)?;
        Ok(FailingFile {
            file: self.rt.open_file(how, path)?,
            faults: self.faults,
            reads: 0,
        })
    }

    fn open_dir(&self, _path: &str) -> io::Result<FailingFile> {
        Err(ErrorKind::Unsupported.into())
    }

    fn metadata(&self, path: &str) -> io::Result<Metadata> {
        self.rt.metadata(path)
    }

    fn symlink_metadata(&self, path: &str) -> io::Result<Metadata> {
        unless(self.faults, Fault::Look, ErrorKind::Unsupported)?;
        self.rt.symlink_metadata(path)
    }

    fn copy(&self, from: &str, to: &str) -> io::Result<u64> {
        self.rt.copy(from, to)
    }

    fn rename(&self, from: &str, to: &str) -> io::Result<()> {
        unless(self.faults, Fault::Rename, ErrorKind::Other)?;
        self.rt.rename(from, to)
    }

    fn remove_file(&self, path: &str) -> io::Result<()> {
        self.rt.remove_file(path)
    }

    fn create_dir(&self, path: &str) -> io::Result<()> {
        self.rt.create_dir(path)
    }

    fn remove_dir(&self, path: &str) -> io::Result<()> {
        self.rt.remove_dir(path)
    }

    fn remove_dir_all<B: Allocator>(&self, alloc: B, path: &str) -> io::Result<()> {
        self.rt.remove_dir_all(alloc, path)
    }
}

/// The name of a row, the faults of the disk, and what the reads of a file give that holds `ab`.
const READS: &[(&str, Faults, &[Option<&'static [u8]>])] = &[
    (
        "each read is interrupted once",
        (Fault::Interrupted, Fault::Nothing),
        &[Some(b"a"), Some(b"b"), Some(b"")],
    ),
    (
        "the second read fails",
        (Fault::SecondRead, Fault::Nothing),
        &[Some(b"a"), None, Some(b"")],
    ),
];

/// A store on a disk with these faults.
fn store_with(rt: HostRuntime, faults: Faults) -> DiskStore<FailingDisk> {
    DiskStore::new(FailingDisk { rt, faults })
}

#[test]
fn reads_are_tried_again_or_fail(rt: HostRuntime) -> Result<(), Fail> {
    let alloc = rt.alloc();
    let folder = new_folder(&rt, "/port_tests_reads_")?;
    let name = path(&rt, alloc, &folder, "/two");
    write_file(&rt, &name, b"ab");
    for (row, faults, reads) in READS {
        let mut store = store_with(rt, *faults);
        follow_step(&rt, alloc, row, &mut store, Begin(&name, Ok(true)));
        for wanted in *reads {
            follow_step(&rt, alloc, row, &mut store, Take(4, *wanted));
        }
    }
    remove_folder(&rt, &folder);
    Ok(())
}

/// A fault of opening, and what begins then with a file that is missing.
const BEGINS: &[(&str, Faults, Result<bool, PortError>)] = &[
    ("none", NO_FAULT, Ok(false)),
    ("no permission", (Fault::Denied, Fault::Nothing), FAILED),
    ("another reason", (Fault::Strange, Fault::Nothing), FAILED),
];

#[test]
fn what_is_missing_is_no_fault(rt: HostRuntime) {
    for (row, faults, wanted) in BEGINS {
        let mut store = store_with(rt, *faults);
        let step = Begin("no folder/gone", *wanted);
        follow_step(&rt, rt.alloc(), row, &mut store, step);
    }
}

/// Faults of a replace by a new file, each with the name of its row.
const BESIDE: &[(&str, Faults)] = &[
    ("no permission", (Fault::Denied, Fault::Nothing)),
    ("a write", (Fault::Write, Fault::Nothing)),
    ("permissions", (Fault::Permissions, Fault::Nothing)),
    ("a flush", (Fault::Flush, Fault::Nothing)),
    ("a rename", (Fault::Rename, Fault::Nothing)),
];

#[test]
fn a_failed_replace_leaves_the_file_and_no_other(rt: HostRuntime) -> Result<(), Fail> {
    let folder = new_folder(&rt, "/port_tests_failed_")?;
    let kept = path(&rt, rt.alloc(), &folder, "/kept");
    write_file(&rt, &kept, b"old");
    for (row, faults) in BESIDE {
        let mut store = store_with(rt, *faults);
        let step = Replace(&kept, b"new", Err(PortError::Failed));
        follow_step(&rt, rt.alloc(), row, &mut store, step);
        check_file(&rt, row, &kept, b"old");
        check_count(&rt, row, &folder, 1);
    }
    remove_folder(&rt, &folder);
    Ok(())
}

/// Faults of a replace by a link, which is written in place, and what it answers.
const IN_PLACE: &[(&str, Faults, Result<(), PortError>)] = &[
    ("none", NO_FAULT, Ok(())),
    ("a look", (Fault::Look, Fault::Nothing), Ok(())),
    (
        "no permission",
        (Fault::Denied, Fault::Nothing),
        Err(PortError::Failed),
    ),
    (
        "a write",
        (Fault::Write, Fault::Nothing),
        Err(PortError::Failed),
    ),
    (
        "a flush",
        (Fault::Flush, Fault::Nothing),
        Err(PortError::Failed),
    ),
    (
        "a look and no permission",
        (Fault::Look, Fault::Denied),
        Err(PortError::Failed),
    ),
    (
        "a look and a write",
        (Fault::Look, Fault::Write),
        Err(PortError::Failed),
    ),
    (
        "a look and a flush",
        (Fault::Look, Fault::Flush),
        Err(PortError::Failed),
    ),
];

#[test]
fn faults_in_place_are_told(rt: HostRuntime) -> Result<(), Fail> {
    let folder = new_folder(&rt, "/port_tests_in_place_")?;
    let kept = path(&rt, rt.alloc(), &folder, "/kept");
    let link = path(&rt, rt.alloc(), &folder, "/link");
    write_file(&rt, &kept, b"old");
    link_file(&rt, &kept, &link);
    for (row, faults, wanted) in IN_PLACE {
        let mut store = store_with(rt, *faults);
        let step = Replace(&link, b"new", *wanted);
        follow_step(&rt, rt.alloc(), row, &mut store, step);
    }
    check_count(&rt, "the file and the link", &folder, 2);
    remove_folder(&rt, &folder);
    Ok(())
}
