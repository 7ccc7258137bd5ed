//! Logs in files of this machine, and on a device that is always full.

use super::appends;
use crate::{FileLog, Log, LogFailed, ReadAllFault};
use std::fs::File;
use std::path::{Path, PathBuf};
use std::process::Abort;
use std::rt::{Env, Files};
use std::{env, fs, process};

// A path of this test in this process alone.
fn own_path<R: Env + AllocGlobal + Abort>(rt: &R, test: &str, process: u32) -> PathBuf {
    let name = format!(in rt.alloc(); "cs_log-{test}-{process}").expect(rt, "memory");
    let folder = env::temp_dir(rt).expect(rt, "a folder");
    folder.join(rt.alloc(), name.as_str()).expect(rt, "memory")
}

// The file of this path as a log, which is made where there is none.
fn opened<R: Files<File = File> + AllocGlobal + Abort>(rt: &R, path: Path<'_>) -> FileLog {
    let mut how = File::options();
    how.read(true).write(true).create(true);
    FileLog::new(rt.alloc(), how.open(rt, path).expect(rt, "a file"))
}

// The log has these bytes.
fn has<L: Log>(rt: &impl Abort, log: &mut L, bytes: &[u8]) {
    let all = log.read_all().expect(rt, "read");
    assert_eq!(rt; all.as_slice(), bytes);
}

#[test]
fn a_file_is_opened_again_cut_and_read(rt: HostRuntime) {
    let path = own_path(&rt, "again", process::id(rt.process()));
    let mut log = opened(&rt, path.as_path());
    assert!(rt; appends(&rt, &mut log, b"abc"));
    assert!(rt; appends(&rt, &mut log, b"defg"));
    assert!(rt; log.sync().is_ok());
    drop(log);

    let mut log = opened(&rt, path.as_path());
    fs::remove_file(&rt, path.as_path()).expect(&rt, "removed");
    has(&rt, &mut log, b"abcdefg");
    assert!(rt; log.cut(5).is_ok());
    has(&rt, &mut log, b"abcde");
    // so many bytes there aren't
    assert!(rt; log.cut(9).is_ok());
    assert!(rt; appends(&rt, &mut log, b"h"));
    assert!(rt; log.sync().is_ok());
    has(&rt, &mut log, b"abcdeh");
    assert_eq!(rt; log.faults(), 0);
}

#[test]
fn a_full_disk_fails_the_append(rt: HostRuntime) {
    let mut log = opened(&rt, Path::new("/dev/full"));
    assert!(rt; !appends(&rt, &mut log, b"abc"));
    assert_eq!(rt; log.faults(), 1);
    // a device can't be synced
    assert_eq!(rt; log.sync(), Err(LogFailed));
    assert_eq!(rt; log.faults(), 2);
}

#[test]
fn what_the_file_was_not_opened_for_fails(rt: HostRuntime) {
    let path = own_path(&rt, "opened", process::id(rt.process()));
    fs::write(&rt, path.as_path(), "ab").expect(&rt, "written");
    let file = File::open(&rt, path.as_path()).expect(&rt, "a file");
    let mut readable = FileLog::new(rt.alloc(), file);
    let file = File::options()
        .write(true)
        .open(&rt, path.as_path())
        .expect(&rt, "a file");
    let mut writable = FileLog::new(rt.alloc(), file);
    fs::remove_file(&rt, path.as_path()).expect(&rt, "removed");

    assert!(rt; !appends(&rt, &mut readable, b"c"));
    assert_eq!(rt; readable.cut(1), Err(LogFailed));
    has(&rt, &mut readable, b"ab");
    assert_eq!(rt; readable.faults(), 2);
    assert_eq!(rt; writable.read_all().err(), Some(ReadAllFault::Failed));
    assert_eq!(rt; writable.faults(), 1);
}
