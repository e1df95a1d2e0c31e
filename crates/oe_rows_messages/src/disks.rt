// A database over disks in memory, which fail from a call on and crash.
use crate::keeping::take;
use oe_lines::{Answers, push};
use sqlite::{Connection, FileStore, Files, Options};
use sqlite_disk::{Crash, Disk, Fuse, Memory};
use std::alloc::Global;

/// The disks of a database and of its log.
pub(crate) struct Disks {
    files: Files<Fuse<Memory>>,
}

/// Written out, so that disks that end are one call wherever they do.
impl Drop for Disks {
    fn drop(self) {
        let Disks { files: _ } = self;
    }
}

impl Disks {
    /// Two empty disks.
    pub(crate) fn new(alloc: Global) -> Disks {
        Disks::failing(alloc, u64::MAX, u64::MAX)
    }

    /// Two empty disks, of which the log's and the database's fail from the calls of these numbers on.
    pub(crate) fn failing(alloc: Global, log: u64, db: u64) -> Disks {
        Disks {
            files: Files {
                log: Fuse::new(Memory::new(alloc), log),
                db: Fuse::new(Memory::new(alloc), db),
            },
        }
    }

    /// What was not synced is lost, and no call fails from now on.
    pub(crate) fn crash(&mut self) {
        self.files.log.crash();
        self.files.db.crash();
    }

    /// The database's own file.
    pub(crate) fn bytes(&self) -> &[u8] {
        self.files.db.inner().bytes()
    }

    /// The disks after a line was taken over the database on them, whose log is copied once it has so many pages, and
    /// behind the line. Appends what the line answers, or that the database could not be opened.
    pub(crate) fn pass(
        self,
        alloc: Global,
        pages: usize,
        line: &str,
        answers: &mut Answers,
    ) -> Disks {
        let Disks { files } = self;
        Disks {
            files: files_after(alloc, files, pages, line, answers),
        }
    }
}

// Generic, as what follows is, so that what is said of a database is not proved of these disks.
/// The files after a line, likewise.
fn files_after<D: Disk + Drop>(
    alloc: Global,
    files: Files<D>,
    pages: usize,
    line: &str,
    answers: &mut Answers,
) -> Files<D> {
    match open(alloc, files, pages) {
        Ok(conn) => close(take(alloc, conn, line, answers)),
        Err(files) => {
            push("not opened\n", answers);
            files
        }
    }
}

/// The database on files, whose log is copied once it has so many pages. Refuses: files that may not be used, or on which
/// there is none that can be opened.
fn open<D: Disk + Drop>(
    alloc: Global,
    files: Files<D>,
    pages: usize,
) -> Result<Connection<FileStore<D>>, Files<D>> {
    if !files.may_be_used() {
        return Err(files);
    }
    let mut options = Options::new(1);
    options.checkpoint_frames = pages;
    match Connection::open_files(alloc, files, options) {
        Ok(conn) => Ok(conn),
        Err((_, left)) => Err(left.into_files()),
    }
}

/// The disks of a database. Its log is copied before, unless a disk fails.
fn close<D: Disk + Drop>(conn: Connection<FileStore<D>>) -> Files<D> {
    match conn.close_files() {
        Ok(files) => files,
        Err((_, store)) => store.close(),
    }
}
