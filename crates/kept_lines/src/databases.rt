//! Where the databases of files are opened, and when.

ghost use Rattle.std.specs.Prelude.{ℕ, Bool, List, Result, IfOk};
ghost use Rattle.sqlite.specs.Files.{file_state};
ghost use Rattle.kept_lines.specs.Begun.{WasReady};
ghost use Rattle.sqlite.specs.declared.error.Error.{Error};
ghost use Rattle.kept_lines.specs.declared.databases.Database.{Database};

use sqlite::{Connection, Error, ErrorCode, File, FileStore, Unknown};
use std::time::{Duration, SystemTime, UNIX_EPOCH};
use std::{fs, thread};

// How many milliseconds pass between two tries to open a file that is in use.
const PAUSE: u64 = 100;

/// The database of a file, open. Nobody else has the file meanwhile.
#[derive(Drop)]
pub struct Database {
    pub conn: Connection<FileStore<File>>,
}

/// Where the databases of files are opened. The runtime opens them.
pub trait Databases {
    // Whether a file of a path may be told to be there.
    ghost may_be_there: { Self → List ℕ → Bool → Type 0 } = { λ _ _ _. Unit {0} };
    // What an open of a path may give that waits at most so many seconds.
    ghost may_open: { Self → List ℕ → ℕ → Result Database Error → Type 0 } = { λ _ _ _ _. Unit {0} };

    // Which time it may be.
    ghost may_be_time: { Self → ℕ → Type 0 } = { λ _ _. Unit {0} };

    /// Whether there is a file of this path; also if that cannot be told.
    fn is_there(&self, path: &str) -> bool
        ensures { may_be_there self.now path.now result };

    /// Opens the database in a file, and makes the file if there is none. While another has the file it is tried again, some ten
    /// times a second, for so many seconds.
    ///
    /// # Errors
    /// What SQLite says: another has the file open, it is no database, a bit of it has changed, or it cannot be opened.
    fn open_database(&self, path: &str, seconds: u32) -> Result<Database, Error>
        ensures opened { may_open self.now path.now seconds result }
        ensures ready { IfOk result (λ it. WasReady (file_state it.conn)) };

    /// Copies what a connection committed into its file, and closes it.
    ///
    /// # Errors
    /// What SQLite says. What was committed is then in the log beside the file, and the next open finds it.
    fn close_database(&self, it: Database) -> Result<(), Error>;

    /// The milliseconds since 1970, or 0 if the clock tells none.
    fn milliseconds(&self) -> u64
        ensures { may_be_time self.now result };
}

// Opens the database in a file, unless another has it.
fn open_once(rt: &HostRuntime, path: &str) -> Result<Database, Error>
    ensures ready { IfOk result (λ it. WasReady (file_state it.conn)) }
{
    match Connection::open_from(rt, path, true, Unknown) {
        Ok(conn) => Ok(Database { conn }),
        Err((error, _)) => Err(error),
    }
}

// Whether an open failed because another has the file.
fn is_in_use(opened: &Result<Database, Error>) -> bool {
    matches!(opened, Err(Error::SqliteFailure(ErrorCode::DatabaseBusy)))
}

impl Databases for HostRuntime {
    fn is_there(&self, path: &str) -> bool {
        fs::exists(self, path).unwrap_or(true)
    }

    fn open_database(&self, path: &str, seconds: u32) -> Result<Database, Error> {
        for _ in 0..u64::from(seconds) * 10 {
            let opened = open_once(self, path);
            if !is_in_use(&opened) {
                return opened;
            }
            thread::sleep(self, Duration::from_millis(PAUSE));
        }
        open_once(self, path)
    }

    fn close_database(&self, it: Database) -> Result<(), Error> {
        let Database { conn } = it;
        conn.close()
    }

    fn milliseconds(&self) -> u64 {
        let Ok(now) = SystemTime::now(self) else {
            return 0;
        };
        match now.duration_since(UNIX_EPOCH) {
            Ok(passed) => u64::try_from(passed.as_millis()).unwrap_or(0),
            Err(_) => 0,
        }
    }
}
