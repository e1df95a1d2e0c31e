//! The keeper of a job book over a database of SQLite.
//!
//! A [`SqliteKeeper`] keeps a book in four tables. One change is one transaction: all of its statements or none,
//! whatever fails, also over a crash.
#![tactic(auto)]

mod commit;
mod held;
mod jobs;
mod keeper;
mod load;
mod make;
mod queries;
mod refusal;
mod rows;
mod run;
mod statement;
mod statements;
mod tables;

pub use keeper::SqliteKeeper;
