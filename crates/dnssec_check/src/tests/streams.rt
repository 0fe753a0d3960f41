//! How readers and writers are called, which no clause can say.

mod captured;
mod counted;
mod files;
mod pieces;
