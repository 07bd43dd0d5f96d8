//! The list of the tests of this crate, by subject.

mod drawn;
mod explained;
mod helps;
mod hostile;
mod long;
mod notes;
mod progress;
mod runs;
mod scarce;
mod words;
mod work;
