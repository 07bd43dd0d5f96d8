//! The list of the tests of this crate, by subject.

mod board;
mod edges;
mod lanes;
mod links;
mod near;
mod plain;
mod reasons;
mod replies;
mod reports;
mod rows;
mod schedules;
mod steps;
mod texts;
mod watching;
mod work;
mod work_reasons;
