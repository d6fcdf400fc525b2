//! Beyond the clauses and the rows: devices that fail, stop or are interrupted. And each call, with
//! ample memory, that the program doesn't make by itself.

mod catalogue;
mod entries;
mod judge;
mod report;
mod text;
