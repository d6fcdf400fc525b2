//! Beyond the clauses and the rows: devices that fail, stop or are interrupted, and how input is
//! parted.

mod budget;
mod check;
mod full;
mod input;
mod run;
