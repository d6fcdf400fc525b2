//! Beyond the clauses: each call succeeds with ample memory, the worked examples, and the same
//! generic code at dense and at sparse ids.

mod cache;
mod containers;
mod pool;
mod provider;
mod write;
