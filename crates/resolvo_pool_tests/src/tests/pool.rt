//! Each call of the pool that may want memory, once, with ample memory. Its answers are promised by the
//! contracts; `checks/calls.py` shows some of them.

use resolvo_pool::{Condition, NameId, Pool, R, VersionSet, VersionSetId};
use std::alloc::Global;

/// Versions up to a number.
#[derive(Clone, Copy, Debug, Drop, PartialEq, Eq, Hash)]
struct UpTo(u32);

impl VersionSet for UpTo {
    type V = u32;
}

fn intern_each(pool: &mut Pool<UpTo>) -> R<()> {
    pool.intern_package_name("x")?;
    pool.intern_string("old")?;
    pool.intern_solvable(NameId::from_raw(0), 9)?;
    pool.intern_version_set(NameId::from_raw(0), UpTo(5))?;
    pool.intern_version_set_union(VersionSetId(3), &[VersionSetId(4)])?;
    pool.intern_condition(Condition::Requirement(VersionSetId(0)))?;
    Ok(())
}

fn interned(alloc: Global) -> R<()> {
    intern_each(&mut Pool::new(alloc))
}

#[test]
fn each_kind(rt: HostRuntime) {
    assert_eq!(rt; interned(rt.alloc()), Ok(()));
}
