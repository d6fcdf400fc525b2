//! A table of truth values that is never cleared: a value counts in the pass that set it.
//! Its model is a function from variables to known values. Used by `rup`.

ghost use Rattle.std.specs.Prelude.{◌≡◌, ◌<◌, ◌≤◌, ◌^◌, ◌+◌, ℕ, OnOk, OnErr, vec_len, All};
ghost use Rattle.std.specs.Bool.{nat_eq};
ghost use Rattle.resolvo_pool_core.specs.OnePass.{assign, nothing};
ghost use Rattle.resolvo_checker.specs.Truth.{known_in};

use std::alloc::{AllocError, Global};

/// A value, if one was set, and the pass that set it.
#[derive(Clone, Copy)]
pub struct Mark {
    pub pass: u32,
    pub value: Option<bool>,
}

/// The values that the present pass has assigned.
#[derive(Drop)]
pub struct Assignment {
    pub marks: Vec<Mark>,
    pub pass: u32,
    ghost not_later: { All (λ m. m.pass ≤ pass) marks.items },
}

impl Assignment {
    pub fn new(alloc: Global) -> Self
        ensures { result.pass ≡ 0 }
    {
        Assignment {
            marks: Vec::new(alloc),
            pass: 0,
        }
    }

    /// Begins a pass with a number above those before it. Nothing is known in it yet.
    pub fn begin(&mut self, pass: u32)
        requires { self.old.pass < pass }
        ensures nothing { known_in self.new.marks.items self.new.pass ≡ nothing }
        ensures pass { self.new.pass ≡ pass }
    {
        self.pass = pass;
    }

    /// The value of a variable in this pass, if it has one.
    pub fn known(&self, variable: usize) -> Option<bool>
        ensures { result ≡ known_in self.now.marks.items self.now.pass variable }
    {
        match self.marks.get(variable) {
            Some(mark) if mark.pass == self.pass => mark.value,
            _ => None,
        }
    }

    fn push_unset(&mut self) -> Result<(), AllocError>
        ensures len { OnOk result (vec_len self.new.marks ≡ vec_len self.old.marks + 1) }
        ensures known { known_in self.new.marks.items self.new.pass
            ≡ known_in self.old.marks.items self.old.pass }
        ensures pass { self.new.pass ≡ self.old.pass }
    {
        self.marks.push(Mark {
            pass: 0,
            value: None,
        })?;
        Ok(())
    }

    /// Makes room for the variable.
    fn reach(&mut self, variable: usize) -> Result<(), AllocError>
        ensures len { OnOk result (variable < vec_len self.new.marks) }
        ensures known { known_in self.new.marks.items self.new.pass
            ≡ known_in self.old.marks.items self.old.pass }
        ensures pass { self.new.pass ≡ self.old.pass }
    {
        for _ in self.marks.len()..variable {
            self.push_unset()?;
        }
        if self.marks.len() == variable {
            self.push_unset()?;
        }
        Ok(())
    }

    fn put(&mut self, variable: usize, value: bool)
        requires { variable < vec_len self.old.marks }
        ensures known { known_in self.new.marks.items self.new.pass
            ≡ assign nat_eq (known_in self.old.marks.items self.old.pass)
            (record { atom = variable; positive = value }) }
        ensures pass { self.new.pass ≡ self.old.pass }
    {
        let pass = self.pass;
        self.marks[variable] = Mark {
            pass,
            value: Some(value),
        };
    }

    /// Gives a variable its value in this pass.
    pub fn set(&mut self, variable: usize, value: bool) -> Result<(), AllocError>
        ensures known { OnOk result
            (known_in self.new.marks.items self.new.pass
            ≡ assign nat_eq (known_in self.old.marks.items self.old.pass)
            (record { atom = variable; positive = value })) }
        ensures pass { self.new.pass ≡ self.old.pass }
    {
        self.reach(variable)?;
        self.put(variable, value);
        Ok(())
    }
}
