ghost use Rattle.std.specs.Prelude.{◌≡◌, ◌==◌, [], ◌∷◌, ◌++◌, OnOk, OnErr};
ghost use Rattle.xs_base.specs.Failing.{failing};

use std::alloc::{AllocError, Global};
use std::marker::Model;

/// A call that fails, and how much of its write stands.
#[derive(Clone, Copy, Debug, PartialEq, Eq, Drop)]
pub struct Fail {
    /// Which call, counted from 1.
    pub call: u64,
    /// How many bytes of a failing write stand, or all of them where it has fewer. `None`: the old bytes
    /// of a file stay, and a sink takes none. Calls that read make nothing of it.
    pub stands: Option<u32>,
}

/// A list of calls that fail. Of several entries for one call the first counts.
#[derive(Drop)]
pub struct Fails {
    items: Vec<Fail>,
}

impl Model for Fails {
    ghost use Rattle.std.specs.Prelude.{List};
    ghost use Rattle.xs_base.specs.declared.fails.Fail.{Fail};

    ghost Value = { List Fail };

    ghost view = { λ a. a.items.items };
}

impl Fails {
    /// No call fails. Takes no memory.
    pub fn new(alloc: Global) -> Fails
        ensures { result ≡ [] }
    {
        Fails {
            items: Vec::new(alloc),
        }
    }

    /// One entry more, at the end. Where memory for it is wanting, all stays as before.
    pub fn push(&mut self, fail: Fail) -> Result<(), AllocError>
        ensures ok { OnOk result (self.new ≡ self.old ++ fail ∷ []) }
        ensures err { OnErr result (self.new ≡ self.old) }
    {
        self.items.push(fail)?;
        Ok(())
    }

    pub(crate) fn at(&self, call: u64) -> Option<Fail>
        ensures { result ≡ failing self.now call }
    {
        self.items.iter().copied().find(|fail| fail.call == call)
    }
}
