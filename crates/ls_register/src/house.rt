//! The name that all values and tokens of one server carry.

use std::marker::Brand;

/// Names one server, for contracts alone: the register on which all that belongs to it agrees, its adapter
/// set, and its items.
///
/// Of a value behind a lock only what its type keeps is known, so each type whose values have to agree on the register
/// has a parameter `N: House`. A caller that makes a server passes [`Brand`] to a function that is generic in `N`.
pub trait House {
    ghost use Rattle.ls_register.specs.Deeds.{Deed};

    /// The register's table, the name of the adapter set, and the items as they are declared.
    ghost deed: { Deed };
}

impl House for Brand {
    ghost use Rattle.ls_register.specs.Deeds.{no_deed};

    ghost deed = { no_deed };
}
