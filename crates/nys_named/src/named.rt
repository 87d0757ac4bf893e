//! The type of machines that are named.

ghost use Rattle.std.specs.Prelude.{◌≡◌, true};
ghost use Rattle.nys_tree.specs.Named.{is_named};

use nys_tree::Machine;

/// A machine in which each name passes the rules and has the place of what it stands for.
#[derive(Drop)]
pub struct Named {
    pub tree: Machine,
    pub ghost checked: { is_named tree ≡ true },
}

impl Named {
    /// The machine of a tree that is named.
    pub fn new(tree: Machine) -> Named
        requires { is_named tree ≡ true }
        ensures { result.tree ≡ tree }
    {
        Named { tree }
    }

    /// The tree, with a place at each name.
    pub fn tree(&self) -> &Machine
        ensures same { result.now ≡ self.now.tree }
        ensures named { is_named self.now.tree ≡ true }
    {
        &self.tree
    }
}
