//! Changes of the permissions of a file or directory.
ghost use Rattle.std.specs.Prelude.{◌≡◌, ℕ};
ghost use Rattle.command_terms.specs.Permissions.{change_to, changed_permissions, followed_by};

/// A change of permissions: of the twelve bits that a file or directory has, some are kept, and then some are set.
#[derive(Clone, Copy)]
pub struct PermissionChange {
    /// The bits that stay as they are; all others are cleared.
    pub kept: u16,
    /// The bits that are set, after the others were cleared.
    pub set: u16,
}

impl PermissionChange {
    /// Returns the change to these permissions, whatever they were before.
    #[tactic(auto, using(crate::proofs::ChangedPermissions::always))]
    pub fn to(permissions: u16) -> PermissionChange
        ensures exact { result ≡ change_to permissions }
        ensures always { (old : ℕ) → changed_permissions result old ≡ permissions }
    {
        PermissionChange {
            kept: 0,
            set: permissions,
        }
    }

    /// Returns the permissions after the change, by those before it.
    #[tactic(auto, unfolding(crate::specs::Permissions::changed_permissions))]
    pub fn apply(self, permissions: u16) -> u16
        ensures { result ≡ changed_permissions self permissions }
    {
        permissions & self.kept | self.set
    }

    /// Returns the change that is this one, and then another.
    #[tactic(auto, using(crate::proofs::ChangedPermissions::in_turn))]
    pub fn followed_by(self, next: PermissionChange) -> PermissionChange
        ensures exact { result ≡ followed_by self next }
        ensures in_turn { (old : ℕ) → changed_permissions result old ≡ changed_permissions next (changed_permissions self old) }
    {
        PermissionChange {
            kept: self.kept & next.kept,
            set: self.set & next.kept | next.set,
        }
    }
}
