//! Whether an access control list says what a mode says.

ghost use Rattle.std.specs.Prelude.{◌≡◌, ◌≤◌, true};
ghost use Rattle.romfs_format.specs.Extended.{agrees, is_list};
ghost use Rattle.romfs_format.specs.Part.{list_count, numbered};

use crate::acl::acl_mode;
use crate::lists::Lists;

impl Lists<'_> {
    /// Whether a file of this mode may have the list with a number, counted from 1: its access
    /// control list, if it has one, permits what the mode does.
    #[tactic(auto, unfolding(romfs_format::specs::Extended::access_name))]
    pub fn agrees(&self, number: u32, mode: u32) -> bool
        requires there { number ≤ list_count self.now }
        requires right { is_list (numbered self.now number) ≡ true }
        ensures { result ≡ agrees mode (numbered self.now number) }
    {
        match self.value_of(number, b"system.posix_acl_access") {
            None => true,
            Some(acl) => mode % 512 == acl_mode(acl),
        }
    }
}
