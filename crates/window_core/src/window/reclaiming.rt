//! The memory of a turn's lines is used again.
ghost use Rattle.std.specs.Prelude.{◌≡◌, [], false};
ghost use Rattle.line_merge.specs.Sheaves.{merged};

use super::Window;
use line_merge::Sheaf;

impl Window {
    /// Has the memory of a sheaf's lines back, for groups that have told none; the sheaf is then
    /// empty. No memory is taken.
    pub fn reclaim(&mut self, sheaf: &mut Sheaf)
        requires { self.old.out ≡ false }
        ensures same { self.new ≡ self.old }
        ensures empty { (merged sheaf.new).lines ≡ [] }
    {
        self.group_table.reclaim(sheaf);
    }
}
