// Whether several records may have waited for one sync.
ghost use Rattle.std.specs.Prelude.{◌≡◌};
ghost use Rattle.conf_store.specs.Holes.{is_several};
ghost use Rattle.conf_store.specs.Prelude.{several_waited};

use conf_disk::Disk;

/// How many records may have waited for one sync when the machine stopped. So what a hole in a file is depends on it: a
/// hole is a piece with a zero in the place of bytes that were not synced.
#[derive(Clone, Copy, Debug, PartialEq, Eq)]
pub enum Waiting {
    /// One at most. A crash leaves no record behind a hole, so a hole with a record behind it is damage.
    One,
    /// Several. A crash may leave records behind a hole.
    Several,
}

impl Waiting {
    /// What the disk has noted.
    pub fn noted_on<D: Disk>(disk: &D) -> Waiting
        ensures { D.model.honest → is_several result ≡ several_waited (D.model.folder disk.now) }
    {
        if disk.several_waited() {
            Waiting::Several
        } else {
            Waiting::One
        }
    }
}
