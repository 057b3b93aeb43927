// Laws of the model, each the contract of a function that does nothing.
ghost use Rattle.std.specs.Prelude.{◌≤◌, ℕ};
ghost use Rattle.conf_disk.specs.Image.{image_now};
ghost use Rattle.conf_disk.specs.Laws.{ImagesAreCuts, PrefixesAreTorn, ImagesRead, ImagesAreStable, ReadingIsAnImage, CallsLeaveNoOther};

use crate::Disk;

/// A law: a stage, counted from 0, [`Cuts`](crate::Cuts) that fit it, any [`Holes`](crate::Holes), and the note or
/// none, give an image that a crash may leave, and every image comes from such a choice. A prefix of the pending bytes
/// with zeros behind it is what a crash may leave of a file.
pub fn images_are_cuts()
    ensures images { ImagesAreCuts }
    ensures prefixes { PrefixesAreTorn }
{}

/// A law: what a crash leaves is what is then read, and every later crash leaves its bytes. It leaves the note if there
/// is one.
pub fn images_are_stable()
    ensures reads { ImagesRead }
    ensures stays { ImagesAreStable }
{}

/// A law: what is read is one of the images that a crash may leave.
pub fn reading_is_an_image()
    ensures { ReadingIsAnImage }
{}

/// A law: a crash within a call leaves nothing that a crash before or after the call doesn't.
pub fn calls_leave_no_other_image()
    ensures { CallsLeaveNoOther }
{}

/// A law of an honest disk: what is read is what a crash since any moment might have left.
pub fn what_reads_may_be_left<D: Disk>(_disk: &D)
    ensures { D.model.honest → (t : ℕ) → t ≤ D.model.moment _disk.now →
        D.model.left _disk.now t (image_now (D.model.folder _disk.now)) }
{}
