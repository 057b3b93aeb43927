// Laws of the model, each the contract of a function that does nothing.
ghost use Rattle.file_calls.specs.Laws.{ReadingIsLeft, CallsLeaveNoOther, DeviceIsLeft};

/// A law: what is read is one of the images that a crash may leave.
pub fn reading_is_left()
    ensures { ReadingIsLeft }
{}

/// A law: a crash within a call leaves nothing that a crash before or after the call doesn't.
pub fn calls_leave_no_other_image()
    ensures { CallsLeaveNoOther }
{}

/// A law: of a file of which the device has all bytes, and has the name, a crash leaves what is read.
pub fn on_the_device_is_left()
    ensures { DeviceIsLeft }
{}
