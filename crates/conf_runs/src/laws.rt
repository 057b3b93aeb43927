// What runs of the program keep of the store in a folder, and of files.
ghost use Rattle.conf_runs.specs.ByCalls.{ReplacesByCalls};
ghost use Rattle.conf_runs.specs.Example.{FirstExample};
ghost use Rattle.conf_runs.specs.Files.{FilesModel, KeepsFiles};
ghost use Rattle.conf_runs.specs.Reads.{OthersStay, ReadsSeeWrites};
ghost use Rattle.conf_runs.specs.Restyled.{RestyledFilesHold};
ghost use Rattle.conf_runs.specs.Runs.{RunsHold};
ghost use Rattle.conf_disk.specs.Image.{Image};
ghost use Rattle.std.specs.Prelude.{ℕ, List};

use conf_disk::reading_is_an_image;
use conf_record::{documents_are_read, documents_close};
use conf_store::bytes_mean_one_state;
use conf_tools::{World, call_holds};
use file_calls::FileCalls;
use yaml_grammar::one_tree;
use yaml_recognizers::texts::unambiguous;

/// A world of which one knows what a crash leaves of its folders.
pub trait Folders: World {
    /// What a crash at a moment leaves of the folder at a path.
    ghost leaves: { Self → List ℕ → Image → Type 0 };
}

/// A world of which one knows what a crash leaves of the files that are replaced in it.
pub trait Files: World {
    /// What a crash at a moment leaves of the file at a path, and which paths lead to a place.
    ghost files: { FilesModel Self Self.Place };
}

/// Whatever crashes happen within and between runs of the program, no change is lost that was acknowledged, and none is
/// kept that was not accepted.
///
/// Take any list of runs of [`perform`](conf_tools::perform), with any words, and the store in one folder. Each run
/// returned, with any status, or was cut off at any moment. The next run finds a folder of which a crash leaves no more
/// than it may have left then. So a crash may come between two runs, or not. Let each image that a crash leaves of the
/// folder before the first run mean a state, as a folder without `store.yaml` means the empty one; these states may
/// differ. Then each image that a crash leaves of it in the end means what is kept of the runs makes of one of these
/// states. Of each run in turn that is a prefix of the commands that it accepted. If the run returned, the prefix has
/// each command whose answer it wrote; and where a word that changes the store had the status
/// [`Done`](conf_tools::Status::Done), the prefix is its change. If a session was cut off, the prefix has each command
/// whose answer its output had begun to take, as far as it noted that
/// ([`AnswerSink::handings`](conf_session::AnswerSink)).
///
/// A backup or a salvage into the folder is kept whole or not at all: whole if its status was `Done`. Then the state is
/// the one that the other store's file meant, or at a salvage the one that stands before the first bad piece of it. The
/// state in its place was that of a folder without a store. A world has to promise for both that it hands out no disk
/// that has a store, where a new one is to be made.
///
/// It holds of honest disks, in a world that keeps its folders: a folder changes by what is done on the disk that the
/// world hands out for it, and no file that the words of `format -i` name is that of a store.
pub fn runs_hold<A: Folders>()
    ensures { (honest : A.Disk.model.honest) (path : List ℕ)
        → RunsHold A.model A.Disk.model A.File.remaining honest A.leaves path }
{
    bytes_mean_one_state();
    reading_is_an_image();
    documents_are_read();
    documents_close();
    call_holds::<A::Disk>();
}

/// What a run wrote, a later one reads.
///
/// Take a run of `set` or `import` whose status was [`Done`](conf_tools::Status::Done), and the value that it put at
/// its place. The last step of the pointer of a `set` may not be `-`, which is another place for each `set`. Then come
/// any runs, with any words, which returned or were cut off. Whatever is kept of each one's commands turns the value
/// there into the next one, or leaves it. Crashes may have come within these runs, after any of them, or not at all.
///
/// Then a run of `get` of the store as it is, or of `export` if the place is a whole configuration, writes the last
/// value in the form asked for, if the form shows it, and its status is `Done`. Or it writes nothing, since memory ran
/// out. Or its status is [`Device`](conf_tools::Status::Device), since the device, a stream or the folder's lock
/// failed.
///
/// A run leaves the value if all commands that it accepted are of other configurations, or if it accepted none
/// (`others`).
///
/// It holds of honest disks, in a world that keeps its folders, and reads of a folder what a crash may leave of it.
pub fn reads_see_writes<A: Folders>()
    ensures others { (honest : A.Disk.model.honest) (path name pointer : List ℕ)
        → OthersStay A.model A.Disk.model A.File.remaining honest A.leaves path name pointer }
    ensures sees { (honest : A.Disk.model.honest) (path name pointer : List ℕ)
        → ReadsSeeWrites A.model A.Disk.model A.File.remaining honest A.leaves path name pointer }
{
    bytes_mean_one_state();
    reading_is_an_image();
    documents_are_read();
    documents_close();
    call_holds::<A::Disk>();
    one_tree();
}

/// README's first example: once `init`, `import` of `port: 80` and `set` of `/port` to `81` are done, `get` prints
/// `port: "81"`.
///
/// It is [`reads_see_writes`] of these words. Crashes may come after any of the commands.
pub fn first_example_holds<A: Folders>()
    ensures { (honest : A.Disk.model.honest)
        → FirstExample A.model A.Disk.model A.File.remaining honest A.leaves }
{
    bytes_mean_one_state();
    reading_is_an_image();
    documents_are_read();
    documents_close();
    call_holds::<A::Disk>();
    one_tree();
    unambiguous();
}

/// A crash leaves of a file that `format -i` names its old text or its text in the style, whole.
///
/// Take any run of [`perform`](conf_tools::perform) with words of `format -i`. It returned, with any status, or was
/// cut off at any moment. Whatever a crash then leaves of a file is what a crash might have left before the run, or the
/// whole text in the style of what the run read of this file. Where comments are neither dropped nor kept, what it read
/// has none. So no part of a text is left, and no file is lost. A file that the words do not name, by its path or by
/// another one that leads to it, is what a crash might have left before the run.
///
/// If the status was [`Done`](conf_tools::Status::Done), a crash leaves of each file that the words name its text in
/// the style. A file that was read to be in the style is not replaced, and stays what a crash might have left before.
///
/// It holds in a world that keeps its files: a file is replaced whole or not at all, at each moment of the call and
/// also where the call fails. No other file changes by it, and none by being opened.
pub fn restyled_files_hold<A: Files>()
    ensures { RestyledFilesHold A.model A.Disk.model A.File.remaining A.files }
{}

/// A world keeps its files if it replaces them by single calls of honest systems, as
/// [`replace_with`](conf_files::replace_with) does.
///
/// So [`restyled_files_hold`] holds of such a world with no premise left but that of the calls. A system stands for the
/// file at a place from the first call of a replacing to the last: what a crash leaves of the system at a moment, it
/// leaves of each path that leads to the place. When another replacing begins, another system may stand for the file.
pub fn calls_keep_files<A: Files, C: FileCalls>()
    ensures { C.model.honest
        → ReplacesByCalls A.model C.model A.files → KeepsFiles A.model A.files }
{}
