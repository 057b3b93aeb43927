// Laws: what is read of a file to which another program appends, and that a log's lines of JSON are JSON texts.
ghost use Rattle.conf_history.specs.Beside.{AppendedRecordsAreRead, PrefixesAreRead, WornRecordsAreRead};
ghost use Rattle.conf_history.specs.JsonTrees.{LinesAreJson};

use conf_record::documents_close;
use conf_store::holes_mean;

/// What a reader finds of a file to which a session appends at the same time.
///
/// - `prefix`: any prefix of a file that means a state, if it holds the base, means the state after the first of the
///   file's commands.
/// - `appended`: take a file that means a state and ends with a closing line, and the records of commands that this
///   state accepts. Whatever prefix of these records is there, also with zeros after it as a crash may leave them, the
///   file means the state after the first of the commands.
/// - `worn`: so it does whatever a crash left of these records, each byte as it was or zero, if it is noted where
///   several waited.
///
/// What is read may not be synced yet: a crash may take back the last commands that a reader saw, until the store is
/// opened or flushed.
pub fn reading_beside_a_writer()
    ensures prefix { PrefixesAreRead }
    ensures appended { AppendedRecordsAreRead }
    ensures worn { WornRecordsAreRead }
{
    documents_close();
    holes_mean();
}

/// Each line that a log has by [`LogForm::Json`](crate::LogForm::Json) is the JSON text of a tree with the command's
/// number, its about and its edits, and a line feed. So it is YAML too, by
/// [`json_reads`](yaml_forms::json_reads).
pub fn log_lines_are_json()
    ensures { LinesAreJson }
{}
