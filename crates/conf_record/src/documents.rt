// Laws of records and bases as bytes.
ghost use Rattle.conf_record.specs.Documents.{BasesAreRead, RecordsAreRead, BasesFit, OneBase, OneRecord, BasesClose, RecordsClose, RecordsTear};

use crate::laws::records_read;
use yaml_recognizers::closings::closed_once;
use yaml_tree::bytes_give_one;

/// The base of a state reads as that state, and has at most 67,108,864 bytes. The record of a command that some state
/// accepts reads as that command with its number, up to the greatest count. Bytes in any spelling are at most one base,
/// and at most one record.
pub fn documents_are_read()
    ensures bases { BasesAreRead }
    ensures records { RecordsAreRead }
    ensures fit { BasesFit }
    ensures one_base { OneBase }
    ensures one_record { OneRecord }
{
    records_read();
    bytes_give_one();
}

/// Each base and each record closes once, at its end. Suppose that a prefix of consecutive records is kept, and any
/// number of zeros come after it. Then the pieces are the first of these records, whole, and the rest is not closed.
pub fn documents_close()
    ensures bases { BasesClose }
    ensures records { RecordsClose }
    ensures torn { RecordsTear }
{
    closed_once();
}
