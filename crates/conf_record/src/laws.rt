// What records and base texts read as.
ghost use Rattle.std.specs.Prelude.{◌≡◌, ◌≤◌, ℕ, Ok};
ghost use Rattle.conf_record.specs.Prelude.{Command, Contents, count_limit, IsState, step, Room};
ghost use Rattle.conf_record.specs.Formats.{base_text_in, FormatsAreTold, ThirdsBegin};
ghost use Rattle.conf_record.specs.Records.{FitsRecord, record_text};
ghost use Rattle.conf_record.specs.RecordsRead.{IsCommand, ReadsRecord, ReadsBase};
ghost use Rattle.conf_record.specs.SmallCommands.{IsSmallCommand};
ghost use Rattle.conf_record.specs.declared.format.Format.{Format as BaseFormat};

use yaml_grammar::one_tree;
use yaml_recognizers::one_style::style_reads;

/// The base text of a state, in each format, reads as that state, and as no other. The record of a command that some
/// state accepts reads as that command under its number, up to the greatest count, and as no other. It does so too
/// where only the names and the paths are good and the parts are small, whatever the state (`small`). The record of a
/// batch has to have at most 67,108,864 bytes. Each is read within the limits of a `Config`.
pub fn records_read()
    ensures base { (format : BaseFormat) (s : Contents) → IsState s
        → ReadsBase (base_text_in format s) s }
    ensures one_base { (format : BaseFormat) (s other : Contents) → IsState s
        → ReadsBase (base_text_in format s) other → other ≡ s }
    ensures small { (command : Command) (number : ℕ) → IsCommand command → IsSmallCommand command
        → number ≤ count_limit → FitsRecord command number
        → ReadsRecord (record_text command number) command number }
    ensures record { (s new : Contents) (command : Command) (room : Room) (number : ℕ) → IsState s
        → IsCommand command → step s command room ≡ Ok new → number ≤ count_limit
        → FitsRecord command number → ReadsRecord (record_text command number) command number }
    ensures one_record { (s new : Contents) (command other : Command) (room : Room)
        (number read : ℕ) → IsState s
        → IsCommand command → step s command room ≡ Ok new → number ≤ count_limit
        → FitsRecord command number → ReadsRecord (record_text command number) other read
        → (other ≡ command) × (read ≡ number) }
{
    one_tree();
    style_reads();
}

/// A base tells its format, whatever comes after it. Bytes of the third format begin as its bases do.
pub fn formats_are_told()
    ensures told { FormatsAreTold }
    ensures begin { ThirdsBegin }
{}
