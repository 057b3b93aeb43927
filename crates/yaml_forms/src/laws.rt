// Laws of JSON texts and of the plain form: each is YAML, and gives the tree that it was made of. JSON texts are JSON.
// From lines of keys the keys are read back.
//
// A law is a function that does nothing, takes nothing and always returns. What it ensures holds of all values, and
// is cited where a proof needs it.
ghost use Rattle.yaml_forms.specs.JsonLaws.{JsonIsJson, JsonLineIsJson, JsonLinePresents, JsonLineReads, JsonPresents, JsonReads};
ghost use Rattle.yaml_forms.specs.KeyLaws.{KeysAreReadBack};
ghost use Rattle.yaml_forms.specs.PlainLaws.{PlainPresents, PlainReads};

use yaml_recognizers::texts::unambiguous;

/// The JSON text of each tree of texts is a text that can be read as that tree. It has a presentation that fits (YAML
/// 1.2.2, 7.3.1 and 7.4) and means the tree's events. The same holds with a line feed after it.
pub fn json_presents()
    ensures alone { JsonPresents }
    ensures line { JsonLinePresents }
{}

/// The JSON text of each good tree gives that tree, alone and with a line feed after it, within every limit of length
/// that the text keeps.
pub fn json_reads()
    ensures alone { JsonReads }
    ensures line { JsonLineReads }
{
    unambiguous();
}

/// The JSON text of each tree of texts is one by the grammar of RFC 8259, and means the tree: its strings are the
/// texts, its arrays the sequences, and its objects the mappings, with their members in order. The same holds with a
/// line feed after it.
pub fn json_is_json()
    ensures alone { JsonIsJson }
    ensures line { JsonLineIsJson }
{}

/// The plain form of each tree of texts is a text that can be read as that tree.
pub fn plain_presents()
    ensures { PlainPresents }
{}

/// The plain form of each good tree gives that tree, within every limit of length that the text keeps.
pub fn plain_reads()
    ensures { PlainReads }
{
    unambiguous();
}

/// The lines of keys that [`keys`](crate::keys) gives are read back as those keys: a line that begins with `"` is the
/// text that it gives as YAML, and any other line is itself. No line is read as two keys. Texts without line feeds are
/// read back from lines too.
pub fn keys_are_read_back()
    ensures { KeysAreReadBack }
{
    unambiguous();
}
