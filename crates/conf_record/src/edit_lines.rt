// The members of an edit on their lines.
ghost use Rattle.std.specs.Prelude.{◌≡◌, ◌++◌, ◌∷◌, codes, IfSome};
ghost use Rattle.conf_record.specs.Prelude.{line_feed, spaces};
ghost use Rattle.conf_record.specs.EditLines.{indent_of, lines_of};

use crate::edit_members::EditMembers;
use crate::lines::cut_line;

/// Where the members of an edit stand in a document. The first is without the spaces before it.
#[derive(Clone, Copy)]
pub enum Place {
    /// At the margin.
    Alone,
    /// After the `- ` of an element of a batch, and then after four spaces.
    InBatch,
}

impl Place {
    /// The spaces before each member but the first.
    fn margin(self) -> &'static str
        ensures { result.now ≡ spaces (indent_of self) }
    {
        match self {
            Place::Alone => "",
            Place::InBatch => "    ",
        }
    }
}

/// The members of the edit that the lines begin with, each as it is written after its key, and the lines after them.
/// `import_key` is the key of the value of an import, with its `: `. `None` if the lines begin otherwise. It takes no
/// memory.
pub fn cut_edit<'t>(
    lines: &'t str,
    place: Place,
    import_key: &str,
) -> Option<(EditMembers<&'t str, &'t str>, &'t str)>
    ensures { IfSome result (λ cut. lines.now
        ≡ lines_of cut.0 import_key.now (indent_of place) ++ cut.1.now) }
{
    if lines.starts_with("set: ") {
        let (name, after_name) = cut_line(lines, "set: ")?;
        let (path, after_path) = cut_member(after_name, place, "path: ")?;
        let (value, rest) = cut_member(after_path, place, "value: ")?;
        Some((EditMembers::Set { name, path, value }, rest))
    } else if lines.starts_with("delete: ") {
        let (name, after_name) = cut_line(lines, "delete: ")?;
        let (path, rest) = cut_member(after_name, place, "path: ")?;
        Some((EditMembers::Delete { name, path }, rest))
    } else {
        let (name, after_name) = cut_line(lines, "import: ")?;
        let (value, rest) = cut_member(after_name, place, import_key)?;
        Some((EditMembers::Import { name, value }, rest))
    }
}

/// What is after a key at a place, up to the end of that line, and the lines after it.
fn cut_member<'t>(lines: &'t str, place: Place, key: &str) -> Option<(&'t str, &'t str)>
    ensures { IfSome result (λ cut. lines.now
        ≡ spaces (indent_of place) ++ (key.now ++ (cut.0.now ++ line_feed ∷ cut.1.now))) }
{
    let member = lines.strip_prefix(place.margin())?;
    cut_line(member, key)
}

/// The same as for [`cut_edit`], of the element of a batch that the lines begin with.
pub fn cut_element<'t>(
    lines: &'t str,
    import_key: &str,
) -> Option<(EditMembers<&'t str, &'t str>, &'t str)>
    ensures { IfSome result (λ cut. lines.now
        ≡ codes "  - " ++ (lines_of cut.0 import_key.now (indent_of Place.InBatch) ++ cut.1.now)) }
{
    let members = lines.strip_prefix("  - ")?;
    cut_edit(members, Place::InBatch, import_key)
}
