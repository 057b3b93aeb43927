// Laws of the definitions.
ghost use Rattle.std.specs.Prelude.{◌≡◌, ◌↔◌, None};
ghost use Rattle.conf_about.specs.Prelude.{Tree, IsTextTree};
ghost use Rattle.conf_about.specs.Abouts.{IsAbout, fault_of};
ghost use Rattle.conf_about.specs.ReadBack.{AboutsAreRead};

use yaml_recognizers::one_style::style_reads;
use yaml_tree::bytes_give_one;

/// A tree of texts has no fault exactly if it is an about.
pub fn abouts_have_no_fault()
    ensures { (t : Tree) → IsTextTree t → (fault_of t ≡ None) ↔ IsAbout t }
{}

/// The text of an about in the one style, read within limits that every about keeps, is that about's tree, and no
/// other.
pub fn abouts_are_read_back()
    ensures { AboutsAreRead }
{
    style_reads();
    bytes_give_one();
}
