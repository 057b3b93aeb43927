// The argument of the words that change a store that says who makes the change, when and why.
ghost use Rattle.std.specs.Prelude.{◌≡◌, false, IfOk, IfErr};
ghost use Rattle.conf_words.specs.Abouts.{IsAboutIn, IsUnaskedFor, about_is_wrong};

use crate::refusal::{OTHER, Unasked};
use command_line::{Argument, Form, Matches, Relation};
use conf_about::{About, AboutFault, abouts_have_no_fault};
use std::alloc::{AllocError, Global};

/// The argument that says something of a change; of `log`, the one that names a key of what is said.
pub(crate) const ABOUT: &str = "about";

pub(crate) const ABOUT_ARGUMENT: Argument = Argument {
    name: ABOUT,
    help: "Records TEXT under KEY with the change, as by=ann; may be given again",
    form: Form::Words("KEY=TEXT"),
    relation: Relation::Free,
};

/// What the words say of a change; `None` if they say nothing.
pub(crate) fn about_of(alloc: Global, words: &Matches<'_>) -> Result<Option<About>, Unasked>
    ensures ok { IfOk result (λ about.
        (about_is_wrong words.now ≡ false) × IsAboutIn words.now about) }
    ensures refused { IfErr result (IsUnaskedFor (about_is_wrong words.now)) }
{
    abouts_have_no_fault();
    let pairs = match words.texts(alloc, ABOUT) {
        Ok(pairs) => pairs,
        Err(AllocError) => return Err(Unasked::OutOfMemory),
    };
    if pairs.is_empty() {
        return Ok(None);
    }
    match About::of_words(alloc, &pairs) {
        Ok(about) => Ok(Some(about)),
        Err(fault) => Err(unasked_for(fault)),
    }
}

/// Why words that give no about ask for nothing.
fn unasked_for(fault: AboutFault) -> Unasked
    ensures { fault ≡ AboutFault.OutOfMemory → result ≡ Unasked.OutOfMemory }
{
    Unasked::Because(match fault {
        AboutFault::NoKey => "--about needs KEY=TEXT",
        AboutFault::LongKey => "a KEY of --about may have 64 characters",
        AboutFault::TooMany => "--about may be given 16 times",
        AboutFault::Twice => "--about is given twice with one KEY",
        AboutFault::TooLarge => "what --about gives may have 4096 bytes as a YAML mapping",
        AboutFault::NoMapping | AboutFault::NoText => OTHER,
        AboutFault::OutOfMemory => return Unasked::OutOfMemory,
    })
}
