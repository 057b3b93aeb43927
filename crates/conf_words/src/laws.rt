// What holds of texts, and of what words ask for.
ghost use Rattle.conf_words.specs.Escapes.{AreShownApart};
ghost use Rattle.conf_words.specs.Invocations.{FilesAlwaysFit};

/// What [`escaped`](crate::escaped) shows is shown of one text alone: no two texts are shown alike.
pub fn no_two_texts_are_shown_alike()
    ensures apart { AreShownApart }
{}

/// The files of `format` fit what is done with them: at most one is written, and standard input is not replaced.
pub fn files_always_fit()
    ensures fit { FilesAlwaysFit }
{}
