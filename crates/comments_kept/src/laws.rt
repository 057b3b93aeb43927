// Laws of what a text is with its comments.
ghost use Rattle.std.specs.Prelude.{◌≡◌, ℕ, List};
ghost use Rattle.yaml_grammar.specs.Reads.{Limits};
ghost use Rattle.comments_kept.specs.Keeping.{Keeps};

/// Bytes have at most one text with their comments: the clauses of [`format_keeping`](crate::format_keeping) leave it
/// no choice.
pub fn bytes_keep_one()
    ensures { (bytes : List ℕ) (limits : Limits) (one other : List ℕ)
        → Keeps bytes limits one → Keeps bytes limits other → one ≡ other }
{}
