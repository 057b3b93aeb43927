// Laws of the rules, each the contract of a function that does nothing.
ghost use Rattle.conf_locks.specs.Laws.{RunsStay, RunsExclude};

/// A law: a run that holds a store does so until it lets go, and meanwhile no other run holds it, whatever calls are
/// made.
pub fn runs_exclude()
    ensures stays { RunsStay }
    ensures alone { RunsExclude }
{}
