// Laws of what commands make of states.
ghost use Rattle.std.specs.Prelude.{◌≡◌, ◌+◌, ◌++◌, List, Ok, Err, length};
ghost use Rattle.conf_state.specs.Commands.{Command, noted};
ghost use Rattle.conf_state.specs.Prelude.{Tree};
ghost use Rattle.conf_state.specs.States.{Contents};
ghost use Rattle.conf_state.specs.Steps.{IsRefusal, step, after, and_then};
ghost use Rattle.conf_state.specs.declared.fault.StoreFault.{StoreFault};
ghost use Rattle.conf_state.specs.declared.room.Room.{Room};
ghost use Rattle.conf_state.specs.declared.room.Room.TheVariants.{Enough};

/// The count is the number of accepted commands. A batch is one command.
pub fn accepted_commands_are_counted()
    ensures { (s new : Contents) (commands : List Command)
        → after s commands ≡ Ok new → new.count ≡ s.count + length commands }
{}

/// A command is accepted only if there is room for its record, and the count then rises by one, for a batch too. The
/// fault of a refused one is of the command and the state. It is never a fault of a text that is read, of the disk or
/// of memory, nor that the store has to be opened again.
pub fn steps_are_counted_or_refused()
    ensures room { (s new : Contents) (command : Command) (room : Room)
        → step s command room ≡ Ok new → room ≡ Enough }
    ensures count { (s new : Contents) (command : Command) (room : Room)
        → step s command room ≡ Ok new → new.count ≡ s.count + 1 }
    ensures refused { (s : Contents) (command : Command) (room : Room) (fault : StoreFault)
        → step s command room ≡ Err fault → IsRefusal fault }
{}

/// An about changes no state: where there is room for its record, a command with one makes of each state what the same
/// command makes of it without.
pub fn about_changes_no_state()
    ensures { (s : Contents) (command : Command) (about : Tree) (room : Room)
        → step s (noted command about) room ≡ step s command room }
{}

/// Commands performed in one run leave the same state as in two runs, one after the other.
pub fn runs_are_joined()
    ensures { (s : Contents) (first second : List Command)
        → after s (first ++ second) ≡ and_then (after s first) (λ between. after between second) }
{}
