// How many bytes a store's configurations have after an edit, and whether it has room for one command more.
ghost use Rattle.std.specs.Prelude.{◌≡◌, ◌+◌, ◌<◌, ◌≤◌, ℕ, List, min, Some, Ok, Err, OnOk, IfErr};
ghost use Rattle.conf_state.specs.Prelude.{style_text, byte_len, Tree, Changes, config_limits};
ghost use Rattle.conf_state.specs.BaseTexts.{entries_length};
ghost use Rattle.conf_state.specs.States.{Contents, Entry, config_named, put_config};
ghost use Rattle.conf_state.specs.Steps.{next_state};

use crate::base::{BASE_LIMIT, ENTRY_INDENT, base_length};
use crate::fault::StoreFault;
use crate::room::Room;
use yaml_config::Change;

/// Whether a store of `count` commands has room for one more, after which the configurations have `entries` bytes in
/// the base text.
pub(crate) fn check_room(count: u64, entries: u64, room: Room) -> Result<(), StoreFault>
    ensures ok { OnOk result ((s : Contents) (configs : List Entry) → s.count ≡ count
        → entries ≡ min (entries_length configs) u64.MAX
        → next_state s room configs ≡ Ok (record { configs = configs; count = s.count + 1 })) }
    ensures counts { OnOk result (count < u64.MAX) }
    ensures short { OnOk result (entries ≤ BASE_LIMIT) }
    ensures refused { IfErr result (λ fault. (s : Contents) (configs : List Entry)
        → s.count ≡ count → entries ≡ min (entries_length configs) u64.MAX
        → next_state s room configs ≡ Err fault) }
{
    if base_length(u128::from(count) + 1, entries) > BASE_LIMIT {
        return Err(StoreFault::StoreFull);
    }
    match room {
        Room::LongRecord => Err(StoreFault::RecordLong),
        Room::Missing => Err(StoreFault::JournalLong),
        Room::Enough if count == u64::MAX => Err(StoreFault::CountFull),
        Room::Enough => Ok(()),
    }
}

/// How many bytes configurations of `before` bytes have in the base text after a change of one of them, which then is
/// within its limits.
pub(crate) fn length_after(before: u64, change: Change) -> u64
    requires { (configs : List Entry) × (name : List ℕ) × (old new : Tree)
        × (before ≡ entries_length configs)
        × (before ≤ BASE_LIMIT)
        × (config_named configs name ≡ Some old)
        × Changes change old new
        × (byte_len (style_text new) ≤ config_limits.style) }
    ensures { (configs : List Entry) (name : List ℕ) (old new : Tree)
        → before ≡ entries_length configs
        → config_named configs name ≡ Some old
        → Changes change old new
        → result ≡ entries_length (put_config configs name new) }
{
    change.length_after(before, ENTRY_INDENT) as u64
}
