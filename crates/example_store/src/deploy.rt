// A deployment: a configuration is imported and edited, and then read back.
use conf_disk::Disk;
use conf_state::{Command, StoreFault};
use conf_store::{OpenFault, Store};
use std::alloc::{AllocError, Global};
use thiserror::Error;
use yaml_tree::{Config, ReadFault, Text, Tree};

/// Why a deployment failed. What was acknowledged before it stands.
#[derive(Debug, Drop, Error)]
pub enum DeployFault {
    /// The store can't be opened.
    #[error("the store can't be opened: {0}")]
    Open(OpenFault),
    /// A command was refused, or the device failed.
    #[error("a command was refused: {0}")]
    Command(#[from] StoreFault),
    /// The value can't be set.
    #[error("the value is refused: {0}")]
    Value(ReadFault),
    /// Out of memory.
    #[error("out of memory")]
    OutOfMemory(#[from] AllocError),
}

/// Opens the store on `disk`, imports a text as `web`, sets its port to 81, and returns the configuration in the one
/// style, with the disk. Each change is synced when its call returns `Ok`. The store is closed at the end.
pub fn deploy<D: Disk + Drop>(
    alloc: Global,
    disk: D,
    text: &[u8],
) -> Result<(D, String), DeployFault> {
    let mut store = match Store::open(alloc, disk) {
        Ok((store, _opened)) => store,
        Err((_disk, fault)) => return Err(DeployFault::Open(fault)),
    };
    store.import("web", text)?;
    store.apply(set_port(alloc, "81")?)?;
    let deployed = store.export("web")?;
    Ok((store.close(), deployed))
}

/// The command that sets the port of `web`.
fn set_port(alloc: Global, port: &str) -> Result<Command, DeployFault> {
    let value = Tree::Text(Text::new(alloc, port)?);
    let value = match Config::new(alloc, value) {
        Ok(value) => value,
        Err((_tree, fault)) => return Err(DeployFault::Value(fault)),
    };
    Ok(Command::Set {
        name: String::from_str(alloc, "web")?,
        path: String::from_str(alloc, "/port")?,
        value,
    })
}
