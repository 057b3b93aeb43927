//! Shows how a program holds a store: over a folder, and in memory for its own tests.
//!
//! Its argument is the store's folder, and the text of a configuration comes on standard input. The program imports the
//! text as `web`, sets the port, and prints the configuration, once from each store. The exit status is 0, or 1 if
//! something was refused or failed, or 2 for wrong arguments.
#![tactic(auto)]

mod deploy;

use conf_folder::FolderDisk;
use deploy::{DeployFault, deploy};
use std::io::Read;
use std::process::ExitCode;
use std::{env, io};
use test_disks::MemoryDisk;
use yaml_tree::Limits;

fn main(rt: HostRuntime) -> ExitCode {
    let alloc = rt.alloc();
    let Ok(words) = env::args(&rt).and_then(|words| Ok(words.collect::<Vec<String>>(alloc)?)) else {
        return ExitCode::from(1);
    };
    let [_, folder] = words.as_slice() else {
        return ExitCode::from(2);
    };
    match run(&rt, folder) {
        Ok(status) => status,
        Err(_) => ExitCode::from(1),
    }
}

/// Reads standard input, deploys it to the store in the folder and to one in memory, and prints what each holds then.
fn run(rt: &HostRuntime, folder: &str) -> io::Result<ExitCode> {
    let alloc = rt.alloc();
    let mut text = Vec::new(alloc);
    rt.reader()
        .take(Limits::CONFIGURATION.bytes + 1)
        .read_to_end(&mut text)?;
    let disk = match FolderDisk::new(rt, alloc, folder) {
        Ok(disk) => disk,
        Err(fault) => {
            eprintln!(rt; "{folder}: {fault}")?;
            return Ok(ExitCode::from(1));
        }
    };
    let in_folder = match deploy(alloc, disk, &text) {
        Ok((disk, deployed)) => {
            disk.release();
            Ok(deployed)
        }
        Err(fault) => Err(fault),
    };
    let in_memory = match deploy(alloc, MemoryDisk::new(alloc), &text) {
        Ok((_disk, deployed)) => Ok(deployed),
        Err(fault) => Err(fault),
    };
    print_result(rt, in_folder)?;
    print_result(rt, in_memory)
}

/// Prints a configuration, or why there is none.
fn print_result(rt: &HostRuntime, deployed: Result<String, DeployFault>) -> io::Result<ExitCode> {
    match deployed {
        Ok(text) => {
            print!(rt; "{text}")?;
            Ok(ExitCode::from(0))
        }
        Err(fault) => {
            eprintln!(rt; "{fault}")?;
            Ok(ExitCode::from(1))
        }
    }
}
