//! Cases of commands as data. The program reads scripts, one after the other as one, from the files that its words name; without words,
//! from its standard input. It runs the commands in them over objects in memory, and says of each case whether all is as the script says.
#![tactic(auto)]

mod answers;
mod objects;
mod run;

use fdr_cases_script::{Wrong, said_of};
use run::InMemory;
use std::io::Write;
use std::{env, fs, io};

/// The scripts of the files that the words name, one after the other.
fn scripts(rt: &HostRuntime) -> io::Result<String> {
    let mut all = String::new(rt.alloc());
    for name in env::args(rt)?.skip(1) {
        let script = fs::read_to_string(rt, name.as_str())?;
        all.push_str(script.as_str())?;
    }
    Ok(all)
}

fn main(rt: HostRuntime) -> io::Result<()> {
    let mut script = scripts(&rt)?;
    if script.is_empty() {
        script = io::read_to_string(rt.alloc(), rt.stdin())?;
    }
    match said_of(rt.alloc(), &InMemory, script.as_str()) {
        Ok(said) => rt.stdout().write_all(&said),
        Err(Wrong::NoMemory) => rt.stdout().write_all(b"no memory\n"),
        Err(Wrong::Line) => rt.stdout().write_all(b"a line that can't be read\n"),
    }
}
