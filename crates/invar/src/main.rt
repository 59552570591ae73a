//! The program `invar WORD..`: does what the arguments say over the system's files and standard output, and ends with the code of the status.
//!
//! Proved: it ends with the code of a status of which all holds that the top call promises, or with that of want of memory without a call.
//! No clause says which arguments the process has, and none speaks of `main`.
#![tactic(auto)]

ghost use Rattle.std.specs.Prelude.{◌≡◌, ◌-◌, ◌<◌, IfOk, IsErr};
ghost use Rattle.std.specs.Process.{exit_status};
ghost use Rattle.io_edge.specs.Outside.{most_counted};
ghost use Rattle.io_edge.specs.Change.{◌⟶◌};
ghost use Rattle.io_edge.specs.Statuses.{code_of};
ghost use Rattle.invar_app.specs.Arguments.{command_in};
ghost use Rattle.invar.specs.Process.{EndsWith};

use invar_app::{Status, invar};
use io_edge::{Files, OsFiles, OsOut, Sink};
use journal::Meter;
use std::alloc::Global;
use std::env::Env;
use std::process::ExitCode;
use std::{env, io};

fn main(system: HostRuntime) -> ExitCode {
    let mut files = OsFiles::new(system.alloc(), &system);
    let mut out = OsOut::new(io::writer(&system));
    run_with(system.alloc(), arguments(&system), &mut files, &mut out)
}

/// Does what the arguments say over the files and the output, whichever they are, and gives the code of the top call's status. Where the arguments
/// couldn't be read, for want of memory or since one isn't UTF-8, nothing is done, and the code is that of want of memory.
fn run_with<F: Files, S: Sink>(
    alloc: Global,
    arguments: io::Result<Vec<String>>,
    files: &mut F,
    out: &mut S,
) -> ExitCode
    requires { (S.seen out.old).faults < most_counted }
    ensures arguments { IfOk arguments (λ w. EndsWith (command_in w)
        (F.seen files.old ⟶ F.seen files.new)
        (S.seen out.old ⟶ S.seen out.new) (exit_status result)) }
    ensures without_arguments { IsErr arguments → exit_status result ≡ code_of Status.Memory }
    ensures idle { IsErr arguments → (F.seen files.new ≡ F.seen files.old)
        × (S.seen out.new ≡ S.seen out.old) }
{
    match arguments {
        Ok(arguments) => obey(alloc, &arguments, files, out),
        Err(_) => exit_code(Status::Memory),
    }
}

/// Does what the arguments say over the files and the output, and gives the code of the top call's status.
fn obey<F: Files, S: Sink>(
    alloc: Global,
    arguments: &Vec<String>,
    files: &mut F,
    out: &mut S,
) -> ExitCode
    requires { (S.seen out.old).faults < most_counted }
    ensures { EndsWith (command_in arguments.now) (F.seen files.old ⟶ F.seen files.new)
        (S.seen out.old ⟶ S.seen out.new) (exit_status result) }
{
    let mut meter = Meter::new(alloc);
    exit_code(invar(alloc, arguments, files, out, &mut meter))
}

/// The code that a process ends with.
fn exit_code(status: Status) -> ExitCode
    ensures { exit_status result ≡ code_of status }
{
    ExitCode::from(status.code())
}

// The arguments after the program's name.
fn arguments<R: Env + AllocGlobal>(system: &R) -> io::Result<Vec<String>> {
    Ok(env::args(system)?.skip(1).collect(system.alloc())?)
}
