//! The program `dm`: it passes its command line, files and standard streams to `dm_cli`, and exits with the status.
#![tactic(auto)]

ghost use Rattle.std.specs.Prelude.{◌≡◌, ◌⊎◌, IfOk, IfErr, map, string_bytes};
ghost use Rattle.std.specs.IoError.{error_kind};
ghost use Rattle.std.specs.Process.{exit_status};
ghost use Rattle.dm_cli.specs.Program.{EndsWith};

use dm_cli::{Sink, System, dm_main, refuse_words};
use std::convert::AsStr;
use std::io::{ErrorKind, Lock};
use std::process::ExitCode;
use std::{env, io};

/// Runs `dm_main` on the words, the files and the standard streams, and returns its exit status.
///
/// What the operating system provides and takes is not known to a contract: that of `dm_main` says more, over files,
/// readers and writers whose bytes are known.
fn call<S: AsStr>(rt: &HostRuntime, words: &[S]) -> ExitCode
    ensures { EndsWith (map S.text words.now) (exit_status result) }
{
    ExitCode::from(dm_main(
        rt.alloc(),
        &mut System::new(rt),
        words,
        rt.reader(),
        &mut Sink::new(io::writer(rt)),
        &mut Sink::new(rt.stderr().lock()),
    ))
}

/// The words of the command line, as text. The error is `OutOfMemory` if an allocation failed, and any other if a word
/// is not UTF-8.
fn words_of(rt: &HostRuntime) -> io::Result<Vec<String>> {
    Ok(env::args(rt)?.collect(rt.alloc())?)
}

/// The exit status of `dm` for what the operating system passed as its words: that of `call`; 2 if a word is not UTF-8;
/// 126 if an allocation failed.
fn end(rt: &HostRuntime, words: io::Result<Vec<String>>) -> ExitCode
    ensures words { IfOk words (λ v. EndsWith (map string_bytes v.items) (exit_status result)) }
    ensures memory { IfErr words (λ e. error_kind e ≡ ErrorKind.OutOfMemory → exit_status result ≡ 126) }
    ensures other { IfErr words (λ e. (exit_status result ≡ 2) ⊎ (exit_status result ≡ 126)) }
{
    match words {
        Ok(words) => call(rt, words.as_slice()),
        Err(error) => match error.kind() {
            ErrorKind::OutOfMemory => {
                let _ = rt.eprintln("dm: out of memory");
                ExitCode::from(126)
            }
            // A word is not UTF-8.
            _ => {
                let mut error = Sink::new(rt.stderr().lock());
                ExitCode::from(refuse_words(rt.alloc(), &mut error))
            }
        },
    }
}

/// The program: its exit status is that of `end`, for the words that the operating system passed.
fn main(rt: HostRuntime) -> ExitCode {
    end(&rt, words_of(&rt))
}
