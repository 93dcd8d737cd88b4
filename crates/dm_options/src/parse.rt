//! Reading the words of a command line.
ghost use Rattle.std.specs.Prelude.{◌≡◌, [], Some, IfOk, IfErr, IsSomeAnd, OnOk, codes, map, option_map};
ghost use Rattle.clap.specs.Words.{all_of, fault_of, first_of, found_of, kind_of, one_of, rows_of, subcommand_of, subcommand_rows_of};
ghost use Rattle.dm_options.specs.Arguments.{dm_app};
ghost use Rattle.dm_options.specs.Options.{Explains, HasAsmOptions, HasCheckOptions, HasDebugOptions, HasMachineOptions, HasNumber, HasOptions, IsGiven};

use crate::arguments::dm_command;
use crate::command_line::{
    AsmOptions, CheckOptions, DebugOptions, MachineOptions, Options, OptionsError,
};
use clap::ArgMatches;
use clap::error::ErrorKind;
use std::alloc::{AllocError, Global};
use std::convert::AsStr;

// `clap` gives each argument that is read as a `Result` a value, by the words or by a default. So its reader never
// returns the error for a missing value, and the caller reports it as a failed allocation.

/// The value of the argument `id`, a number below 2^64.
fn number_u64(matches: &ArgMatches<'_>, id: &str) -> Result<u64, AllocError>
    ensures { IfOk result (HasNumber 64 (one_of id.now (rows_of (found_of matches.now)))) }
{
    matches.get_one::<u64>(id).ok_or(AllocError)
}

/// The value of the argument `id`, a number below 2^32.
fn number_u32(matches: &ArgMatches<'_>, id: &str) -> Result<u32, AllocError>
    ensures { IfOk result (HasNumber 32 (one_of id.now (rows_of (found_of matches.now)))) }
{
    matches.get_one::<u32>(id).ok_or(AllocError)
}

/// Whether the option `id`, which has no value, is given.
fn is_given(matches: &ArgMatches<'_>, id: &str) -> bool
    ensures { IsGiven (one_of id.now (rows_of (found_of matches.now))) result }
{
    matches.get_flag(id)
}

/// The text of the argument `id`, which has a value in each line that `clap` accepts.
fn text_of<'a>(matches: &ArgMatches<'a>, id: &str) -> Result<&'a str, AllocError>
    ensures { IfOk result (λ s. first_of id.now (rows_of (found_of matches.now)) ≡ Some s.now) }
{
    matches.get_str(id).ok_or(AllocError)
}

/// The text of the option `id`; None if it is not given.
fn text_if_any<'a>(matches: &ArgMatches<'a>, id: &str) -> Option<&'a str>
    ensures { first_of id.now (rows_of (found_of matches.now)) ≡ option_map (λ s. s.now) result }
{
    matches.get_str(id)
}

/// The paths of the argument `FILES`. An `Err` is a failed allocation.
fn files_of<'a>(alloc: Global, matches: &ArgMatches<'a>) -> Result<Vec<&'a str>, AllocError>
    ensures { IfOk result (λ v. all_of (codes "files") (rows_of (found_of matches.now))
        ≡ Some (map (λ s. s.now) v.items)) }
{
    let files = matches.get_strs("files").ok_or(AllocError)?;
    let files = Vec::from_slice(alloc, files)?;
    Ok(files)
}

/// The options and files that `dm run`, `dm check`, `dm debug` and `dm gdb` share. An `Err` is a failed allocation.
fn machine_options<'a>(
    alloc: Global,
    matches: &ArgMatches<'a>,
) -> Result<MachineOptions<'a>, AllocError>
    ensures { IfOk result (HasMachineOptions (rows_of (found_of matches.now))) }
{
    let steps = number_u64(matches, "steps")?;
    let ems_pages = number_u32(matches, "ems")?;
    let xms_kib = number_u32(matches, "xms")?;
    let upper = is_given(matches, "upper");
    let tail = text_of(matches, "tail")?;
    let files = files_of(alloc, matches)?;
    Ok(MachineOptions {
        steps,
        ems_pages,
        xms_kib,
        upper,
        tail,
        files,
    })
}

/// The options and files of `dm debug` and `dm gdb`. An `Err` is a failed allocation.
fn debug_options<'a>(
    alloc: Global,
    matches: &ArgMatches<'a>,
) -> Result<DebugOptions<'a>, AllocError>
    ensures { IfOk result (HasDebugOptions (rows_of (found_of matches.now))) }
{
    let machine = machine_options(alloc, matches)?;
    let input = text_if_any(matches, "input");
    Ok(DebugOptions { machine, input })
}

/// The options and files of `dm check`. An `Err` is a failed allocation.
fn check_options<'a>(
    alloc: Global,
    matches: &ArgMatches<'a>,
) -> Result<CheckOptions<'a>, AllocError>
    ensures { IfOk result (HasCheckOptions (rows_of (found_of matches.now))) }
{
    let machine = machine_options(alloc, matches)?;
    let no_free = is_given(matches, "no-free");
    let json = is_given(matches, "json");
    Ok(CheckOptions {
        machine,
        no_free,
        json,
    })
}

/// The two paths of `dm asm`.
fn asm_options<'a>(matches: &ArgMatches<'a>) -> Result<AsmOptions<'a>, AllocError>
    ensures { IfOk result (HasAsmOptions (rows_of (found_of matches.now))) }
{
    let input = text_of(matches, "in")?;
    let output = text_of(matches, "out")?;
    Ok(AsmOptions { input, output })
}

/// The options of the subcommand with this name. An `Err` is a failed allocation; `clap` accepts no other names.
fn read_subcommand<'a>(
    alloc: Global,
    name: &str,
    matches: &ArgMatches<'a>,
) -> Result<Options<'a>, AllocError>
    ensures { IfOk result (HasOptions (name.now, rows_of (found_of matches.now))) }
{
    match name {
        "run" => Ok(Options::Run(machine_options(alloc, matches)?)),
        "debug" => Ok(Options::Debug(debug_options(alloc, matches)?)),
        "gdb" => Ok(Options::Gdb(debug_options(alloc, matches)?)),
        "check" => Ok(Options::Check(check_options(alloc, matches)?)),
        "asm" => Ok(Options::Asm(asm_options(matches)?)),
        "disasm" => Ok(Options::Disasm(text_of(matches, "in")?)),
        _ => Err(AllocError),
    }
}

/// The options of the subcommand that `clap` found. An `Err` is a failed allocation; `clap` accepts no line without
/// one.
fn found_options<'a>(alloc: Global, matches: &ArgMatches<'a>) -> Result<Options<'a>, AllocError>
    ensures { IfOk result (λ o. IsSomeAnd (subcommand_rows_of matches.now) (λ g. HasOptions g o)) }
{
    match matches.subcommand() {
        Some((name, inner)) => read_subcommand(alloc, name, inner),
        None => Err(AllocError),
    }
}

/// Reads the words of a command line, of which the first is the program's name.
///
/// `dm run [--steps N] [--ems PAGES] [--xms KIB] [--upper] [--tail TEXT] FILES...`: N is a decimal number below 2^64,
/// PAGES and KIB are decimal numbers below 2^32, and there is at least one file. A number may begin with `+`. The
/// defaults are 100000000 (1000000 for `dm gdb`), 64, 1024 and the empty text. A line with an option twice, or with an
/// unknown one, is wrong.
///
/// `dm check` takes the same, and `--no-free` and `--json`, which may be left out. `dm debug` and `dm gdb` take what
/// `dm run` does, and `--input FILE`, which may be left out. `dm asm IN OUT` and `dm disasm IN` take paths alone.
///
/// # Errors
///
/// `Usage` if `clap` finds a fault in the words; a call for help or the version is one too. Its kind is one of those
/// that the first fault may have. `Memory` if an allocation failed.
pub fn options<'a, S: AsStr>(alloc: Global, words: &'a [S]) -> Result<Options<'a>, OptionsError>
    ensures ok { IfOk result (λ o. IsSomeAnd (subcommand_of dm_app (map S.text words.entry.now))
        (λ g. HasOptions g o)) }
    ensures no_fault { OnOk result (fault_of dm_app (map S.text words.entry.now) ≡ []) }
    ensures err { IfErr result (Explains (fault_of dm_app (map S.text words.entry.now))) }
{
    let Ok(command) = dm_command(alloc) else {
        return Err(OptionsError::Memory);
    };
    let matches = match command.try_get_matches_from(words) {
        Ok(matches) => matches,
        Err(error) => match error.kind() {
            ErrorKind::OutOfMemory => return Err(OptionsError::Memory),
            _ => return Err(OptionsError::Usage(error)),
        },
    };
    match found_options(alloc, &matches) {
        Ok(options) => Ok(options),
        Err(_) => Err(OptionsError::Memory),
    }
}

/// The error for a command line with a word that is not UTF-8 and so cannot be read, with `clap`'s text.
///
/// # Errors
///
/// `AllocError` if an allocation failed.
pub fn not_unicode(alloc: Global) -> Result<clap::Error, AllocError>
    ensures { IfOk result (λ e. kind_of e ≡ ErrorKind.ValueValidation) }
{
    let mut command = dm_command(alloc)?;
    command.error(
        ErrorKind::ValueValidation,
        "invalid UTF-8 was detected in one or more arguments",
    )
}
