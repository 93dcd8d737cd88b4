//! The commands and arguments of `dm`, as the command-line library `clap` is given them.
ghost use Rattle.std.specs.Prelude.{◌≡◌, IfOk, IsOk, OnOk, false};
ghost use Rattle.clap.specs.Words.{app_of, rule_of, with_subcommand};
ghost use Rattle.dm_options.specs.Arguments.{asm_app, check_app, debug_app, disasm_app, dm_app, ems_rule, files_rule, gdb_app, gdb_steps_rule, input_rule, json_rule, no_free_rule, path_rule, run_app, steps_rule, tail_rule, upper_rule, with_machine_rules, xms_rule};
ghost use Rattle.clap.specs.declared.Command.TheViews.{out-Command as fields_of};

use clap::builder::ValueParser;
use clap::{Arg, ArgAction, Command};
use std::alloc::{AllocError, Global};

/// The version of the program, which `dm --version` prints.
const VERSION: &str = "2.0.0";

/// What `--steps` says of itself in `dm run` and `dm check`.
const STEPS_HELP: &str =
    "Stop after N steps: instructions, repetitions of string instructions, services";

/// What `--steps` says of itself in `dm debug`.
const DEBUG_STEPS_HELP: &str =
    "Accepted, and ignored: the commands G and T have counts of their own";

/// What `--steps` says of itself in `dm gdb`.
const GDB_STEPS_HELP: &str =
    "Stop after N steps each time that the program goes on: instructions, repetitions of string instructions, services";

/// Where input comes from, which ends the help of `dm run`, and an example.
const RUN_AFTER_HELP: &str = "\
Input is read to its end before the program starts: </dev/null gives no input; at a terminal end it with Ctrl-D.

Example: dm run --tail ' /q' PROGRAM.COM CHILD.EXE <input.txt";

/// Where input comes from, which ends the help of `dm check`, and an example.
const CHECK_AFTER_HELP: &str = "\
Input is read to its end before the program starts: </dev/null gives no input; at a terminal end it with Ctrl-D.

Example: dm check PROGRAM.COM <input.txt";

/// The commands of a session, which end the help of `dm debug`, and an example.
const DEBUG_AFTER_HELP: &str = "\
Lines of a session (s:o is a segment and an offset, as 0103:0100; numbers are hexadecimal):
  R                  Print the registers and the next instruction
  U s:o [count]      Print instructions, 8 without a count
  D s:o [length]     Print bytes, 80 without a length
  E s:o bytes        Write bytes, as in E 0103:0200 90CD21
  G [n]              Run up to a breakpoint or a stop, for at most n steps
  T [n]              Execute n steps, 1 without n, and print the registers after each
  B s:o, BC s:o, BL  Set a breakpoint, clear it, list all
  M                  Print the block list of DOS memory
  P                  Print the handles and windows of expanded memory
  X                  Print the blocks of extended memory, upper memory blocks, A20 and the HMA
  O                  Print the console output so far
  Q                  End the session

Example: printf 'R\\nU 0103:0100\\nG\\n' | dm debug PROGRAM.COM";

/// `--steps N`: a number below 2^64, 100000000 by default. `help` is what it says of itself.
fn steps_arg<'a>(alloc: Global, help: &'static str) -> Arg<'a>
    ensures rule { rule_of result ≡ steps_rule }
    ensures local { result.global ≡ false }
{
    Arg::new(alloc, "steps")
        .long("steps")
        .value_name("N")
        .value_parser(ValueParser::unsigned(0, 18446744073709551615))
        .default_value("100000000")
        .help(help)
}

/// `--steps N` of `dm gdb`: 1000000 by default, so that a stop that GDB wants comes soon.
fn gdb_steps_arg<'a>(alloc: Global) -> Arg<'a>
    ensures rule { rule_of result ≡ gdb_steps_rule }
    ensures local { result.global ≡ false }
{
    Arg::new(alloc, "steps")
        .long("steps")
        .value_name("N")
        .value_parser(ValueParser::unsigned(0, 18446744073709551615))
        .default_value("1000000")
        .help(GDB_STEPS_HELP)
}

/// `--ems PAGES`: a number below 2^32, 64 by default.
fn ems_arg<'a>(alloc: Global) -> Arg<'a>
    ensures rule { rule_of result ≡ ems_rule }
    ensures local { result.global ≡ false }
{
    Arg::new(alloc, "ems")
        .long("ems")
        .value_name("PAGES")
        .value_parser(ValueParser::unsigned(0, 4294967295))
        .default_value("64")
        .help("Pages of expanded memory, 16 KiB each; at most 512")
}

/// `--xms KIB`: a number below 2^32, 1024 by default.
fn xms_arg<'a>(alloc: Global) -> Arg<'a>
    ensures rule { rule_of result ≡ xms_rule }
    ensures local { result.global ≡ false }
{
    Arg::new(alloc, "xms")
        .long("xms")
        .value_name("KIB")
        .value_parser(ValueParser::unsigned(0, 4294967295))
        .default_value("1024")
        .help("KiB of extended memory; at most 15360")
}

/// `--upper`, which has no value.
fn upper_arg<'a>(alloc: Global) -> Arg<'a>
    ensures rule { rule_of result ≡ upper_rule }
    ensures local { result.global ≡ false }
{
    Arg::new(alloc, "upper")
        .long("upper")
        .action(ArgAction::SetTrue)
        .help("Add an upper memory block, D000h to DFFFh, to DOS memory")
}

/// `--tail TEXT`, the empty text by default.
fn tail_arg<'a>(alloc: Global) -> Arg<'a>
    ensures rule { rule_of result ≡ tail_rule }
    ensures local { result.global ≡ false }
{
    Arg::new(alloc, "tail")
        .long("tail")
        .value_name("TEXT")
        .default_value("")
        .help("The command tail, with the space that DOS puts before it; at most 126 bytes")
}

/// `FILES`: at least one path.
fn files_arg<'a>(alloc: Global) -> Arg<'a>
    ensures rule { rule_of result ≡ files_rule }
    ensures local { result.global ≡ false }
{
    Arg::new(alloc, "files")
        .value_name("FILES")
        .num_args(1..)
        .required(true)
        .help("The program, COM or EXE, then files that it can start; at most 16 MiB each")
}

/// Adds the options and files that `run`, `debug`, `check` and `gdb` share to a command; `steps` is `--steps`. An `Err`
/// is a failed allocation.
fn with_machine_args<'a>(
    alloc: Global,
    command: Command<'a>,
    steps: Arg<'a>,
) -> Result<Command<'a>, AllocError>
    requires { steps.global ≡ false }
    ensures app { IfOk result (λ c. app_of c ≡ with_machine_rules (rule_of steps.entry) (app_of command.entry)) }
    ensures local { (fields_of command.entry).has_globals ≡ false → IfOk result (λ c. (fields_of c).has_globals
        ≡ false) }
{
    command
        .arg(steps)?
        .arg(ems_arg(alloc))?
        .arg(xms_arg(alloc))?
        .arg(upper_arg(alloc))?
        .arg(tail_arg(alloc))?
        .arg(files_arg(alloc))
}

/// The command `dm run`. An `Err` is a failed allocation.
fn run_command<'a>(alloc: Global) -> Result<Command<'a>, AllocError>
    ensures app { IfOk result (λ c. app_of c ≡ run_app) }
    ensures local { IfOk result (λ c. (fields_of c).has_globals ≡ false) }
{
    let command = Command::new(alloc, "run")
        .about(
            "Run a program: standard input is its console input, and its output is printed when it ends",
        )
        .after_help(RUN_AFTER_HELP);
    with_machine_args(alloc, command, steps_arg(alloc, STEPS_HELP))
}

/// `--input FILE`, which has no default.
fn input_arg<'a>(alloc: Global) -> Arg<'a>
    ensures rule { rule_of result ≡ input_rule }
    ensures local { result.global ≡ false }
{
    Arg::new(alloc, "input")
        .long("input")
        .value_name("FILE")
        .help("The file that the program reads as its console input; none without it")
}

/// The command `dm debug`. An `Err` is a failed allocation.
fn debug_command<'a>(alloc: Global) -> Result<Command<'a>, AllocError>
    ensures app { IfOk result (λ c. app_of c ≡ debug_app) }
    ensures local { IfOk result (λ c. (fields_of c).has_globals ≡ false) }
{
    let command = Command::new(alloc, "debug")
        .about("Debug a program: each line of standard input is a command, Q ends the session")
        .after_help(DEBUG_AFTER_HELP);
    with_machine_args(alloc, command, steps_arg(alloc, DEBUG_STEPS_HELP))?.arg(input_arg(alloc))
}

/// The command `dm gdb`. An `Err` is a failed allocation.
fn gdb_command<'a>(alloc: Global) -> Result<Command<'a>, AllocError>
    ensures app { IfOk result (λ c. app_of c ≡ gdb_app) }
    ensures local { IfOk result (λ c. (fields_of c).has_globals ≡ false) }
{
    let command = Command::new(alloc, "gdb")
        .about(
            "Debug a program with GDB, whose remote serial protocol it speaks on standard input and output",
        )
        .after_help("Example: gdb -ex 'target extended-remote | dm gdb PROGRAM.COM'");
    with_machine_args(alloc, command, gdb_steps_arg(alloc))?.arg(input_arg(alloc))
}

/// `--no-free`, which has no value.
fn no_free_arg<'a>(alloc: Global) -> Arg<'a>
    ensures rule { rule_of result ≡ no_free_rule }
    ensures local { result.global ≡ false }
{
    Arg::new(alloc, "no-free")
        .long("no-free")
        .action(ArgAction::SetTrue)
        .help("Leave out what is found about free memory: reads of it, writes to it, a stack in it")
}

/// `--json`, which has no value.
fn json_arg<'a>(alloc: Global) -> Arg<'a>
    ensures rule { rule_of result ≡ json_rule }
    ensures local { result.global ≡ false }
{
    Arg::new(alloc, "json")
        .long("json")
        .action(ArgAction::SetTrue)
        .help("Report in JSON, one object a line")
}

/// The command `dm check`. An `Err` is a failed allocation.
fn check_command<'a>(alloc: Global) -> Result<Command<'a>, AllocError>
    ensures app { IfOk result (λ c. app_of c ≡ check_app) }
    ensures local { IfOk result (λ c. (fields_of c).has_globals ≡ false) }
{
    let command = Command::new(alloc, "check")
        .about(
            "Run a program and report its errors in the use of memory: overwritten block headers, uses of free memory, double frees, leaks",
        )
        .after_help(CHECK_AFTER_HELP);
    with_machine_args(alloc, command, steps_arg(alloc, STEPS_HELP))?
        .arg(no_free_arg(alloc))?
        .arg(json_arg(alloc))
}

/// A required argument that is the path of one file. `id` is the name by which the value is read back, `value_name` and
/// `help` are the argument's name and text in the help.
fn path_arg<'a>(
    alloc: Global,
    id: &'static str,
    value_name: &'static str,
    help: &'static str,
) -> Arg<'a>
    ensures rule { rule_of result ≡ path_rule id.now }
    ensures local { result.global ≡ false }
{
    Arg::new(alloc, id)
        .value_name(value_name)
        .required(true)
        .help(help)
}

/// The command `dm asm`, with its arguments `IN` and `OUT`. An `Err` is a failed allocation.
fn asm_command<'a>(alloc: Global) -> Result<Command<'a>, AllocError>
    ensures app { IfOk result (λ c. app_of c ≡ asm_app) }
    ensures local { IfOk result (λ c. (fields_of c).has_globals ≡ false) }
{
    Command::new(alloc, "asm")
        .about("Assemble a text to a COM program")
        .after_help("Example: dm asm hello.asm hello.com")
        .arg(path_arg(alloc, "in", "IN", "The text, at most 16 MiB"))?
        .arg(path_arg(
            alloc,
            "out",
            "OUT",
            "The COM file, at most 65278 bytes; written only if the text has no error",
        ))
}

/// The command `dm disasm`, with its argument `IN`. An `Err` is a failed allocation.
fn disasm_command<'a>(alloc: Global) -> Result<Command<'a>, AllocError>
    ensures app { IfOk result (λ c. app_of c ≡ disasm_app) }
    ensures local { IfOk result (λ c. (fields_of c).has_globals ≡ false) }
{
    Command::new(alloc, "disasm")
        .about("Disassemble a COM program to a text that asm takes")
        .after_help("Example: dm disasm hello.com >listing.asm")
        .arg(path_arg(alloc, "in", "IN", "The COM file, at most 65278 bytes"))
}

/// Adds the subcommand `made` to `command`. An `Err` is a failed allocation, that of `made` or one of this call.
fn with_made<'a>(
    command: Command<'a>,
    made: Result<Command<'a>, AllocError>,
) -> Result<Command<'a>, AllocError>
    ensures made { OnOk result (IsOk made.entry) }
    ensures app { IfOk result (λ c. IfOk made.entry (λ s. (fields_of s).has_globals ≡ false
        → app_of c ≡ with_subcommand (app_of command.entry) (app_of s).top)) }
{
    command.subcommand(made?)
}

/// The command `dm` with its subcommands, of which a command line must name one. An `Err` is a failed allocation.
pub(crate) fn dm_command<'a>(alloc: Global) -> Result<Command<'a>, AllocError>
    ensures { IfOk result (λ c. app_of c ≡ dm_app) }
{
    let command = Command::new(alloc, "dm")
        .about(
            "Runs, debugs, checks, assembles and disassembles MS-DOS programs on an emulated Intel 8086 PC with EMS and XMS memory",
        )
        .version(VERSION)
        .after_help("Example: dm run HELLO.COM")
        .subcommand_required(true);
    let command = with_made(command, run_command(alloc))?;
    let command = with_made(command, debug_command(alloc))?;
    let command = with_made(command, check_command(alloc))?;
    let command = with_made(command, asm_command(alloc))?;
    let command = with_made(command, disasm_command(alloc))?;
    with_made(command, gdb_command(alloc))
}
