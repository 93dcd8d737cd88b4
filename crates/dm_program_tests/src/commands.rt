//! The program `dm` with files, readers and writers in memory: what each command line writes and prints, and its
//! status.
use crate::checks::same_of;
use crate::files::{Ending, Slow, Source, failing, filled, just, new_files};
use dm_cli::{Sink, dm_main};
use std::alloc::Global;
use std::io::ErrorKind;
use std::process::Abort;
use std::test::Fail;

/// Prints `hi` and ends with code 0, in seven steps.
const HELLO: &[u8] = b"\xB4\x09\xBA\x0C\x01\xCD\x21\xB8\x00\x4C\xCD\x21hi$";

const TEXT: &[u8] = b"MOV AH,9\nMOV DX,msg\nINT 21h\nMOV AX,4C00h\nINT 21h\nmsg: DB 'hi$'\n";

/// Writes each byte that it reads, up to the end of the input.
const COPY: &[u8] = b"\xB4\x01\xCD\x21\xEB\xFA";

/// Frees its own block twice, and ends with code 0. MOV AH,49h; INT 21h; MOV AH,49h; INT 21h; MOV AX,4C00h; INT 21h
const TWICE: &[u8] = b"\xB4\x49\xCD\x21\xB4\x49\xCD\x21\xB8\x00\x4C\xCD\x21";

/// Prints `hi`, frees its own block twice, and ends with code 0. The 20 bytes before `hi$` are MOV AH,9; MOV DX,0114h;
/// INT 21h; MOV AH,49h; INT 21h; MOV AH,49h; INT 21h; MOV AX,4C00h; INT 21h
const HELLO_TWICE: &[u8] =
    b"\xB4\x09\xBA\x14\x01\xCD\x21\xB4\x49\xCD\x21\xB4\x49\xCD\x21\xB8\x00\x4C\xCD\x21hi$";

/// Requests more memory than there is, and ends with code 7. MOV AH,48h; MOV BX,0FFFFh; INT 21h; MOV AX,4C07h; INT 21h
const ASK: &[u8] = b"\xB4\x48\xBB\xFF\xFF\xCD\x21\xB8\x07\x4C\xCD\x21";

/// Overwrites the header of its own block. MOV AX,CS; DEC AX; MOV DS,AX; MOV [0],AL; MOV AX,4C00h; INT 21h
const WRECK: &[u8] = b"\x8C\xC8\x48\x8E\xD8\xA2\x00\x00\xB8\x00\x4C\xCD\x21";

/// 16 MiB, the most that a file or standard input may have.
const MOST: usize = 16_777_216;

/// A name with one byte more than a program's may have, for a file that cannot be read.
const CUT_65: &str = "cut/aaaaaaaaaaaaaaaaaaaaaaaaaaaaaaaaaaaaaaaaaaaaaaaaaaaaaaaaaaaaa.com";

/// Paths that are neither opened nor written, each for its reason. (Every other path is not found.)
const REFUSED: [(&str, ErrorKind); 2] = [
    ("locked.com", ErrorKind::PermissionDenied),
    ("full.com", ErrorKind::OutOfMemory),
];

/// A line, the status, what it writes to a file after the file's path, what it writes to standard output, and what it
/// writes to standard error.
type Row<'a> = (&'a str, u8, &'a [u8], &'a [u8], &'a str);

/// The existing files.
fn known_files() -> [(&'static str, Source<'static>); 14] {
    let cut = ErrorKind::BrokenPipe;
    let short = ErrorKind::OutOfMemory;
    [
        ("hi.com", just(HELLO)),
        ("hi.asm", just(TEXT)),
        ("copy.com", just(COPY)),
        ("twice.com", just(TWICE)),
        ("hi2.com", just(HELLO_TWICE)),
        ("ask.com", just(ASK)),
        ("wreck.com", just(WRECK)),
        ("d/", just(HELLO)),
        ("nul\0.com", just(HELLO)),
        ("cut.com", failing(HELLO, cut)),
        ("cut/hi.com", failing(HELLO, cut)),
        (CUT_65, failing(HELLO, cut)),
        ("short.com", failing(HELLO, short)),
        ("endless.com", filled(b"", usize::MAX)),
    ]
}

/// Runs that end normally or at a stop, and what is written to a file.
const RUNS: [Row; 4] = [
    ("dm run hi.com", 0, b"", b"hi", ""),
    (
        "dm run --steps=6 hi.com",
        125,
        b"",
        b"hi",
        "stopped: steps\n",
    ),
    (
        "dm run copy.com",
        125,
        b"",
        b"typed",
        "stopped: input ended\n",
    ),
    (
        "dm asm hi.asm a/HI.COM",
        0,
        b"a/HI.COM \xB4\x09\xBA\x0C\x01\xCD\x21\xB8\x00\x4C\xCD\x21hi$",
        b"",
        "",
    ),
];

/// The report for a block that is freed twice, in which the stack is: both calls leave it there, and the INT after each
/// pushes the flags at FFFCh.
const FREED_TWICE: &str = "\
error: step 3, 0103:0102 INT 21h function 49h (Free Allocated Memory): the stack is in the free block at 0103
error: step 5, 0103:0106 INT 021h: writes 0103:FFFC in the free block at 0103, freed by step 3, 0103:0102
error: step 6, 0103:0106 INT 21h function 49h (Free Allocated Memory): block at 0103 freed twice, freed by step 3, 0103:0102
error: step 6, 0103:0106 INT 21h function 49h (Free Allocated Memory): the stack is in the free block at 0103
error: step 8, 0103:010B INT 021h: writes 0103:FFFC in the free block at 0103, freed by step 3, 0103:0102
errors: 5, notes: 0
";

/// Checked runs: without a finding, at any stop; with an error, with a note, and with an instruction that destroys
/// the arena. Faults before a run are reported as for `dm run`.
const CHECKS: [Row; 10] = [
    ("dm check hi.com", 0, b"", b"hi", "errors: 0, notes: 0\n"),
    (
        "dm check --steps=6 hi.com",
        125,
        b"",
        b"hi",
        "errors: 0, notes: 0\nstopped: steps at 0103:010A: INT 21h function 4Ch (End Program)\n",
    ),
    (
        "dm check copy.com",
        125,
        b"",
        b"typed",
        "errors: 0, notes: 0\nstopped: input ended at 0103:0102: INT 21h function 01h (Read Keyboard with Echo)\n",
    ),
    ("dm check twice.com", 124, b"", b"", FREED_TWICE),
    (
        "dm check --steps=5 --no-free twice.com",
        125,
        b"",
        b"",
        "errors: 0, notes: 0\nstopped: steps at 0103:0106: INT 21h function 49h (Free Allocated Memory)\n",
    ),
    (
        "dm check --steps=6 twice.com",
        124,
        b"",
        b"",
        "\
error: step 3, 0103:0102 INT 21h function 49h (Free Allocated Memory): the stack is in the free block at 0103
error: step 5, 0103:0106 INT 021h: writes 0103:FFFC in the free block at 0103, freed by step 3, 0103:0102
error: step 6, 0103:0106 INT 21h function 49h (Free Allocated Memory): block at 0103 freed twice, freed by step 3, 0103:0102
error: step 6, 0103:0106 INT 21h function 49h (Free Allocated Memory): the stack is in the free block at 0103
errors: 4, notes: 0
stopped: steps at 0103:0108
",
    ),
    (
        "dm check ask.com",
        7,
        b"",
        b"",
        "\
note: step 4, 0103:0105 INT 21h function 48h (Allocate Memory): refused with code 08h, not enough memory: \
65535 paragraphs wanted, 0 available
errors: 0, notes: 1
",
    ),
    (
        "dm check wreck.com",
        124,
        b"",
        b"",
        "\
error: step 4, 0103:0105 MOV [00000h],AL: header at 0102 overwritten: 5A 0103 9EFD became 02 0103 9EFD
error: step 4, 0103:0105 MOV [00000h],AL: block list destroyed at 0102
errors: 2, notes: 0
stopped: destroyed at 0103:010B: INT 21h function 4Ch (End Program)
",
    ),
    ("dm check d/", 126, b"", b"", "dm: cannot read d/\n"),
    (
        "dm check hi.com full.com no.com",
        126,
        b"",
        b"",
        "dm: out of memory\n",
    ),
];

/// Faults of files: a path without a file, a file that cannot be opened, or read to its end, or has no end; one that
/// cannot be written.
const FILE_FAULTS: [Row; 16] = [
    ("dm run d/", 126, b"", b"", "dm: cannot read d/\n"),
    (
        "dm run nul\0.com",
        126,
        b"",
        b"",
        "dm: cannot read nul\0.com\n",
    ),
    (
        "dm run locked.com",
        126,
        b"",
        b"",
        "dm: cannot read locked.com\n",
    ),
    (
        "dm run hi.com full.com no.com",
        126,
        b"",
        b"",
        "dm: out of memory\n",
    ),
    (
        "dm run hi.com cut.com",
        126,
        b"",
        b"",
        "dm: cannot read cut.com\n",
    ),
    (
        "dm run hi.com cut/hi.com",
        126,
        b"",
        b"",
        "dm: cannot read cut/hi.com\n",
    ),
    (
        "dm run cut/aaaaaaaaaaaaaaaaaaaaaaaaaaaaaaaaaaaaaaaaaaaaaaaaaaaaaaaaaaaaa.com",
        126,
        b"",
        b"",
        "dm: cannot read cut/aaaaaaaaaaaaaaaaaaaaaaaaaaaaaaaaaaaaaaaaaaaaaaaaaaaaaaaaaaaaa.com\n",
    ),
    (
        "dm run hi.com short.com no.com",
        126,
        b"",
        b"",
        "dm: out of memory\n",
    ),
    (
        "dm run hi.com endless.com no.com",
        126,
        b"",
        b"",
        "dm: input too long\n",
    ),
    (
        "dm asm cut.com x.com",
        126,
        b"",
        b"",
        "dm: cannot read cut.com\n",
    ),
    (
        "dm asm short.com x.com",
        126,
        b"",
        b"",
        "dm: out of memory\n",
    ),
    (
        "dm asm hi.asm locked.com",
        126,
        b"",
        b"",
        "dm: cannot write locked.com\n",
    ),
    (
        "dm asm hi.asm full.com",
        126,
        b"",
        b"",
        "dm: out of memory\n",
    ),
    (
        "dm asm hi.asm hi.asm",
        126,
        b"",
        b"",
        "dm: cannot write hi.asm\n",
    ),
    (
        "dm asm hi.asm ./hi.asm",
        126,
        b"",
        b"",
        "dm: cannot write ./hi.asm\n",
    ),
    (
        "dm disasm locked.com",
        126,
        b"",
        b"",
        "dm: cannot read locked.com\n",
    ),
];

/// Runs a command line on the files, with this standard input. Compares what is written, what is reported, and the
/// status.
fn tells(
    rt: &impl Abort,
    alloc: Global,
    input: Source,
    (line, status, saved, put_out, told): Row,
) -> Result<(), Fail> {
    let words: Vec<&str> = line.split(' ').collect(alloc)?;
    let mut output = Vec::new(alloc);
    let mut error = Vec::new(alloc);
    let known = known_files();
    let mut files = new_files(alloc, &known, &REFUSED);
    let words = words.as_slice();
    let mut sink = Sink::new(&mut output);
    let mut messages = Sink::new(&mut error);
    let got = dm_main(alloc, &mut files, words, input, &mut sink, &mut messages);
    same_of(rt, line, "told", error.as_slice(), told.as_bytes());
    same_of(rt, line, "output", output.as_slice(), put_out);
    same_of(rt, line, "saved", files.saved.as_slice(), saved);
    same_of(rt, line, "status", got, status);
    Ok(())
}

/// Definitions: dm_cli Program Does IsParsed Given Produced Runs
/// Definitions: dm_cli Starting IsStartedBy sizes_of paths_of typed_in
/// Definitions: dm_cli Statuses exit_status_of status_after; dm_cli Names last_part
/// Definitions: dm_cli Stores AddsFile Stores IsStarted IsBegun
#[test]
fn runs_stop(rt: HostRuntime) -> Result<(), Fail> {
    for row in RUNS {
        tells(&rt, rt.alloc(), just(b"typed"), row)?;
    }
    Ok(())
}

/// Definitions: dm_cli Program Does IsParsed Given Produced; dm_cli Checking Checks checked_status check_status
/// Definitions: dm_cli Messages Prints stop_text; dm_reports Reports report_text; dm_reports Names call_text dos_name
/// Definitions: dm_reports Texts found_line finding_text contents_text act_text kind_text
#[test]
fn runs_are_checked(rt: HostRuntime) -> Result<(), Fail> {
    for row in CHECKS {
        tells(&rt, rt.alloc(), just(b"typed"), row)?;
    }
    Ok(())
}

/// Definitions: dm_proc Programs IsName; dm_cli Program Does IsParsed Given Produced
/// Definitions: dm_cli Starting IsStartFault IsFileFault IsMachineFault IsLoadFault
/// Definitions: dm_cli Statuses exit_status_of status_after; dm_cli Names last_part
/// Definitions: dm_cli Faults refusal_fault IsUnread IsUnwritten IsReadFault IsWriteFault
/// Definitions: dm_cli Stores IsRead IsInputFault IsFaultOf
#[test]
fn tells_faults_of_files(rt: HostRuntime) -> Result<(), Fail> {
    for row in FILE_FAULTS {
        tells(&rt, rt.alloc(), just(b"typed"), row)?;
    }
    Ok(())
}

/// Definitions: dm_cli Faults IsUnread IsUnwritten IsReadFault IsWriteFault; dm_cli Stores IsRead IsInputFault
#[test]
fn tells_faults_of_the_input(rt: HostRuntime) -> Result<(), Fail> {
    let endless = filled(b"", usize::MAX);
    let broken = failing(b"typed", ErrorKind::BrokenPipe);
    let full = failing(b"typed", ErrorKind::OutOfMemory);
    let beyond = filled(b"", MOST + 1);
    let rows: [(Source, &str, &str); 5] = [
        // after the files, and before all that is checked later
        (endless, "dm run hi.com no.com", "dm: cannot read no.com\n"),
        (endless, "dm run --ems=513 hi.com", "dm: input too long\n"),
        (
            broken,
            "dm run --ems=513 hi.com",
            "dm: cannot read standard input\n",
        ),
        (full, "dm run --ems=513 hi.com", "dm: out of memory\n"),
        (beyond, "dm run hi.com", "dm: input too long\n"),
    ];
    for (input, line, told) in rows {
        tells(&rt, rt.alloc(), input, (line, 126, b"", b"", told))?;
    }
    let most = filled(b"", MOST);
    tells(&rt, rt.alloc(), most, ("dm run hi.com", 0, b"", b"hi", ""))
}

/// One byte more than the limit is read, and no more: a further read would fail.
#[test]
fn long_input_is_read_one_byte_too_far(rt: HostRuntime) -> Result<(), Fail> {
    let beyond = Source {
        bytes: b"",
        zeros: MOST + 1,
        ending: Ending::Fault(ErrorKind::BrokenPipe),
    };
    for line in ["dm run hi.com", "dm debug hi.com"] {
        let row: Row = (line, 126, b"", b"", "dm: input too long\n");
        tells(&rt, rt.alloc(), beyond, row)?;
    }
    Ok(())
}

/// The lines before the read that fails are executed, and a line that was cut off is not.
#[test]
fn lines_before_a_failing_read_are_answered(rt: HostRuntime) -> Result<(), Fail> {
    let blocks = b"0100 M 0103 0001\n0102 Z 0103 9EFD\nend\n";
    for (kind, told) in [
        (ErrorKind::BrokenPipe, "dm: cannot read standard input\n"),
        (ErrorKind::OutOfMemory, "dm: out of memory\n"),
    ] {
        let row: Row = ("dm debug hi.com", 126, b"", blocks, told);
        tells(&rt, rt.alloc(), failing(b"M\nM", kind), row)?;
    }
    Ok(())
}

/// The packets before the read that fails are answered, and nothing is read after the end of the conversation.
///
/// Definitions: dm_cli Serving ServesStream IsServed DebugsByGdb
#[test]
fn packets_before_a_failing_read_are_answered(rt: HostRuntime) -> Result<(), Fail> {
    for (kind, told) in [
        (ErrorKind::BrokenPipe, "dm: cannot read standard input\n"),
        (ErrorKind::OutOfMemory, "dm: out of memory\n"),
    ] {
        let row: Row = ("dm gdb hi.com", 126, b"", b"+$T05#b9-", told);
        tells(&rt, rt.alloc(), failing(b"+$?#3f$?#40$?", kind), row)?;
    }
    let row: Row = ("dm gdb hi.com", 0, b"", b"+", "");
    tells(
        &rt,
        rt.alloc(),
        failing(b"$k#6b", ErrorKind::BrokenPipe),
        row,
    )
}

/// Definitions: dm_cli Stores IsRead IsInputFault
#[test]
fn a_long_input_is_copied(rt: HostRuntime) -> Result<(), Fail> {
    let mut wanted = Vec::from_slice(rt.alloc(), b"typed")?;
    wanted.resize(100_005, 0)?;
    let told = "stopped: input ended\n";
    let row: Row = ("dm run copy.com", 125, b"", wanted.as_slice(), told);
    tells(&rt, rt.alloc(), filled(b"typed", 100_000), row)
}

/// A read that fails is counted, and so is a file that cannot be opened. A path that names no file is not opened.
///
/// Definitions: dm_cli Reads ReadsFiles TellsOfAFile TellsOfNoFile
#[test]
fn counts_failing_reads(rt: HostRuntime) -> Result<(), Fail> {
    for (line, status, unread) in [
        ("dm run hi.com", 0, 0),
        ("dm run hi.com no.com", 126, 1),
        ("dm run hi.com cut.com no.com", 126, 1),
        ("dm run hi.com short.com no.com", 126, 1),
        ("dm run hi.com d/", 126, 0),
        ("dm check no.com", 126, 1),
        ("dm debug hi.com --input=cut.com", 126, 1),
        ("dm gdb hi.com", 0, 0),
        ("dm gdb hi.com --input=cut.com", 126, 1),
        ("dm asm no.asm out.com", 126, 1),
        ("dm disasm hi.com", 0, 0),
        ("dm disasm cut.com", 126, 1),
    ] {
        let words: Vec<&str> = line.split(' ').collect(rt.alloc())?;
        let words = words.as_slice();
        let known = known_files();
        let mut files = new_files(rt.alloc(), &known, &REFUSED);
        let (mut out, mut error) = (Vec::new(rt.alloc()), Vec::new(rt.alloc()));
        let got = dm_main(
            rt.alloc(),
            &mut files,
            words,
            just(b"Q\n"),
            &mut Sink::new(&mut out),
            &mut Sink::new(&mut error),
        );
        same_of(&rt, line, "status", got, status);
        same_of(&rt, line, "unread", files.unread, unread);
    }
    Ok(())
}

/// A command line whose standard output fails, or takes nothing, after this many writes of one byte.
fn fails(
    rt: &impl Abort,
    alloc: Global,
    line: &str,
    (left, refuses): (usize, bool),
    (status, put_out, told): (u8, &str, &str),
) -> Result<(), Fail> {
    let words: Vec<&str> = line.split(' ').collect(alloc)?;
    let mut taken = Vec::new(alloc);
    let mut sink = Sink::new(Slow {
        taken: &mut taken,
        left,
        refuses,
    });
    let mut error = Vec::new(alloc);
    let known = known_files();
    let mut files = new_files(alloc, &known, &REFUSED);
    let words = words.as_slice();
    let got = dm_main(
        alloc,
        &mut files,
        words,
        just(b"M\n"),
        &mut sink,
        &mut Sink::new(&mut error),
    );
    same_of(rt, line, "status", got, status);
    same_of(rt, line, "told", error.as_slice(), told.as_bytes());
    same_of(rt, line, "output", taken.as_slice(), put_out.as_bytes());
    Ok(())
}

/// The report of `hi2.com`, and the fault of its output.
const TWICE_UNWRITTEN: &str = "\
error: step 7, 0103:0109 INT 21h function 49h (Free Allocated Memory): the stack is in the free block at 0103
error: step 9, 0103:010D INT 021h: writes 0103:FFFC in the free block at 0103, freed by step 7, 0103:0109
error: step 10, 0103:010D INT 21h function 49h (Free Allocated Memory): block at 0103 freed twice, freed by step 7, 0103:0109
error: step 10, 0103:010D INT 21h function 49h (Free Allocated Memory): the stack is in the free block at 0103
error: step 12, 0103:0112 INT 021h: writes 0103:FFFC in the free block at 0103, freed by step 7, 0103:0109
errors: 5, notes: 0
dm: cannot write standard output
";

/// Definitions: dm_console writers.Out HasFailed AppendsPart
/// Definitions: dm_cli Checking unwritten_status
#[test]
fn tells_failing_writes(rt: HostRuntime) -> Result<(), Fail> {
    let failed = "dm: cannot write standard output\n";
    let checked = "errors: 0, notes: 0\ndm: cannot write standard output\n";
    for (line, left, wanted) in [
        ("dm run hi.com", 0, (126, "", failed)),
        ("dm run hi.com", 1, (126, "h", failed)),
        ("dm run hi.com", 2, (0, "hi", "")),
        ("dm run hi.com", 3, (0, "hi", "")),
        ("dm disasm hi.com", 5, (126, "MOV A", failed)),
        // a run that stops writes its output too, and if that fails the stop is not reported
        ("dm run --steps=6 hi.com", 0, (126, "", failed)),
        ("dm run --steps=6 hi.com", 1, (126, "h", failed)),
        (
            "dm run --steps=6 hi.com",
            2,
            (125, "hi", "stopped: steps\n"),
        ),
        // and a report is printed all the same
        ("dm check hi.com", 0, (126, "", checked)),
        ("dm check hi.com", 1, (126, "h", checked)),
        ("dm check hi2.com", 1, (124, "h", TWICE_UNWRITTEN)),
        (
            "dm check --steps=6 hi.com",
            1,
            (
                126,
                "h",
                "errors: 0, notes: 0\nstopped: steps at 0103:010A: INT 21h function 4Ch (End Program)\ndm: cannot write standard output\n",
            ),
        ),
        ("dm check hi.com", 2, (0, "hi", "errors: 0, notes: 0\n")),
        ("dm debug hi.com", 0, (126, "", failed)),
        ("dm debug hi.com", 7, (126, "0100 M ", failed)),
    ] {
        for refuses in [false, true] {
            fails(&rt, rt.alloc(), line, (left, refuses), wanted)?;
        }
    }
    Ok(())
}

/// A command line whose standard error fails, or takes nothing, after this many writes of one byte: the message is cut
/// off there, and nothing else changes but the status of `dm check`, whose report is lost.
fn is_cut(
    rt: &impl Abort,
    alloc: Global,
    (left, refuses): (usize, bool),
    (line, status, _, put_out, told): Row,
) -> Result<(), Fail> {
    let words: Vec<&str> = line.split(' ').collect(alloc)?;
    let mut taken = Vec::new(alloc);
    let mut messages = Sink::new(Slow {
        taken: &mut taken,
        left,
        refuses,
    });
    let mut output = Vec::new(alloc);
    let known = known_files();
    let mut files = new_files(alloc, &known, &REFUSED);
    let words = words.as_slice();
    let mut sink = Sink::new(&mut output);
    let input = just(b"typed");
    let got = dm_main(alloc, &mut files, words, input, &mut sink, &mut messages);
    let is_lost = left < told.len() && line.as_bytes().starts_with(b"dm check");
    same_of(rt, line, "status", got, if is_lost { 126 } else { status });
    same_of(rt, line, "output", output.as_slice(), put_out);
    let kept = told.len().min(left);
    same_of(rt, line, "told", taken.as_slice(), &told.as_bytes()[..kept]);
    Ok(())
}

/// Definitions: dm_cli Messages Prints HasPrinted stop_text; dm_cli Checking told_status
/// Definitions: dm_console writers.Out HasFailed AppendsPart
#[test]
fn failing_messages_are_cut(rt: HostRuntime) -> Result<(), Fail> {
    let lines = [
        CHECKS[1],
        CHECKS[3],
        CHECKS[7],
        CHECKS[8],
        RUNS[1],
        FILE_FAULTS[0],
    ];
    for row in lines {
        for left in [0, 1, 5, 40, 1000] {
            for refuses in [false, true] {
                is_cut(&rt, rt.alloc(), (left, refuses), row)?;
            }
        }
    }
    Ok(())
}
