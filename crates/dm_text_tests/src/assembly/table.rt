//! Each template of the instruction table once: its text as a listing shows it, and its preferred bytes, from the
//! manual (Intel 8086 Family User's Manual, section 4, tables 4-13 and 4-14), written by hand. Together they are one
//! program, which is assembled to its bytes and disassembled to its text again.
//!
//! A row is a text and its bytes, as `MOV AX,CX| 89 C8`.

use crate::assembly::rows::{part, put_bytes};
use crate::checks::same;
use dm_asm::{assemble, disassemble};
use std::alloc::Global;
use std::process::Abort;
use std::test::Fail;

/// Jumps and calls. All lead to offset 0100h, where the first one is.
const TRANSFERS: &str = "\
JO 00100h| 70 FE
JNO 00100h| 71 FC
JB 00100h| 72 FA
JAE 00100h| 73 F8
JZ 00100h| 74 F6
JNZ 00100h| 75 F4
JBE 00100h| 76 F2
JA 00100h| 77 F0
JS 00100h| 78 EE
JNS 00100h| 79 EC
JP 00100h| 7A EA
JNP 00100h| 7B E8
JL 00100h| 7C E6
JGE 00100h| 7D E4
JLE 00100h| 7E E2
JG 00100h| 7F E0
LOOPNE 00100h| E0 DE
LOOPE 00100h| E1 DC
LOOP 00100h| E2 DA
JCXZ 00100h| E3 D8
JMP SHORT 00100h| EB D6
CALL 00100h| E8 D3 FF
JMP 00100h| E9 D0 FF
CALL FAR 01234h:05678h| 9A 78 56 34 12
JMP FAR 01234h:05678h| EA 78 56 34 12
CALL NEAR [BX]| FF 17
CALL FAR [BX]| FF 1F
JMP NEAR [BX]| FF 27
JMP FAR [BX]| FF 2F
RET 00004h| C2 04 00
RET| C3
RETF 00004h| CA 04 00
RETF| CB
INT3| CC
INT 021h| CD 21
INTO| CE
IRET| CF";

/// Arithmetic and logic: registers, memory, AL and AX.
const ARITHMETIC: &str = "\
ADD AL,CL| 00 C8
ADD AX,CX| 01 C8
ADD AL,[BX]| 02 07
ADD AX,[BX]| 03 07
ADD AL,00Fh| 04 0F
ADD AX,01234h| 05 34 12
OR AL,CL| 08 C8
OR AX,CX| 09 C8
OR AL,[BX]| 0A 07
OR AX,[BX]| 0B 07
OR AL,00Fh| 0C 0F
OR AX,01234h| 0D 34 12
ADC AL,CL| 10 C8
ADC AX,CX| 11 C8
ADC AL,[BX]| 12 07
ADC AX,[BX]| 13 07
ADC AL,00Fh| 14 0F
ADC AX,01234h| 15 34 12
SBB AL,CL| 18 C8
SBB AX,CX| 19 C8
SBB AL,[BX]| 1A 07
SBB AX,[BX]| 1B 07
SBB AL,00Fh| 1C 0F
SBB AX,01234h| 1D 34 12
AND AL,CL| 20 C8
AND AX,CX| 21 C8
AND AL,[BX]| 22 07
AND AX,[BX]| 23 07
AND AL,00Fh| 24 0F
AND AX,01234h| 25 34 12
SUB AL,CL| 28 C8
SUB AX,CX| 29 C8
SUB AL,[BX]| 2A 07
SUB AX,[BX]| 2B 07
SUB AL,00Fh| 2C 0F
SUB AX,01234h| 2D 34 12
XOR AL,CL| 30 C8
XOR AX,CX| 31 C8
XOR AL,[BX]| 32 07
XOR AX,[BX]| 33 07
XOR AL,00Fh| 34 0F
XOR AX,01234h| 35 34 12
CMP AL,CL| 38 C8
CMP AX,CX| 39 C8
CMP AL,[BX]| 3A 07
CMP AX,[BX]| 3B 07
CMP AL,00Fh| 3C 0F
CMP AX,01234h| 3D 34 12";

/// With a value. (82h is the same as 80h, and so is never a preferred byte.)
const VALUES: &str = "\
ADD BYTE [BX],005h| 80 07 05
ADD WORD [BX],01234h| 81 07 34 12
DB 082h,007h,005h ; ADD BYTE [BX],005h| 82 07 05
ADD WORD [BX],0FF80h| 83 07 80
OR BYTE [BX],005h| 80 0F 05
OR WORD [BX],01234h| 81 0F 34 12
DB 082h,00Fh,005h ; OR BYTE [BX],005h| 82 0F 05
OR WORD [BX],0FF80h| 83 0F 80
ADC BYTE [BX],005h| 80 17 05
ADC WORD [BX],01234h| 81 17 34 12
DB 082h,017h,005h ; ADC BYTE [BX],005h| 82 17 05
ADC WORD [BX],0FF80h| 83 17 80
SBB BYTE [BX],005h| 80 1F 05
SBB WORD [BX],01234h| 81 1F 34 12
DB 082h,01Fh,005h ; SBB BYTE [BX],005h| 82 1F 05
SBB WORD [BX],0FF80h| 83 1F 80
AND BYTE [BX],005h| 80 27 05
AND WORD [BX],01234h| 81 27 34 12
DB 082h,027h,005h ; AND BYTE [BX],005h| 82 27 05
AND WORD [BX],0FF80h| 83 27 80
SUB BYTE [BX],005h| 80 2F 05
SUB WORD [BX],01234h| 81 2F 34 12
DB 082h,02Fh,005h ; SUB BYTE [BX],005h| 82 2F 05
SUB WORD [BX],0FF80h| 83 2F 80
XOR BYTE [BX],005h| 80 37 05
XOR WORD [BX],01234h| 81 37 34 12
DB 082h,037h,005h ; XOR BYTE [BX],005h| 82 37 05
XOR WORD [BX],0FF80h| 83 37 80
CMP BYTE [BX],005h| 80 3F 05
CMP WORD [BX],01234h| 81 3F 34 12
DB 082h,03Fh,005h ; CMP BYTE [BX],005h| 82 3F 05
CMP WORD [BX],0FF80h| 83 3F 80";

/// One operand: registers, segment registers, memory.
const SINGLES: &str = "\
INC AX| 40
INC CX| 41
INC DX| 42
INC BX| 43
INC SP| 44
INC BP| 45
INC SI| 46
INC DI| 47
DEC AX| 48
DEC CX| 49
DEC DX| 4A
DEC BX| 4B
DEC SP| 4C
DEC BP| 4D
DEC SI| 4E
DEC DI| 4F
PUSH AX| 50
PUSH CX| 51
PUSH DX| 52
PUSH BX| 53
PUSH SP| 54
PUSH BP| 55
PUSH SI| 56
PUSH DI| 57
POP AX| 58
POP CX| 59
POP DX| 5A
POP BX| 5B
POP SP| 5C
POP BP| 5D
POP SI| 5E
POP DI| 5F
PUSH ES| 06
PUSH CS| 0E
PUSH SS| 16
PUSH DS| 1E
POP ES| 07
POP SS| 17
POP DS| 1F
POP WORD [BX]| 8F 07
PUSH WORD [BX]| FF 37
INC BYTE [BX]| FE 07
DEC BYTE [BX]| FE 0F
INC WORD [BX]| FF 07
DEC WORD [BX]| FF 0F
PUSHF| 9C
POPF| 9D
SAHF| 9E
LAHF| 9F";

/// Moves, exchanges, addresses.
const MOVES: &str = "\
MOV AL,CL| 88 C8
MOV AX,CX| 89 C8
MOV AL,[BX]| 8A 07
MOV AX,[BX]| 8B 07
MOV AX,ES| 8C C0
MOV AX,CS| 8C C8
MOV AX,SS| 8C D0
MOV AX,DS| 8C D8
MOV ES,AX| 8E C0
MOV SS,AX| 8E D0
MOV DS,AX| 8E D8
LEA AX,[BX]| 8D 07
LES AX,[BX]| C4 07
LDS AX,[BX]| C5 07
MOV AL,[01234h]| A0 34 12
MOV AX,[01234h]| A1 34 12
MOV [01234h],AL| A2 34 12
MOV [01234h],AX| A3 34 12
MOV AL,00Fh| B0 0F
MOV CL,00Fh| B1 0F
MOV DL,00Fh| B2 0F
MOV BL,00Fh| B3 0F
MOV AH,00Fh| B4 0F
MOV CH,00Fh| B5 0F
MOV DH,00Fh| B6 0F
MOV BH,00Fh| B7 0F
MOV AX,01234h| B8 34 12
MOV CX,01234h| B9 34 12
MOV DX,01234h| BA 34 12
MOV BX,01234h| BB 34 12
MOV SP,01234h| BC 34 12
MOV BP,01234h| BD 34 12
MOV SI,01234h| BE 34 12
MOV DI,01234h| BF 34 12
MOV BYTE [BX],005h| C6 07 05
MOV WORD [BX],01234h| C7 07 34 12
TEST AL,CL| 84 C8
TEST AX,CX| 85 C8
XCHG AL,CL| 86 C8
XCHG BX,CX| 87 CB
NOP| 90
XCHG AX,CX| 91
XCHG AX,DX| 92
XCHG AX,BX| 93
XCHG AX,SP| 94
XCHG AX,BP| 95
XCHG AX,SI| 96
XCHG AX,DI| 97";

/// Groups: shifts, F6h and F7h, ESC.
const GROUPS: &str = "\
ROL AL,1| D0 C0
ROL AX,1| D1 C0
ROL AL,CL| D2 C0
ROL AX,CL| D3 C0
ROR AL,1| D0 C8
ROR AX,1| D1 C8
ROR AL,CL| D2 C8
ROR AX,CL| D3 C8
RCL AL,1| D0 D0
RCL AX,1| D1 D0
RCL AL,CL| D2 D0
RCL AX,CL| D3 D0
RCR AL,1| D0 D8
RCR AX,1| D1 D8
RCR AL,CL| D2 D8
RCR AX,CL| D3 D8
SHL AL,1| D0 E0
SHL AX,1| D1 E0
SHL AL,CL| D2 E0
SHL AX,CL| D3 E0
SHR AL,1| D0 E8
SHR AX,1| D1 E8
SHR AL,CL| D2 E8
SHR AX,CL| D3 E8
SAR AL,1| D0 F8
SAR AX,1| D1 F8
SAR AL,CL| D2 F8
SAR AX,CL| D3 F8
TEST AL,00Fh| A8 0F
TEST AX,01234h| A9 34 12
TEST BYTE [BX],00Fh| F6 07 0F
TEST WORD [BX],01234h| F7 07 34 12
NOT BYTE [BX]| F6 17
NOT WORD [BX]| F7 17
NEG BYTE [BX]| F6 1F
NEG WORD [BX]| F7 1F
MUL BYTE [BX]| F6 27
MUL WORD [BX]| F7 27
IMUL BYTE [BX]| F6 2F
IMUL WORD [BX]| F7 2F
DIV BYTE [BX]| F6 37
DIV WORD [BX]| F7 37
IDIV BYTE [BX]| F6 3F
IDIV WORD [BX]| F7 3F
ESC 000h,AX| D8 C0
ESC 009h,AX| D9 C8
ESC 012h,AX| DA D0
ESC 01Bh,AX| DB D8
ESC 024h,AX| DC E0
ESC 02Dh,AX| DD E8
ESC 036h,AX| DE F0
ESC 03Fh,AX| DF F8";

/// No operands, ports, and each prefix.
const OTHERS: &str = "\
DAA| 27
DAS| 2F
AAA| 37
AAS| 3F
CBW| 98
CWD| 99
WAIT| 9B
MOVSB| A4
MOVSW| A5
CMPSB| A6
CMPSW| A7
STOSB| AA
STOSW| AB
LODSB| AC
LODSW| AD
SCASB| AE
SCASW| AF
XLAT| D7
HLT| F4
CMC| F5
CLC| F8
STC| F9
CLI| FA
STI| FB
CLD| FC
STD| FD
AAM| D4 0A
AAD| D5 0A
IN AL,005h| E4 05
IN AX,005h| E5 05
OUT 005h,AL| E6 05
OUT 005h,AX| E7 05
IN AL,DX| EC
IN AX,DX| ED
OUT DX,AL| EE
OUT DX,AX| EF
ES NOP| 26 90
CS NOP| 2E 90
SS NOP| 36 90
DS NOP| 3E 90
LOCK NOP| F0 90
REPNE SCASB| F2 AE
REP MOVSB| F3 A4";

/// The rows by family, in the order of the program.
const TABLE: [&str; 7] = [
    TRANSFERS, ARITHMETIC, VALUES, SINGLES, MOVES, GROUPS, OTHERS,
];

/// Appends the text of a row's instruction as a line, and its bytes.
fn put_row(text: &mut String, bytes: &mut Vec<u8>, row: &str) -> Result<(), Fail> {
    text.push_str(part(row, 0)?)?;
    text.push('\n')?;
    put_bytes(bytes, part(row, 1)?)
}

/// Appends the texts and the bytes of rows.
fn put_rows(text: &mut String, bytes: &mut Vec<u8>, rows: &str) -> Result<(), Fail> {
    for row in rows.split('\n') {
        put_row(text, bytes, row)?;
    }
    Ok(())
}

/// Assembles the text to the bytes, and disassembles these to the text.
fn check_program(rt: &impl Abort, alloc: Global, text: &str, bytes: &[u8]) -> Result<(), Fail> {
    if 65278 < bytes.len() {
        return Err(Fail::from("too many bytes"));
    }
    match assemble(alloc, text.as_bytes()) {
        Ok(found) => same(rt, "bytes", found.as_slice(), bytes),
        Err(_) => return Err(Fail::from("refused")),
    }
    let lines = disassemble(alloc, bytes)?;
    same(rt, "lines", lines.as_slice(), text.as_bytes());
    Ok(())
}

/// Definitions: dm_asm Laws ListingsAssemble ListingsAreAnswered TextsAreSpelled IsSpelled
#[test]
fn each_template_is_assembled_and_listed(rt: HostRuntime) -> Result<(), Fail> {
    let mut text = String::new(rt.alloc());
    let mut bytes = Vec::new(rt.alloc());
    for rows in TABLE {
        put_rows(&mut text, &mut bytes, rows)?;
    }
    // 302 rows, and each of the seven prefixes.
    same(&rt, "rows", text.lines().count(), 309);
    check_program(&rt, rt.alloc(), text.as_str(), bytes.as_slice())
}
