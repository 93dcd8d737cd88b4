//! Texts of instructions: bytes and operands from the manual (Intel 8086 Family User's Manual, section
//! 2.7, and section 4 for the bytes), written by hand. `rows` says how a row is read.

use crate::checks::same;
use crate::rows::{check, note};
use std::test::Fail;

/// The code of a program that prints a text by function 09h, and some single instructions.
const PROGRAM: &str = "\
B4 09                | MOV AH,009h
BA 0C 01             | MOV DX,0010Ch
CD 21                | INT 021h
B8 00 4C             | MOV AX,04C00h
8B C3                | MOV AX,BX
89 D8                | MOV AX,BX
CF                   | IRET
2E 8A 07             | CS MOV AL,[BX]";

/// Each register by its name.
const REGISTERS: &str = "\
88 C8                | MOV AL,CL
88 DA                | MOV DL,BL
88 EC                | MOV AH,CH
88 FE                | MOV DH,BH
89 C8                | MOV AX,CX
89 DA                | MOV DX,BX
89 EC                | MOV SP,BP
89 FE                | MOV SI,DI
8C C0                | MOV AX,ES
8C C9                | MOV CX,CS
8C D2                | MOV DX,SS
8C DB                | MOV BX,DS
8E C0                | MOV ES,AX
06                   | PUSH ES
1F                   | POP DS
41                   | INC CX
4C                   | DEC SP
55                   | PUSH BP";

/// Memory: each base, and displacements, which are words and never negative.
const ADDRESSES: &str = "\
8A 00                | MOV AL,[BX+SI]
8A 01                | MOV AL,[BX+DI]
8A 02                | MOV AL,[BP+SI]
8A 03                | MOV AL,[BP+DI]
8A 04                | MOV AL,[SI]
8A 05                | MOV AL,[DI]
8A 46 00             | MOV AL,[BP]
8A 07                | MOV AL,[BX]
# A displacement of 0 is left out, however it is spelled.
8A 47 00             | MOV AL,[BX]
8A 87 00 00          | MOV AL,[BX]
8A 47 05             | MOV AL,[BX+00005h]
8A 47 FF             | MOV AL,[BX+0FFFFh]
8A 46 80             | MOV AL,[BP+0FF80h]
8A 80 34 12          | MOV AL,[BX+SI+01234h]
8A 83 00 80          | MOV AL,[BP+DI+08000h]
# A direct address keeps its zero.
A0 05 00             | MOV AL,[00005h]
A1 00 00             | MOV AX,[00000h]
A2 FF FF             | MOV [0FFFFh],AL
A3 CD AB             | MOV [0ABCDh],AX
8B 1E 00 00          | MOV BX,[00000h]";

/// BYTE and WORD, exactly if no general register gives the size; NEAR and FAR.
const SIZES: &str = "\
C6 07 05             | MOV BYTE [BX],005h
C7 07 05 00          | MOV WORD [BX],00005h
88 07                | MOV [BX],AL
89 07                | MOV [BX],AX
8B 07                | MOV AX,[BX]
8C 07                | MOV WORD [BX],ES
8E 1F                | MOV DS,WORD [BX]
FF 37                | PUSH WORD [BX]
8F 07                | POP WORD [BX]
FE 07                | INC BYTE [BX]
FF 0F                | DEC WORD [BX]
F6 17                | NOT BYTE [BX]
F7 1F                | NEG WORD [BX]
F6 27                | MUL BYTE [BX]
F7 2F                | IMUL WORD [BX]
F6 37                | DIV BYTE [BX]
F7 3F                | IDIV WORD [BX]
F6 07 0F             | TEST BYTE [BX],00Fh
F7 07 01 00          | TEST WORD [BX],00001h
84 0F                | TEST [BX],CL
86 07                | XCHG [BX],AL
80 07 01             | ADD BYTE [BX],001h
83 2F FF             | SUB WORD [BX],0FFFFh
81 0F 34 12          | OR WORD [BX],01234h
03 07                | ADD AX,[BX]
11 07                | ADC [BX],AX
# The count of a shift gives no size.
D0 27                | SHL BYTE [BX],1
D1 3F                | SAR WORD [BX],1
D2 07                | ROL BYTE [BX],CL
D3 1F                | RCR WORD [BX],CL
D1 E0                | SHL AX,1
D2 CC                | ROR AH,CL
D0 D0                | RCL AL,1
D3 EA                | SHR DX,CL
# The operand of LEA, LES and LDS has no size beside its register.
8D 47 02             | LEA AX,[BX+00002h]
C4 07                | LES AX,[BX]
C5 3F                | LDS DI,[BX]
D9 0F                | ESC 009h,WORD [BX]
DF F8                | ESC 03Fh,AX
# NEAR stands before memory alone, FAR behind the mnemonic.
FF 17                | CALL NEAR [BX]
FF 27                | JMP NEAR [BX]
FF 1F                | CALL FAR [BX]
FF 2E 00 00          | JMP FAR [00000h]
FF D3                | CALL BX
FF E0                | JMP AX";

/// Numbers: two digits for a byte, four for a word, in capital letters.
const NUMBERS: &str = "\
04 0F                | ADD AL,00Fh
05 05 00             | ADD AX,00005h
83 C3 80             | ADD BX,0FF80h
83 C3 05             | ADD BX,00005h
34 FF                | XOR AL,0FFh
24 00                | AND AL,000h
1C A9                | SBB AL,0A9h
3D EF BE             | CMP AX,0BEEFh
A8 80                | TEST AL,080h
A9 00 80             | TEST AX,08000h
E4 60                | IN AL,060h
E5 61                | IN AX,061h
E6 20                | OUT 020h,AL
E7 21                | OUT 021h,AX
EC                   | IN AL,DX
ED                   | IN AX,DX
EE                   | OUT DX,AL
EF                   | OUT DX,AX
CC                   | INT3
CD 03                | INT 003h
C2 04 00             | RET 00004h
C2 00 00             | RET 00000h
C3                   | RET
CA 04 00             | RETF 00004h
CB                   | RETF";

/// Targets are offsets: the next instruction's plus the displacement, modulo 10000h.
const TARGETS: &str = "\
70 00                | JO 00102h
71 01                | JNO 00103h
72 02                | JB 00104h
73 03                | JAE 00105h
74 7F                | JZ 00181h
75 80                | JNZ 00082h
76 FE                | JBE 00100h
77 00                | JA 00102h
78 00                | JS 00102h
79 00                | JNS 00102h
7A 00                | JP 00102h
7B 00                | JNP 00102h
7C 00                | JL 00102h
7D 00                | JGE 00102h
7E 00                | JLE 00102h
7F 00                | JG 00102h
E0 00                | LOOPNE 00102h
E1 00                | LOOPE 00102h
E2 80                | LOOP 00082h
E3 10                | JCXZ 00112h
EB FE                | JMP SHORT 00100h
E9 FD FF             | JMP 00100h
E9 FD FE             | JMP 00000h
E9 FC FE             | JMP 0FFFFh
E8 00 10             | CALL 01103h
E8 00 80             | CALL 08103h
# Far pointers: the segment, then the offset.
9A 34 12 CD AB       | CALL FAR 0ABCDh:01234h
EA 00 00 FF FF       | JMP FAR 0FFFFh:00000h";

/// Prefix words that are kept: a segment, LOCK, REP or REPNE.
const PREFIXES: &str = "\
26 8A 07             | ES MOV AL,[BX]
36 8A 07             | SS MOV AL,[BX]
3E 8A 07             | DS MOV AL,[BX]
F0 FE 07             | LOCK INC BYTE [BX]
F3 A4                | REP MOVSB
F2 AE                | REPNE SCASB
F3 A6                | REP CMPSB
2E F3 A5             | CS REP MOVSW
# They have one order, whatever that of the bytes is.
F3 F0 26 A5          | ES LOCK REP MOVSW
F2 3E AD             | DS REPNE LODSW
# The last of a kind is kept.
26 2E 8A 07          | CS MOV AL,[BX]
F3 F2 A6             | REPNE CMPSB
F3 90                | REP NOP
# The longest text.
26 F0 F2 81 80 CD AB 34 12 | ES LOCK REPNE ADD WORD [BX+SI+0ABCDh],01234h";

/// NOP is XCHG AX,AX in any encoding; other exchanges keep the order of their bytes.
const EXCHANGES: &str = "\
90                   | NOP
87 C0                | NOP
93                   | XCHG AX,BX
87 D8                | XCHG AX,BX
87 C3                | XCHG BX,AX
87 C9                | XCHG CX,CX
86 C0                | XCHG AL,AL
89 C0                | MOV AX,AX";

/// Instructions with no operand.
const ALONE: &str = "\
27                   | DAA
2F                   | DAS
37                   | AAA
3F                   | AAS
98                   | CBW
99                   | CWD
9B                   | WAIT
9C                   | PUSHF
9D                   | POPF
9E                   | SAHF
9F                   | LAHF
A4                   | MOVSB
A5                   | MOVSW
A6                   | CMPSB
A7                   | CMPSW
AA                   | STOSB
AB                   | STOSW
AC                   | LODSB
AD                   | LODSW
AE                   | SCASB
AF                   | SCASW
CE                   | INTO
D4 0A                | AAM
D5 0A                | AAD
D7                   | XLAT
F4                   | HLT
F5                   | CMC
F8                   | CLC
F9                   | STC
FA                   | CLI
FB                   | STI
FC                   | CLD
FD                   | STD";

/// All rows.
const ALL: [&str; 9] = [
    PROGRAM, REGISTERS, ADDRESSES, SIZES, NUMBERS, TARGETS, PREFIXES, EXCHANGES, ALONE,
];

/// Definitions: dm_decode Texts text_of pieces; dm_lines Statements line_statement statement_of item_of
#[test]
fn lines_of_a_program(rt: HostRuntime) -> Result<(), Fail> {
    check(&rt, PROGRAM)
}

/// Definitions: dm_decode Texts operands_pieces second_pieces behind operand_pieces
/// Definitions: dm_decode Names name_of word_name byte_name segment_name
#[test]
fn registers_have_their_names(rt: HostRuntime) -> Result<(), Fail> {
    check(&rt, REGISTERS)
}

/// Definitions: dm_decode Texts address_pieces base_pieces displacement_pieces
#[test]
fn addresses_have_bases_and_displacements(rt: HostRuntime) -> Result<(), Fail> {
    check(&rt, ADDRESSES)
}

/// Definitions: dm_decode Texts memory_pieces size_pieces jump_pieces gives_size
#[test]
fn sizes_stand_where_no_register_gives_them(rt: HostRuntime) -> Result<(), Fail> {
    check(&rt, SIZES)
}

/// Definitions: dm_decode Texts operands_pieces second_pieces behind operand_pieces
/// Definitions: dm_decode Pieces Piece text_bytes byte_in_text word_in_text digit
#[test]
fn numbers_have_two_or_four_digits(rt: HostRuntime) -> Result<(), Fail> {
    check(&rt, NUMBERS)
}

/// Definitions: dm_decode Texts operands_pieces second_pieces behind operand_pieces
#[test]
fn targets_are_offsets(rt: HostRuntime) -> Result<(), Fail> {
    check(&rt, TARGETS)
}

/// Definitions: dm_decode Texts prefix_pieces segment_pieces lock_pieces repeat_pieces
#[test]
fn kept_prefixes_have_words(rt: HostRuntime) -> Result<(), Fail> {
    check(&rt, PREFIXES)
}

/// Definitions: dm_decode Texts action_pieces is_nop mnemonic_pieces
#[test]
fn nop_is_an_exchange(rt: HostRuntime) -> Result<(), Fail> {
    check(&rt, EXCHANGES)
}

/// Definitions: dm_decode Texts action_pieces is_nop mnemonic_pieces
#[test]
fn instructions_with_no_operand(rt: HostRuntime) -> Result<(), Fail> {
    check(&rt, ALONE)
}

/// Definitions: dm_decode Texts action_pieces is_nop mnemonic_pieces
/// Definitions: dm_decode Names name_of word_name byte_name segment_name; dm_exec Effect effect operation_effect
/// Definitions: dm_exec Operation operation_of
#[test]
fn each_mnemonic_has_a_row(rt: HostRuntime) -> Result<(), Fail> {
    let mut seen = Vec::new(rt.alloc());
    for rows in ALL {
        note(&mut seen, rows)?;
    }
    same(&rt, "mnemonics", seen.len(), 97);
    Ok(())
}
