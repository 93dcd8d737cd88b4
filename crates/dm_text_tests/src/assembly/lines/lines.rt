//! Lines and their statements: forms from the manual (Intel 8086 Family User's Manual, section 2.7 to section 2.9),
//! written by hand. `rows` says how a row is read.

use crate::assembly::lines::rows::{Reader, check};
use std::test::Fail;

/// A program, a line each, and lines with labels and comments.
const PROGRAM: &str = "\
MOV AH,9| MOV Ah 9
MOV DX,msg| MOV Dx MSG+0
INT 21h| INT 33
MOV AX,4C00h| MOV Ax 19456
msg: DB 'hi$'| MSG: DB 104 105 36
x: JMP x| X: JMP X+0
x: JMP SHORT x| X: JMP SHORT X+0
JMP nil| JMP NIL+0
DB 08Bh,0C3h ; MOV AX,BX| DB 139 195
|nothing
 \t | nothing
; all of this, ' and é and @ and , is no part of it| nothing
;| nothing
a:| A: nothing
a :;b| A: nothing
\tmov\tal , bl\t| MOV Al Bl
MOV AL,BL;| MOV Al Bl
_9z:ret| _9Z: RET
a:b:| none
a| none
:| none
a:,| none
: ret| none
9: ret| none
MOV: ret| none
ret ret| none
@| none
MOV AL,BL @| none
é: ret| none";

/// Words in either case; numbers.
const NUMBERS: &str = "\
int 0| INT 0
iNt 10| INT 10
INT 10h| INT 16
INT 10H| INT 16
INT 0fFh| INT 255
INT 0000000000000000000000000000000000009| INT 9
INT 00000000000000000000000000000000009h| INT 9
INT 65535| INT 65535
INT 65536| none
INT 0FFFFh| INT 65535
INT 10000h| none
INT 010000h| none
INT 99999999999999999999| none
INT -1| INT -1
INT - 5| INT -5
INT -8000h| INT -32768
INT -32768| INT -32768
INT -8001h| none
INT -32769| none
INT --1| none
INT +1| none
INT 1+1| none
INT -| none
INT 9A| none
INT 0Ah| INT 10
INT 0A| none
INT Ah| INT Ah
INT 0Gh| none
INT 1_0| none
INT 12hh| none
INT h| INT H+0
INT 1 2| none
INT 5b| none
INT 5bh| INT 91
MOV AX,1010b| none";

/// Labels: at most 31 letters, and not a reserved word in either case.
const LABELS: &str = "\
a234567890123456789012345678901:| A234567890123456789012345678901: nothing
a2345678901234567890123456789012:| none
JMP a234567890123456789012345678901| JMP A234567890123456789012345678901+0
JMP a2345678901234567890123456789012| none
_:| _: nothing
__:| __: nothing
Zz_9:| ZZ_9: nothing
ax:| none
AX:| none
aL:| none
Es:| none
ret:| none
RET:| none
nop:| none
Lock:| none
rep:| none
repE:| none
REPZ:| none
repne:| none
repnz:| none
far:| none
Short:| none
byte:| none
WORD:| none
near:| none
db:| none
Dw:| none
jc:| none
SAL:| none
loopz:| none
x10h:| X10H: nothing
h:| H: nothing
axx:| AXX: nothing
xax:| XAX: nothing
movs:| MOVS: nothing
int3:| none
int4:| INT4: nothing";

/// Each other name of a mnemonic.
const ALIASES: &str = "\
JC x| JB X+0
JNAE x| JB X+0
JNC x| JAE X+0
JNB x| JAE X+0
JE x| JZ X+0
JNE x| JNZ X+0
JNA x| JBE X+0
JNBE x| JA X+0
JPE x| JP X+0
JPO x| JNP X+0
JNGE x| JL X+0
JNL x| JGE X+0
JNG x| JLE X+0
JNLE x| JG X+0
LOOPZ x| LOOPE X+0
LOOPNZ x| LOOPNE X+0
SAL AX,1| SHL Ax 1
in al,dx| IN Al Dx
OUT 9,AX| OUT 9 Ax
loop x| LOOP X+0
int3| INT3
jcxz x| JCXZ X+0";

/// Prefix words.
const PREFIXES: &str = "\
CS MOV AL,[BX]| Cs MOV Al [Absent OnBx 0]
es lock repne cmpsb| Es LOCK REPNE CMPSB
repnz lock es cmpsb| Es LOCK REPNE CMPSB
lock es repz cmpsb| Es LOCK REP CMPSB
REP MOVSB| REP MOVSB
REPE MOVSB| REP MOVSB
x: ss nop| X: Ss XCHG Ax Ax
ds hlt| Ds HLT
CS CS NOP| none
CS DS NOP| none
LOCK LOCK NOP| none
REP REPNE NOP| none
REP REP NOP| none
CS LOCK CS NOP| none
CS| none
LOCK| none
REP LOCK ES| none
CS DB 1| none
LOCK DW 1| none
CS x: NOP| none
CS: NOP| none
NOP CS| none
MOVSB REP| none";

/// Registers and immediate values.
const OPERANDS: &str = "\
ADD AL,CL| ADD Al Cl
ADD DL,BL| ADD Dl Bl
ADD AH,CH| ADD Ah Ch
ADD DH,BH| ADD Dh Bh
ADD AX,CX| ADD Ax Cx
ADD DX,BX| ADD Dx Bx
ADD SP,BP| ADD Sp Bp
ADD SI,DI| ADD Si Di
PUSH ES| PUSH Es
PUSH CS| PUSH Cs
PUSH SS| PUSH Ss
PUSH DS| PUSH Ds
MOV AX| MOV Ax
MOV| MOV
MOV AX,| none
MOV ,AX| none
MOV ,| none
MOV AX BX| none
MOV AX,BX,CX| none
MOV AX,BX,| none
MOV AX,5,| none
NOP| XCHG Ax Ax
NOP AX| none
NOP NOP| none
XCHG AX,AX| XCHG Ax Ax
MOV AX,-5| MOV Ax -5
MOV AX,x+5| MOV Ax X+5
MOV AX,x-5| MOV Ax X+-5
MOV AX,x+-5| MOV Ax X+-5
MOV AX,x + - 5| MOV Ax X+-5
MOV AX,x--5| none
MOV AX,x+-8000h| MOV Ax X+-32768
MOV AX,x-8001h| none
MOV AX,x+0FFFFh| MOV Ax X+65535
MOV AX,x+10000h| none
MOV AX,5+x| none
MOV AX,-x| none
MOV AX,x+| none
MOV AX,x+y| none
MOV AX,x y| none
MOV AX,x+5+5| none
MOV AX,ret| none
MOV AX,'a'| none
MOV AX,BYTE| none
MOV AX,BYTE 5| none";

/// Memory.
const MEMORY: &str = "\
MOV AL,[BX+SI]| MOV Al [Absent BxSi 0]
MOV AL,[BX+DI]| MOV Al [Absent BxDi 0]
MOV AL,[BP+SI]| MOV Al [Absent BpSi 0]
MOV AL,[BP+DI]| MOV Al [Absent BpDi 0]
MOV AL,[SI]| MOV Al [Absent OnSi 0]
MOV AL,[DI]| MOV Al [Absent OnDi 0]
MOV AL,[BP]| MOV Al [Absent OnBp 0]
MOV AL,[BX]| MOV Al [Absent OnBx 0]
MOV AL,[5]| MOV Al [Absent Direct 5]
MOV AL,[-5]| MOV Al [Absent Direct -5]
MOV AL,[x]| MOV Al [Absent Direct X+0]
MOV AL,[x+5]| MOV Al [Absent Direct X+5]
MOV AL,[x-5]| MOV Al [Absent Direct X+-5]
MOV AL,[x+-5]| MOV Al [Absent Direct X+-5]
mov al , [ bx + si + 5 ]| MOV Al [Absent BxSi 5]
MOV AL,[BX+SI+5]| MOV Al [Absent BxSi 5]
MOV AL,[BP+DI+0FFFFh]| MOV Al [Absent BpDi 65535]
MOV AL,[BX-5]| MOV Al [Absent OnBx -5]
MOV AL,[BX+-5]| MOV Al [Absent OnBx -5]
MOV AL,[BX+SI-8000h]| MOV Al [Absent BxSi -32768]
MOV AL,[BX+SI-8001h]| none
MOV AL,[BX--5]| none
MOV AL,[SI+BX]| none
MOV AL,[5+BX]| none
MOV AL,[SI+DI]| none
MOV AL,[BX+BP]| none
MOV AL,[BX+BX]| none
MOV AL,[AX]| none
MOV AL,[CX]| none
MOV AL,[SP]| none
MOV AL,[BL]| none
MOV AL,[ES]| none
MOV AL,[BX+x]| none
MOV AL,[x+BX]| none
MOV AL,[BX+5+5]| none
MOV AL,[BX+]| none
MOV AL,[BX SI]| none
MOV AL,[BX-SI]| none
MOV AL,[+5]| none
MOV AL,[]| none
MOV AL,[BX| none
MOV AL,BX]| none
MOV AL,[[BX]]| none
MOV AL,[BX]]| none
MOV AL,[BX][SI]| none
MOV AL,[BX],| none
MOV AL,[1:2]| none
MOV BYTE [BX],5| MOV [Byte OnBx 0] 5
mov word [bx],5| MOV [Word OnBx 0] 5
JMP NEAR [BX]| JMP [Near OnBx 0]
CALL NEAR [x]| CALL [Near Direct X+0]
MOV BYTE WORD [BX],5| none
MOV [BX] BYTE,5| none
MOV BYTE AL,5| none
JMP NEAR x| none
MOV [BX],[SI]| MOV [Absent OnBx 0] [Absent OnSi 0]";

/// XCHG and TEST: memory comes first.
const EXCHANGES: &str = "\
XCHG AX,[BX]| XCHG [Absent OnBx 0] Ax
XCHG [BX],AX| XCHG [Absent OnBx 0] Ax
TEST CL,[BX]| TEST [Absent OnBx 0] Cl
TEST [BX],CL| TEST [Absent OnBx 0] Cl
TEST 1,BYTE [BX]| TEST [Byte OnBx 0] 1
TEST [BX],[SI]| TEST [Absent OnSi 0] [Absent OnBx 0]
XCHG AX,BX| XCHG Ax Bx
TEST AX,5| TEST Ax 5
MOV AX,[BX]| MOV Ax [Absent OnBx 0]
ADD AX,[BX]| ADD Ax [Absent OnBx 0]";

/// Targets.
const TARGETS: &str = "\
JMP 5| JMP 5
JMP -5| JMP -5
JMP x+5| JMP X+5
JZ x| JZ X+0
CALL x| CALL X+0
JMP BX| JMP Bx
JMP SHORT 5| JMP SHORT 5
JMP SHORT x-1| JMP SHORT X+-1
JMP FAR [BX]| JMP FAR [Absent OnBx 0]
CALL FAR [BX]| CALL FAR [Absent OnBx 0]
JMP FAR 1:2| JMP FAR 1:2
CALL FAR 0FFFFh:0| CALL FAR 65535:0
CALL FAR 1 : -1| CALL FAR 1:65535
CALL FAR -1:2| CALL FAR 65535:2
CALL FAR -8001h:2| none
CALL 1:2| CALL 1:2
CALL FAR x:2| none
CALL FAR 1:x| none
CALL FAR 1:2:3| none
CALL FAR 1:| none
CALL FAR| CALL FAR
CALL SHORT x| none
JZ SHORT x| none
JZ FAR x| none
SHORT x| none
FAR 1:2| none
JMP FAR SHORT x| none
JMP FAR FAR [BX]| none
RET FAR| none
cs jmp far [bx]| Cs JMP FAR [Absent OnBx 0]";

/// Data.
const DATA: &str = "\
DB 1| DB 1
db 1 , -1 , 0FFh| DB 1 -1 255
DB 256| DB 256
DB ''| DB
DB 'a;b' ; c| DB 97 59 98
DB 'a,b',1| DB 97 44 98 1
DB 1,'aB',2| DB 1 97 66 2
DB '','',''| DB
DB'a'| DB 97
DB '\t[é'| DB 9 91 195 169
DB 'mov'| DB 109 111 118
x: DB 'x:'| X: DB 120 58
DB| none
DB ,| none
DB 1,| none
DB ,1| none
DB 1 2| none
DB 'a| none
DB '| none
DB '''| none
DB 'a''b'| none
DB 'a' 'b'| none
DB 'a'1| none
DB x| none
DB AL| none
DB [1]| none
'a'| none
DW 1| DW 1
DW -1,0FFFFh| DW -1 65535
DW x,y+1,z-1| DW X+0 Y+1 Z+-1
DW 'a'| none
DW ''| none
DW| none
DW 1,| none
DW [1]| none
DB DB 1| none
DB 1 DB 1| none";

#[test]
fn lines_of_a_program(rt: HostRuntime) -> Result<(), Fail> {
    check(&rt, rt.alloc(), PROGRAM)
}

/// Definitions: dm_lines Operands amount_of added_of parsed_value minus amount_word
/// Definitions: dm_lines Tokens word_token number_of magnitude_of digit_of padded_of uppercase is_word_byte
#[test]
fn numbers_are_decimal_or_hexadecimal(rt: HostRuntime) -> Result<(), Fail> {
    check(&rt, rt.alloc(), NUMBERS)
}

/// Definitions: dm_lines Tokens word_token number_of magnitude_of digit_of padded_of uppercase is_word_byte
/// Definitions: dm_lines Words reserved reserved_words aliases keywords is_one_word
#[test]
fn labels_are_no_reserved_words(rt: HostRuntime) -> Result<(), Fail> {
    check(&rt, rt.alloc(), LABELS)
}

/// Definitions: dm_lines Words reserved reserved_words aliases keywords is_one_word
#[test]
fn mnemonics_have_other_names(rt: HostRuntime) -> Result<(), Fail> {
    check(&rt, rt.alloc(), ALIASES)
}

/// Definitions: dm_lines Statements instruction_of prefixed after_prefixes operated mnemonic_at short_of far_mnemonic
#[test]
fn prefixes_stand_once_in_any_order(rt: HostRuntime) -> Result<(), Fail> {
    check(&rt, rt.alloc(), PREFIXES)
}

/// Definitions: dm_lines Operands terms_of term_pair term_of term_from_number far_pointer
#[test]
fn operands_are_registers_and_values(rt: HostRuntime) -> Result<(), Fail> {
    check(&rt, rt.alloc(), OPERANDS)
}

/// Definitions: dm_lines Operands memory_of memory_operand base_at inside
#[test]
fn addresses_stand_between_brackets(rt: HostRuntime) -> Result<(), Fail> {
    check(&rt, rt.alloc(), MEMORY)
}

/// Definitions: dm_lines Statements with_terms exchanges is_memory
#[test]
fn memory_comes_first_in_exchanges(rt: HostRuntime) -> Result<(), Fail> {
    check(&rt, rt.alloc(), EXCHANGES)
}

/// Definitions: dm_lines Statements instruction_of prefixed after_prefixes operated mnemonic_at short_of far_mnemonic
#[test]
fn jumps_and_calls_have_targets(rt: HostRuntime) -> Result<(), Fail> {
    check(&rt, rt.alloc(), TARGETS)
}

/// Definitions: dm_lines Statements byte_items bytes_item letters word_items; dm_lines Operands parts
#[test]
fn data_are_numbers_texts_and_labels(rt: HostRuntime) -> Result<(), Fail> {
    check(&rt, rt.alloc(), DATA)
}

/// 255 bytes and one more, some of them a comment.
/// Definitions: dm_lines Statements line_statement statement_of item_of
#[test]
fn lines_have_255_bytes(rt: HostRuntime) -> Result<(), Fail> {
    let mut reader = Reader::new();
    let mut line = Vec::new(rt.alloc());
    line.extend_from_slice(b"RET;")?;
    line.resize(255, b'x')?;
    reader.check_line(&rt, rt.alloc(), "255 bytes", line.as_slice(), "RET")?;
    line.push(b'x')?;
    reader.check_line(&rt, rt.alloc(), "256 bytes", line.as_slice(), "none")
}

/// A comment and a quoted text hold any byte; outside them only some bytes are allowed.
/// Definitions: dm_lines Tokens tokens_of lexed closed sign_tokens inside_quotes
#[test]
fn comments_and_texts_hold_any_byte(rt: HostRuntime) -> Result<(), Fail> {
    let mut reader = Reader::new();
    reader.check_line(&rt, rt.alloc(), "a comment", b"RET;\x00\x0D\xFF'", "RET")?;
    reader.check_line(
        &rt,
        rt.alloc(),
        "a text",
        b"DB '\x00\x0D\xFF'",
        "DB 0 13 255",
    )?;
    for bad in [
        b"RET\x00", b"RET\x0D", b"RET\xFF", b"RET(", b"RET\"", b"RET.", b"RET!",
    ] {
        reader.check_line(&rt, rt.alloc(), "a byte that is no sign", bad, "none")?;
    }
    Ok(())
}
