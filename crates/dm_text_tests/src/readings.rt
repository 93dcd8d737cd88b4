//! Words and their instructions: operands and bytes from the manual (Intel 8086 Family User's
//! Manual, section 2.7, and section 4 for the bytes), written by hand. `words` says how a row is read.

use crate::checks::same;
use crate::words::check;
use dm_decode::words::{
    Size, Words, Written, own_words_are_read, read_words, stand_ins_have_the_length,
    words_are_one_instruction,
};
use dm_ins::{Address, Base, ByteRegister, Mnemonic, Prefixes, Repeat, SegmentRegister, encode};
use std::test::Fail;

/// BYTE and WORD precede memory exactly if no general register gives the size.
const SIZES: &str = "\
MOV | [BX],5         | none
MOV | BYTE [BX],5    | C6 07 05
MOV | WORD [BX],5    | C7 07 05 00
MOV | NEAR [BX],5    | none
MOV | AX,[BX]        | 8B 07
MOV | AX,WORD [BX]   | none
MOV | AL,[BX]        | 8A 07
MOV | AL,BYTE [BX]   | none
MOV | [BX],AX        | 89 07
MOV | WORD [BX],AX   | none
MOV | [BX],AL        | 88 07
MOV | BYTE [BX],AL   | none
INC | [BX]           | none
INC | BYTE [BX]      | FE 07
INC | WORD [BX]      | FF 07
PUSH | [BX]          | none
PUSH | BYTE [BX]     | none
PUSH | WORD [BX]     | FF 37
POP | WORD [BX]      | 8F 07
NOT | BYTE [SI]      | F6 14
MUL | WORD [SI 5]    | F7 64 05
IDIV | BYTE [DI]     | F6 3D
ADD | BYTE [BX],5    | 80 07 05
ADD | [BX],AL        | 00 07
ADD | AX,[BX]        | 03 07
TEST | BYTE [BX],5   | F6 07 05
TEST | [BX],AX       | 85 07
TEST | WORD [BX],AX  | none
XCHG | [BX],AX       | 87 07
# LEA, LES and LDS have a register that gives it.
LEA | AX,[BX]        | 8D 07
LEA | AX,WORD [BX]   | none
LEA | AL,[BX]        | none
LEA | AX,BX          | none
LES | BX,[SI]        | C4 1C
LES | BX,WORD [SI]   | none
LDS | DX,[5]         | C5 16 05 00
# ESC has none.
ESC | 9,WORD [BX]    | D9 0F
ESC | 9,[BX]         | none
ESC | 9,BYTE [BX]    | none
ESC | 9,AX           | D9 C8";

/// Jumps and calls: NEAR before memory, FAR in the mnemonic.
const TRANSFERS: &str = "\
JMP | [BX]           | none
JMP | WORD [BX]      | none
JMP | NEAR [BX]      | FF 27
JMP | AX             | FF E0
JMP | AL             | none
CALL | [BX]          | none
CALL | NEAR [BX]     | FF 17
CALL | AX            | FF D0
JMP FAR | [BX]       | FF 2F
JMP FAR | NEAR [BX]  | none
JMP FAR | WORD [BX]  | none
JMP FAR | AX         | none
CALL FAR | [BX]      | FF 1F
CALL FAR | 1:2       | 9A 02 00 01 00
CALL FAR | 5         | none
JMP FAR | FFFF:0     | EA 00 00 FF FF
CALL | 1:2           | none
JMP | 1:2            | none
JMP SHORT | 1:2      | none
JMP SHORT | NEAR [BX] | none
JMP | 7F             | E9 7F 00
JMP | FFFF           | E9 FF FF
CALL | 8000          | E8 00 80
# A displacement of one byte reaches from -80h to 7Fh.
JMP SHORT | 7F       | EB 7F
JMP SHORT | 80       | none
JMP SHORT | FF80     | EB 80
JMP SHORT | FF7F     | none
JZ | 7F              | 74 7F
JZ | 80              | none
JZ | -80             | 74 80
JZ | -81             | none
LOOP | 0             | E2 00
LOOPNE | -2          | E0 FE
JCXZ | 1             | E3 01
JZ | AX              | none
# Without a number behind it, a return takes nothing from the stack.
RET |                | C3
RET | 0              | C2 00 00
RET | FFFF           | C2 FF FF
RET | -1             | C2 FF FF
RETF |               | CB
RETF | 4             | CA 04 00
INT | 3              | CD 03
INT3 |               | CC
INT3 | 3             | none
INTO |               | CE
IRET |               | CF";

/// Numbers as bytes and as words.
const NUMBERS: &str = "\
MOV | AL,FF          | B0 FF
MOV | AL,100         | none
MOV | AL,-80         | B0 80
MOV | AL,-81         | none
MOV | AX,FFFF        | B8 FF FF
MOV | AX,-8000       | B8 00 80
MOV | BH,0           | B7 00
INT | FF             | CD FF
INT | 100            | none
INT | -1             | CD FF
INT | -80            | CD 80
INT | -81            | none
ESC | 0,AX           | D8 C0
ESC | 3F,AX          | DF F8
ESC | 40,AX          | none
ESC | -1,AX          | none
IN | AL,5            | E4 05
IN | AX,FF           | E5 FF
IN | AX,100          | none
IN | AL,DX           | EC
IN | AX,DX           | ED
IN | BL,5            | none
IN | DX,AL           | none
OUT | 5,AL           | E6 05
OUT | FF,AX          | E7 FF
OUT | DX,AL          | EE
OUT | DX,AX          | EF
OUT | AL,5           | none
ADD | AL,80          | 04 80
ADD | AL,-80         | 04 80
ADD | AL,100         | none
ADD | AX,5           | 05 05 00
ADD | AX,100         | 05 00 01
# A byte that is extended by sign does for a word.
ADD | BX,7F          | 83 C3 7F
ADD | BX,80          | 81 C3 80 00
ADD | BX,FF80        | 83 C3 80
ADD | BX,-80         | 83 C3 80
ADD | BX,FF7F        | 81 C3 7F FF
ADD | WORD [BX],-80  | 83 07 80
ADD | WORD [BX],-81  | 81 07 7F FF
AND | BL,-1          | 80 E3 FF
CMP | WORD [BP],0    | 83 7E 00 00
PUSH | 5             | none
MOV | 5,AX           | none
MOV | ES,5           | none";

/// Counts of shifts: the number 1 and CL.
const SHIFTS: &str = "\
SHL | AX,1           | D1 E0
SHL | AX,2           | none
SHL | AX,0           | none
SHL | AX,101         | none
SHL | AX,CL          | D3 E0
SHL | AX,CX          | none
SHL | AX,AL          | none
SHL | AL,1           | D0 E0
ROL | BYTE [BX],1    | D0 07
ROL | [BX],1         | none
ROR | BL,CL          | D2 CB
RCL | WORD [BX],1    | D1 17
RCR | AX,1           | D1 D8
SHR | AX,1           | D1 E8
SAR | DX,1           | D1 FA
# CL is the count and gives no size.
SHL | [BX],CL        | none
SHL | BYTE [BX],CL   | D2 27
SHL | WORD [BX],CL   | D3 27";

/// Registers, addresses, and instructions with no operands.
const OPERANDS: &str = "\
MOV | AX,BX          | 89 D8
MOV | AL,BX          | none
MOV | AX,BL          | none
MOV | AX             | none
MOV |                | none
XCHG | AX,BX         | 93
XCHG | BX,AX         | 87 C3
XCHG | BX,CX         | 87 CB
XCHG | AL,BL         | 86 D8
XCHG | AX,AX         | 90
# Memory stands first; a reader of lines exchanges the two.
XCHG | AX,[BX]       | none
TEST | AX,[BX]       | none
MOV | AX,ES          | 8C C0
MOV | AX,CS          | 8C C8
MOV | ES,AX          | 8E C0
MOV | CS,AX          | none
MOV | ES,DS          | none
MOV | AL,ES          | none
MOV | ES,[BX]        | none
MOV | ES,WORD [BX]   | 8E 07
MOV | [BX],ES        | none
MOV | WORD [BX],ES   | 8C 07
PUSH | AX            | 50
PUSH | AL            | none
PUSH | ES            | 06
POP | CS             | none
POP | DS             | 1F
INC | AX             | 40
INC | AL             | FE C0
DEC | CX             | 49
NEG | AX             | F7 D8
CMP | AX,BX          | 39 D8
MOV | AL,[5]         | A0 05 00
MOV | BL,[5]         | 8A 1E 05 00
MOV | [5],AX         | A3 05 00
MOV | [0],AL         | A2 00 00
MOV | BYTE [5],5     | C6 06 05 00 05
MOV | AX,[BP]        | 8B 46 00
MOV | AX,[BX+SI]     | 8B 00
MOV | AX,[BP+DI 7F]  | 8B 43 7F
MOV | AX,[BX 80]     | 8B 87 80 00
MOV | AX,[BX FF80]   | 8B 47 80
MOVSB |              | A4
MOVSB | AL           | none
CMPSW |              | A7
STOSB |              | AA
LODSW |              | AD
SCASB |              | AE
XLAT |               | D7
AAM |                | D4 0A
AAD |                | D5 0A
AAA |                | 37
CBW |                | 98
HLT |                | F4
HLT | 1              | none";

/// Labels are targets, and values only for MOV.
const LABELS: &str = "\
JMP | @300           | E9 00 03
JZ | @7F             | 74 7F
JZ | @80             | none
MOV | AX,@300        | B8 00 03
MOV | AL,@FF         | B0 FF
MOV | AL,@100        | none
MOV | WORD [BX],@300 | C7 07 00 03
MOV | BYTE [BX],@300 | none
ADD | AX,@300        | none
ADD | AL,@5          | none
INT | @5             | none
RET | @4             | none
PUSH | @5            | none
SHL | AX,@1          | none
ESC | @5,AX          | none";

/// Definitions: dm_decode words.Words word_before word_written size_word jump_word width_word
#[test]
fn words_before_memory_stand_where_they_are_needed(rt: HostRuntime) -> Result<(), Fail> {
    check(&rt, SIZES)
}

/// Definitions: dm_decode words.Words AreWords IsWritten IsNumber
#[test]
fn targets_are_near_short_or_far(rt: HostRuntime) -> Result<(), Fail> {
    check(&rt, TRANSFERS)
}

/// Definitions: dm_decode words.Words AreWords IsWritten IsNumber
#[test]
fn numbers_are_bytes_or_words(rt: HostRuntime) -> Result<(), Fail> {
    check(&rt, NUMBERS)
}

/// Definitions: dm_decode words.Words AreWords IsWritten IsNumber
#[test]
fn counts_are_one_or_cl(rt: HostRuntime) -> Result<(), Fail> {
    check(&rt, SHIFTS)
}

/// Definitions: dm_decode words.Words AreWords IsWritten IsNumber
#[test]
fn operands_are_those_of_a_template(rt: HostRuntime) -> Result<(), Fail> {
    check(&rt, OPERANDS)
}

/// Definitions: dm_decode words.Words AreWords IsWritten IsNumber
#[test]
fn labels_are_targets(rt: HostRuntime) -> Result<(), Fail> {
    check(&rt, LABELS)
}

/// The prefixes that are passed are those of the instruction.
#[test]
fn prefixes_are_kept(rt: HostRuntime) -> Result<(), Fail> {
    let words = Words {
        mnemonic: Mnemonic::Mov,
        first: Written::ByteRegister(ByteRegister::Al),
        second: Written::Memory(
            Size::Absent,
            Address {
                base: Base::OnBx,
                displacement: 0,
            },
        ),
    };
    let prefixes = Prefixes {
        segment: Some(SegmentRegister::Es),
        lock: true,
        repeat: Some(Repeat::Equal),
    };
    let ins = read_words(prefixes, &words).ok_or("no instruction")?;
    let bytes: &[u8] = &[0x26, 0xF0, 0xF3, 0x8A, 0x07];
    same(&rt, "prefixes", encode(&ins).as_slice(), bytes);
    Ok(())
}

/// The laws cost nothing and change nothing.
#[test]
fn laws_are_called() {
    words_are_one_instruction();
    own_words_are_read();
    stand_ins_have_the_length();
}
