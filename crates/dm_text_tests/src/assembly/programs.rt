//! Programs and their bytes from the manual (Intel 8086 Family User's Manual, section 2.9 and section 4), written by
//! hand; and texts with errors: each kind of error, and each bound with one past it. How a row is read is in
//! `rows`.

use crate::assembly::rows::check;
use std::test::Fail;

/// Texts without errors.
const PROGRAMS: &str = "\
| 
/| 
//| 
MOV AH,9/MOV DX,msg/INT 21h/MOV AX,4C00h/INT 21h/msg: DB 'hi$'| B4 09 BA 0C 01 CD 21 B8 .. 15
NOP| 90
NOP/| 90
NOP</| 90
NOP<</| line 1: syntax
NOP<| line 1: syntax
</NOP| 90
MOV AX,BX| 89 D8
MOV AL,[5]| A0 05 00
MOV BYTE [BX],5| C6 07 05
MOV WORD [BX],5| C7 07 05 00
MOV WORD [BX+5],5| C7 47 05 05 00
MOV AX,[BX+7Fh]| 8B 47 7F
MOV AX,[BX+80h]| 8B 87 80 00
MOV AX,[BX-80h]| 8B 47 80
MOV AX,[BX-81h]| 8B 87 7F FF
x: JMP x| E9 FD FF
JMP x/x:| E9 00 00
x: JMP SHORT x| EB FE
X: JMP SHORT x| EB FE
JMP 100h| E9 FD FF
CALL FAR 1:2| 9A 02 00 01 00
DB 1,'ab',-1| 01 61 62 FF
DB ''| 
DW 1,-1,x/x:| 01 00 FF FF 06 01
DW x+1,x-1/x: DB 'x'| 05 01 03 01 78
MOV AX,x/x:| B8 03 01
MOV AX,[x+1]/x: DB 0,0| A1 04 01 00 00
MOV AX,1/MOV AL,5/x: DW x| B8 01 00 B0 05 05 01
a: b: NOP| line 1: syntax
a:/b:/DW a,b/c: DW c| 00 01 00 01 04 01
REP MOVSB| F3 A4
ES LOCK REP MOVSB| 26 F0 F3 A4";

/// Texts at a bound, and one past it; texts with several errors.
const BOUNDS: &str = "\
@| line 1: syntax
NOP/@| line 2: syntax
NOP/@/@| line 2: syntax
MOV [BX],5| line 1: syntax
ADD AX,x/x:| line 1: syntax
MOV BYTE AL,5| line 1: syntax
JMP nil| line 1: unknown
MOV AX,nil| line 1: unknown
MOV AX,[nil]| line 1: unknown
MOV WORD [x+0FFFFh],nil/x:| line 1: unknown
MOV WORD [nil],x+0FFFFh/x:| line 1: unknown
DB 'xxxxxxxxxxxxxxxxxxxxxxxxxxxxxxxxxxxxxxxxxxxxxxxxxxxxxxxxxxxxxxxxxxxxxxxxxxxxxxxxxxxxxxxxxxxxxxxxxxxxxxxxxxxxxxxxxxxxxxxxxxxxxxxxxxxxxxxxxxxxxxxxxxxxxxxxxxxxxxxxxxxxxxxxxxxxxxxxxxxxxxxxxxxxxxxxxxxxxxxxxxxxxxxxxxxxxxxxxxxxxxxxxxxxxxxxxxxxxxxxxxxxxxxxxx'| 78 78 78 78 78 78 78 78 .. 250
JMP nil/@| line 2: syntax
NOP/JMP nil/MOV AL,100h| line 2: unknown
MOV AL,100h/JMP nil| line 1: range
a:/a:| line 2: twice
a:/A: NOP| line 2: twice
a:/b:/a:/b:/@| line 3: twice
a:/@/a:| line 2: syntax
a:/a: @| line 2: syntax
JMP nil/a:/a:| line 3: twice
MOV AL,100h/a:/a:| line 3: twice
DW nil,x+0FFFFh/x:| line 1: unknown
DW x+0FFFFh,nil/x:| line 1: unknown
DW x+0FFFFh/x:| line 1: range
DW x-102h/x:| 00 00
DW x-103h/x:| line 1: range
DW x+0FEFDh/x:| FF FF
DW x+0FEFEh/x:| line 1: range
MOV AL,x/x:| line 1: range
MOV AL,x-2/x:| line 1: range
MOV AL,x-3/x:| B0 FF
DW -8000h| 00 80
DW -8001h| line 1: syntax
DW 0FFFFh| FF FF
DW 10000h| line 1: syntax
DB -80h| 80
DB -81h| line 1: range
DB 0FFh| FF
DB 100h| line 1: range
INT 0FFh| CD FF
INT 100h| line 1: range
INT -80h| CD 80
INT -81h| line 1: range
ESC 3Fh,AX| DF F8
ESC 40h,AX| line 1: range
JZ x/*127 NOP/x:| 74 7F 90 90 90 90 90 90 .. 129
JZ x/*128 NOP/x:| line 1: range
x: *126 NOP/JZ x| line 1: syntax
x:/*126 NOP/JZ x| 90 90 90 90 90 90 90 90 .. 128
x:/*127 NOP/JZ x| line 129: range
NOP ;xxxxxxxxxxxxxxxxxxxxxxxxxxxxxxxxxxxxxxxxxxxxxxxxxxxxxxxxxxxxxxxxxxxxxxxxxxxxxxxxxxxxxxxxxxxxxxxxxxxxxxxxxxxxxxxxxxxxxxxxxxxxxxxxxxxxxxxxxxxxxxxxxxxxxxxxxxxxxxxxxxxxxxxxxxxxxxxxxxxxxxxxxxxxxxxxxxxxxxxxxxxxxxxxxxxxxxxxxxxxxxxxxxxxxxxxxxxxxxxxxxxxxxxxxx| 90
NOP ;xxxxxxxxxxxxxxxxxxxxxxxxxxxxxxxxxxxxxxxxxxxxxxxxxxxxxxxxxxxxxxxxxxxxxxxxxxxxxxxxxxxxxxxxxxxxxxxxxxxxxxxxxxxxxxxxxxxxxxxxxxxxxxxxxxxxxxxxxxxxxxxxxxxxxxxxxxxxxxxxxxxxxxxxxxxxxxxxxxxxxxxxxxxxxxxxxxxxxxxxxxxxxxxxxxxxxxxxxxxxxxxxxxxxxxxxxxxxxxxxxxxxxxxxxxx| line 1: syntax
NOP ;xxxxxxxxxxxxxxxxxxxxxxxxxxxxxxxxxxxxxxxxxxxxxxxxxxxxxxxxxxxxxxxxxxxxxxxxxxxxxxxxxxxxxxxxxxxxxxxxxxxxxxxxxxxxxxxxxxxxxxxxxxxxxxxxxxxxxxxxxxxxxxxxxxxxxxxxxxxxxxxxxxxxxxxxxxxxxxxxxxxxxxxxxxxxxxxxxxxxxxxxxxxxxxxxxxxxxxxxxxxxxxxxxxxxxxxxxxxxxxxxxxxxxxxxxx</| 90
aaaaaaaaaaaaaaaaaaaaaaaaaaaaaaa: JMP aaaaaaaaaaaaaaaaaaaaaaaaaaaaaaa| E9 FD FF
aaaaaaaaaaaaaaaaaaaaaaaaaaaaaaaa:| line 1: syntax
*65278 CLC| F8 F8 F8 F8 F8 F8 F8 F8 .. 65278
*65278 CLC/x: DB ''| F8 F8 F8 F8 F8 F8 F8 F8 .. 65278
*65279 CLC| too long
*65279 CLC/JMP nil| too long
JMP nil/*65279 CLC| too long
*65279 CLC/@| line 65280: syntax";

/// Definitions: dm_asm Lines lines_of onto ends_line; dm_asm Labels place_of_label IsFree label_place term_place
/// Definitions: dm_asm Codes HasLength HasShape outlined Codes IsCoded AreWordsOf placed_words written_for value_word
/// Definitions: dm_ins Spelling word_bytes
/// Definitions: dm_asm Programs Assembles Laid AreRead Reads labels_of AreOnce AreCoded total joined longest_program
#[test]
fn programs_have_bytes(rt: HostRuntime) -> Result<(), Fail> {
    check(&rt, rt.alloc(), PROGRAMS)
}

/// Definitions: dm_asm Codes Knows; dm_asm Programs Refuses IsBehindGood IsBehindCoded
#[test]
fn bounds_are_kept(rt: HostRuntime) -> Result<(), Fail> {
    check(&rt, rt.alloc(), BOUNDS)
}
