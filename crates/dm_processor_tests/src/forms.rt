//! Rows of instructions that have forms of their own, besides those of `effects`: other operands of the same
//! instructions. They are written by hand from the manual (Intel 8086 Family User's Manual, section 2.7). `rows` says
//! how a row is read, `effects` what the flags word holds.

use crate::rows::check;
use std::test::Fail;

/// MOV between registers, memory and values.
const MOVES: &str = "\
MOV DI,SP               | 89 E7          |                                        | DI=0100
MOV AX,[BX]             | 8B 07          | 2000:7788=5678                         | AX=5678
MOV AX,ES:[BX]          | 26 8B 07       | 2000:7788=1111 4000:7788=5678          | AX=5678
# A displacement of one byte is extended by sign; BP goes with SS, but for an override.
MOV AX,[BP-1]           | 8B 46 FF       | 3000:01FF=5678                         | AX=5678
MOV AX,DS:[BP+5]        | 3E 8B 46 05    | 2000:0205=5678                         | AX=5678
MOV [BX],CX             | 89 0F          |                                        | 2000:7788=3344
MOV ES:[BX],CX          | 26 89 0F       |                                        | 4000:7788=3344
MOV WORD [BX+SI-2],1234 | C7 40 FE 34 12 |                                        | 2000:7A86=1234
MOV DH,CL               | 88 CE          |                                        | DX=4466
MOV CH,SS:[DI]          | 36 8A 2D       | 3000:0400=5A                           | CX=5A44
MOV [DI],AL             | 88 05          |                                        | 2000:0400=22
MOV [BP+DI],AH          | 88 23          |                                        | 3000:0600=11
# A base and an index, and their sum modulo 65,536.
MOV AX,[BX+SI]          | 8B 00          | 2000:7A88=5678                         | AX=5678
MOV AX,[BX+F000]        | 8B 87 00 F0    | 2000:6788=5678                         | AX=5678
MOV [BX+DI-1],CX        | 89 49 FF       |                                        | 2000:7B87=3344
MOV CH,[BP+SI]          | 8A 2A          | 3000:0500=5A                           | CX=5A44
MOV BYTE [DI],5A        | C6 05 5A       |                                        | 2000:0400=5A
MOV BYTE CS:[1000],5A   | 2E C6 06 00 10 5A |                                     | 0103:1000=5A";

/// Arithmetic on words. The flags of a byte would differ in rows with 00FF, 0080 and 0100.
const WORDS: &str = "\
ADD BX,BX      | 01 DB       | BX=8000                                | BX=0000 FL=F847
ADD CX,ES:[BX] | 26 03 0F    | 4000:7788=0001                         | CX=3345
ADD AX,[FFFF]  | 03 06 FF FF | 2000:FFFF=01 2000:0000=10 3000:0000=77 | AX=2123
ADD CX,[BP+DI] | 03 0B       | 3000:0600=0001                         | CX=3345
SUB CX,[BX]    | 2B 0F       | 2000:7788=1122                         | CX=2222 FL=F006
SUB BX,2       | 83 EB 02    |                                        | BX=7786
SUB BX,-2      | 83 EB FE    |                                        | BX=778A FL=F013
CMP AX,[BX]    | 3B 07       | 2000:7788=3344                         | FL=F097
CMP AX,[BX+DI] | 3B 01       | 2000:7B88=3344                         | FL=F097
CMP AX,SS:[BX] | 36 3B 07    | 3000:7788=3344                         | FL=F097
CMP ES:[BX],CX | 26 39 0F    | 4000:7788=3344                         | FL=F046
CMP WORD [BX],1234 | 81 3F 34 12 | 2000:7788=1233                     | FL=F097
AND AX,CX      | 21 C8       |                                        | AX=1100 FL=F006
OR AX,AX       | 09 C0       | FL=FFD7                                | FL=F716
OR CX,AX       | 09 C1       |                                        | CX=3366 FL=F006
OR CX,[BX]     | 0B 0F       | 2000:7788=0001                         | CX=3345
XOR AX,AX      | 31 C0       | FL=FFD7                                | AX=0000 FL=F756
XOR AX,1021    | 35 21 10    |                                        | AX=0103 FL=F006
TEST AX,CX     | 85 C8       |                                        | FL=F006
TEST AX,AX     | 85 C0       | AX=8000 FL=FFD7                        | FL=F796
# INC and DEC keep the carry.
INC AX         | 40          | AX=00FF                                | AX=0100 FL=F016
INC DI         | 47          |                                        | DI=0401
DEC SI         | 4E          |                                        | SI=02FF FL=F016
SHL AX,1       | D1 E0       | AX=8001                                | AX=0002 FL=F803
SHR AX,1       | D1 E8       | AX=8001                                | AX=4000 FL=F807
# A shift by CL: the form is that of the operand's kind.
SHL AX,CL      | D3 E0       | CX=3301                                | AX=2244 FL=F006
SHR WORD [BX],CL | D3 2F     | CX=3304 2000:7788=1238                 | 2000:7788=0123 FL=F003
SAR WORD [BX],CL | D3 3F     | CX=3304 2000:7788=8234                 | 2000:7788=F823 FL=F082
SAR WORD [BX],CL | D3 3F     | CX=33FF 2000:7788=8001                 | 2000:7788=FFFF FL=F087
RCR WORD [BX],CL | D3 1F     | CX=3304 2000:7788=1234 FL=F003         | 2000:7788=9123 FL=F002
SHL WORD ES:[BX],CL | 26 D3 27 | CX=3304 4000:7788=1234               | 4000:7788=2340 FL=F003
MUL CX         | F7 E1       |                                        | AX=5308 DX=036E FL=F803
MUL CX         | F7 E1       | AX=0002 FL=FFD7                        | AX=6688 DX=0000 FL=F7D6
MUL AX         | F7 E0       | AX=0100                                | AX=0000 DX=0001 FL=F803
MUL SP         | F7 E4       |                                        | AX=2200 DX=0011 FL=F803";

/// Arithmetic on bytes.
const BYTES: &str = "\
ROR BYTE [BX],CL | D2 0F     | CX=3302 2000:7788=06                   | 2000:7788=81 FL=F003
RCL BYTE [BX],CL | D2 17     | CX=3302 2000:7788=80                   | 2000:7788=01
SAR BYTE [BX],CL | D2 3F     | CX=3302 2000:7788=86 FL=F802           | 2000:7788=E1 FL=F887
SHL BYTE [BX],CL | D2 27     | CX=3300 2000:7788=86 FL=FFD7           |
ADD BL,AL            | 00 C3          |                | BX=77AA FL=F086
ADD BH,BL            | 00 DF          |                | BX=FF88 FL=F086
ADD AL,[BX]          | 02 07          | 2000:7788=01   | AX=1123
ADC BL,00            | 80 D3 00       | BX=77FF FL=F003 | BX=7700 FL=F057
ADC BH,00            | 80 D7 00       |                | FL=F006
ADC AL,CH            | 10 E8          | FL=F003        | AX=1156 FL=F006
SUB BL,AL            | 28 C3          |                | BX=7766 FL=F806
CMP BL,AL            | 38 C3          |                | FL=F806
CMP AL,[BX]          | 3A 07          | 2000:7788=23   | FL=F097
CMP AL,ES:[BX]       | 26 3A 07       | 4000:7788=23   | FL=F097
CMP BYTE [SI+2000],0 | 80 BC 00 20 00 | 2000:2300=01   |
CMP BYTE [SI-1],22   | 80 7C FF 22    | 2000:02FF=22   | FL=F046
CMP BYTE CS:[SI],10  | 2E 80 3C 10    | 0103:0300=0F   | FL=F087
CMP [SI],AL          | 38 04          | 2000:0300=22   | FL=F046
AND AL,AH            | 20 E0          |                | AX=1100 FL=F046
AND CH,F0            | 80 E5 F0       |                | CX=3044 FL=F006
OR AL,AH             | 08 E0          |                | AX=1133 FL=F006
OR AL,80             | 0C 80          |                | AX=11A2 FL=F082
XOR AL,FF            | 34 FF          |                | AX=11DD FL=F086
XOR AH,BL            | 30 DC          |                | AX=9922 FL=F086
XOR AH,[SI]          | 32 24          | 2000:0300=01   | AX=1022
XOR AH,SS:[SI]       | 36 32 24       | 3000:0300=11   | AX=0022 FL=F046
TEST AL,AH           | 84 E0          |                | FL=F046
TEST BL,BL           | 84 DB          | FL=FFD7        | FL=F796";

/// Jumps backwards, taken and not. Displacements are extended by sign; IP wraps.
const JUMPS: &str = "\
JMP SHORT 0110 | EB 0E    |         | IP=0110
JMP 0100       | E9 FD FF |         | IP=0100
JMP 9103       | E9 00 90 |         | IP=9103
JO             | 70 FE    | FL=F802 | IP=0100
JO             | 70 FE    | FL=F7D7 |
JNO            | 71 FE    | FL=F7D7 | IP=0100
JNO            | 71 FE    | FL=F802 |
JB             | 72 FE    | FL=F003 | IP=0100
JB             | 72 FE    | FL=FFD6 |
JAE            | 73 FE    | FL=FFD6 | IP=0100
JAE            | 73 FE    | FL=F003 |
JZ             | 74 FE    | FL=F042 | IP=0100
JZ             | 74 FE    | FL=FF97 |
JZ             | 74 7F    | FL=F042 | IP=0181
JNZ            | 75 FE    | FL=FF97 | IP=0100
JNZ            | 75 FE    | FL=F042 |
JBE            | 76 FE    | FL=F003 | IP=0100
JBE            | 76 FE    | FL=F042 | IP=0100
JBE            | 76 FE    | FL=FF96 |
JA             | 77 FE    | FL=FF96 | IP=0100
JA             | 77 FE    | FL=F003 |
JA             | 77 FE    | FL=F042 |
JS             | 78 FE    | FL=F082 | IP=0100
JS             | 78 FE    | FL=FF57 |
JNS            | 79 FE    | FL=FF57 | IP=0100
JNS            | 79 FE    | FL=F082 |
JP             | 7A FE    | FL=F006 | IP=0100
JP             | 7A FE    | FL=FFD3 |
JNP            | 7B FE    | FL=FFD3 | IP=0100
JNP            | 7B FE    | FL=F006 |
JL             | 7C FE    | FL=F082 | IP=0100
JL             | 7C FE    | FL=F802 | IP=0100
JL             | 7C FE    | FL=F882 |
JL             | 7C FE    |         |
JGE            | 7D FE    | FL=F882 | IP=0100
JGE            | 7D FE    |         | IP=0100
JGE            | 7D FE    | FL=F082 |
JGE            | 7D FE    | FL=F802 |
JLE            | 7E FE    | FL=F042 | IP=0100
JLE            | 7E FE    | FL=F082 | IP=0100
JLE            | 7E FE    | FL=F802 | IP=0100
JLE            | 7E FE    | FL=F8C2 | IP=0100
JLE            | 7E FE    | FL=F882 |
JLE            | 7E FE    |         |
JG             | 7F FE    | FL=F882 | IP=0100
JG             | 7F FE    |         | IP=0100
JG             | 7F FE    | FL=F042 |
JG             | 7F FE    | FL=F8C2 |
JG             | 7F FE    | FL=F082 |
LOOP           | E2 FE    | CX=0002 | CX=0001 IP=0100
LOOP           | E2 FE    | CX=0001 | CX=0000
LOOP           | E2 FE    | CX=0000 | CX=FFFF IP=0100
JCXZ           | E3 FE    | CX=0000 | IP=0100
JCXZ           | E3 FE    |         |";

/// POP, CALL and RET.
const STACK: &str = "\
POP DI    | 5F       | SP=FFFF 3000:FFFF=12 3000:0000=34 4000:0000=56 | SP=0001 DI=3412
CALL 0100 | E8 FD FF |                                               | SP=00FE 3000:00FE=0103 IP=0100
CALL 1103 | E8 00 10 | SP=0000                                       | SP=FFFE 3000:FFFE=0103 IP=1103
RET       | C3       | SP=FFFE 3000:FFFE=5678                        | SP=0000 IP=5678";

/// Strings. With a repeat prefix one repetition is made, or none if CX is 0.
const STRINGS: &str = "\
LODSB       | AC    | 2000:0300=5A                              | AX=115A SI=0301
LODSB       | AC    | FL=F402 2000:0300=5A                      | AX=115A SI=02FF
REP LODSB   | F3 AC | CX=0001 2000:0300=5A                      | AX=115A SI=0301 CX=0000
REP LODSB   | F3 AC | CX=0000 2000:0300=5A                      |
LODSW CS:   | 2E AD | 0103:0300=5678                            | AX=5678 SI=0302
REP LODSW   | F3 AD | CX=0002 2000:0300=5678                    | AX=5678 SI=0302 CX=0001 IP=0100
LODSW       | AD    | SI=FFFF 2000:FFFF=12 2000:0000=34         | AX=3412 SI=0001
STOSB DS:   | 3E AA |                                           | 4000:0400=22 DI=0401
STOSW       | AB    | FL=F402                                   | 4000:0400=1122 DI=03FE
REP STOSW   | F3 AB | CX=0002                                   | 4000:0400=1122 DI=0402 CX=0001 IP=0100
REP STOSW   | F3 AB | CX=0000                                   |
MOVSB       | A4    | 2000:0300=5A                              | 4000:0400=5A SI=0301 DI=0401
MOVSB CS:   | 2E A4 | 0103:0300=5A                              | 4000:0400=5A SI=0301 DI=0401
REPNE MOVSB | F2 A4 | CX=0001 2000:0300=5A                      | 4000:0400=5A SI=0301 DI=0401 CX=0000
REP MOVSW   | F3 A5 | CX=0002 2000:0300=5678                    | 4000:0400=5678 SI=0302 DI=0402 CX=0001 IP=0100
REP MOVSW   | F3 A5 | CX=0000                                   |";

/// All rows.
pub(crate) const FORMED: [&str; 6] = [MOVES, WORDS, BYTES, JUMPS, STACK, STRINGS];

/// Definitions: dm_cpu EffectiveAddress first_of second_of segment_by own_segment
/// Definitions: dm_forms Forms IsForm HasAction action_of override_of with_two_operands
#[test]
fn instructions_with_forms(rt: HostRuntime) -> Result<(), Fail> {
    for rows in FORMED {
        check(&rt, rt.alloc(), rows)?;
    }
    Ok(())
}
