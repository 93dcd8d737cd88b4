//! Effects of single instructions: rows worked out by hand from the manual (Intel 8086 Family User's
//! Manual, section 2.7). `rows` says how a row is read.
//!
//! In the flags word carry is 0001h, parity 0004h, adjust 0010h, zero 0040h, sign 0080h, trap
//! 0100h, interrupt 0200h, direction 0400h and overflow 0800h; F002h has none of them, FFD7h all.

use crate::checks::same;
use crate::rows::{check, note};
use std::test::Fail;

/// MOV, with each register and each kind of operand.
const MOVES: &str = "\
# Each byte register and each word register takes a value, and is stored.
MOV AL,5A            | B0 5A             |                | AX=115A
MOV CL,5A            | B1 5A             |                | CX=335A
MOV DL,5A            | B2 5A             |                | DX=555A
MOV BL,5A            | B3 5A             |                | BX=775A
MOV AH,5A            | B4 5A             |                | AX=5A22
MOV CH,5A            | B5 5A             |                | CX=5A44
MOV DH,5A            | B6 5A             |                | DX=5A66
MOV BH,5A            | B7 5A             |                | BX=5A88
MOV AX,1234          | B8 34 12          |                | AX=1234
MOV CX,1234          | B9 34 12          |                | CX=1234
MOV DX,1234          | BA 34 12          |                | DX=1234
MOV BX,1234          | BB 34 12          |                | BX=1234
MOV SP,1234          | BC 34 12          |                | SP=1234
MOV BP,1234          | BD 34 12          |                | BP=1234
MOV SI,1234          | BE 34 12          |                | SI=1234
MOV DI,1234          | BF 34 12          |                | DI=1234
MOV [1000],AL        | 88 06 00 10       |                | 2000:1000=22
MOV [1000],CL        | 88 0E 00 10       |                | 2000:1000=44
MOV [1000],DL        | 88 16 00 10       |                | 2000:1000=66
MOV [1000],BL        | 88 1E 00 10       |                | 2000:1000=88
MOV [1000],AH        | 88 26 00 10       |                | 2000:1000=11
MOV [1000],CH        | 88 2E 00 10       |                | 2000:1000=33
MOV [1000],DH        | 88 36 00 10       |                | 2000:1000=55
MOV [1000],BH        | 88 3E 00 10       |                | 2000:1000=77
MOV [1000],AX        | 89 06 00 10       |                | 2000:1000=1122
MOV [1000],CX        | 89 0E 00 10       |                | 2000:1000=3344
MOV [1000],DX        | 89 16 00 10       |                | 2000:1000=5566
MOV [1000],BX        | 89 1E 00 10       |                | 2000:1000=7788
MOV [1000],SP        | 89 26 00 10       |                | 2000:1000=0100
MOV [1000],BP        | 89 2E 00 10       |                | 2000:1000=0200
MOV [1000],SI        | 89 36 00 10       |                | 2000:1000=0300
MOV [1000],DI        | 89 3E 00 10       |                | 2000:1000=0400
MOV [1000],ES        | 8C 06 00 10       |                | 2000:1000=4000
MOV [1000],CS        | 8C 0E 00 10       |                | 2000:1000=0103
MOV [1000],SS        | 8C 16 00 10       |                | 2000:1000=3000
MOV [1000],DS        | 8C 1E 00 10       |                | 2000:1000=2000
MOV AX,DS            | 8C D8             |                | AX=2000
MOV ES,AX            | 8E C0             |                | ES=1122
MOV SS,AX            | 8E D0             |                | SS=1122
MOV DS,AX            | 8E D8             |                | DS=1122
MOV DS,[1000]        | 8E 1E 00 10       | 2000:1000=5678 | DS=5678
MOV AX,BX            | 89 D8             |                | AX=7788
MOV AX,BX            | 8B C3             |                | AX=7788
MOV AL,BH            | 8A C7             |                | AX=1177
MOV AL,[1000]        | A0 00 10          | 2000:1000=5678 | AX=1178
MOV AX,[1000]        | A1 00 10          | 2000:1000=5678 | AX=5678
MOV [1000],AL        | A2 00 10          | 2000:1000=FFFF | 2000:1000=22
MOV [1000],AX        | A3 00 10          | 2000:1000=FFFF | 2000:1000=1122
MOV BYTE [1000],5A   | C6 06 00 10 5A    | 2000:1000=FFFF | 2000:1000=5A
MOV WORD [1000],1234 | C7 06 00 10 34 12 | FL=FFD7        | 2000:1000=1234";

/// The sums of the r/m field, with DS, or SS for sums with BP, or an override; LEA. Sums wrap.
const ADDRESSES: &str = "\
# The sums of the r/m field, with DS, or SS where BP is in them; sums wrap.
MOV AL,[BX+SI+5] | 8A 40 05    | 2000:7A8D=5A                 | AX=115A
MOV AL,[BX+DI+5] | 8A 41 05    | 2000:7B8D=5A                 | AX=115A
MOV AL,[BP+SI+5] | 8A 42 05    | 3000:0505=5A                 | AX=115A
MOV AL,[BP+DI+5] | 8A 43 05    | 3000:0605=5A                 | AX=115A
MOV AL,[SI+5]    | 8A 44 05    | 2000:0305=5A                 | AX=115A
MOV AL,[DI+5]    | 8A 45 05    | 2000:0405=5A                 | AX=115A
MOV AL,[BP+5]    | 8A 46 05    | 3000:0205=5A                 | AX=115A
MOV AL,[BX+5]    | 8A 47 05    | 2000:778D=5A                 | AX=115A
MOV AL,[1234]    | 8A 06 34 12 | 2000:1234=5A                 | AX=115A
MOV AX,[BP+SI+5] | 8B 42 05    | 3000:0505=5678               | AX=5678
MOV AL,[BX-1]    | 8A 47 FF    | 2000:7787=5A                 | AX=115A
MOV AL,[BX+1234] | 8A 87 34 12 | 2000:89BC=5A                 | AX=115A
MOV AL,[BX+9000] | 8A 87 00 90 | 2000:0788=5A                 | AX=115A
MOV AL,[BX+SI]   | 8A 00       | BX=FFFF SI=0003 2000:0002=5A | AX=115A
MOV AL,[BX+DI]   | 8A 01       | BX=FFFF DI=0003 2000:0002=5A | AX=115A
MOV AL,[BP+SI]   | 8A 02       | BP=FFFF SI=0003 3000:0002=5A | AX=115A
MOV AL,[BP+DI]   | 8A 03       | BP=FFFF DI=0003 3000:0002=5A | AX=115A
MOV [BX+SI+5],AL | 88 40 05    |                              | 2000:7A8D=22
MOV [BP+5],AL    | 88 46 05    |                              | 3000:0205=22
MOV [BP+5],AX    | 89 46 05    |                              | 3000:0205=1122
MOV AL,ES:[BX]   | 26 8A 07    | 4000:7788=5A                 | AX=115A
MOV AL,CS:[BX]   | 2E 8A 07    | 0103:7788=5A                 | AX=115A
MOV AL,SS:[BX]   | 36 8A 07    | 3000:7788=5A                 | AX=115A
MOV AL,DS:[BP+5] | 3E 8A 46 05 | 2000:0205=5A                 | AX=115A
MOV ES:[BX],AL   | 26 88 07    |                              | 4000:7788=22
MOV DS:[BP+5],AX | 3E 89 46 05 |                              | 2000:0205=1122
LEA AX,[BX+SI+5] | 8D 40 05    |                              | AX=7A8D
LEA BX,[BP+5]    | 8D 5E 05    |                              | BX=0205
LEA AX,[1234]    | 8D 06 34 12 |                              | AX=1234
LEA AX,ES:[BX]   | 26 8D 07    | 4000:7788=1234               | AX=7788";

/// A word at offset FFFFh ends at offset 0, not in the next segment; one at BFFFFh ends where there is no memory.
const WORDS: &str = "\
# A word at offset FFFF ends at offset 0, not in the next segment; one at BFFFF ends where nothing is.
MOV AX,[FFFF] | A1 FF FF    | 2000:FFFF=12 2000:0000=34 3000:0000=56       | AX=3412
MOV [FFFF],AX | A3 FF FF    | 3000:0000=56                                 | 2000:FFFF=22 2000:0000=11
MOV AX,[FFFE] | A1 FE FF    | 2000:FFFE=1234 2000:0000=56                  | AX=1234
MOV [FFFE],AX | A3 FE FF    | 2000:0000=56                                 | 2000:FFFE=1122
MOV AX,[000F] | A1 0F 00    | DS=BFFF BFFF:000F=12                         | AX=FF12
MOV [000F],AX | A3 0F 00    | DS=BFFF                                      | BFFF:000F=22
MOV AX,[000E] | A1 0E 00    | DS=BFFF BFFF:000E=1234                       | AX=1234
MOV [000E],AX | A3 0E 00    | DS=BFFF                                      | BFFF:000E=1122
LES AX,[FFFF] | C4 06 FF FF | 2000:FFFF=12 2000:0000=34 2000:0001=5678     | AX=3412 ES=5678
LES AX,[FFFE] | C4 06 FE FF | 2000:FFFE=1234 2000:0000=5678                | AX=1234 ES=5678
PUSH AX       | 50          | SP=0001 4000:0000=56                         | SP=FFFF 3000:FFFF=22 3000:0000=11
POP AX        | 58          | SP=FFFF 3000:FFFF=12 3000:0000=34 4000:0000=56 | SP=0001 AX=3412
MOVSW         | A5          | SI=FFFF DI=FFFF 2000:FFFF=12 2000:0000=34    | SI=0001 DI=0001 4000:FFFF=12 4000:0000=34";

/// XCHG, LES, LDS, XLAT, CBW, CWD, LAHF, SAHF and IN.
const TRANSFERS_OF_DATA: &str = "\
XCHG AX,CX     | 91       |                               | AX=3344 CX=1122
XCHG AL,BH     | 86 F8    |                               | AX=1177 BX=2288
XCHG [BX],CL   | 86 0F    | 2000:7788=5678                | CX=3378 2000:7788=44
XCHG [BX],CX   | 87 0F    | 2000:7788=5678                | CX=5678 2000:7788=3344
# Memory is written before the register that its address is made of.
XCHG [BX],BX   | 87 1F    | BX=0010 2000:0010=0020        | BX=0020 2000:0010=0010
XCHG AX,AX     | 90       |                               |
LES AX,[BX]    | C4 07    | 2000:7788=5678 2000:778A=9ABC | AX=5678 ES=9ABC
LES AX,ES:[BX] | 26 C4 07 | 4000:7788=5678 4000:778A=9ABC | AX=5678 ES=9ABC
LDS AX,[BX]    | C5 07    | 2000:7788=5678 2000:778A=9ABC | AX=5678 DS=9ABC
LDS BX,[BX]    | C5 1F    | 2000:7788=5678 2000:778A=9ABC | BX=5678 DS=9ABC
LDS AX,ES:[BX] | 26 C5 07 | 4000:7788=5678 4000:778A=9ABC | AX=5678 DS=9ABC
XLAT           | D7       | BX=0010 2000:0032=5A          | AX=115A
XLAT           | D7       | BX=FFFF 2000:0021=5A          | AX=115A
XLAT CS:       | 2E D7    | BX=0010 0103:0032=5A          | AX=115A
CBW            | 98       | AX=1280                       | AX=FF80
CBW            | 98       | AX=807F                       | AX=007F
CWD            | 99       | AX=8000                       | DX=FFFF
CWD            | 99       | AX=7FFF                       | DX=0000
LAHF           | 9F       | FL=FFD7                       | AX=D722
LAHF           | 9F       |                               | AX=0222
LAHF           | 9F       | FL=F093                       | AX=9322
LAHF           | 9F       | FL=F016                       | AX=1622
LAHF           | 9F       | FL=F0C2                       | AX=C222
# The five low flags alone are those of AH.
SAHF           | 9E       | AX=FF22                       | FL=F0D7
SAHF           | 9E       | AX=0022 FL=FFD7               | FL=FF02
SAHF           | 9E       | AX=9322                       | FL=F093
SAHF           | 9E       | AX=1622                       | FL=F016
SAHF           | 9E       | AX=C222                       | FL=F0C2
# Every port reads as ones.
IN AL,60       | E4 60    |                               | AX=11FF
IN AX,60       | E5 60    | AX=1234                       | AX=FFFF
IN AL,DX       | EC       |                               | AX=11FF
IN AX,DX       | ED       |                               | AX=FFFF";

/// OUT, WAIT, ESC, LOCK, HLT, and repeat prefixes before instructions other than string instructions.
const NOTHING: &str = "\
OUT 60,AL         | E6 60       | FL=FFD7                |
OUT 60,AX         | E7 60       |                        |
OUT DX,AL         | EE          |                        |
OUT DX,AX         | EF          |                        |
WAIT              | 9B          | FL=FFD7                |
ESC 00,[BX]       | D8 07       | FL=FFD7 2000:7788=1234 |
ESC 3F,DI         | DF FF       |                        |
# LOCK does nothing, nor a repeat prefix before another instruction than a string one; IP wraps.
LOCK XCHG AX,AX   | F0 90       |                        |
REP MOV AX,1234   | F3 B8 34 12 |                        | AX=1234
REPNE MOV AX,1234 | F2 B8 34 12 | CX=0000                | AX=1234
XCHG AX,AX        | 90          | IP=FFFF                | IP=0000
MOV AL,5A         | B0 5A       | IP=FFFF                | AX=115A IP=0001
HLT               | F4          | FL=FFD7                | IP=0100
REP HLT           | F3 F4       |                        | IP=0100";

/// PUSH, POP, PUSHF and POPF.
const STACK: &str = "\
# PUSH SP stores the new value, POP SP leaves the popped one.
PUSH AX      | 50       |                        | SP=00FE 3000:00FE=1122
PUSH CX      | 51       |                        | SP=00FE 3000:00FE=3344
PUSH DX      | 52       |                        | SP=00FE 3000:00FE=5566
PUSH BX      | 53       |                        | SP=00FE 3000:00FE=7788
PUSH SP      | 54       |                        | SP=00FE 3000:00FE=00FE
PUSH BP      | 55       |                        | SP=00FE 3000:00FE=0200
PUSH SI      | 56       |                        | SP=00FE 3000:00FE=0300
PUSH DI      | 57       |                        | SP=00FE 3000:00FE=0400
PUSH ES      | 06       |                        | SP=00FE 3000:00FE=4000
PUSH CS      | 0E       |                        | SP=00FE 3000:00FE=0103
PUSH SS      | 16       |                        | SP=00FE 3000:00FE=3000
PUSH DS      | 1E       |                        | SP=00FE 3000:00FE=2000
PUSH SP      | FF F4    |                        | SP=00FE 3000:00FE=00FE
PUSH [BX]    | FF 37    | 2000:7788=5678         | SP=00FE 3000:00FE=5678
PUSH ES:[BX] | 26 FF 37 | 4000:7788=5678         | SP=00FE 3000:00FE=5678
PUSH AX      | 50       | SP=0000                | SP=FFFE 3000:FFFE=1122
POP AX       | 58       | 3000:0100=5678         | SP=0102 AX=5678
POP CX       | 59       | 3000:0100=5678         | SP=0102 CX=5678
POP DX       | 5A       | 3000:0100=5678         | SP=0102 DX=5678
POP BX       | 5B       | 3000:0100=5678         | SP=0102 BX=5678
POP SP       | 5C       | 3000:0100=5678         | SP=5678
POP BP       | 5D       | 3000:0100=5678         | SP=0102 BP=5678
POP SI       | 5E       | 3000:0100=5678         | SP=0102 SI=5678
POP DI       | 5F       | 3000:0100=5678         | SP=0102 DI=5678
POP ES       | 07       | 3000:0100=5678         | SP=0102 ES=5678
POP SS       | 17       | 3000:0100=5678         | SP=0102 SS=5678
POP DS       | 1F       | 3000:0100=5678         | SP=0102 DS=5678
POP [BX]     | 8F 07    | 3000:0100=5678         | SP=0102 2000:7788=5678
POP ES:[BX]  | 26 8F 07 | 3000:0100=5678         | SP=0102 4000:7788=5678
POP AX       | 58       | SP=FFFE 3000:FFFE=5678 | SP=0000 AX=5678
# No two flags are in the same of these words, so that an exchange of two shows.
PUSHF        | 9C       |                        | SP=00FE 3000:00FE=F002
PUSHF        | 9C       | FL=FFD7                | SP=00FE 3000:00FE=FFD7
PUSHF        | 9C       | FL=FA93                | SP=00FE 3000:00FE=FA93
PUSHF        | 9C       | FL=F316                | SP=00FE 3000:00FE=F316
PUSHF        | 9C       | FL=F3C2                | SP=00FE 3000:00FE=F3C2
PUSHF        | 9C       | FL=FC02                | SP=00FE 3000:00FE=FC02
POPF         | 9D       | 3000:0100=FFFF         | SP=0102 FL=FFD7
POPF         | 9D       | FL=FFD7 3000:0100=F02A | SP=0102 FL=F002
POPF         | 9D       | 3000:0100=0A91         | SP=0102 FL=FA93
POPF         | 9D       | 3000:0100=0314         | SP=0102 FL=F316
POPF         | 9D       | 3000:0100=03C0         | SP=0102 FL=F3C2
POPF         | 9D       | 3000:0100=0C00         | SP=0102 FL=FC02";

/// INT, INTO and IRET.
const INTERRUPTS: &str = "\
INT 21 | CD 21 | FL=FFD7 0000:0084=5678 0000:0086=9ABC        | SP=00FA 3000:00FE=FFD7 3000:00FC=0103 3000:00FA=0102 FL=FCD7 CS=9ABC IP=5678
INT FF | CD FF | 0000:03FC=5678 0000:03FE=9ABC                | SP=00FA 3000:00FE=F002 3000:00FC=0103 3000:00FA=0102 CS=9ABC IP=5678
INT 3  | CC    | 0000:000C=5678 0000:000E=9ABC                | SP=00FA 3000:00FE=F002 3000:00FC=0103 3000:00FA=0101 CS=9ABC IP=5678
INTO   | CE    | FL=F802 0000:0010=5678 0000:0012=9ABC        | SP=00FA 3000:00FE=F802 3000:00FC=0103 3000:00FA=0101 CS=9ABC IP=5678
INTO   | CE    | FL=F7D7                                      |
# The vector is read behind the pushes, here over it.
INT 21 | CD 21 | SS=0000 SP=0088                              | SP=0082 0000:0086=F002 0000:0084=0103 0000:0082=0102 CS=F002 IP=0103
IRET   | CF    | 3000:0100=5678 3000:0102=9ABC 3000:0104=FFFF | SP=0106 FL=FFD7 CS=9ABC IP=5678
IRET   | CF    | FL=FFD7 3000:0100=5678 3000:0102=9ABC        | SP=0106 FL=F002 CS=9ABC IP=5678
IRET   | CF    | SP=FFFE 3000:FFFE=5678 3000:0000=9ABC 3000:0002=0091 | SP=0004 FL=F093 CS=9ABC IP=5678";

/// ADD, ADC and INC.
const SUMS: &str = "\
ADD AL,01          | 04 01       | AX=117F                | AX=1180 FL=F892
ADD AL,01          | 04 01       | AX=11FF                | AX=1100 FL=F057
ADD AL,80          | 04 80       | AX=1180                | AX=1100 FL=F847
ADD AL,03          | 04 03       | FL=FFD7                | AX=1125 FL=F702
ADD AX,0001        | 05 01 00    | AX=7FFF                | AX=8000 FL=F896
ADD AX,0001        | 05 01 00    | AX=FFFF                | AX=0000 FL=F057
ADD AX,0080        | 05 80 00    | AX=0080                | AX=0100 FL=F006
ADD AX,CX          | 01 C8       |                        | AX=4466 FL=F006
ADD [BX],CL        | 00 0F       | 2000:7788=5AFF         | 2000:7788=5A43 FL=F013
ADD [BX],CX        | 01 0F       | 2000:7788=F000         | 2000:7788=2344 FL=F007
ADD CL,[BX]        | 02 0F       | 2000:7788=5AFF         | CX=3343 FL=F013
ADD CX,[BX]        | 03 0F       | 2000:7788=0001         | CX=3345
ADD CX,-1          | 83 C1 FF    |                        | CX=3343 FL=F013
ADD BYTE [BX],01   | 80 07 01    | 2000:7788=5AFF         | 2000:7788=5A00 FL=F057
ADD WORD [BX],7FFF | 81 07 FF 7F | 2000:7788=0001         | 2000:7788=8000 FL=F896
ADC AL,01          | 14 01       | AX=117F FL=F003        | AX=1181 FL=F896
ADC AL,01          | 14 01       | AX=117F                | AX=1180 FL=F892
ADC AL,FF          | 14 FF       | AX=1100 FL=F003        | FL=F057
ADC AX,FFFF        | 15 FF FF    | AX=0000 FL=F003        | FL=F057
ADC AX,7FFF        | 15 FF 7F    | AX=0000 FL=F003        | AX=8000 FL=F896
ADC AX,CX          | 11 C8       | FL=F003                | AX=4467 FL=F002
ADC [BX],CL        | 10 0F       | 2000:7788=5A00 FL=F003 | 2000:7788=5A45 FL=F002
# INC keeps the carry.
INC AX             | 40          | AX=FFFF FL=F003        | AX=0000 FL=F057
INC AX             | 40          | AX=FFFF                | AX=0000 FL=F056
INC AX             | 40          | AX=7FFF                | AX=8000 FL=F896
INC BL             | FE C3       | FL=FFD7                | BX=7789 FL=F783
INC BYTE [BX]      | FE 07       | 2000:7788=5A7F         | 2000:7788=5A80 FL=F892
INC WORD [BX]      | FF 07       | 2000:7788=00FF         | 2000:7788=0100 FL=F016";

/// SUB, SBB, CMP, DEC and NEG.
const DIFFERENCES: &str = "\
SUB AL,01     | 2C 01    | AX=1180                | AX=117F FL=F812
SUB AL,01     | 2C 01    | AX=1100                | AX=11FF FL=F097
SUB AL,80     | 2C 80    | AX=1100                | AX=1180 FL=F883
SUB AL,02     | 2C 02    | FL=FFD7                | AX=1120 FL=F702
SUB AL,AL     | 28 C0    |                        | AX=1100 FL=F046
SUB AX,0001   | 2D 01 00 | AX=8000                | AX=7FFF FL=F816
SUB AX,0080   | 2D 80 00 | AX=0100                | AX=0080 FL=F002
SUB AX,CX     | 29 C8    |                        | AX=DDDE FL=F097
SUB CX,AX     | 29 C1    |                        | CX=2222 FL=F006
SUB [BX],CL   | 28 0F    | 2000:7788=5A10         | 2000:7788=5ACC FL=F097
SUB AX,[BX]   | 2B 07    | 2000:7788=1122         | AX=0000 FL=F046
SBB AL,01     | 1C 01    | AX=1101 FL=F003        | AX=11FF FL=F097
SBB AL,01     | 1C 01    | AX=1101                | AX=1100 FL=F046
SBB AL,FF     | 1C FF    | AX=11FF FL=F003        | FL=F097
SBB AL,7F     | 1C 7F    | AX=1100 FL=F003        | AX=1180 FL=F093
SBB AL,80     | 1C 80    | AX=1100 FL=F003        | AX=117F FL=F013
SBB AX,7FFF   | 1D FF 7F | AX=0000 FL=F003        | AX=8000 FL=F097
SBB AX,CX     | 19 C8    | FL=F003                | AX=DDDD FL=F097
SBB [BX],CL   | 18 0F    | 2000:7788=5A45 FL=F003 | 2000:7788=5A00 FL=F046
# CMP keeps both operands.
CMP AL,23     | 3C 23    |                        | FL=F097
CMP AL,80     | 3C 80    | AX=1100                | FL=F883
CMP AX,1122   | 3D 22 11 |                        | FL=F046
CMP AX,CX     | 39 C8    |                        | FL=F097
CMP CX,AX     | 39 C1    |                        | FL=F006
CMP [BX],CL   | 38 0F    | 2000:7788=10           | FL=F097
CMP [BX],CX   | 39 0F    | 2000:7788=3344         | FL=F046
# DEC keeps the carry.
DEC AX        | 48       | AX=0000 FL=F003        | AX=FFFF FL=F097
DEC AX        | 48       | AX=0000                | AX=FFFF FL=F096
DEC AX        | 48       | AX=8000                | AX=7FFF FL=F816
DEC BL        | FE CB    | FL=FFD7                | BX=7787 FL=F787
DEC BYTE [BX] | FE 0F    | 2000:7788=5A80         | 2000:7788=5A7F FL=F812
DEC WORD [BX] | FF 0F    | 2000:7788=0100         | 2000:7788=00FF FL=F016
# NEG sets the carry but for zero.
NEG AL        | F6 D8    | AX=1180                | FL=F883
NEG AL        | F6 D8    | AX=1100 FL=FFD7        | FL=F746
NEG AL        | F6 D8    | AX=1101                | AX=11FF FL=F097
NEG AX        | F7 D8    | AX=0100                | AX=FF00 FL=F087
NEG AX        | F7 D8    | AX=8000                | FL=F887
NEG BYTE [BX] | F6 1F    | 2000:7788=5A01         | 2000:7788=5AFF FL=F097
NEG WORD [BX] | F7 1F    | 2000:7788=0001         | 2000:7788=FFFF FL=F097";

/// AND, OR, XOR, TEST and NOT.
const BITWISE: &str = "\
AND AL,0F           | 24 0F       | FL=FFD7        | AX=1102 FL=F712
AND AL,0F           | 24 0F       |                | AX=1102
AND AL,0A           | 24 0A       | AX=110C        | AX=1108
AND AX,F0F0         | 25 F0 F0    | AX=8181        | AX=8080 FL=F082
AND CX,[BX]         | 23 0F       | 2000:7788=00FF | CX=0044 FL=F006
AND [BX],CL         | 20 0F       | 2000:7788=5ABB | 2000:7788=5A00 FL=F046
OR AL,44            | 0C 44       | FL=FFD7        | AX=1166 FL=F716
OR AL,0A            | 0C 0A       | AX=110C        | AX=110E
OR AX,8000          | 0D 00 80    |                | AX=9122 FL=F086
OR [BX],CX          | 09 0F       |                | 2000:7788=3344 FL=F006
XOR AL,AL           | 30 C0       | FL=FFD7        | AX=1100 FL=F756
XOR AL,0A           | 34 0A       | AX=110C        | AX=1106 FL=F006
XOR AX,FFFF         | 35 FF FF    |                | AX=EEDD FL=F086
XOR CX,[BX]         | 33 0F       | 2000:7788=3344 | CX=0000 FL=F046
XOR [BX],CL         | 30 0F       | 2000:7788=5A4C | 2000:7788=5A08
# TEST keeps both operands.
TEST AL,44          | A8 44       | FL=FFD7        | FL=F756
TEST AX,8000        | A9 00 80    | AX=8001        | FL=F086
TEST [BX],CL        | 84 0F       | 2000:7788=C0   |
TEST [BX],CX        | 85 0F       | 2000:7788=0100 | FL=F006
TEST BYTE [BX],80   | F6 07 80    | 2000:7788=80   | FL=F082
TEST WORD [BX],0100 | F7 07 00 01 | 2000:7788=0180 | FL=F006
# NOT changes no flag.
NOT AL              | F6 D0       | FL=FFD7        | AX=11DD
NOT AX              | F7 D0       |                | AX=EEDD
NOT BYTE [BX]       | F6 17       | 2000:7788=5A0F | 2000:7788=5AF0
NOT WORD [BX]       | F7 17       | 2000:7788=00FF | 2000:7788=FF00";

/// ROL, ROR, RCL, RCR, SHL, SHR and SAR.
const SHIFTS: &str = "\
# By one bit: OF is set. Rotates keep PF, ZF and SF; all keep AF.
ROL AL,1         | D0 C0 | AX=1181                 | AX=1103 FL=F803
ROL AL,1         | D0 C0 | AX=1140 FL=F7D7         | AX=1180 FL=FFD6
ROL AL,1         | D0 C0 | AX=11C0 FL=F802         | AX=1181 FL=F003
ROL AX,1         | D1 C0 | AX=8001                 | AX=0003 FL=F803
ROR AL,1         | D0 C8 | AX=1101                 | AX=1180 FL=F803
ROR AL,1         | D0 C8 | AX=1181 FL=FFD6         | AX=11C0 FL=F7D7
ROR AL,1         | D0 C8 | AX=1180                 | AX=1140 FL=F802
ROR AX,1         | D1 C8 | AX=0001                 | AX=8000 FL=F803
RCL AL,1         | D0 D0 | AX=1180                 | AX=1100 FL=F803
RCL AL,1         | D0 D0 | AX=1140 FL=F7D7         | AX=1181 FL=FFD6
RCL AX,1         | D1 D0 | AX=8000                 | AX=0000 FL=F803
RCL AX,1         | D1 D0 | AX=0080 FL=F803         | AX=0101 FL=F002
RCR AL,1         | D0 D8 | AX=1101 FL=F003         | AX=1180 FL=F803
RCR AL,1         | D0 D8 | AX=1101 FL=FFD6         | AX=1100 FL=F7D7
RCR AX,1         | D1 D8 | AX=0100 FL=F003         | AX=8080 FL=F802
SHL AL,1         | D0 E0 | AX=1181                 | AX=1102 FL=F803
SHL AL,1         | D0 E0 | AX=11C0 FL=FFD7         | AX=1180 FL=F793
SHL AX,1         | D1 E0 | AX=0080                 | AX=0100 FL=F006
SHR AL,1         | D0 E8 | AX=1181                 | AX=1140 FL=F803
SHR AL,1         | D0 E8 | AX=1106 FL=FFD7         | AX=1103 FL=F716
SHR AX,1         | D1 E8 | AX=8100                 | AX=4080 FL=F802
SAR AL,1         | D0 F8 | AX=1181 FL=F802         | AX=11C0 FL=F087
SAR AL,1         | D0 F8 | AX=1102 FL=FFD7         | AX=1101 FL=F712
SAR AX,1         | D1 F8 | AX=8100                 | AX=C080 FL=F082
SHL BYTE [BX],1  | D0 27 | 2000:7788=5A80          | 2000:7788=5A00 FL=F847
SHR WORD [BX],1  | D1 2F | 2000:7788=0001          | 2000:7788=0000 FL=F047
# By CL, which is not masked: OF stays, and by 0 all stays.
ROL AL,CL        | D2 C0 | AX=1181 CX=3302 FL=F803 | AX=1106 FL=F802
ROR AL,CL        | D2 C8 | AX=1106 CX=3302         | AX=1181 FL=F003
RCL AL,CL        | D2 D0 | AX=1180 CX=3302         | AX=1101
RCR AL,CL        | D2 D8 | AX=1101 CX=3302         | AX=1180
SHL AL,CL        | D2 E0 | AX=1141 CX=3302 FL=F802 | AX=1104 FL=F803
SHR AL,CL        | D2 E8 | AX=1186 CX=3302 FL=F802 | AX=1121 FL=F807
SAR AL,CL        | D2 F8 | AX=1186 CX=3302 FL=F802 | AX=11E1 FL=F887
ROL AX,CL        | D3 C0 | AX=8001 CX=3304         | AX=0018
ROR AX,CL        | D3 C8 | AX=1238 CX=3304         | AX=8123 FL=F003
RCL AX,CL        | D3 D0 | AX=1234 CX=3304 FL=F003 | AX=2348
RCR AX,CL        | D3 D8 | AX=1234 CX=3304 FL=F003 | AX=9123 FL=F002
SHL AX,CL        | D3 E0 | AX=1234 CX=3304         | AX=2340 FL=F003
SHR AX,CL        | D3 E8 | AX=1238 CX=3304         | AX=0123 FL=F003
SAR AX,CL        | D3 F8 | AX=8234 CX=3304         | AX=F823 FL=F082
SHL AL,CL        | D2 E0 | AX=1180 CX=3300 FL=FFD7 |
SHL AL,CL        | D2 E0 | AX=1180 CX=3300         |
ROL AX,CL        | D3 C0 | CX=3300                 |
SHL AL,CL        | D2 E0 | AX=11FF CX=3320         | AX=1100 FL=F046
SAR AX,CL        | D3 F8 | AX=8001 CX=33FF         | AX=FFFF FL=F087
RCL AL,CL        | D2 D0 | AX=115A CX=3309 FL=F003 |
RCR AX,CL        | D3 D8 | AX=1234 CX=3311 FL=F003 |
SHL CL,CL        | D2 E1 | CX=3302                 | CX=3308
SHL WORD [BX],CL | D3 27 | CX=3304 2000:7788=1234  | 2000:7788=2340 FL=F003";

/// MUL and IMUL.
const PRODUCTS: &str = "\
# CF and OF say that the upper half is more than the lower half's sign (MUL: than zeros); the rest stays.
MUL BL         | F6 E3 | AX=11FF BX=77FF         | AX=FE01 FL=F803
MUL BL         | F6 E3 | AX=1110 BX=770F FL=FFD7 | AX=00F0 FL=F7D6
MUL BX         | F7 E3 | AX=FFFF BX=FFFF         | AX=0001 DX=FFFE FL=F803
MUL BX         | F7 E3 | AX=0100 BX=00FF FL=FFD7 | AX=FF00 DX=0000 FL=F7D6
MUL BYTE [BX]  | F6 27 | AX=1103 2000:7788=5A05  | AX=000F
MUL WORD [BX]  | F7 27 | AX=0003 2000:7788=8000  | AX=8000 DX=0001 FL=F803
IMUL BL        | F6 EB | AX=11FF BX=77FF         | AX=0001
IMUL BL        | F6 EB | AX=1180 BX=7702         | AX=FF00 FL=F803
IMUL BL        | F6 EB | AX=11FF BX=7702 FL=FFD7 | AX=FFFE FL=F7D6
IMUL BL        | F6 EB | AX=1140 BX=7702         | AX=0080 FL=F803
IMUL BX        | F7 EB | AX=8000 BX=8000         | AX=0000 DX=4000 FL=F803
IMUL BX        | F7 EB | AX=FFFF BX=0002         | AX=FFFE DX=FFFF
IMUL BYTE [BX] | F6 2F | AX=11FE 2000:7788=5A03  | AX=FFFA
IMUL WORD [BX] | F7 2F | AX=FFFE 2000:7788=0003  | AX=FFFA DX=FFFF";

/// DIV and IDIV.
const QUOTIENTS: &str = "\
# The quotient is cut towards zero, the remainder has the dividend's sign; all flags stay.
DIV BL         | F6 F3 | AX=0107 BX=7710 FL=FFD7                      | AX=0710
DIV BL         | F6 F3 | AX=0FF3 BX=7710                              | AX=03FF
DIV BX         | F7 F3 | AX=0007 DX=0001 BX=0010                      | AX=1000 DX=0007
DIV BYTE [BX]  | F6 37 | AX=0107 2000:7788=5A10                       | AX=0710
DIV WORD [BX]  | F7 37 | AX=0007 DX=0001 2000:7788=0010               | AX=1000 DX=0007
IDIV BL        | F6 FB | AX=FFF9 BX=7702 FL=FFD7                      | AX=FFFD
IDIV BL        | F6 FB | AX=0007 BX=77FE                              | AX=01FD
IDIV BL        | F6 FB | AX=FFF9 BX=77FE                              | AX=FF03
IDIV BL        | F6 FB | AX=FF81 BX=7701                              | AX=0081
IDIV BX        | F7 FB | AX=FFF9 DX=FFFF BX=0002                      | AX=FFFD DX=FFFF
IDIV BX        | F7 FB | AX=0007 DX=0000 BX=FFFE                      | AX=FFFD DX=0001
IDIV BX        | F7 FB | AX=8001 DX=FFFF BX=0001                      | AX=8001 DX=0000
IDIV BYTE [BX] | F6 3F | AX=FFF9 2000:7788=5A02                       | AX=FFFD
IDIV WORD [BX] | F7 3F | AX=FFF9 DX=FFFF 2000:7788=0002               | AX=FFFD DX=FFFF
# Out of range, or by zero: interrupt 0, which pushes the next instruction's IP.
DIV BL         | F6 F3 | BX=7700 FL=FFD7 0000:0000=5678 0000:0002=9ABC | SP=00FA 3000:00FE=FFD7 3000:00FC=0103 3000:00FA=0102 FL=FCD7 CS=9ABC IP=5678
DIV BL         | F6 F3 | AX=1000 BX=7710 0000:0000=5678 0000:0002=9ABC | SP=00FA 3000:00FE=F002 3000:00FC=0103 3000:00FA=0102 CS=9ABC IP=5678
DIV BX         | F7 F3 | AX=0000 DX=0010 BX=0010 0000:0000=5678 0000:0002=9ABC | SP=00FA 3000:00FE=F002 3000:00FC=0103 3000:00FA=0102 CS=9ABC IP=5678
IDIV BL        | F6 FB | AX=FF80 BX=7701 0000:0000=5678 0000:0002=9ABC | SP=00FA 3000:00FE=F002 3000:00FC=0103 3000:00FA=0102 CS=9ABC IP=5678
IDIV BL        | F6 FB | AX=0080 BX=7701 0000:0000=5678 0000:0002=9ABC | SP=00FA 3000:00FE=F002 3000:00FC=0103 3000:00FA=0102 CS=9ABC IP=5678
IDIV BX        | F7 FB | AX=8000 DX=FFFF BX=0001 0000:0000=5678 0000:0002=9ABC | SP=00FA 3000:00FE=F002 3000:00FC=0103 3000:00FA=0102 CS=9ABC IP=5678
IDIV BX        | F7 FB | BX=0000 0000:0000=5678 0000:0002=9ABC        | SP=00FA 3000:00FE=F002 3000:00FC=0103 3000:00FA=0102 CS=9ABC IP=5678";

/// AAA, AAS, DAA, DAS, AAM and AAD.
const ADJUSTMENTS: &str = "\
AAA | 37    | AX=000F         | AX=0105 FL=F013
AAA | 37    | AX=0105 FL=F012 | AX=020B FL=F013
AAA | 37    | AX=1139 FL=FFC7 | AX=1109 FL=FFC6
AAA | 37    | AX=00FF         | AX=0105 FL=F013
AAS | 3F    | AX=0500 FL=F012 | AX=040A FL=F013
AAS | 3F    | AX=020F         | AX=0109 FL=F013
AAS | 3F    | AX=0239 FL=FFC7 | AX=0209 FL=FFC6
AAS | 3F    | AX=0000 FL=F012 | AX=FF0A FL=F013
DAA | 27    | AX=009A         | AX=0000 FL=F057
DAA | 27    | AX=1119 FL=F012 | AX=111F FL=F012
DAA | 27    | AX=1119 FL=F003 | AX=1179 FL=F003
DAA | 27    | AX=1145 FL=FFC6 | FL=FF02
DAA | 27    | AX=117A         | AX=1180 FL=F092
DAA | 27    | AX=11A0         | AX=1100 FL=F047
DAA | 27    | AX=1199         | FL=F086
DAS | 2F    | AX=0005 FL=F012 | AX=00FF FL=F096
DAS | 2F    | AX=11EE         | AX=1188 FL=F097
DAS | 2F    | AX=1145 FL=F003 | AX=11E5 FL=F083
DAS | 2F    | AX=1119 FL=F012 | AX=1113
DAS | 2F    | AX=1166 FL=FFD7 | AX=1100 FL=FF57
AAM | D4 0A | AX=003F         | AX=0603 FL=F006
AAM | D4 0A | AX=1100 FL=FFD7 | AX=0000 FL=FF57
AAM | D4 0A | AX=11FF         | AX=1905 FL=F006
AAD | D5 0A | AX=0603         | AX=003F FL=F006
AAD | D5 0A | AX=0A9C         | AX=0000 FL=F046
AAD | D5 0A | AX=0C08 FL=FFD7 | AX=0080 FL=FF93";

/// The conditional jumps, LOOP, LOOPE, LOOPNE and JCXZ.
const CONDITIONS: &str = "\
# Each with its flag alone, and with all the others. JL and JLE: also with SF and OF alike, set or clear.
JO +10     | 70 10 | FL=F802         | IP=0112
JO +10     | 70 10 | FL=F7D7         |
JNO +10    | 71 10 | FL=F7D7         | IP=0112
JNO +10    | 71 10 | FL=F802         |
JB +10     | 72 10 | FL=F003         | IP=0112
JB +10     | 72 10 | FL=FFD6         |
JAE +10    | 73 10 | FL=FFD6         | IP=0112
JAE +10    | 73 10 | FL=F003         |
JZ +10     | 74 10 | FL=F042         | IP=0112
JZ +10     | 74 10 | FL=FF97         |
JNZ +10    | 75 10 | FL=FF97         | IP=0112
JNZ +10    | 75 10 | FL=F042         |
JBE +10    | 76 10 | FL=F003         | IP=0112
JBE +10    | 76 10 | FL=F042         | IP=0112
JBE +10    | 76 10 | FL=F043         | IP=0112
JBE +10    | 76 10 | FL=FF96         |
JA +10     | 77 10 | FL=FF96         | IP=0112
JA +10     | 77 10 | FL=F003         |
JA +10     | 77 10 | FL=F042         |
JA +10     | 77 10 | FL=F043         |
JS +10     | 78 10 | FL=F082         | IP=0112
JS +10     | 78 10 | FL=FF57         |
JNS +10    | 79 10 | FL=FF57         | IP=0112
JNS +10    | 79 10 | FL=F082         |
JP +10     | 7A 10 | FL=F006         | IP=0112
JP +10     | 7A 10 | FL=FFD3         |
JNP +10    | 7B 10 | FL=FFD3         | IP=0112
JNP +10    | 7B 10 | FL=F006         |
JL +10     | 7C 10 | FL=F082         | IP=0112
JL +10     | 7C 10 | FL=F802         | IP=0112
JL +10     | 7C 10 | FL=F882         |
JL +10     | 7C 10 | FL=F757         |
JGE +10    | 7D 10 | FL=F882         | IP=0112
JGE +10    | 7D 10 | FL=F757         | IP=0112
JGE +10    | 7D 10 | FL=F082         |
JGE +10    | 7D 10 | FL=F802         |
JLE +10    | 7E 10 | FL=F082         | IP=0112
JLE +10    | 7E 10 | FL=F802         | IP=0112
JLE +10    | 7E 10 | FL=F042         | IP=0112
JLE +10    | 7E 10 | FL=F8C2         | IP=0112
JLE +10    | 7E 10 | FL=FF97         |
JLE +10    | 7E 10 | FL=F717         |
JG +10     | 7F 10 | FL=FF97         | IP=0112
JG +10     | 7F 10 | FL=F717         | IP=0112
JG +10     | 7F 10 | FL=F082         |
JG +10     | 7F 10 | FL=F802         |
JG +10     | 7F 10 | FL=F042         |
JG +10     | 7F 10 | FL=F8C2         |
JZ -80     | 74 80 | FL=F042         | IP=0082
# The count is taken down first; no flag changes.
LOOP +10   | E2 10 | CX=0002         | CX=0001 IP=0112
LOOP +10   | E2 10 | CX=0101         | CX=0100 IP=0112
LOOP +10   | E2 10 | CX=0001 FL=FFD7 | CX=0000
LOOP +10   | E2 10 | CX=0000 FL=F042 | CX=FFFF IP=0112
LOOPE +10  | E1 10 | CX=0002 FL=F042 | CX=0001 IP=0112
LOOPE +10  | E1 10 | CX=0002 FL=FF97 | CX=0001
LOOPE +10  | E1 10 | CX=0001 FL=F042 | CX=0000
LOOPNE +10 | E0 10 | CX=0002 FL=FF97 | CX=0001 IP=0112
LOOPNE +10 | E0 10 | CX=0002 FL=F042 | CX=0001
LOOPNE +10 | E0 10 | CX=0001 FL=FF97 | CX=0000
JCXZ +10   | E3 10 | CX=0000         | IP=0112
JCXZ +10   | E3 10 | CX=0001         |
JCXZ +10   | E3 10 | CX=0100 FL=F042 |";

/// JMP, CALL, RET and RETF.
const JUMPS: &str = "\
JMP +1234          | E9 34 12       |                                              | IP=1337
JMP SHORT +10      | EB 10          |                                              | IP=0112
JMP SHORT -2       | EB FE          |                                              | IP=0100
JMP SHORT +7F      | EB 7F          | IP=FFF0                                      | IP=0071
JMP AX             | FF E0          |                                              | IP=1122
JMP [BX]           | FF 27          | 2000:7788=5678                               | IP=5678
JMP ES:[BX]        | 26 FF 27       | 4000:7788=5678                               | IP=5678
JMP FAR 9ABC:5678  | EA 78 56 BC 9A |                                              | CS=9ABC IP=5678
JMP FAR [BX]       | FF 2F          | 2000:7788=5678 2000:778A=9ABC                | CS=9ABC IP=5678
JMP FAR ES:[BX]    | 26 FF 2F       | 4000:7788=5678 4000:778A=9ABC                | CS=9ABC IP=5678
# A call reads its target before it pushes.
CALL +1234         | E8 34 12       | FL=FFD7                                      | SP=00FE 3000:00FE=0103 IP=1337
CALL AX            | FF D0          |                                              | SP=00FE 3000:00FE=0102 IP=1122
CALL SP            | FF D4          |                                              | SP=00FE 3000:00FE=0102 IP=0100
CALL [BP-2]        | FF 56 FE       | BP=0100 3000:00FE=5678                       | SP=00FE 3000:00FE=0103 IP=5678
CALL ES:[BX]       | 26 FF 17       | 4000:7788=5678                               | SP=00FE 3000:00FE=0103 IP=5678
CALL FAR 9ABC:5678 | 9A 78 56 BC 9A |                                              | SP=00FC 3000:00FE=0103 3000:00FC=0105 CS=9ABC IP=5678
CALL FAR [BP-4]    | FF 5E FC       | BP=0100 CS=0200 3000:00FC=5678 3000:00FE=9ABC | SP=00FC 3000:00FE=0200 3000:00FC=0103 CS=9ABC IP=5678
RET                | C3             | 3000:0100=5678                               | SP=0102 IP=5678
RET 0004           | C2 04 00       | 3000:0100=5678                               | SP=0106 IP=5678
RET FF00           | C2 00 FF       | 3000:0100=5678                               | SP=0002 IP=5678
RETF               | CB             | 3000:0100=5678 3000:0102=9ABC                | SP=0104 CS=9ABC IP=5678
RETF 0004          | CA 04 00       | 3000:0100=5678 3000:0102=9ABC                | SP=0108 CS=9ABC IP=5678";

/// MOVS, CMPS, STOS, LODS and SCAS.
const STRINGS: &str = "\
MOVSB     | A4    | 2000:0300=5678                        | SI=0301 DI=0401 4000:0400=78
MOVSW     | A5    | 2000:0300=5678                        | SI=0302 DI=0402 4000:0400=5678
MOVSB     | A4    | FL=FFD7 2000:0300=5678                | SI=02FF DI=03FF 4000:0400=78
MOVSW     | A5    | FL=F402 2000:0300=5678                | SI=02FE DI=03FE 4000:0400=5678
MOVSB     | A4    | SI=FFFF DI=FFFF 2000:FFFF=5A          | SI=0000 DI=0000 4000:FFFF=5A
MOVSB     | A4    | FL=F402 SI=0000 DI=0000 2000:0000=5A  | SI=FFFF DI=FFFF 4000:0000=5A
# An override is that of the source alone.
MOVSB ES: | 26 A4 | 4000:0300=5A                          | SI=0301 DI=0401 4000:0400=5A
MOVSB SS: | 36 A4 | 3000:0300=5A                          | SI=0301 DI=0401 4000:0400=5A
CMPSB     | A6    | 2000:0300=10 4000:0400=44             | SI=0301 DI=0401 FL=F097
CMPSB     | A6    | 2000:0300=1122 4000:0400=3322         | SI=0301 DI=0401 FL=F046
CMPSW     | A7    | 2000:0300=1122 4000:0400=3344         | SI=0302 DI=0402 FL=F097
CMPSW     | A7    | FL=FFD7 2000:0300=3344 4000:0400=3344 | SI=02FE DI=03FE FL=F746
CMPSB ES: | 26 A6 | 4000:0300=10 4000:0400=44             | SI=0301 DI=0401 FL=F097
STOSB     | AA    |                                       | DI=0401 4000:0400=22
STOSW     | AB    |                                       | DI=0402 4000:0400=1122
STOSW     | AB    | FL=FFD7                               | DI=03FE 4000:0400=1122
STOSB SS: | 36 AA |                                       | DI=0401 4000:0400=22
LODSB     | AC    | 2000:0300=5678                        | AX=1178 SI=0301
LODSW     | AD    | 2000:0300=5678                        | AX=5678 SI=0302
LODSW     | AD    | FL=FFD7 2000:0300=5678                | AX=5678 SI=02FE
LODSB ES: | 26 AC | 4000:0300=5A                          | AX=115A SI=0301
SCASB     | AE    | 4000:0400=44                          | DI=0401 FL=F097
SCASB     | AE    | 4000:0400=FF22                        | DI=0401 FL=F046
SCASW     | AF    | 4000:0400=3344                        | DI=0402 FL=F097
SCASW     | AF    | FL=F402 4000:0400=1122                | DI=03FE FL=F446
SCASB SS: | 36 AE | 4000:0400=22                          | DI=0401 FL=F046";

/// The string instructions after a repeat prefix.
const REPEATED: &str = "\
# One repetition; IP stays at the first prefix until CX is 0, or ZF ends a comparison. At 0 nothing is done.
REP MOVSB     | F3 A4    | CX=0002 2000:0300=5678            | CX=0001 SI=0301 DI=0401 4000:0400=78 IP=0100
REP MOVSB     | F3 A4    | CX=0001 2000:0300=5678            | CX=0000 SI=0301 DI=0401 4000:0400=78
REP MOVSB     | F3 A4    | CX=0000 2000:0300=5678            |
REP MOVSW SS: | 36 F3 A5 | CX=0101 3000:0300=5678            | CX=0100 SI=0302 DI=0402 4000:0400=5678 IP=0100
REPNE MOVSB   | F2 A4    | CX=0002 FL=F042 2000:0300=5A      | CX=0001 SI=0301 DI=0401 4000:0400=5A IP=0100
REP STOSB     | F3 AA    | CX=0002                           | CX=0001 DI=0401 4000:0400=22 IP=0100
REPNE STOSB   | F2 AA    | CX=0002 FL=F042                   | CX=0001 DI=0401 4000:0400=22 IP=0100
REP LODSB     | F3 AC    | CX=0002 2000:0300=5A              | CX=0001 AX=115A SI=0301 IP=0100
REPNE LODSB   | F2 AC    | CX=0002 FL=F042 2000:0300=5A      | CX=0001 AX=115A SI=0301 IP=0100
REPE CMPSB    | F3 A6    | CX=0002                           | CX=0001 SI=0301 DI=0401 FL=F046 IP=0100
REPE CMPSB    | F3 A6    | CX=0001                           | CX=0000 SI=0301 DI=0401 FL=F046
REPE CMPSB    | F3 A6    | CX=0002 2000:0300=10 4000:0400=44 | CX=0001 SI=0301 DI=0401 FL=F097
REPE CMPSB    | F3 A6    | CX=0000 FL=FFD7                   |
REPNE CMPSB   | F2 A6    | CX=0002                           | CX=0001 SI=0301 DI=0401 FL=F046
REPNE CMPSB   | F2 A6    | CX=0002 2000:0300=10 4000:0400=44 | CX=0001 SI=0301 DI=0401 FL=F097 IP=0100
REPE SCASB    | F3 AE    | CX=0002 4000:0400=22              | CX=0001 DI=0401 FL=F046 IP=0100
REPE SCASB    | F3 AE    | CX=0002 4000:0400=44              | CX=0001 DI=0401 FL=F097
REPNE SCASB   | F2 AE    | CX=0002 4000:0400=22              | CX=0001 DI=0401 FL=F046
REPNE SCASB   | F2 AE    | CX=0002 4000:0400=44              | CX=0001 DI=0401 FL=F097 IP=0100
REPNE SCASW   | F2 AF    | CX=0001 4000:0400=3344            | CX=0000 DI=0402 FL=F097";

/// CLC, STC, CMC, CLD, STD, CLI and STI.
const FLAGS: &str = "\
CLC | F8 | FL=FFD7 | FL=FFD6
STC | F9 |         | FL=F003
CMC | F5 |         | FL=F003
CMC | F5 | FL=FFD7 | FL=FFD6
CLD | FC | FL=FFD7 | FL=FBD7
STD | FD |         | FL=F402
CLI | FA | FL=FFD7 | FL=FDD7
STI | FB |         | FL=F202";

/// All rows.
pub(crate) const ALL: [&str; 19] = [
    MOVES,
    ADDRESSES,
    WORDS,
    TRANSFERS_OF_DATA,
    NOTHING,
    STACK,
    INTERRUPTS,
    SUMS,
    DIFFERENCES,
    BITWISE,
    SHIFTS,
    PRODUCTS,
    QUOTIENTS,
    ADJUSTMENTS,
    CONDITIONS,
    JUMPS,
    STRINGS,
    REPEATED,
    FLAGS,
];

/// Definitions: dm_cpu Cpu word_of with_word byte_of with_byte segment_of with_segment with_low with_high
/// Definitions: dm_cpu Operands value_of with_operand with_result address_of far_segment_of
/// Definitions: dm_cpu Values width_of value_in read_in written_in accumulator with_accumulator
/// Definitions: dm_exec Moves move_effect moved exchanged pointer_loaded translated byte_extended word_extended
/// Definitions: dm_exec Moves flags_loaded flags_stored port_input
#[test]
fn moves_between_registers_memory_and_values(rt: HostRuntime) -> Result<(), Fail> {
    check(&rt, rt.alloc(), MOVES)
}

/// Definitions: dm_cpu Guest up down at_ip on_cpu with_flags
/// Definitions: dm_cpu EffectiveAddress first_of second_of segment_by own_segment
/// Definitions: dm_cpu Operands base_of offset_of segment_for data_segment value_of with_operand with_result address_of
/// Definitions: dm_cpu Operands far_segment_of
/// Definitions: dm_exec Moves move_effect moved exchanged pointer_loaded translated byte_extended
/// Definitions: dm_exec Moves word_extended flags_loaded flags_stored port_input
#[test]
fn bases_and_overrides_name_the_place(rt: HostRuntime) -> Result<(), Fail> {
    check(&rt, rt.alloc(), ADDRESSES)
}

#[test]
fn word_wraps_at_segment_end(rt: HostRuntime) -> Result<(), Fail> {
    check(&rt, rt.alloc(), WORDS)
}

/// Definitions: dm_ins Spelling word_bytes sign_extended
/// Definitions: dm_cpu Operands value_of with_operand with_result address_of far_segment_of
/// Definitions: dm_exec Moves move_effect moved exchanged pointer_loaded translated byte_extended word_extended
/// Definitions: dm_exec Moves flags_loaded flags_stored port_input
#[test]
fn exchanges_pointers_and_conversions(rt: HostRuntime) -> Result<(), Fail> {
    check(&rt, rt.alloc(), TRANSFERS_OF_DATA)
}

/// Definitions: dm_cpu Guest up down at_ip on_cpu with_flags; dm_exec Effect effect operation_effect next_of HaltKeeps
#[test]
fn instructions_with_no_effect(rt: HostRuntime) -> Result<(), Fail> {
    check(&rt, rt.alloc(), NOTHING)
}

/// Definitions: dm_alu Flags flags_word flags_of bit_is_one; dm_cpu Stack push top popped
/// Definitions: dm_operations Stack stack_effect pushed_value popped_into flags_popped
#[test]
fn stack_grows_down_by_words(rt: HostRuntime) -> Result<(), Fail> {
    check(&rt, rt.alloc(), STACK)
}

/// Definitions: dm_cpu Stack interrupt_return; dm_operations Stack interrupt_effect interrupt through_vector
#[test]
fn interrupts_push_three_words_and_return(rt: HostRuntime) -> Result<(), Fail> {
    check(&rt, rt.alloc(), INTERRUPTS)
}

/// Definitions: dm_alu Width leaves_range; dm_alu Flags after_result even_parity
/// Definitions: dm_alu Sums sum_value flags_after_sum sum_overflows
/// Definitions: dm_cpu Values width_of value_in read_in written_in accumulator with_accumulator
/// Definitions: dm_operations Arithmetic arithmetic sum_into difference_into compared logic_into tested incremented
/// Definitions: dm_operations Arithmetic decremented negated complemented
#[test]
fn sums(rt: HostRuntime) -> Result<(), Fail> {
    check(&rt, rt.alloc(), SUMS)
}

/// Definitions: dm_alu Width leaves_range; dm_alu Sums difference_value flags_after_difference difference_overflows
/// Definitions: dm_operations Arithmetic arithmetic sum_into difference_into compared logic_into tested incremented
/// Definitions: dm_operations Arithmetic decremented negated complemented
#[test]
fn differences(rt: HostRuntime) -> Result<(), Fail> {
    check(&rt, rt.alloc(), DIFFERENCES)
}

/// Definitions: dm_alu Bitwise logic_value flags_after_logic
/// Definitions: dm_operations Arithmetic arithmetic sum_into difference_into compared logic_into tested incremented
/// Definitions: dm_operations Arithmetic decremented negated complemented
#[test]
fn logic_clears_carry_and_keeps_adjust(rt: HostRuntime) -> Result<(), Fail> {
    check(&rt, rt.alloc(), BITWISE)
}

/// Definitions: dm_alu Shifts shift_value after_moves moves one_move to_left to_right flags_after_shift flags_of_move
/// Definitions: dm_alu Shifts overflow_after_shift second_bit differ
/// Definitions: dm_operations Shifts shifted
#[test]
fn shifts_and_rotates(rt: HostRuntime) -> Result<(), Fail> {
    check(&rt, rt.alloc(), SHIFTS)
}

/// Definitions: dm_alu Products product_value twos_complement flags_after_product upper_is_significant
/// Definitions: dm_cpu Values width_of value_in read_in written_in accumulator with_accumulator
/// Definitions: dm_operations Products multiplied divided after_division double_of with_double with_division
#[test]
fn products(rt: HostRuntime) -> Result<(), Fail> {
    check(&rt, rt.alloc(), PRODUCTS)
}

/// Definitions: dm_alu Products quotient_of signed_division signed_double
/// Definitions: dm_operations Products multiplied divided after_division double_of with_double with_division
#[test]
fn quotients_and_division_errors(rt: HostRuntime) -> Result<(), Fail> {
    check(&rt, rt.alloc(), QUOTIENTS)
}

/// Definitions: dm_operations Adjustments adjusted
#[test]
fn adjustments_of_the_accumulator(rt: HostRuntime) -> Result<(), Fail> {
    check(&rt, rt.alloc(), ADJUSTMENTS)
}

/// Definitions: dm_exec Operation operation_of
/// Definitions: dm_exec Jumps jumped_if holds jumped_where jumped target_of looped counted_down goes_back
#[test]
fn conditional_jumps_go_by_their_flags(rt: HostRuntime) -> Result<(), Fail> {
    check(&rt, rt.alloc(), CONDITIONS)
}

/// Definitions: dm_cpu Stack far_returned; dm_exec Jumps transferred far_jumped called far_called returned
#[test]
fn jumps_calls_and_returns(rt: HostRuntime) -> Result<(), Fail> {
    check(&rt, rt.alloc(), JUMPS)
}

/// Definitions: dm_cpu Values width_of value_in read_in written_in accumulator with_accumulator
/// Definitions: dm_exec Strings string_effect once counted ends unlike source destination onward step_of
#[test]
fn strings_go_on_by_their_elements(rt: HostRuntime) -> Result<(), Fail> {
    check(&rt, rt.alloc(), STRINGS)
}

/// Definitions: dm_exec Strings string_effect once counted ends unlike source destination onward step_of
#[test]
fn repeated_strings_count_cx_down(rt: HostRuntime) -> Result<(), Fail> {
    check(&rt, rt.alloc(), REPEATED)
}

/// Definitions: dm_exec Operation operation_of; dm_exec Control flags_changed
#[test]
fn flags_are_changed_one_by_one(rt: HostRuntime) -> Result<(), Fail> {
    check(&rt, rt.alloc(), FLAGS)
}

#[test]
fn each_mnemonic_has_a_row(rt: HostRuntime) -> Result<(), Fail> {
    let mut seen = Vec::new(rt.alloc());
    for rows in ALL {
        note(&mut seen, rows)?;
    }
    same(&rt, "mnemonics", seen.len(), 97);
    Ok(())
}
