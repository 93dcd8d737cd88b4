//! Effects at the edges of a range: the largest quotients, shifts by a count of 1 in CL, stacks that wrap.
//! Rows worked out by hand from the manual (Intel 8086 Family User's Manual, section 2.7). `rows` says
//! how a row is read, `effects` what the flags word holds.

use crate::rows::check;
use std::test::Fail;

/// IDIV up to the largest quotient of its width.
const LARGEST_QUOTIENTS: &str = "\
IDIV BL | F6 FB | AX=007F BX=7701                              |
IDIV BL | F6 FB | AX=00FF BX=7702                              | AX=017F
IDIV BL | F6 FB | AX=FF81 BX=77FF                              | AX=007F
IDIV BL | F6 FB | AX=FF80 BX=77FF 0000:0000=5678 0000:0002=9ABC | SP=00FA 3000:00FE=F002 3000:00FC=0103 3000:00FA=0102 CS=9ABC IP=5678
IDIV BX | F7 FB | AX=7FFF DX=0000 BX=0001                      | AX=7FFF DX=0000
IDIV BX | F7 FB | AX=FFFF DX=0000 BX=0002                      | AX=7FFF DX=0001
IDIV BX | F7 FB | AX=8000 DX=0000 BX=0001 0000:0000=5678 0000:0002=9ABC | SP=00FA 3000:00FE=F002 3000:00FC=0103 3000:00FA=0102 CS=9ABC IP=5678
IDIV BX | F7 FB | AX=0000 DX=0001 BX=0002 0000:0000=5678 0000:0002=9ABC | SP=00FA 3000:00FE=F002 3000:00FC=0103 3000:00FA=0102 CS=9ABC IP=5678";

/// Shifts and rotates by CL = 1: OF is set as by the forms with 1.
const COUNT_OF_1: &str = "\
ROL AL,CL | D2 C0 | AX=1140 CX=3301 FL=F7D7 | AX=1180 FL=FFD6
ROR AX,CL | D3 C8 | AX=0001 CX=3301         | AX=8000 FL=F803
RCL AL,CL | D2 D0 | AX=1140 CX=3301 FL=F7D7 | AX=1181 FL=FFD6
RCR AL,CL | D2 D8 | AX=1101 CX=3301 FL=F003 | AX=1180 FL=F803
SHL AL,CL | D2 E0 | AX=1140 CX=3301         | AX=1180 FL=F882
SHL AL,CL | D2 E0 | AX=11C0 CX=3301 FL=FFD7 | AX=1180 FL=F793
SHR AX,CL | D3 E8 | AX=8001 CX=3301         | AX=4000 FL=F807
SAR AL,CL | D2 F8 | AX=1181 CX=3301 FL=F802 | AX=11C0 FL=F087";

/// INT, CALL FAR and RETF with a stack that crosses the end of its segment, also within a word.
const STACKS: &str = "\
INT 21             | CD 21          | SP=0000 0000:0084=5678 0000:0086=9ABC | SP=FFFA 3000:FFFE=F002 3000:FFFC=0103 3000:FFFA=0102 CS=9ABC IP=5678
INT 21             | CD 21          | SP=0001 0000:0084=5678 0000:0086=9ABC | SP=FFFB 3000:FFFF=02 3000:0000=F0 3000:FFFD=0103 3000:FFFB=0102 CS=9ABC IP=5678
INT 21             | CD 21          | SP=0003 0000:0084=5678 0000:0086=9ABC | SP=FFFD 3000:0001=F002 3000:FFFF=03 3000:0000=01 3000:FFFD=0102 CS=9ABC IP=5678
CALL FAR 9ABC:5678 | 9A 78 56 BC 9A | SP=0000 | SP=FFFC 3000:FFFE=0103 3000:FFFC=0105 CS=9ABC IP=5678
CALL FAR 9ABC:5678 | 9A 78 56 BC 9A | SP=0001 | SP=FFFD 3000:FFFF=03 3000:0000=01 3000:FFFD=0105 CS=9ABC IP=5678
CALL FAR 9ABC:5678 | 9A 78 56 BC 9A | SP=0003 | SP=FFFF 3000:0001=0103 3000:FFFF=05 3000:0000=01 CS=9ABC IP=5678
RETF               | CB             | SP=FFFC 3000:FFFC=5678 3000:FFFE=9ABC | SP=0000 CS=9ABC IP=5678
RETF               | CB             | SP=FFFD 3000:FFFD=5678 3000:FFFF=BC 3000:0000=9A | SP=0001 CS=9ABC IP=5678
RETF               | CB             | SP=FFFE 3000:FFFE=5678 3000:0000=9ABC | SP=0002 CS=9ABC IP=5678
RETF               | CB             | SP=FFFF 3000:FFFF=78 3000:0000=56 3000:0001=9ABC | SP=0003 CS=9ABC IP=5678
RETF 0004          | CA 04 00       | SP=FFFD 3000:FFFD=5678 3000:FFFF=BC 3000:0000=9A | SP=0005 CS=9ABC IP=5678";

/// Definitions: dm_alu Products quotient_of signed_division signed_double
/// Definitions: dm_operations Products multiplied divided after_division double_of with_double with_division
#[test]
fn largest_quotients(rt: HostRuntime) -> Result<(), Fail> {
    check(&rt, rt.alloc(), LARGEST_QUOTIENTS)
}

/// Definitions: dm_alu Shifts flags_after_shift flags_of_move overflow_after_shift second_bit differ
/// Definitions: dm_operations Shifts shifted
#[test]
fn shifts_by_a_count_of_1_set_overflow(rt: HostRuntime) -> Result<(), Fail> {
    check(&rt, rt.alloc(), COUNT_OF_1)
}

/// Definitions: dm_cpu Stack push top popped
/// Definitions: dm_operations Stack stack_effect pushed_value popped_into flags_popped interrupt_effect interrupt
/// Definitions: dm_operations Stack through_vector
/// Definitions: dm_exec Jumps transferred far_jumped called far_called returned
#[test]
fn stacks_go_over_the_end_of_their_segment(rt: HostRuntime) -> Result<(), Fail> {
    check(&rt, rt.alloc(), STACKS)
}
