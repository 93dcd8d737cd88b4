//! Lines and their commands, written by hand; some command letters are those of DEBUG (MS-DOS User's Reference,
//! "DEBUG"). `rows` says how a row is read.

use crate::rows::{check, check_line};
use std::test::Fail;

/// Each command, in either case.
const COMMANDS: &str = "\
R| Registers
r| Registers
M| Arena
m| Arena
P| Pages
p| Pages
X| Extended
x| Extended
O| Output
o| Output
BL| Breakpoints
bl| Breakpoints
Bl| Breakpoints
bL| Breakpoints
B 0103:0105| Break 0103:0105
b 103:105| Break 0103:0105
BC 0103:0105| Clear 0103:0105
bC f000:84| Clear F000:0084
U 0103:0100| Unassemble 0103:0100 8
u 0103:0100 3| Unassemble 0103:0100 3
D 0103:010C| Dump 0103:010C 128
d 0103:010c 3| Dump 0103:010C 3
G| Go 16777215
g 7| Go 7
T| Trace 1
t 2| Trace 2
E 0103:0100 F4| Enter 0103:0100 F4
e 103:100 b409Ba0c01cD21| Enter 0103:0100 B409BA0C01CD21";

/// Words and spaces.
const SPACES: &str = "\
 R | Registers
   g   7   | Go 7
  D  103:0   8  | Dump 0103:0000 8
| none
 | none
    | none
R R| none
R  1| none
M 1| none
P 1| none
X 1| none
O 1| none
BL 1| none
B| none
B 1:2 3| none
BC| none
BC 1:2 3| none
U| none
U 1:2 3 4| none
D| none
D 1:2 3 4| none
G 1 2| none
T 1 2| none
E| none
E 1:2| none
E 1:2 00 00| none
B C 1:2| none
B L| none
G7| none
D103:0| none
Q| none
RR| none
LB| none
BD| none
CL| none
B C| none
GO| none
BCL| none
BBC 1:2| none
?| none
U1| none
1| none
R.| none
é| none";

/// Numbers: one to eight digits, in either case.
const NUMBERS: &str = "\
G 0| Go 0
G 00000000| Go 0
G 10| Go 16
G ffffffff| Go 4294967295
G FFFFFFFF| Go 4294967295
G 12345678| Go 305419896
G 9aBcDeF| Go 162254319
G 000000000| none
G 100000000| none
G g| none
G 1h| none
G -1| none
G +1| none
G 0x1| none
G 1:2| none
G /| none
G @| none
G `| none
G G| none
T 0| Trace 0
T 1000| Trace 4096
T 00001000| Trace 4096
T 1001| none
T FFFFFFFF| none
T 1000000000| none
U 1:2 0| Unassemble 0001:0002 0
U 1:2 1000| Unassemble 0001:0002 4096
U 1:2 1001| none
U 1:2 :| none
D 1:2 0| Dump 0001:0002 0
D 1:2 10000| Dump 0001:0002 65536
D 1:2 10001| none";

/// Segments and offsets: at most FFFFh each.
const ADDRESSES: &str = "\
B 0:0| Break 0000:0000
B FFFF:FFFF| Break FFFF:FFFF
B ffff:0010| Break FFFF:0010
B 0000FFFF:00000001| Break FFFF:0001
B 10000:0| none
B 0:10000| none
B 000000000:0| none
B 0:000000000| none
B 0| none
B 0:| none
B :0| none
B :| none
B 0:0:| none
B 0:0:0| none
B ::0| none
B 0 :0| none
B 0: 0| none
B g:0| none
B 0:g| none
BC 10000:0| none
U 10000:0| none
U 0:10000 1| none
D 10000:0 1| none
D 0:10000| none
E 10000:0 00| none
E 0:10000 00| none";

/// Bytes: pairs of digits.
const BYTES: &str = "\
E 0:0 00| Enter 0000:0000 00
E 0:0 ff| Enter 0000:0000 FF
E 0:0 0123456789abcdefABCDEF| Enter 0000:0000 0123456789ABCDEFABCDEF
E 0:0 0| none
E 0:0 000| none
E 0:0 0g| none
E 0:0 g0| none
E 0:0 0000000g| none
E 0:0 00,00| none
E 0:0 0x| none
E 0:0 'hi'| none";

/// Definitions: dm_requests commands.Commands command_of of_words command_named alone with_one with_two at_address
/// Definitions: dm_requests commands.Names command_word letter_name pair_name uppercase
#[test]
fn each_command_has_its_letters(rt: HostRuntime) -> Result<(), Fail> {
    check(&rt, rt.alloc(), COMMANDS)
}

/// Definitions: dm_requests commands.Commands command_of of_words command_named alone with_one with_two at_address
/// Definitions: dm_requests commands.Names command_word letter_name pair_name uppercase
/// Definitions: dm_requests commands.Words words_of words_behind ended
#[test]
fn spaces_part_words(rt: HostRuntime) -> Result<(), Fail> {
    check(&rt, rt.alloc(), SPACES)
}

/// Definitions: dm_requests commands.Commands alone with_one with_two at_address
/// Definitions: dm_requests commands.Numbers hexadecimal_number digits_of up_to word_from_digits
#[test]
fn numbers_are_hexadecimal(rt: HostRuntime) -> Result<(), Fail> {
    check(&rt, rt.alloc(), NUMBERS)
}

/// Definitions: dm_requests commands.Numbers hexadecimal_number digits_of up_to word_from_digits logical_address parts_of
#[test]
fn addresses_are_two_words(rt: HostRuntime) -> Result<(), Fail> {
    check(&rt, rt.alloc(), ADDRESSES)
}

/// Definitions: dm_requests commands.Numbers bytes_from_digits if_good
#[test]
fn bytes_are_pairs_of_digits(rt: HostRuntime) -> Result<(), Fail> {
    check(&rt, rt.alloc(), BYTES)
}

/// 64 bytes and one more, and a digit more.
/// Definitions: dm_requests commands.Numbers bytes_from_digits if_good
#[test]
fn at_most_64_bytes_are_typed(rt: HostRuntime) -> Result<(), Fail> {
    let mut line = Vec::new(rt.alloc());
    line.extend_from_slice(b"E 1:2 ")?;
    let mut wanted = String::new(rt.alloc());
    wanted.push_str("Enter 0001:0002 ")?;
    for _ in 0..64 {
        line.extend_from_slice(b"a5")?;
        wanted.push_str("A5")?;
    }
    check_line(
        &rt,
        rt.alloc(),
        "64 bytes",
        line.as_slice(),
        wanted.as_str(),
    )?;
    line.push(b'a')?;
    check_line(&rt, rt.alloc(), "129 digits", line.as_slice(), "none")?;
    line.push(b'5')?;
    check_line(&rt, rt.alloc(), "65 bytes", line.as_slice(), "none")
}

/// A tab, a line end and a zero are not spaces.
/// Definitions: dm_requests commands.Words words_of words_behind ended
#[test]
fn other_bytes_part_no_words(rt: HostRuntime) -> Result<(), Fail> {
    for line in [
        b"G\t7", b"\tR ", b"R\t ", b"R\x0D ", b"R\x0A ", b"R\x00 ", b"\xFFR ", b"R\xA0 ",
    ] {
        check_line(&rt, rt.alloc(), "a byte that is no space", line, "none")?;
    }
    Ok(())
}
