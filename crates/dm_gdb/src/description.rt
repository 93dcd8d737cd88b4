//! The description of the registers that the debugger asks for.

ghost use Rattle.std.specs.Prelude.{◌≡◌, IfOk};
ghost use Rattle.dm_gdb.specs.Description.{description, features_reply};

use crate::replies::Reply;
use dm_requests::packets::Payload;
use std::alloc::{AllocError, Global};

/// The description, in XML.
const DESCRIPTION: &[u8] =
    b"<target version='1.0'><architecture>i8086</architecture><osabi>none</osabi><feature name='org.gnu.gdb.i386.core'><flags id='flags' size='4'><field name='CF' start='0' end='0'/><field name='PF' start='2' end='2'/><field name='AF' start='4' end='4'/><field name='ZF' start='6' end='6'/><field name='SF' start='7' end='7'/><field name='TF' start='8' end='8'/><field name='IF' start='9' end='9'/><field name='DF' start='10' end='10'/><field name='OF' start='11' end='11'/></flags><reg name='eax' bitsize='32' type='int32'/><reg name='ecx' bitsize='32' type='int32'/><reg name='edx' bitsize='32' type='int32'/><reg name='ebx' bitsize='32' type='int32'/><reg name='esp' bitsize='32' type='data_ptr'/><reg name='ebp' bitsize='32' type='int32'/><reg name='esi' bitsize='32' type='int32'/><reg name='edi' bitsize='32' type='int32'/><reg name='eip' bitsize='32' type='code_ptr'/><reg name='eflags' bitsize='32' type='flags'/><reg name='cs' bitsize='32' type='int32'/><reg name='ss' bitsize='32' type='int32'/><reg name='ds' bitsize='32' type='int32'/><reg name='es' bitsize='32' type='int32'/><reg name='fs' bitsize='32' type='int32'/><reg name='gs' bitsize='32' type='int32'/><reg name='st0' bitsize='80' type='i387_ext'/><reg name='st1' bitsize='80' type='i387_ext'/><reg name='st2' bitsize='80' type='i387_ext'/><reg name='st3' bitsize='80' type='i387_ext'/><reg name='st4' bitsize='80' type='i387_ext'/><reg name='st5' bitsize='80' type='i387_ext'/><reg name='st6' bitsize='80' type='i387_ext'/><reg name='st7' bitsize='80' type='i387_ext'/><reg name='fctrl' bitsize='32' type='int'/><reg name='fstat' bitsize='32' type='int'/><reg name='ftag' bitsize='32' type='int'/><reg name='fiseg' bitsize='32' type='int'/><reg name='fioff' bitsize='32' type='int'/><reg name='foseg' bitsize='32' type='int'/><reg name='fooff' bitsize='32' type='int'/><reg name='fop' bitsize='32' type='int'/></feature><feature name='mezguld'><reg name='ip' bitsize='16' type='uint16'/><reg name='sp' bitsize='16' type='uint16'/><reg name='steps' bitsize='64' type='uint64'/></feature></target>";

/// The description, in XML.
fn description() -> &'static [u8]
    ensures { result.now ≡ description }
{
    DESCRIPTION
}

/// The part of the description from an offset on, of at most `count` bytes, and whether it is the last. An `Err` is a
/// failed allocation.
pub(crate) fn features_reply(alloc: Global, offset: u32, count: u32) -> Result<Reply, AllocError>
    ensures { IfOk result (λ r. r ≡ features_reply offset count) }
{
    let whole = description();
    let behind = &whole[(offset as usize).min(whole.len())..];
    let part = &behind[..(count as usize).min(behind.len())];
    let bytes = Payload::new(Vec::from_slice(alloc, part)?);
    if (offset as usize + count as usize) < whole.len() {
        Ok(Reply::Part(bytes))
    } else {
        Ok(Reply::Rest(bytes))
    }
}
