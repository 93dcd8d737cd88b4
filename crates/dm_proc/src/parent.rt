//! Processes that wait for a child, and what follows the end of one.

use dm_cpu::{Cpu, Flags};

/// A process that waits for its child: the segment of its program segment prefix, and the registers
/// with which it goes on, those after the call that started the child.
#[derive(Clone, Copy, Debug, PartialEq, Eq)]
pub struct Parent {
    pub segment: u16,
    pub cpu: Cpu,
}

impl Default for Parent {
    fn default() -> Parent {
        Parent {
            segment: 0,
            cpu: Cpu {
                ax: 0,
                cx: 0,
                dx: 0,
                bx: 0,
                sp: 0,
                bp: 0,
                si: 0,
                di: 0,
                es: 0,
                cs: 0,
                ss: 0,
                ds: 0,
                ip: 0,
                flags: Flags::from_word(0),
            },
        }
    }
}

/// What follows the end of a process.
#[derive(Clone, Copy, Debug, PartialEq, Eq)]
pub enum Ending {
    /// Its parent goes on.
    Returned,
    /// It was the first program, which no process waits for.
    Exited,
}
