//! What a program that has ended left allocated: handles of expanded and extended memory, windows, upper memory blocks,
//! the high memory area and A20.

mod leaks;

pub use leaks::put_leaks;
