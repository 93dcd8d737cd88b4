//! The calls of the library on a host, with what C passes and gets: statuses, records and buffers. The exports make
//! them on the machine of a handle.

mod events;
mod lists;
mod machines;
mod values;

pub use events::Awaited;
pub use lists::{
    ListEnd, blocks, extended_blocks, finding_counts, finding_line, findings, high_memory,
    page_handles, read_block, read_page, upper_blocks, windows,
};
pub use machines::{
    add_program, check, close_input, command, input_left, load, open_input, output, output_count,
    read, read_linear, registers, run, run_to, run_until, set_registers, steps, supply, write,
    write_linear,
};
pub use values::{
    IN_USE, NO_MACHINE, OK, OUT_OF_MEMORY, Point, Registers, Stopped, TOO_LONG, give_items,
    status_of,
};
