//! Operations on operands: arithmetic, bit manipulation, the stack and interrupts. Each stands once, over any width and
//! any places where it has them. Which instruction does which of them, `dm_exec` says.
#![tactic(auto)]

pub mod adjustments;
pub mod arithmetic;
mod bits;
mod low;
mod numbers;
mod outside;
mod pairs;
pub mod products;
pub mod shifts;
mod shown;
mod shown_shifts;
pub mod stack;

pub use adjustments::adjust_accumulator;
pub use arithmetic::ArithmeticOperation;
pub use low::{
    change_byte, change_low_word, change_page_word, change_word, divide_by_low, on_pair_at_once,
    on_place_at_once, shift_low_byte, shift_low_word, shown_byte, shown_word,
};
pub use numbers::Number;
pub use pairs::{
    Addition, AdditionWithCarry, Changing, Combining, Comparison, Complement, Decrement, Dividing,
    Increment, Joining, Multiplication, Negation, OperandPair, OperandPlace, PairOperation,
    PlaceOperation, PortInput, Shifting, ShiftingOnce, Subtraction, SubtractionWithBorrow, Testing,
    on_place,
};
pub use shifts::{
    ArithmeticShift, LeftRotation, LeftRotationThroughCarry, LeftShift, RightRotation,
    RightRotationThroughCarry, RightShift, ShiftOrRotate, shift_left_once, shift_low_byte_once,
    shift_low_word_once, shift_right_once,
};
pub use shown::{interrupt_shown, pop_return_shown, push_return_shown, return_shown, shown_bytes};
pub use shown_shifts::{shift_shown_byte, shift_shown_word};
pub use stack::{
    InterruptOperation, StackOperation, execute_interrupt, interrupt, interrupt_low, pop_flags,
    pop_to, push_flags, push_register, return_low,
};
