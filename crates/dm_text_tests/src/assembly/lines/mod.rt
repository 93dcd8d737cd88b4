//! Worked rows of lines of assembly and their statements.

#[cfg(test)]
mod lines;
#[cfg(test)]
mod places;
#[cfg(test)]
mod rows;
