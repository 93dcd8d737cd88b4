//! Worked rows of programs in assembly and their bytes.

#[cfg(test)]
mod lines;
#[cfg(test)]
mod listings;
#[cfg(test)]
mod programs;
#[cfg(test)]
mod rows;
#[cfg(test)]
mod table;
