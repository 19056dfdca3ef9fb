//! Tests for what rows (`hound_rows`) can't do: allocations that fail, blocks of a source whose calls fail, the words
//! that clauses import, the program, and the examples of the documentation, over the public items of `hound` and of the
//! program alone; and those of the layers below, in `layers`.
#![tactic(auto)]

#[cfg(test)]
mod answers;
#[cfg(test)]
mod causes;
#[cfg(test)]
mod documented;
#[cfg(test)]
mod layers;
#[cfg(test)]
mod lent;
#[cfg(test)]
mod memory;
#[cfg(test)]
mod passes;
#[cfg(test)]
mod program;
#[cfg(test)]
mod words;
